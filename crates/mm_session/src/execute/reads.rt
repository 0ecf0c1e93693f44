//! The answer to one request that only reads: a line, and the block behind it. What would change tables is handed back.

ghost use Rattle.std.specs.Prelude.{◌≡◌};
ghost use Rattle.mm_session.specs.Reads.{changes as changes_tables};

use super::ReadExecutor;
use crate::answer::Answer;
use crate::stream::lines::Judged;
use mm_catalog::Catalog;
use mm_lang::{Line, parse};
use plain_tables::{Refusal, Resolved};

const LINE_TOO_LONG: &[u8] = b"error 10 line too long\n";

const NOT_UTF8: &[u8] = b"error 11 not UTF-8\n";

// Whether a resolved command would change tables.
fn changes(command: &Resolved) -> bool
    ensures { result ≡ changes_tables command.now }
{
    !matches!(
        command,
        Resolved::Select(_) | Resolved::Dump { .. } | Resolved::Tables
    )
}

impl ReadExecutor {
    ghost use Rattle.std.specs.Prelude.{◌≡◌, ℕ, List, IfOk, IfErr, IsTrue, OnOk, OnErr, false};
    ghost use Rattle.plain_tables.specs.Doing.{done};
    ghost use Rattle.plain_tables.specs.ResolvedLaws.{IsMeant};
    ghost use Rattle.mm_csv.specs.BlockReading.{block_records};
    ghost use Rattle.plain_streams.specs.Runs.{Answers, HasBlock};
    ghost use Rattle.mm_catalog.specs.Changes.{IsDeclinedFor};
    ghost use Rattle.mm_catalog.specs.Seen.{database_of};
    ghost use Rattle.mm_session.specs.Answered.{Declines};
    ghost use Rattle.mm_session.specs.Judging.{IsJudged};
    ghost use Rattle.mm_session.specs.Performed.{HasPerformed};
    ghost use Rattle.mm_session.specs.Reads.{IsTold, Means, MeansBy};

    // What a line spells, with the block behind it, means of the tables.
    fn meaning(&self, catalog: &Catalog, line: &Line<'_>, block: &[u8]) -> Result<Resolved, Refusal>
        ensures spelled { IfOk result (MeansBy (block_records block.now) (database_of catalog.now) line.now) }
        ensures meant { IfOk result (IsMeant catalog.now.limits (database_of catalog.now)) }
        ensures refused { IfErr result (Declines (block_records block.now) catalog.now.limits (database_of catalog.now) line.now) }
    {
        let command = parse(self.alloc, line)?;
        catalog.resolve(command, block)
    }

    // Makes what a resolved command shows the answer. After a refusal the answer is of no use.
    fn show(
        &self,
        catalog: &Catalog,
        command: &Resolved,
        answer: &mut Answer,
    ) -> Result<(), Refusal>
        requires meant { IsMeant catalog.now.limits (database_of catalog.now) command.now }
        requires reads { changes_tables command.now ≡ false }
        ensures done { OnOk result (HasPerformed catalog.now catalog.now (done catalog.now.limits (database_of catalog.now) command.now) answer.new) }
        ensures refused { IfErr result (IsDeclinedFor catalog.now catalog.now (done catalog.now.limits (database_of catalog.now) command.now)) }
    {
        answer.clear();
        match command {
            Resolved::Select(query) => self.select(catalog, query, answer)?,
            Resolved::Dump { table } => self.dump(catalog, *table, answer)?,
            Resolved::Tables => self.list_tables(catalog, answer)?,
            _ => unreachable!(),
        }
        Ok(())
    }

    // Reads a line as a command, and makes what it shows the answer, or why it is refused. One that would change tables is handed
    // back, resolved, and the answer is as before.
    fn tell(
        &self,
        catalog: &Catalog,
        line: &Line<'_>,
        block: &[u8],
        answer: &mut Answer,
    ) -> Result<(), Resolved>
        ensures told { OnOk result (IsTold (block_records block.now) catalog.now.limits (database_of catalog.now) line.now answer.new) }
        ensures spelled { IfErr result (MeansBy (block_records block.now) (database_of catalog.now) line.now) }
        ensures meant { IfErr result (IsMeant catalog.now.limits (database_of catalog.now)) }
        ensures changes { IfErr result (λ r. IsTrue (changes_tables r)) }
        ensures unchanged { OnErr result (answer.new ≡ answer.old) }
    {
        let command = match self.meaning(catalog, line, block) {
            Ok(command) => command,
            Err(refusal) => {
                answer.refuse(refusal);
                return Ok(());
            }
        };
        if changes(&command) {
            return Err(command);
        }
        if let Err(refusal) = self.show(catalog, &command, answer) {
            answer.refuse(refusal);
        }
        Ok(())
    }

    /// Answers a line that has ended, and the block behind it. A silent line has the empty answer. A command that would change tables
    /// is handed back, resolved, and the answer is as before.
    pub fn respond(
        &self,
        catalog: &Catalog,
        line: &Judged<'_>,
        block: &[u8],
        answer: &mut Answer,
    ) -> Result<(), Resolved>
        ensures answers { OnOk result ((bytes : List ℕ) → IsJudged bytes line.now → HasBlock catalog.now.limits (record { line = bytes; block = block.now })
            → Answers catalog.now.limits (database_of catalog.now) (record { line = bytes; block = block.now }) answer.new (database_of catalog.now)) }
        ensures means { IfErr result (λ r. (bytes : List ℕ) → IsJudged bytes line.now → Means (database_of catalog.now) (record { line = bytes; block = block.now }) r) }
        ensures meant { IfErr result (IsMeant catalog.now.limits (database_of catalog.now)) }
        ensures changes { IfErr result (λ r. IsTrue (changes_tables r)) }
        ensures unchanged { OnErr result (answer.new ≡ answer.old) }
    {
        match line {
            Judged::TooLong => answer.set(LINE_TOO_LONG),
            Judged::NotUtf8 => answer.set(NOT_UTF8),
            Judged::Silent => answer.clear(),
            Judged::Text(text) => self.tell(catalog, text, block, answer)?,
        }
        Ok(())
    }
}
