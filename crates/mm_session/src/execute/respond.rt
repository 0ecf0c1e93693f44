//! The answer to one request: a line, and the block behind it.

use super::Executor;
use crate::answer::Answer;
use crate::stream::lines::Judged;

impl Executor {
    ghost use Rattle.std.specs.Prelude.{◌≡◌, ℕ, List, IfOk, IfErr, OnErr, ◌<◌};
    ghost use Rattle.plain_streams.specs.Requests.{Asks};
    ghost use Rattle.plain_streams.specs.Runs.{Answers, HasBlock};
    ghost use Rattle.mm_catalog.specs.Seen.{database_of};
    ghost use Rattle.mm_transactions.specs.State.{saved_of};
    ghost use Rattle.mm_session.specs.Judging.{IsJudged, AnswersIn};

    /// Answers a line that has ended, and the block behind it. A silent line has the empty answer.
    pub fn respond(&mut self, line: &Judged<'_>, block: &[u8], answer: &mut Answer)
        ensures answers { (bytes : List ℕ) → IsJudged bytes line.now → HasBlock self.old.tables.catalog.limits (record { line = bytes; block = block.now })
            → Answers self.old.tables.catalog.limits (database_of self.old.tables.catalog) (record { line = bytes; block = block.now }) answer.new (database_of self.new.tables.catalog) }
        ensures limits { self.new.tables.catalog.limits ≡ self.old.tables.catalog.limits }
        ensures saved { saved_of self.new.tables ≡ saved_of self.old.tables }
    {
        let reading = self.reading();
        let Err(change) = reading.respond(self.tables.catalog(), line, block, answer) else {
            return;
        };
        if let Err(refusal) = self.perform(change, answer) {
            answer.refuse(refusal);
        }
    }

    /// Answers a line that has ended, and the block that it asks for, where the bytes begin with that and it is within the
    /// limit; and gives the bytes behind it. Else it does nothing, and gives the length of the block.
    pub fn respond_in<'a>(
        &mut self,
        line: &Judged<'_>,
        bytes: &'a [u8],
        answer: &mut Answer,
    ) -> Result<&'a [u8], u64>
        ensures answered { IfOk result (λ others. AnswersIn self.old.tables.catalog.limits (database_of self.old.tables.catalog) line.now bytes.now others.now answer.new (database_of self.new.tables.catalog)) }
        ensures asks { IfErr result (λ n. (0 < n) × ((l : List ℕ) → IsJudged l line.now → Asks l n)) }
        ensures unchanged { OnErr result (self.new ≡ self.old) }
        ensures limits { self.new.tables.catalog.limits ≡ self.old.tables.catalog.limits }
        ensures saved { saved_of self.new.tables ≡ saved_of self.old.tables }
    {
        let Some(length) = line.asked() else {
            self.respond(line, &[], answer);
            return Ok(bytes);
        };
        if length > self.block_limit().min(bytes.len() as u64) {
            return Err(length);
        }
        let (block, others) = bytes.split_at(length as usize);
        self.respond(line, block, answer);
        Ok(others)
    }
}
