//! What commands do to the tables of a catalog, and what they answer.

mod batched;
mod blocks;
mod cells;
mod changing;
mod columns;
mod counted;
mod emptied;
mod first;
mod found;
mod indexes;
mod listing;
mod only_row;
mod pages;
mod planned;
mod query;
mod reads;
mod respond;
mod rows;
mod saved_rows;
pub mod saving;
mod scanned;
pub mod search;
mod select;
mod sink;
pub mod told;
mod versions;

use crate::answer::Answer;
use mm_catalog::Catalog;
use mm_transactions::TransactionalCatalog;
use plain_tables::{Refusal, Resolved, TableNumber};
use plan_chooser::Policy;
use std::alloc::Global;

// The answer to a declaration.
const OK: &[u8] = b"ok\n";

/// What carries commands out: the tables with their transactions, and how plans are picked.
#[derive(Drop)]
pub struct Executor {
    pub alloc: Global,
    policy: Policy,
    pub tables: TransactionalCatalog,
}

/// What carries out the commands that only read a catalog: how plans are picked.
#[derive(Clone, Copy)]
pub struct ReadExecutor {
    alloc: Global,
    policy: Policy,
}

impl Executor {
    ghost use Rattle.std.specs.Prelude.{◌≡◌, [], OnOk, IfErr, IsTrue};
    ghost use Rattle.plain_tables.specs.Doing.{done};
    ghost use Rattle.plain_tables.specs.ResolvedLaws.{IsMeant};
    ghost use Rattle.mm_catalog.specs.Seen.{database_of};
    ghost use Rattle.mm_catalog.specs.Changes.{IsDeclinedFor};
    ghost use Rattle.mm_transactions.specs.State.{saved_of};
    ghost use Rattle.mm_session.specs.Performed.{HasPerformed};
    ghost use Rattle.mm_session.specs.Reads.{changes};

    /// An executor over the tables of a catalog.
    pub fn new(alloc: Global, policy: Policy, catalog: Catalog) -> Executor
        ensures tables { result.tables.catalog ≡ catalog }
        ensures none { saved_of result.tables ≡ [] }
    {
        Executor {
            alloc,
            policy,
            tables: TransactionalCatalog::over(alloc, catalog),
        }
    }

    /// What carries out the commands that only read, by the same policy.
    pub fn reading(&self) -> ReadExecutor {
        ReadExecutor {
            alloc: self.alloc,
            policy: self.policy,
        }
    }

    /// The greatest number of bytes that a block may have.
    pub fn block_limit(&self) -> u64
        ensures { result ≡ self.now.tables.catalog.limits.block }
    {
        u64::from(self.tables.catalog().limits().block)
    }

    // Does a resolved command that changes tables, and makes its answer. That is told once it is done, which takes no memory. After a
    // refusal the tables are as before, and the answer is of no use.
    fn perform(&mut self, command: Resolved, answer: &mut Answer) -> Result<(), Refusal>
        requires meant { IsMeant self.old.tables.catalog.limits (database_of self.old.tables.catalog) command }
        requires changes { IsTrue (changes command) }
        ensures done { OnOk result (HasPerformed self.old.tables.catalog self.new.tables.catalog (done self.old.tables.catalog.limits (database_of self.old.tables.catalog) command) answer.new) }
        ensures refused { IfErr result (IsDeclinedFor self.old.tables.catalog self.new.tables.catalog (done self.old.tables.catalog.limits (database_of self.old.tables.catalog) command)) }
        ensures saved { saved_of self.new.tables ≡ saved_of self.old.tables }
    {
        match command {
            Resolved::Table { name, schema } => {
                let last = TableNumber(self.tables.catalog().table_count());
                self.tables.create(name, schema)?;
                self.tables.note_change(last);
                answer.set(OK);
            }
            Resolved::DropTable { table } => {
                let behind = TableNumber(self.tables.catalog().table_count());
                self.tables.drop_table(table)?;
                self.tables.note_change(behind);
                answer.set(OK);
            }
            Resolved::Index {
                table,
                column,
                kind,
            } => {
                self.tables.add_index(table, column, kind)?;
                answer.set(OK);
            }
            Resolved::DropIndex {
                table,
                column,
                kind,
            } => {
                self.tables.drop_index(table, column, kind)?;
                answer.set(OK);
            }
            Resolved::Load { table, rows } => {
                let count = rows.len();
                self.load(table, rows)?;
                answer.tell_changed(count);
            }
            other => {
                let count = self.change(&other)?;
                answer.tell_changed(count);
            }
        }
        Ok(())
    }
}
