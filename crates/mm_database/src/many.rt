//! A statement with many rows of values.

ghost use Rattle.std.specs.Prelude.{◌≡◌, Err, IfOk, OnErr};
ghost use Rattle.std.specs.List.{All};
ghost use Rattle.mm_database.specs.declared.many.UnexecutedMany.TheVariants as unexecuted;

use crate::database::OpenDatabase;
use crate::given::{Unread, rows_of};
use mm_cells::ResultCell;
use mm_statements::ExecuteFault;
use plain_tables::Refusal;
use std::alloc::Global;

/// Why a statement did nothing with many rows of values. Where it was refused, the answer tells why.
#[derive(Clone, Copy)]
pub enum UnexecutedMany {
    NoSuchStatement,
    /// The cells are no rows of its values.
    NotRows,
    NotUtf8,
    Refused,
    /// The rows that it would change have no number of 64 bits.
    TooMany,
    /// Another handle shares the tables.
    Shared,
}

impl OpenDatabase {
    ghost use Rattle.mm_database.specs.Given.{IsWritten};
    ghost use Rattle.mm_database.specs.Many.{AreNoRowsFor, ExecutesMany, IsRefusedMany, KeepsAllTables, StaysBeside};
    ghost use Rattle.mm_database.specs.Sharing.{IsShared};
    ghost use Rattle.mm_database.specs.StatementCalls.{IsMissing};

    /// Does what a statement does with each of the rows of values that cells are, all of them or none, and tells how many rows of tables were
    /// changed; the answer is empty then. Where it is refused, that is the answer. A number that names no statement leaves all as it was, and
    /// so do cells that are no rows.
    pub fn execute_many(
        &mut self,
        alloc: Global,
        number: u32,
        cells: &[ResultCell],
        texts: &[u8],
    ) -> Result<u64, UnexecutedMany>
        ensures done { IfOk result (ExecutesMany number texts.now cells.now self.old self.new) }
        ensures missing { IsMissing number self.old → result ≡ Err unexecuted.NoSuchStatement }
        ensures none { result ≡ Err unexecuted.NoSuchStatement → IsMissing number self.old × (self.new ≡ self.old) }
        ensures not_rows { result ≡ Err unexecuted.NotRows → AreNoRowsFor number texts.now cells.now self.old × (self.new ≡ self.old) }
        ensures not_utf8 { result ≡ Err unexecuted.NotUtf8 → ¬ (All (IsWritten texts.now) cells.now) × (self.new ≡ self.old) }
        ensures refused { result ≡ Err unexecuted.Refused → IsRefusedMany number texts.now cells.now self.old self.new }
        ensures shared { result ≡ Err unexecuted.Shared → IsShared self.old }
        ensures unchanged { OnErr result (KeepsAllTables self.old self.new) }
        ensures stays { StaysBeside self.old self.new }
    {
        let number = number as usize;
        let Some(kept) = self.inner.statement(number) else {
            return Err(UnexecutedMany::NoSuchStatement);
        };
        let places = kept.values.len();
        let rows = match rows_of(alloc, cells, texts, places) {
            Ok(rows) => rows,
            Err(Unread::NotRows) => return Err(UnexecutedMany::NotRows),
            Err(Unread::NotUtf8) => return Err(UnexecutedMany::NotUtf8),
            Err(Unread::NoMemory) => {
                self.answer.refuse(Refusal::NoMemory);
                return Err(UnexecutedMany::Refused);
            }
        };
        self.answer.clear();
        match self.inner.execute_many(number, rows) {
            Ok(count) => Ok(count as u64),
            Err(ExecuteFault::NoSuchStatement) => Err(UnexecutedMany::NoSuchStatement),
            Err(ExecuteFault::Refused(why)) => {
                self.answer.refuse(why);
                Err(UnexecutedMany::Refused)
            }
            Err(ExecuteFault::TooLong) => Err(UnexecutedMany::TooMany),
            Err(ExecuteFault::Shared) => Err(UnexecutedMany::Shared),
            // A change is never cut.
            Err(ExecuteFault::Interrupted) => unreachable!(),
        }
    }
}
