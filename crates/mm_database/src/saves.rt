//! A dump of a whole database, piece by piece.

ghost use Rattle.std.specs.Prelude.{◌≡◌, ◌≢◌, Err, IsErrOf, OnErr, OnOk, []};
ghost use Rattle.plain_tables.specs.AnswerText.{refusal_text};
ghost use Rattle.plain_tables.specs.declared.refusal.Refusal.TheVariants.{DumpTooLong, NotACommand};
ghost use Rattle.mm_session.specs.declared.saving.SaveFault.TheVariants as fault;
ghost use Rattle.mm_database.specs.Planning.{OnlyAnswers};
ghost use Rattle.mm_database.specs.Saving.{IsUnsaved, MakesPiece, place_of};
ghost use Rattle.mm_database.specs.declared.saves.Unsaved.TheVariants as unsaved;

use crate::database::OpenDatabase;
use mm_relation::TupleRef;
use mm_session::{SaveFault, SavePlace};
use plain_tables::{Refusal, TableNumber};

// The parts of a dump.
const DECLARATIONS: u32 = 0;

const FIRST_ROWS: u32 = 1;

const MORE_ROWS: u32 = 2;

const INDEXES: u32 = 3;

const LAST_LINE: u32 = 4;

const OVER: u32 = 5;

/// Where a save goes on, as C keeps it: the number of the newest change when it began, and the part of the dump, with its table and the
/// last row before it where it has them.
#[repr(C)]
#[derive(Clone, Copy)]
pub struct SaveMark {
    pub version: u64,
    pub table: usize,
    pub part: u32,
    pub row: u32,
}

/// Why no piece was made. Where it was refused, the answer tells why.
#[derive(Clone, Copy)]
pub enum Unsaved {
    /// The tables are others than when the save began.
    Changed,
    Refused,
    NoMemory,
}

impl SaveMark {
    // The place that the mark stands for: none behind the last piece.
    fn place(&self) -> Option<SavePlace>
        ensures { result ≡ place_of self.now }
    {
        let table = TableNumber(self.table);
        match self.part {
            DECLARATIONS => Some(SavePlace::Declarations),
            FIRST_ROWS => Some(SavePlace::Rows { table, after: None }),
            MORE_ROWS => Some(SavePlace::Rows {
                table,
                after: Some(TupleRef { number: self.row }),
            }),
            INDEXES => Some(SavePlace::Indexes { table }),
            LAST_LINE => Some(SavePlace::End),
            _ => None,
        }
    }

    // The mark of a place, in a save that began with this number of the newest change.
    fn of(version: u64, place: Option<SavePlace>) -> SaveMark
        ensures { place_of result ≡ place }
    {
        let (part, table, row) = match place {
            Some(SavePlace::Declarations) => (DECLARATIONS, 0, 0),
            Some(SavePlace::Rows { table, after: None }) => (FIRST_ROWS, table.0, 0),
            Some(
                SavePlace::Rows {
                    table,
                    after: Some(row),
                },
            ) => (MORE_ROWS, table.0, row.number),
            Some(SavePlace::Indexes { table }) => (INDEXES, table.0, 0),
            Some(SavePlace::End) => (LAST_LINE, 0, 0),
            None => (OVER, 0, 0),
        };
        SaveMark {
            version,
            table,
            part,
            row,
        }
    }
}

impl OpenDatabase {
    // No piece was made for this reason, of which the answer tells where it is a refusal.
    fn decline_piece(&mut self, why: SaveFault) -> Unsaved
        ensures kept { OnlyAnswers self.old self.new }
        ensures too_long { why ≡ fault.RowTooLong → (result ≡ unsaved.Refused) × (self.new.answer ≡ refusal_text DumpTooLong) }
        ensures unspellable { why ≡ fault.Unspellable → (result ≡ unsaved.Refused) × (self.new.answer ≡ refusal_text NotACommand) }
        ensures others { why ≢ fault.RowTooLong → why ≢ fault.Unspellable → (result ≢ unsaved.Refused) × (self.new.answer ≡ []) }
    {
        self.answer.clear();
        match why {
            SaveFault::RowTooLong => {
                self.answer.refuse(Refusal::DumpTooLong);
                Unsaved::Refused
            }
            SaveFault::Unspellable => {
                self.answer.refuse(Refusal::NotACommand);
                Unsaved::Refused
            }
            SaveFault::NoSuchPlace => Unsaved::Changed,
            SaveFault::NoMemory(_) => Unsaved::NoMemory,
        }
    }

    /// Makes the answer the piece of a dump at a mark, which goes on to the next. Where there is none, the mark stays.
    pub fn save(&mut self, mark: &mut SaveMark) -> Result<(), Unsaved>
        ensures done { OnOk result (MakesPiece mark.old mark.new self.old self.new) }
        ensures refused { IsErrOf result unsaved.Refused → IsUnsaved mark.old self.old self.new }
        ensures silent { OnErr result (result ≢ Err unsaved.Refused → self.new.answer ≡ []) }
        ensures kept { OnlyAnswers self.old self.new }
        ensures stays { OnErr result (mark.new ≡ mark.old) }
    {
        self.answer.clear();
        let Some(place) = mark.place() else {
            return Ok(());
        };
        let version = match self.inner.session().version(&[]) {
            Ok(version) => version,
            // Of all tables there is one.
            Err(_) => unreachable!(),
        };
        if mark.part != DECLARATIONS && mark.version != version {
            return Err(Unsaved::Changed);
        }
        match self.inner.session().save(place, &mut self.answer) {
            Ok(next) => {
                *mark = SaveMark::of(version, next);
                Ok(())
            }
            Err(why) => Err(self.decline_piece(why)),
        }
    }
}
