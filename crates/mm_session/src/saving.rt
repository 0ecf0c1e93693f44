//! A dump of a whole database, one piece at a call: where it goes on, and why a piece is not made.

ghost use Rattle.std.specs.Prelude.{IfErr, IfOk, OnOk};
ghost use Rattle.mm_session.specs.Saving.{IsDeclined, IsPiece, IsPlace};

use crate::answer::Answer;
use crate::execute::saving::save;
use crate::session::Session;
use mm_relation::TupleRef;
use no_memory::NoMemory;
use plain_tables::TableNumber;
use thiserror::Error;

/// Where a save goes on. It may be any: what isn't there has no piece.
#[derive(Clone, Copy)]
pub enum SavePlace {
    /// At the first line, and the declarations of all tables.
    Declarations,
    /// At the rows of a table: the first, or those whose keys are above that of this row.
    Rows {
        table: TableNumber,
        after: Option<TupleRef>,
    },
    /// At the declarations of a table's indexes.
    Indexes {
        table: TableNumber,
    },
    /// At the last line.
    End,
}

/// Why a piece of a dump is not made.
#[derive(Clone, Copy, Debug, PartialEq, Eq, Error)]
pub enum SaveFault {
    /// A growth was refused.
    #[error("no memory")]
    NoMemory(NoMemory),
    /// The table or the row of the place isn't there.
    #[error("no such place")]
    NoSuchPlace,
    /// The names of the columns and the next row alone have no room in a block.
    #[error("row too long")]
    RowTooLong,
    /// The key of a row has a line feed in it, and a reference of the row that takes nulls is the empty text. No line can say that.
    #[error("a key with a line feed")]
    Unspellable,
}

impl From<NoMemory> for SaveFault {
    ghost use Rattle.std.specs.Prelude.{◌≡◌};
    ghost use Rattle.mm_session.specs.declared.saving.SaveFault.TheVariants as fault;

    ghost from_gives = { λ refused e. e ≡ fault.NoMemory refused };

    fn from(refused: NoMemory) -> SaveFault {
        SaveFault::NoMemory(refused)
    }
}

impl Session {
    /// Makes the answer the piece of a dump at a place, and tells where the save goes on: None behind the last piece. A save begins at
    /// `SavePlace::Declarations`. Nothing is kept between two calls, so tables that change in between are each saved as they are then.
    ///
    /// The rows of a piece are as many as a block has room for, and 16,384 at most. A failure may leave any bytes in the answer.
    pub fn save(
        &self,
        place: SavePlace,
        answer: &mut Answer,
    ) -> Result<Option<SavePlace>, SaveFault>
        ensures there { OnOk result (IsPlace self.now.catalog place) }
        ensures piece { IfOk result (IsPiece self.now.catalog place answer.new) }
        ensures declined { IfErr result (IsDeclined self.now.catalog place) }
    {
        let alloc = *answer.as_vec().allocator();
        save(alloc, self.catalog(), place, answer)
    }
}
