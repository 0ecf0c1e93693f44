//! The rows of a select, read page by page.

ghost use Rattle.std.specs.Prelude.{◌≡◌, ◌<◌, IfOk, IsErrOf, OnErr, OnOk, drop, length, take};
ghost use Rattle.std.specs.Arc.{arc_value};
ghost use Rattle.std.specs.List.{flat_map};
ghost use Rattle.mm_cells.specs.Reading.{AreFull};
ghost use Rattle.mm_cells.specs.Values.{values_of};
ghost use Rattle.mm_session.specs.Found.{values_found};
ghost use Rattle.mm_session.specs.Shown.{CanShow};

use mm_cells::{CellFault, Cells};
use mm_session::{FoundRows, Session};
use std::alloc::Global;
use std::marker::Model;
use std::sync::Arc;

/// The rows that a select shows and that are still to be read, in their order. It holds the session beside the databases that do, so
/// nobody changes the tables as long as it is there. It is seen as these rows, and how many columns they have.
#[derive(Drop)]
pub struct Cursor {
    session: Arc<Session, Global>,
    found: FoundRows,
    // How many rows were read.
    read: usize,
}

impl Model for Cursor {
    ghost use Rattle.std.specs.Prelude.{drop, length};
    ghost use Rattle.std.specs.Arc.{arc_value};
    ghost use Rattle.mm_session.specs.Found.{values_found};
    ghost use Rattle.mm_session.specs.Shown.{CanShow};
    ghost use Rattle.plain_tables.specs.contracts.value.Value.{the_row as value_row};
    ghost use Rattle.mm_statements.specs.Cursors.{CursorState, cursor_code};

    ghost Value = { CursorState };

    ghost coded = { cursor_code value_row.coded };

    ghost view = { λ c. record { columns = length c.found.list.columns; rows = drop c.read (values_found (arc_value c.session).catalog c.found) } };

    ghost invariant = { λ c. CanShow (arc_value c.session).catalog c.found.list };
}

impl Cursor {
    /// The rows that were found of the tables of a session. None was read.
    pub(crate) fn new(session: Arc<Session, Global>, found: FoundRows) -> Cursor
        requires { CanShow (arc_value session).catalog found.list }
        ensures { result ≡ record { columns = length found.list.columns; rows = values_found (arc_value session).catalog found } }
    {
        Cursor {
            session,
            found,
            read: 0,
        }
    }

    /// Makes the cells the values of the next rows, so many at most, a row behind the other, and tells how many columns each has. They are
    /// read then. A failure may leave any cells there, and no row is read; `TooLong` comes only if their texts have 4 GiB or more then.
    pub fn fetch(&mut self, most: usize, cells: &mut Cells) -> Result<usize, CellFault>
        ensures columns { IfOk result (λ columns. columns ≡ self.old.columns) }
        ensures some { IfOk result (λ columns. 0 < columns) }
        ensures shown { OnOk result (values_of cells.new ≡ flat_map (λ row. row) (take most self.old.rows)) }
        ensures read { OnOk result (self.new ≡ record self.old { rows = drop most self.old.rows }) }
        ensures unchanged { OnErr result (self.new ≡ self.old) }
        ensures too_long { IsErrOf result CellFault.TooLong → AreFull (values_of cells.new) }
    {
        let columns = self.session.show(&self.found, self.read, most, cells)?;
        let left = self.found.len().saturating_sub(self.read);
        self.read += most.min(left);
        Ok(columns)
    }
}
