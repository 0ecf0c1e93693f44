//! What C is told of rows: where their cells lie, and how many they are.

ghost use Rattle.mm_database.specs.StatementCalls.{HasColumns, Tells};

use mm_cells::{Cells, ResultCell};
use mm_statements::Executed;

/// The cells of rows, one row behind the other, and the bytes of their texts; or how many rows were changed.
#[repr(C)]
#[derive(Drop)]
pub struct Rows {
    pub cells: *const ResultCell,
    pub texts: *const u8,
    pub rows: usize,
    pub columns: usize,
    pub changed: u64,
}

impl Rows {
    /// Tells what an execution gave, whose values these cells are, and where they lie.
    pub fn tell(&mut self, executed: Executed, cells: &Cells)
        requires { HasColumns executed }
        ensures { Tells cells.now executed self.new }
    {
        self.cells = cells.cells.as_ptr();
        self.texts = cells.texts.as_ptr();
        match executed {
            Executed::Changed(count) => {
                self.rows = 0;
                self.columns = 0;
                self.changed = count as u64;
            }
            Executed::Rows { columns } => {
                self.rows = cells.cells.len() / columns;
                self.columns = columns;
                self.changed = 0;
            }
        }
    }
}
