//! A row that is lent.
ghost use Rattle.std.specs.Prelude.{◌≡◌, Some, IsSome};
ghost use Rattle.mm_relation.specs.Reading.{row_value, link_in};
ghost use Rattle.mm_relation.specs.State.{linked_keys};

use crate::relations::{Relations, linked_key};
use crate::stored_cell::{SeenCell, StoredCell};
use part_raw::TupleRef;
use plain_tables::{ColumnNumber, StoredValue};
use std::marker::Model;

/// A row that is lent, with the tables that its links lead into. It is references alone: nothing is copied.
#[derive(Drop)]
pub struct RowView<'a> {
    pub(crate) cells: &'a [StoredCell],
    pub(crate) referrers: &'a u64,
    pub(crate) targets: &'a [Option<usize>],
}

impl<'a> Model for RowView<'a> {
    ghost use Rattle.mm_relation.specs.Rows.{row_of, StartsWithKey};
    ghost use Rattle.mm_relation.specs.State.{LentRow};

    ghost Value = { LentRow };

    ghost view = { λ v. record { row = row_of v.cells.now; referrers = v.referrers.now; targets = v.targets.now } };

    ghost invariant = { λ v. StartsWithKey v.cells.now };
}

impl<'a> RowView<'a> {
    /// The value in a column. In a reference column it is the key of the row that is named, or null.
    pub fn value<R: Relations>(&self, column: ColumnNumber, others: &'a R) -> &'a StoredValue
        requires { IsSome (row_value (linked_keys self.now.targets (R.tables others.now)) column.0 self.now.row) }
        ensures { row_value (linked_keys self.now.targets (R.tables others.now)) column.0 self.now.row ≡ Some result.now }
    {
        let cells = self.cells;
        match cells[column.0].seen() {
            SeenCell::Held(value) => value,
            SeenCell::Link { to } => linked_key(self.targets, others, column, to),
        }
    }

    /// The row that the link in a column names. None where the column holds a value of the row's own.
    pub fn link(&self, column: ColumnNumber) -> Option<TupleRef>
        ensures { result ≡ link_in column.0 self.now.row }
    {
        match self.cells.get(column.0)?.seen() {
            SeenCell::Held(_) => None,
            SeenCell::Link { to } => Some(to),
        }
    }

    /// How many links name the row.
    pub fn referrers(&self) -> u64
        ensures { result ≡ self.now.referrers }
    {
        *self.referrers
    }
}
