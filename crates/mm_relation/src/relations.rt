//! The relations that links lead into.
ghost use Rattle.std.specs.Prelude.{◌≡◌, ◌<◌, List, Some, IsSome, length, slice_get};
ghost use Rattle.mm_relation.specs.State.{RelationState, linked_keys};

use crate::linked_keys::LinkedKeys;
use crate::relation::Relation;
use part_raw::TupleRef;
use plain_tables::{ColumnNumber, StoredValue, TableNumber};

/// A list of relations: those that come before one of them, and that its links lead into.
pub trait Relations {
    // the relations in order
    ghost tables: { Self → List RelationState };

    /// The relation with this number.
    fn at(&self, table: TableNumber) -> &Relation
        requires { table.0 < length (tables self.now) }
        ensures { slice_get (tables self.now) table.0 ≡ Some result.now };
}

// The key of the row that a link in this column names.
pub fn linked_key<'a, R: Relations>(
    targets: &[Option<usize>],
    others: &'a R,
    column: ColumnNumber,
    to: TupleRef,
) -> &'a StoredValue
    requires { IsSome (linked_keys targets.now (R.tables others.now) column.0 to) }
    ensures { linked_keys targets.now (R.tables others.now) column.0 to ≡ Some result.now }
{
    match targets[column.0] {
        Some(table) => others.at(TableNumber(table)).key(to),
        None => unreachable!(),
    }
}

/// Where the links of one table lead: each reference column into one of the others.
#[derive(Drop)]
pub struct Links<'a, R> {
    pub targets: &'a [Option<usize>],
    pub others: &'a R,
}

impl<'a, R: Relations> LinkedKeys for Links<'a, R> {
    ghost keys = { λ l. linked_keys l.targets.now (R.tables l.others.now) };

    fn key_of(&self, column: ColumnNumber, to: TupleRef) -> &StoredValue {
        linked_key(self.targets, self.others, column, to)
    }
}
