//! The keys of the rows that links name.
ghost use Rattle.std.specs.Prelude.{◌≡◌, Some, IsSome};
ghost use Rattle.mm_relation.specs.Reading.{Keys};

use part_raw::TupleRef;
use plain_tables::{ColumnNumber, StoredValue};

/// Where links lead: the key of the row that each names.
pub trait LinkedKeys {
    // from reference column and reference to the key
    ghost keys: { Self → Keys };

    /// The key of the row that a link in this column names.
    fn key_of(&self, column: ColumnNumber, to: TupleRef) -> &StoredValue
        requires { IsSome (keys self.now column.0 to) }
        ensures { keys self.now column.0 to ≡ Some result.now };
}
