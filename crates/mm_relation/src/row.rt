//! What a row has in a column.

use part_raw::TupleRef;
use plain_tables::Value;

/// A field of a row: a value of its own, or the row of another table whose key is the value. The key, which is the first
/// column, is a value of the row's own.
#[derive(Drop)]
pub enum Cell {
    /// A value of the row's own, null among them.
    Held(Value),
    /// The row that is named. It holds no key: the value is read through the reference.
    Link { to: TupleRef },
}
