//! What of a command is to blame for its refusal, by its place in the command: enough to say it in words beside the line.

use plain_tables::Place;

/// What of a command is to blame for its refusal. Of what a command has several, it is told by a number, counted from 0. The
/// values of a command are those of its row, or those of its settings and then those of its conditions. A place counts the
/// tables of a command each once, in the order in which it names them.
#[derive(Clone, Copy)]
pub enum Culprit {
    /// The table that the command is on, or that it declares.
    Table,
    /// A column that it declares.
    Column(usize),
    /// The key that it declares or sets.
    Key,
    /// The name of the column that an index is on.
    IndexColumn,
    /// The index that it declares or drops.
    Index,
    /// The tree of the key, which each table has.
    KeyTree,
    /// The row that it puts in, as a whole.
    Row,
    /// The block of a load.
    Block,
    /// The name of the column that a value is for.
    Name(usize),
    /// A value, and the column that it is for.
    Value { number: usize, column: Place },
    /// The name of an item.
    Item(usize),
    /// A column that is shown.
    Shown(Place),
    /// A join, by its table or by the names of its two columns.
    Join(usize),
    /// The two columns of a join, that of its own table behind the other one.
    Sides { outer: Place, inner: Place },
    /// How many columns it declares.
    Columns,
    /// How many tables there are.
    Tables,
    /// How many items it has.
    Items,
    /// How many conditions it has.
    Conditions,
    /// How many joins it has.
    Joins,
}
