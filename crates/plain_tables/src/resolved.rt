//! A command with numbers in the place of names, which has passed the checks that need no row.

use crate::{
    ColumnNumber, IndexKind, Op, Place, RowList, Schema, Sequence, TableNumber, Text, Value,
};

/// A command on tables and columns by their numbers.
#[derive(Drop)]
pub enum Resolved {
    /// A new table, which stands last.
    Table {
        name: Text,
        schema: Schema,
    },
    /// The table is gone, and those behind it move up.
    DropTable {
        table: TableNumber,
    },
    /// One declared index more, the last of its table.
    Index {
        table: TableNumber,
        column: ColumnNumber,
        kind: IndexKind,
    },
    /// One declared index less.
    DropIndex {
        table: TableNumber,
        column: ColumnNumber,
        kind: IndexKind,
    },
    /// One row more.
    Insert {
        table: TableNumber,
        values: Sequence<Value>,
    },
    /// These values in each row that passes the tests.
    Update {
        table: TableNumber,
        assignments: Sequence<Assignment>,
        tests: Sequence<Test>,
    },
    /// The table without the rows that pass the tests.
    Delete {
        table: TableNumber,
        tests: Sequence<Test>,
    },
    /// What a query shows.
    Select(Query),
    /// These rows more, all of them or none.
    Load {
        table: TableNumber,
        rows: RowList,
    },
    /// All rows of the table, as a load and its block.
    Dump {
        table: TableNumber,
    },
    /// What tables there are.
    Tables,
}

/// What an update puts into a column.
#[derive(Drop)]
pub struct Assignment {
    pub column: ColumnNumber,
    pub value: Value,
}

/// What a row has to pass: its value in the column stands so to this value.
#[derive(Drop)]
pub struct Test {
    pub column: ColumnNumber,
    pub op: Op,
    pub value: Value,
}

/// These columns of the rows of the first source, joined with those of others. If it is distinct, each list of values once,
/// and these rise.
#[derive(Drop)]
pub struct Query {
    pub distinct: bool,
    pub shown: Shown,
    pub source: Source,
    pub joins: Sequence<Joined>,
}

/// The rows of a table that pass tests.
#[derive(Drop)]
pub struct Source {
    pub table: TableNumber,
    pub tests: Sequence<Test>,
}

/// A source that is joined with those before it: the column of theirs and its own are equal, and not null.
#[derive(Drop)]
pub struct Joined {
    pub source: Source,
    pub outer: Place,
    pub inner: ColumnNumber,
}

/// The columns that a select shows: all of them, or these, in that order.
#[derive(Drop)]
pub enum Shown {
    All,
    Columns(Sequence<Place>),
}
