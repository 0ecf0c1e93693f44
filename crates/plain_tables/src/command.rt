//! What a command line asks for, and the limits under which it is done.

use crate::{ColName, Cond, IndexKind, Schema, Sequence, Text, Value};

/// A command of the language. Each has one variant.
#[derive(Drop)]
pub enum Command {
    /// `table NAME ( .. )`: a new table with these columns and no rows.
    Table {
        name: Text,
        schema: Schema,
    },
    /// `drop table NAME`: the table is gone.
    DropTable {
        table: Text,
    },
    /// `index NAME NAME ..`: one declared index more, on this column of this table.
    Index {
        table: Text,
        column: Text,
        kind: IndexKind,
    },
    /// `drop index NAME NAME ..`: one declared index less.
    DropIndex {
        table: Text,
        column: Text,
        kind: IndexKind,
    },
    /// `insert NAME ( .. )`: one row more.
    Insert {
        table: Text,
        values: Sequence<Value>,
    },
    /// `update NAME set .. where ..`: these values in each row that meets the conditions.
    Update {
        table: Text,
        settings: Sequence<Setting>,
        conditions: Sequence<Cond>,
    },
    /// `delete NAME where ..`: the table without the rows that meet the conditions.
    Delete {
        table: Text,
        conditions: Sequence<Cond>,
    },
    /// `select .. from NAME join .. where ..`: these columns of the rows, joined with those of other tables, that meet the
    /// conditions. If it is distinct, it shows each list of values once, and these rise.
    Select {
        distinct: bool,
        items: Items,
        table: Text,
        joins: Sequence<Join>,
        conditions: Sequence<Cond>,
    },
    /// `load NAME COUNT`: the rows of the block of that many bytes behind the line, all of them or none.
    Load {
        table: Text,
        bytes: u64,
    },
    /// `dump NAME`: all rows of the table, as a load and its block.
    Dump {
        table: Text,
    },
    /// `tables`: what tables there are.
    Tables,
}

/// What an update puts into a column.
#[derive(Drop)]
pub struct Setting {
    pub column: Text,
    pub value: Value,
}

/// A table that is joined with those before it: two columns are equal, one of this table and one of those.
#[derive(Drop)]
pub struct Join {
    pub table: Text,
    pub left: JoinSide,
    pub right: JoinSide,
}

/// A column as a join names it, always with its table.
#[derive(Drop)]
pub struct JoinSide {
    pub table: Text,
    pub column: Text,
}

/// The columns that a select shows: all of them, or those named, in that order.
#[derive(Drop)]
pub enum Items {
    All,
    Named(Sequence<ColName>),
}

/// The most rows that a table may have under any limits.
pub const MOST_ROWS: u32 = 16_777_216;

/// The most bytes that a block may have under any limits.
pub const LONGEST_BLOCK: u32 = 16_777_216;

/// How much a session takes: the rows that one table may have, from 1 to `MOST_ROWS`, and the bytes of a block, from 0 to
/// `LONGEST_BLOCK`.
#[derive(Clone, Copy)]
pub struct Limits {
    pub rows: u32,
    pub block: u32,
}

impl Limits {
    /// The greatest limits, which hold where nothing else is said.
    pub const STANDARD: Limits = Limits {
        rows: MOST_ROWS,
        block: LONGEST_BLOCK,
    };
}
