//! The places of a line: where the parser may stop, and what may stand there.

use self::Wanted::{ColumnName, Count, End, Keyword, Operator, Sign, TableName, Value};

/// What may stand at a place of a line.
#[derive(Clone, Copy)]
pub enum Wanted {
    Keyword(&'static str),
    Sign(&'static str),
    TableName,
    ColumnName,
    /// An integer, a text or null.
    Value,
    Operator,
    /// A number of bytes.
    Count,
    /// The end of the line.
    End,
}

/// A place of a line: what has been read before it, as far as it matters for what may follow.
#[derive(Clone, Copy, PartialEq, Eq)]
pub enum LinePlace {
    /// The first word of a command.
    Command,
    /// The first word of a statement.
    Statement,
    Table,
    DeletedTable,
    Column,
    IndexedColumn,
    /// The parenthesis before the columns of a table.
    Columns,
    ColumnType,
    BehindReference,
    /// Behind a column or a value in parentheses.
    BehindListed,
    Dropped,
    IndexKind,
    /// The parenthesis before the values of an insert.
    Values,
    Value,
    ComparedValue,
    Set,
    Equals,
    BehindSetting,
    BehindDeletedTable,
    /// The first item of a select, or `distinct` before it.
    Select,
    /// The first item of a select behind `distinct`.
    Distinct,
    /// Behind a word of a select that may be a column or the table of one.
    BehindItemName,
    BehindItem,
    From,
    BehindTable,
    On,
    Dot,
    /// Behind a word of a condition that may be a column or the table of one.
    BehindConditionName,
    Operator,
    BehindCondition,
    Count,
    End,
}

const COMMANDS: &[Wanted] = &[
    Keyword("table"),
    Keyword("drop"),
    Keyword("index"),
    Keyword("insert"),
    Keyword("update"),
    Keyword("delete"),
    Keyword("select"),
    Keyword("load"),
    Keyword("dump"),
    Keyword("tables"),
];

const STATEMENTS: &[Wanted] = &[
    Keyword("insert"),
    Keyword("update"),
    Keyword("delete"),
    Keyword("select"),
];

impl LinePlace {
    /// What may stand here.
    pub fn wanted(self) -> &'static [Wanted] {
        match self {
            LinePlace::Command => COMMANDS,
            LinePlace::Statement => STATEMENTS,
            LinePlace::Table | LinePlace::DeletedTable => &[TableName],
            LinePlace::Column | LinePlace::IndexedColumn => &[ColumnName],
            LinePlace::Columns | LinePlace::Values => &[Sign("(")],
            LinePlace::ColumnType => &[Keyword("int"), Keyword("text"), Keyword("ref")],
            LinePlace::BehindReference => &[Keyword("null"), Sign(","), Sign(")")],
            LinePlace::BehindListed => &[Sign(","), Sign(")")],
            LinePlace::Dropped => &[Keyword("table"), Keyword("index")],
            LinePlace::IndexKind => &[Keyword("tree"), Keyword("hash")],
            LinePlace::Value | LinePlace::ComparedValue => &[Value],
            LinePlace::Set => &[Keyword("set")],
            LinePlace::Equals => &[Sign("=")],
            LinePlace::BehindSetting => &[Sign(","), Keyword("where"), End],
            LinePlace::BehindDeletedTable => &[Keyword("where"), End],
            LinePlace::Select => &[Keyword("distinct"), Sign("*"), ColumnName],
            LinePlace::Distinct => &[Sign("*"), ColumnName],
            LinePlace::BehindItemName => &[Sign("."), Sign(","), Keyword("from")],
            LinePlace::BehindItem => &[Sign(","), Keyword("from")],
            LinePlace::From => &[Keyword("from")],
            LinePlace::BehindTable => &[Keyword("join"), Keyword("where"), End],
            LinePlace::On => &[Keyword("on")],
            LinePlace::Dot => &[Sign(".")],
            LinePlace::BehindConditionName => &[Sign("."), Operator],
            LinePlace::Operator => &[Operator],
            LinePlace::BehindCondition => &[Keyword("and"), End],
            LinePlace::Count => &[Count],
            LinePlace::End => &[End],
        }
    }
}
