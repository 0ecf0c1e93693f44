//! Numbers that are told apart by their types.

/// A column of a table, counted from 0. Column 0 is the key.
#[derive(Clone, Copy, PartialEq, Eq)]
pub struct ColumnNumber(pub usize);

/// A table among others, counted from 0.
#[derive(Clone, Copy, PartialEq, Eq)]
pub struct TableNumber(pub usize);

/// A column of the tables that a command joins: which of them, counted from 0 in the order in which they are joined, and
/// which column of it.
#[derive(Clone, Copy, PartialEq, Eq)]
pub struct Place {
    pub source: usize,
    pub column: ColumnNumber,
}
