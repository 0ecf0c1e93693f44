//! The name of a column behind its table's.

/// The name of a column of a table, which is written as the table's name, a dot and the column's.
#[derive(Clone, Copy)]
pub struct FullName<'a> {
    pub table: &'a str,
    pub column: &'a str,
}
