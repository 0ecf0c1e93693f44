//! The columns of a table, and the kinds of indexes.

use crate::{Sequence, Text};

/// What a column holds: integers, texts, references to rows of the table named, or such references and nulls.
#[derive(Drop)]
pub enum ColKind {
    Int,
    Text,
    Ref(Text),
    RefOrNull(Text),
}

/// A column of a table. A table's first column is its key.
#[derive(Drop)]
pub struct Column {
    pub name: Text,
    pub kind: ColKind,
}

/// The columns of a table, in the order of their declaration.
#[derive(Drop)]
pub struct Schema {
    pub columns: Sequence<Column>,
}

/// The type of a column's values that aren't null. Those of a reference column are keys, and so of one of these too.
#[derive(Clone, Copy)]
pub enum BaseKind {
    Int,
    Text,
}

/// What a declared index is: a T-tree, which keeps the order of the values, or a hash table.
#[derive(Clone, Copy, PartialEq, Eq)]
pub enum IndexKind {
    Tree,
    Hash,
}
