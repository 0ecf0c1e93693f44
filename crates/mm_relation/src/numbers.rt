//! The declaration of an index.

use plain_tables::{ColumnNumber, IndexKind};

/// An index that was declared, beside the tree that every key has.
#[derive(Clone, Copy)]
pub struct DeclaredIndex {
    pub column: ColumnNumber,
    pub kind: IndexKind,
}
