//! A column of a block.

use plain_tables::{BaseKind, Text};

/// A column of a block: its name, the type of its values, and whether null may stand there.
#[derive(Drop)]
pub struct Field {
    pub name: Text,
    pub kind: BaseKind,
    pub null: bool,
}
