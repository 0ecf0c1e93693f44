//! The relations before one of them.

use mm_relation::{Relation, Relations};
use plain_tables::TableNumber;

/// The relations before one of them. Its links lead into no others.
#[derive(Drop)]
pub struct Before<'a> {
    pub relations: &'a [Relation],
}

impl<'a> Relations for Before<'a> {
    ghost tables = { λ b. b.relations.now };

    fn at(&self, table: TableNumber) -> &Relation {
        &self.relations[table.0]
    }
}
