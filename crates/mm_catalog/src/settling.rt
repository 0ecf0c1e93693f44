//! Hidden rows of all tables, dropped once nothing can bring them back.
ghost use Rattle.std.specs.Prelude.{◌≡◌, map};
ghost use Rattle.mm_catalog.specs.Changes.{KeepsDatabase};
ghost use Rattle.mm_catalog.specs.Settled.{settled_catalog, settled_relation};

use crate::catalog::Catalog;
use mm_relation::Relation;

// Drops all hidden rows of these relations, which owe none then.
fn settle_each(relations: &mut [Relation])
    ensures { relations.new ≡ map settled_relation relations.old }
{
    for relation in relations.iter_mut() {
        relation.settle_all();
    }
}

impl Catalog {
    /// Drops all rows that tables hide; none is owed then. It takes no memory, and never fails. A table that owes nothing is
    /// passed over at once.
    pub fn settle(&mut self)
        ensures settled { self.new ≡ settled_catalog self.old }
        ensures database { KeepsDatabase self.old self.new }
    {
        settle_each(self.relations.as_mut_slice());
    }
}
