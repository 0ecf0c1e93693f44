//! A relation that goes from among others: the rows that its links name.
ghost use Rattle.std.specs.Prelude.{◌<◌, length};
ghost use Rattle.mm_catalog.specs.Linked.{relation_links};
ghost use Rattle.mm_catalog.specs.Counted.{AreCountedBy, naming, none};
ghost use Rattle.mm_catalog.specs.Standing.{StandsBeside, Stands};
ghost use Rattle.mm_catalog.specs.Dropped.{IsUnlinked};

use crate::references::counting::count_down_links;
use mm_relation::laws::a_relation_is_kept;
use mm_relation::{Relation, TableNumber};

// The rows that the links of a relation name have fewer referrers, as many as there are such links.
fn count_down_relation(before: &mut [Relation], relation: &Relation)
    requires { StandsBeside before.old relation.now }
    ensures { AreCountedBy before.old before.new none (naming (relation_links relation.now)) }
{
    a_relation_is_kept(relation);
    for r in relation.walk() {
        count_down_links(before, relation, r);
    }
}

/// The rows that the links of the relation of this number name have fewer referrers, as many as there are such links. It
/// takes no memory.
pub fn unlink(relations: &mut [Relation], table: TableNumber)
    requires there { table.0 < length relations.old }
    requires stands { Stands relations.old table.0 }
    ensures { IsUnlinked relations.old relations.new table.0 }
{
    let (before, rest) = relations.split_at_mut(table.0);
    count_down_relation(before, &rest[0]);
}
