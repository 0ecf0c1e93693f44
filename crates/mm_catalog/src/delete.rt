//! Rows that go out of one relation among others.
ghost use Rattle.std.specs.Prelude.{◌≡◌, ◌≢◌, ◌<◌, Some, IsSome, IfErr, OnOk, OnErr, All, length, slice_get};
ghost use Rattle.std.specs.List.{AllPairs};
ghost use Rattle.std.specs.FinMap as finite;
ghost use Rattle.mm_relation.specs.State.{RelationState, IsKept, IsCurrent, linked_keys};
ghost use Rattle.mm_catalog.specs.Standing.{StandsBeside, Stands};
ghost use Rattle.mm_catalog.specs.Deleted.{AreRemoved, AreUnlinked, AreDeleted, AreTakenOut, AllFree, AnyReferenced};
ghost use Rattle.mm_catalog.specs.Recounted.{KeepsAside};

use crate::before::Before;
use crate::references::counting::count_down_links;
use crate::references::named::any_referenced;
use mm_relation::Relation;
use mm_relation::laws::a_relation_is_kept;
use part_raw::TupleRef;
use plain_tables::{Refusal, TableNumber};

// Takes rows out of a relation, and their links with them, which lead into the relations before it.
fn remove_each(before: &mut [Relation], relation: &mut Relation, rows: &[TupleRef])
    requires stands { StandsBeside before.old relation.old }
    requires held { All (λ r. IsSome (finite.get relation.old.rows r)) rows.now }
    requires once { AllPairs (λ q r. q ≢ r) rows.now }
    ensures unlinked { AreUnlinked before.old before.new relation.old relation.new }
    ensures removed { AreRemoved relation.old relation.new rows.now }
    ensures aside { KeepsAside relation.old relation.new }
    ensures kept { IsKept relation.new }
    ensures current { IsCurrent (linked_keys relation.old.targets before.old) relation.new }
{
    a_relation_is_kept(relation);
    for (place, r) in rows.iter().enumerate() {
        relation.warm(rows, place);
        count_down_links(before, relation, *r);
        relation.remove_row(&Before { relations: before }, *r);
        a_relation_is_kept(relation);
    }
}

/// Takes rows out of the relation of this number, whose links lead into those before it. It takes no memory.
pub fn take_out(relations: &mut [Relation], table: TableNumber, rows: &[TupleRef])
    requires there { table.0 < length relations.old }
    requires stands { Stands relations.old table.0 }
    requires held { (s : RelationState) → slice_get relations.old table.0 ≡ Some s → All (λ r. IsSome (finite.get s.rows r)) rows.now }
    requires once { AllPairs (λ q r. q ≢ r) rows.now }
    ensures { AreTakenOut relations.old relations.new table.0 rows.now }
{
    let (before, rest) = relations.split_at_mut(table.0);
    remove_each(before, &mut rest[0], rows);
}

/// Takes rows out of the relation of this number, where no link names any of them. Its links lead into those before it.
pub fn delete(
    relations: &mut [Relation],
    table: TableNumber,
    rows: &[TupleRef],
) -> Result<(), Refusal>
    requires there { table.0 < length relations.old }
    requires stands { Stands relations.old table.0 }
    requires held { (s : RelationState) → slice_get relations.old table.0 ≡ Some s → All (λ r. IsSome (finite.get s.rows r)) rows.now }
    requires once { AllPairs (λ q r. q ≢ r) rows.now }
    ensures free { OnOk result (AllFree relations.old table.0 rows.now) }
    ensures deleted { OnOk result (AreDeleted relations.old relations.new table.0 rows.now) }
    ensures referenced { IfErr result (λ refusal. (refusal ≡ Refusal.RowIsReferenced) × AnyReferenced relations.old table.0 rows.now) }
    ensures unchanged { OnErr result (relations.new ≡ relations.old) }
{
    if any_referenced(&relations[table.0], rows) {
        return Err(Refusal::RowIsReferenced);
    }
    take_out(relations, table, rows);
    Ok(())
}
