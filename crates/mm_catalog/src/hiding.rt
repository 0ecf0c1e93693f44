//! Rows that are hidden in place of being taken out, and shown again or dropped later.
//!
//! A hidden row keeps its reference and its slot, and no link names it. What it needs to be a row again is owed as it is hidden,
//! so showing it takes no memory.
ghost use Rattle.std.specs.Prelude.{Bool, ◌≡◌, ◌≢◌, ◌⊎◌, ◌+◌, ◌-◌, ◌<◌, ◌≤◌, Some, None, IsSome, IfErr, OnOk, OnErr, All, length, slice_get};
ghost use Rattle.std.specs.List.{AllPairs};
ghost use Rattle.std.specs.FinMap as finite;
ghost use Rattle.part_raw.specs.declared.tuple_ref.TupleRef.{TupleRef};
ghost use Rattle.mm_relation.specs.State.{RelationState, IsKept, IsCurrent, linked_keys};
ghost use Rattle.mm_catalog.specs.Deleted.{AllFree, AnyReferenced, AreRemoved, AreUnlinked, IsFree};
ghost use Rattle.mm_catalog.specs.Hidden.{AreHidden, AreHiddenAt, AreLinked, AreShown, AreShownAt, CanBeShown, CanShow};
ghost use Rattle.mm_catalog.specs.Standing.{StandsBeside, Stands};

use crate::before::Before;
use crate::catalog::Catalog;
use crate::references::counting::{count_down_links, count_up_links};
use crate::references::named::any_referenced;
use mm_relation::Relation;
use mm_relation::laws::{a_relation_is_kept, hidden_rows_are_apart};
use no_memory::{NoMemory, check_size};
use part_raw::TupleRef;
use plain_tables::{MOST_ROWS, Refusal, TableNumber};

// ---- rows that are hidden

// Whether so many rows more can be owed. For more there is no memory, as there is none for a list that no block holds.
fn check_owed(owed: u64, count: u64) -> Result<(), NoMemory>
    requires { owed ≤ 16777216 }
    ensures { OnOk result (owed + count ≤ 16777216) }
{
    if count > u64::from(MOST_ROWS) - owed {
        return check_size::<TupleRef>(usize::MAX);
    }
    Ok(())
}

/// Owes so many rows of a relation more. It finds no memory where too many are owed then.
pub fn owe_rows(relation: &mut Relation, count: usize) -> Result<(), NoMemory>
    ensures owed { OnOk result (relation.new ≡ record relation.old { owed = relation.old.owed + count }) }
    ensures unchanged { OnErr result (relation.new ≡ relation.old) }
    ensures few { finite.len relation.old.hidden ≤ relation.old.owed }
    ensures apart { (r : TupleRef) → IsSome (finite.get relation.old.hidden r) → finite.get relation.old.rows r ≡ None }
{
    hidden_rows_are_apart(relation);
    let count = count as u64;
    check_owed(relation.owed(), count)?;
    relation.owe(count)
}

// Hides rows of a relation that no link names, and takes their links out of the relations before it.
fn hide_each(before: &mut [Relation], relation: &mut Relation, rows: &[TupleRef])
    requires stands { StandsBeside before.old relation.old }
    requires held { All (λ r. IsSome (finite.get relation.old.rows r)) rows.now }
    requires once { AllPairs (λ q r. q ≢ r) rows.now }
    requires free { All (IsFree relation.old) rows.now }
    requires owed { finite.len relation.old.hidden + length rows.now ≤ relation.old.owed }
    ensures unlinked { AreUnlinked before.old before.new relation.old relation.new }
    ensures removed { AreRemoved relation.old relation.new rows.now }
    ensures hidden { AreHidden relation.old relation.new rows.now }
    ensures owed { relation.new.owed ≡ relation.old.owed }
    ensures kept { IsKept relation.new }
    ensures current { IsCurrent (linked_keys relation.old.targets before.old) relation.new }
{
    a_relation_is_kept(relation);
    for (place, r) in rows.iter().enumerate() {
        relation.warm(rows, place);
        count_down_links(before, relation, *r);
        relation.hide_row(&Before { relations: before }, *r);
        a_relation_is_kept(relation);
    }
}

/// Hides rows of the relation of this number, none of which a link names. Its links lead into those before it.
pub fn hide_free(
    relations: &mut [Relation],
    table: TableNumber,
    rows: &[TupleRef],
) -> Result<(), NoMemory>
    requires there { table.0 < length relations.old }
    requires stands { Stands relations.old table.0 }
    requires held { (s : RelationState) → slice_get relations.old table.0 ≡ Some s → All (λ r. IsSome (finite.get s.rows r)) rows.now }
    requires once { AllPairs (λ q r. q ≢ r) rows.now }
    requires free { AllFree relations.old table.0 rows.now }
    ensures hidden { OnOk result (AreHiddenAt relations.old relations.new table.0 rows.now) }
    ensures unchanged { OnErr result (relations.new ≡ relations.old) }
{
    let (before, rest) = relations.split_at_mut(table.0);
    let relation = &mut rest[0];
    owe_rows(relation, rows.len())?;
    hide_each(before, relation, rows);
    Ok(())
}

// Hides rows of the relation of this number, where no link names any of them. Its links lead into those before it.
fn hide_rows(
    relations: &mut [Relation],
    table: TableNumber,
    rows: &[TupleRef],
) -> Result<(), Refusal>
    requires there { table.0 < length relations.old }
    requires stands { Stands relations.old table.0 }
    requires held { (s : RelationState) → slice_get relations.old table.0 ≡ Some s → All (λ r. IsSome (finite.get s.rows r)) rows.now }
    requires once { AllPairs (λ q r. q ≢ r) rows.now }
    ensures free { OnOk result (AllFree relations.old table.0 rows.now) }
    ensures hidden { OnOk result (AreHiddenAt relations.old relations.new table.0 rows.now) }
    ensures refused { IfErr result (λ refusal. (refusal ≡ Refusal.NoMemory) ⊎ ((refusal ≡ Refusal.RowIsReferenced) × AnyReferenced relations.old table.0 rows.now)) }
    ensures unchanged { OnErr result (relations.new ≡ relations.old) }
{
    if any_referenced(&relations[table.0], rows) {
        return Err(Refusal::RowIsReferenced);
    }
    hide_free(relations, table, rows)?;
    Ok(())
}

// ---- rows that are shown again

// Shows hidden rows of a relation, and counts their links in the relations before it.
fn show_each(before: &mut [Relation], relation: &mut Relation, rows: &[TupleRef])
    requires { CanBeShown before.old relation.old rows.now }
    ensures linked { AreLinked before.old before.new relation.old relation.new (length rows.now) }
    ensures shown { AreShown relation.old relation.new rows.now }
    ensures owed { relation.new.owed ≡ relation.old.owed - length rows.now }
    ensures kept { IsKept relation.new }
    ensures current { IsCurrent (linked_keys relation.old.targets before.old) relation.new }
{
    a_relation_is_kept(relation);
    hidden_rows_are_apart(relation);
    for r in rows {
        relation.show_row(&Before { relations: before }, *r);
        a_relation_is_kept(relation);
        count_up_links(before, relation, *r);
    }
}

// Shows hidden rows of the relation of this number, whose links lead into those before it. It takes no memory.
fn show_rows(relations: &mut [Relation], table: TableNumber, rows: &[TupleRef])
    requires there { table.0 < length relations.old }
    requires shows { CanShow relations.old table.0 rows.now }
    ensures { AreShownAt relations.old relations.new table.0 rows.now }
{
    let (before, rest) = relations.split_at_mut(table.0);
    show_each(before, &mut rest[0], rows);
}

impl Catalog {
    ghost use Rattle.plain_tables.specs.Doing as doing;
    ghost use Rattle.plain_tables.specs.Effects.{Refused};
    ghost use Rattle.plain_tables.specs.Tables.{Row};
    ghost use Rattle.mm_catalog.specs.Changes.{HasEffect};
    ghost use Rattle.mm_catalog.specs.Outline.{HasRowsHidden, HidesOnce, IsOutline, outline_of, with_shown};
    ghost use Rattle.mm_catalog.specs.Picked.{ArePicked, HoldsRows};
    ghost use Rattle.mm_catalog.specs.Seen.{database_of};

    /// Deletes rows of a table as `delete` does, but hides them: each keeps its reference until it is shown again or dropped. It
    /// finds no memory also where more than 16,777,216 rows of the table are owed then.
    pub fn hide(&mut self, table: TableNumber, rows: &[TupleRef]) -> Result<(), Refusal>
        requires there { table.0 < length (database_of self.old) }
        requires held { HoldsRows self.old table.0 rows.now }
        requires once { AllPairs (λ q r. q ≢ r) rows.now }
        ensures deleted { OnOk result ((picks : Row → Bool) → ArePicked self.old table.0 rows.now picks → HasEffect self.old self.new (doing.delete (database_of self.old) table picks) (length rows.now)) }
        ensures hidden { OnOk result (HasRowsHidden (outline_of self.old) (outline_of self.new) table.0 rows.now) }
        ensures refused { IfErr result (λ refusal. (refusal ≡ Refusal.NoMemory) ⊎ ((picks : Row → Bool) → ArePicked self.old table.0 rows.now picks → (doing.delete (database_of self.old) table picks).outcome ≡ Refused refusal)) }
        ensures unchanged { OnErr result (self.new ≡ self.old) }
    {
        hide_rows(self.relations.as_mut_slice(), table, rows)
    }

    /// Shows hidden rows of a table again, where a catalog can have them as its rows. It takes no memory, and never fails.
    pub fn show(&mut self, table: TableNumber, rows: &[TupleRef])
        requires hides { HidesOnce (outline_of self.old) table.0 rows.now }
        requires stands { IsOutline (with_shown table.0 rows.now (outline_of self.old)) }
        ensures { outline_of self.new ≡ with_shown table.0 rows.now (outline_of self.old) }
    {
        hidden_rows_are_apart(&self.relations[table.0]);
        show_rows(self.relations.as_mut_slice(), table, rows)
    }
}
