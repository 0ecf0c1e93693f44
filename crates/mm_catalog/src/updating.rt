//! Values that are assigned to rows of one relation, among those that its links lead into.
ghost use Rattle.std.specs.Prelude.{◌≡◌, ◌≢◌, ◌*◌, ◌<◌, ◌∷◌, ◌++◌, [], ℕ, Some, IsSome, IfErr, OnOk, OnErr, All, map, length, drop, slice_get, slice_set};
ghost use Rattle.std.specs.List.{AllPairs};
ghost use Rattle.std.specs.Option.{option_map};
ghost use Rattle.std.specs.FinMap as finite;
ghost use Rattle.mm_relation.specs.Rows.{Row};
ghost use Rattle.mm_relation.specs.State.{RelationState, IsKept};
ghost use Rattle.mm_catalog.specs.Linked.{target_at};
ghost use Rattle.mm_catalog.specs.Counted.{linked_of, naming, none, IsHeldIn, HaveRoom, AreCountedBy};
ghost use Rattle.mm_catalog.specs.Assigned as assigned;
ghost use Rattle.mm_catalog.specs.Assigned.{AreConsistent, AreNotSet, AreSetBy, AreToColumns, IsNotUpdated, IsUpdated, StandsIn, links_at, row_links_at, set_links};
ghost use Rattle.mm_catalog.specs.State.{CatalogState};

use crate::before::Before;
use crate::references::cells::{lent_cell, named_row};
use crate::references::counting::{count_down_all, count_up};
use crate::references::link::{Link, link_in, target_number};
use mm_relation::laws::a_relation_is_kept;
use mm_relation::{Relation, StoredCell};
use no_memory::NoMemory;
use part_raw::TupleRef;
use plain_tables::{Assignment, ColumnNumber, Refusal, TableNumber};
use std::alloc::Global;

// ---- the cells

// Packs the cells that the assignments set, in place of what is there.
fn pack_sets(
    alloc: Global,
    before: &[Relation],
    relation: &Relation,
    assignments: &[Assignment],
    sets: &mut Vec<(ColumnNumber, StoredCell)>,
) -> Result<(), Refusal>
    requires columns { All (λ a. a.column.0 < length relation.now.targets) assignments.now }
    requires back { (column : ℕ) (table : ℕ) → target_at relation.now.targets column ≡ Some table → table < length before.now }
    ensures sets { OnOk result (AreSetBy before.now relation.now.targets assignments.now sets.new.items) }
    ensures refused { IfErr result (AreNotSet before.now relation.now.targets assignments.now) }
{
    sets.clear();
    for assignment in assignments {
        let target = target_number(relation, assignment.column);
        let named = named_row(before, target, &assignment.value, None)?;
        let cell = lent_cell(alloc, named, &assignment.value)?;
        push_set(sets, (assignment.column, cell))?;
    }
    Ok(())
}

/// Puts a cell behind the others.
pub fn push_set(
    sets: &mut Vec<(ColumnNumber, StoredCell)>,
    set: (ColumnNumber, StoredCell),
) -> Result<(), NoMemory>
    ensures pushed { OnOk result (sets.new.items ≡ sets.old.items ++ set ∷ []) }
    ensures kept { OnErr result (sets.new.items ≡ sets.old.items) }
{
    sets.push(set)?;
    Ok(())
}

// ---- the links that go

// Puts the links that a row has where these cells are set behind the others.
fn push_links(
    links: &mut Vec<Link>,
    relation: &Relation,
    r: TupleRef,
    sets: &[(ColumnNumber, StoredCell)],
) -> Result<(), NoMemory>
    requires held { IsSome (finite.get relation.now.rows r) }
    requires columns { All (λ s. s.0.0 < length relation.now.targets) sets.now }
    ensures { OnOk result ((row : Row) → finite.get relation.now.rows r ≡ Some row → map linked_of links.new.items ≡ map linked_of links.old.items ++ row_links_at relation.now.targets sets.now row) }
{
    let row = relation.row(r);
    for (column, _) in sets {
        if let Some(link) = link_in(relation, &row, *column) {
            links.push(link)?;
        }
    }
    Ok(())
}

// Lists the links that these rows have where these cells are set, in place of what is there.
fn list_links(
    relation: &Relation,
    rows: &[TupleRef],
    sets: &[(ColumnNumber, StoredCell)],
    links: &mut Vec<Link>,
) -> Result<(), NoMemory>
    requires held { All (λ r. IsSome (finite.get relation.now.rows r)) rows.now }
    requires columns { All (λ s. s.0.0 < length relation.now.targets) sets.now }
    ensures { OnOk result (map linked_of links.new.items ≡ links_at relation.now sets.now rows.now) }
{
    links.clear();
    for r in rows {
        push_links(links, relation, *r, sets)?;
    }
    Ok(())
}

/// Gives the memory of a list of links back that was made for more rows than one.
pub fn shed_links(alloc: Global, links: &mut Vec<Link>, rows: usize) {
    if rows > 1 {
        *links = Vec::new(alloc);
    }
}

// ---- the numbers of referrers

// The link that a cell is in a column.
fn link_set(relation: &Relation, set: &(ColumnNumber, StoredCell)) -> Option<Link>
    requires { set.now.0.0 < length relation.now.targets }
    ensures { option_map linked_of result ≡ assigned.set_link relation.now.targets set.now }
{
    let table = relation.target(set.0)?;
    let to = set.1.named()?;
    Some(Link { table, to })
}

// So many referrers more for each row that these cells link to, and for each such cell.
pub fn count_up_sets(
    before: &mut [Relation],
    relation: &Relation,
    sets: &[(ColumnNumber, StoredCell)],
    n: u64,
)
    requires kept { All IsKept before.old }
    requires columns { All (λ s. s.0.0 < length relation.now.targets) sets.now }
    requires held { All (IsHeldIn before.old) (set_links relation.now.targets sets.now) }
    requires room { HaveRoom before.old (n * length sets.now) }
    ensures { AreCountedBy before.old before.new (λ t q. n * naming (set_links relation.now.targets sets.now) t q) none }
{
    for set in sets {
        if let Some(link) = link_set(relation, set) {
            count_up(before, link, n);
        }
    }
}

// ---- the rows

// Assigns values to these rows of a relation, whose links lead into those before it.
fn set_rows_beside(
    alloc: Global,
    before: &mut [Relation],
    relation: &mut Relation,
    rows: &[TupleRef],
    assignments: &[Assignment],
    sets: &mut Vec<(ColumnNumber, StoredCell)>,
    lost: &mut Vec<Link>,
) -> Result<(), Refusal>
    requires stands { (c : CatalogState) × (n : ℕ) × StandsIn c n before.old relation.old }
    requires columns { AreToColumns (length relation.old.targets) assignments.now }
    requires held { All (λ r. IsSome (finite.get relation.old.rows r)) rows.now }
    requires once { AllPairs (λ q r. q ≢ r) rows.now }
    ensures updated { OnOk result ((c : CatalogState) (n : ℕ) → StandsIn c n before.old relation.old → IsUpdated c.relations (before.new ++ slice_set (drop n c.relations) 0 relation.new) n rows.now assignments.now) }
    ensures refused { IfErr result (AreNotSet before.old relation.old.targets assignments.now) }
    ensures others { OnErr result (before.new ≡ before.old) }
    ensures unchanged { OnErr result (relation.new ≡ relation.old) }
{
    pack_sets(alloc, before, relation, assignments, sets)?;
    list_links(relation, rows, sets.as_slice(), lost)?;
    let others = Before { relations: before };
    relation.change_rows(alloc, &others, rows, sets.as_mut_slice())?;
    a_relation_is_kept(relation);
    count_up_sets(before, relation, sets.as_slice(), rows.len() as u64);
    count_down_all(before, lost.as_slice());
    Ok(())
}

/// Assigns values to these rows of the relation of this number. The cells that are set, and the links that go, are listed
/// in these vectors on their way, in place of what is there.
pub fn set_rows(
    alloc: Global,
    relations: &mut [Relation],
    table: TableNumber,
    rows: &[TupleRef],
    assignments: &[Assignment],
    sets: &mut Vec<(ColumnNumber, StoredCell)>,
    lost: &mut Vec<Link>,
) -> Result<(), Refusal>
    requires there { table.0 < length relations.old }
    requires consistent { AreConsistent relations.old }
    requires columns { (s : RelationState) → slice_get relations.old table.0 ≡ Some s → AreToColumns (length s.targets) assignments.now }
    requires held { (s : RelationState) → slice_get relations.old table.0 ≡ Some s → All (λ r. IsSome (finite.get s.rows r)) rows.now }
    requires once { AllPairs (λ q r. q ≢ r) rows.now }
    ensures updated { OnOk result (IsUpdated relations.old relations.new table.0 rows.now assignments.now) }
    ensures unchanged { OnErr result (relations.new ≡ relations.old) }
    ensures refused { IfErr result (IsNotUpdated relations.old table.0 assignments.now) }
{
    let (before, rest) = relations.split_at_mut(table.0);
    set_rows_beside(alloc, before, &mut rest[0], rows, assignments, sets, lost)
}
