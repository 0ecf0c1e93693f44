//! A row that comes into one relation among others.
ghost use Rattle.std.specs.Prelude.{◌≡◌, ◌⊎◌, ℕ, ◌<◌, ◌≤◌, ◌∷◌, [], List, None, Some, All, IfOk, IfErr, OnOk, OnErr, length, slice_get, vec_capacity};
ghost use Rattle.std.specs.FinMap as finite;
ghost use Rattle.plain_tables.specs.declared.value.Value.{Value};
ghost use Rattle.mm_relation.specs.Rows.{StartsWithKey, row_of};
ghost use Rattle.mm_relation.specs.State.{RelationState, IsKept, IsCurrent, IsReadable, HasKey, linked_keys};
ghost use Rattle.mm_catalog.specs.Cells.{AreRowCells, IsCellOf, cell_for, led_to};
ghost use Rattle.mm_catalog.specs.Standing.{StandsBeside, Stands};
ghost use Rattle.mm_catalog.specs.Inserted.{IsKeptOut, IsNotNamed, IsTakenIn, IsInsertedBeside, IsInsertedAt, IsRefusedAt};
ghost use Rattle.mm_catalog.specs.Linked.{target_at, row_links};
ghost use Rattle.mm_catalog.specs.Counted.{IsHeldIn, HaveRoom};

use crate::before::Before;
use crate::references::cells::named_row;
use crate::references::counting::count_up_links;
use crate::references::link::target_number;
use crate::row_values::RowValues;
use mm_relation::laws::a_relation_is_kept;
use mm_relation::{ColumnNumber, Relation, RowRefusal, StoredCell};
use no_memory::NoMemory;
use part_raw::TupleRef;
use plain_tables::{Limits, Refusal, TableNumber, Value};
use std::alloc::Global;

// The refusal of a row of these cells that cannot come in: its key is held already, or there is this reason.
fn kept_out(relation: &Relation, cells: &[StoredCell], reason: Refusal) -> Refusal
    requires { StartsWithKey cells.now }
    ensures { (HasKey relation.now.rows (row_of cells.now).key × (result ≡ Refusal.KeyExists None)) ⊎ ((HasKey relation.now.rows (row_of cells.now).key → ⊥) × (result ≡ reason)) }
{
    if relation.has_key_of(cells) {
        Refusal::KeyExists { record: None }
    } else {
        reason
    }
}

// ---- the cells

// The row that the next value of a row names, where it does not hold the value itself. These cells are those of the values
// before it: the first of all is the key. It is refused where there is no row that it is to name. A row may have been guessed.
#[inline]
fn next_named(
    before: &[Relation],
    relation: &Relation,
    cells: &[StoredCell],
    value: &Value,
    guess: Option<TupleRef>,
) -> Result<Option<TupleRef>, Refusal>
    requires starts { 0 < length cells.now → StartsWithKey cells.now }
    requires width { length cells.now < length relation.now.targets }
    requires back { (column : ℕ) (table : ℕ) → target_at relation.now.targets column ≡ Some table → table < length before.now }
    ensures named { IfOk result (λ to. IsCellOf before.now (led_to relation.now.targets (length cells.now)) value.now (cell_for value.now to)) }
    ensures refused { IfErr result (IsNotNamed before.now relation.now cells.now value.now) }
{
    if cells.is_empty() {
        return Ok(None);
    }
    let target = target_number(relation, ColumnNumber(cells.len()));
    if target.is_none() {
        return Ok(None);
    }
    next_link(before, relation, cells, target, value, guess)
}

// The same of a value that is not the first, where its links lead to that relation.
#[inline(never)]
fn next_link(
    before: &[Relation],
    relation: &Relation,
    cells: &[StoredCell],
    target: Option<usize>,
    value: &Value,
    guess: Option<TupleRef>,
) -> Result<Option<TupleRef>, Refusal>
    requires starts { StartsWithKey cells.now }
    requires target { target ≡ target_at relation.now.targets (length cells.now) }
    requires back { (table : ℕ) → target ≡ Some table → table < length before.now }
    ensures named { IfOk result (λ to. IsCellOf before.now target value.now (cell_for value.now to)) }
    ensures refused { IfErr result (IsNotNamed before.now relation.now cells.now value.now) }
{
    match named_row(before, target, value, guess) {
        Ok(named) => Ok(named),
        Err(refusal) => Err(kept_out(relation, cells, refusal)),
    }
}

// Empties a vector of cells, and makes sure of room for so many.
fn empty_for(cells: &mut Vec<StoredCell>, count: usize) -> Result<(), NoMemory>
    ensures none { cells.new.items ≡ [] }
    ensures room { OnOk result (count ≤ vec_capacity cells.new) }
{
    cells.clear();
    cells.reserve(count)?;
    Ok(())
}

// Packs the cells of the values of a row, in place of what is there.
fn pack<V: RowValues>(
    alloc: Global,
    before: &[Relation],
    relation: &Relation,
    mut values: V,
    cells: &mut Vec<StoredCell>,
) -> Result<(), Refusal>
    requires width { length (V.left values) ≤ length relation.now.targets }
    requires back { (column : ℕ) (table : ℕ) → target_at relation.now.targets column ≡ Some table → table < length before.now }
    ensures cells { OnOk result ((key : Value) (rest : List Value) → V.left values ≡ key ∷ rest → AreRowCells before.now relation.now.targets key rest cells.new.items) }
    ensures refused { IfErr result (λ refusal. (most : ℕ) (key : Value) (rest : List Value) → V.left values ≡ key ∷ rest → IsKeptOut before.now relation.now most key rest refusal) }
{
    let count = values.len();
    empty_for(cells, count)?;
    for _ in 0..count {
        let guess = values.guess(cells.len());
        let named = next_named(before, relation, cells.as_slice(), values.next(), guess)?;
        values.put(alloc, named, cells)?;
    }
    Ok(())
}

// ---- the row

// Takes the row of these cells in, unless its key is held already, where there is room for it, and counts its links. It
// gives the reference of the row.
fn take_in(
    before: &mut [Relation],
    relation: &mut Relation,
    cells: &mut Vec<StoredCell>,
) -> Result<TupleRef, Refusal>
    requires kept { All IsKept before.old }
    requires starts { StartsWithKey cells.old.items }
    requires width { length cells.old.items ≡ length relation.old.targets }
    requires readable { IsReadable (linked_keys relation.old.targets before.old) (length relation.old.targets) (row_of cells.old.items) }
    requires current { IsCurrent (linked_keys relation.old.targets before.old) relation.old }
    requires few { finite.len relation.old.rows < 16777216 }
    requires links { All (IsHeldIn before.old) (row_links relation.old.targets (row_of cells.old.items)) }
    requires room { HaveRoom before.old (length relation.old.targets) }
    ensures taken { IfOk result (λ r. IsTakenIn before.old before.new relation.old relation.new r (row_of cells.old.items)) }
    ensures fresh { IfOk result (λ _. HasKey relation.old.rows (row_of cells.old.items).key → ⊥) }
    ensures refused { IfErr result (λ refusal. (most : ℕ) (rest : List Value) → IsKeptOut before.old relation.old most (row_of cells.old.items).key rest refusal) }
    ensures others { OnErr result (before.new ≡ before.old) }
    ensures unchanged { OnErr result (relation.new ≡ relation.old) }
{
    let taken = relation.insert_row(&Before { relations: before }, cells);
    match taken {
        Ok(r) => {
            a_relation_is_kept(relation);
            count_up_links(before, relation, r);
            Ok(r)
        }
        Err(RowRefusal::KeyExists) => Err(Refusal::KeyExists { record: None }),
        Err(RowRefusal::NoMemory) => Err(Refusal::NoMemory),
        Err(RowRefusal::Full) => unreachable!(),
    }
}

// Puts the row of these cells into a relation, whose links lead into those before it. It gives the reference of the row.
fn insert_packed(
    before: &mut [Relation],
    relation: &mut Relation,
    limits: Limits,
    cells: &mut Vec<StoredCell>,
) -> Result<TupleRef, Refusal>
    requires few { limits.rows ≤ 16777216 }
    requires stands { StandsBeside before.old relation.old }
    requires width { length cells.old.items ≡ length relation.old.targets }
    requires row { (key : Value) × (rest : List Value) × AreRowCells before.old relation.old.targets key rest cells.old.items }
    ensures inserted { (key : Value) (rest : List Value) → AreRowCells before.old relation.old.targets key rest cells.old.items → IfOk result (IsInsertedBeside before.old before.new relation.old relation.new limits.rows key rest) }
    ensures refused { (key : Value) (rest : List Value) → AreRowCells before.old relation.old.targets key rest cells.old.items → IfErr result (IsKeptOut before.old relation.old limits.rows key rest) }
    ensures others { OnErr result (before.new ≡ before.old) }
    ensures unchanged { OnErr result (relation.new ≡ relation.old) }
{
    if relation.len() >= u64::from(limits.rows) {
        let full = Refusal::TableFull { record: None };
        return Err(kept_out(relation, cells.as_slice(), full));
    }
    take_in(before, relation, cells)
}

// Puts the row of these values into the relation of this number, whose links lead into those before it. It gives the
// reference of the row. Its cells are packed in the vector on their way, in place of what is there.
pub fn insert<V: RowValues>(
    alloc: Global,
    relations: &mut [Relation],
    limits: Limits,
    table: TableNumber,
    values: V,
    cells: &mut Vec<StoredCell>,
) -> Result<TupleRef, Refusal>
    requires few { limits.rows ≤ 16777216 }
    requires there { table.0 < length relations.old }
    requires stands { Stands relations.old table.0 }
    requires some { 0 < length (V.left values) }
    requires width { (s : RelationState) → slice_get relations.old table.0 ≡ Some s → length (V.left values) ≡ length s.targets }
    ensures inserted { IfOk result (IsInsertedAt relations.old relations.new table.0 limits.rows (V.left values)) }
    ensures refused { IfErr result (IsRefusedAt relations.old table.0 limits.rows (V.left values)) }
    ensures unchanged { OnErr result (relations.new ≡ relations.old) }
{
    let (before, rest) = relations.split_at_mut(table.0);
    let relation = &mut rest[0];
    pack(alloc, before, relation, values, cells)?;
    insert_packed(before, relation, limits, cells)
}
