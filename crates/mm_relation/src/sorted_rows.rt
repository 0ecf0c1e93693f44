//! The rows that are there in the order of a column, of which a tree on it is built.
ghost use Rattle.std.specs.Prelude.{◌≡◌, Some, IsSome, IfOk, IfSome, OnOk, All, map};
ghost use Rattle.std.specs.FinMap as finite;
ghost use Rattle.std.specs.List.Sorted.{IsPermutation, IsSorted, IsStable};
ghost use Rattle.part_raw.specs.declared.tuple_ref.TupleRef.{TupleRef};
ghost use Rattle.plain_tables.specs.declared.value.Value.TheVariants.{Int};
ghost use Rattle.ttree.specs.Held.{items_of_tree};
ghost use Rattle.mm_index.specs.Bag.{IsSameBag};
ghost use Rattle.mm_index.specs.Order.{IsRising};
ghost use Rattle.mm_relation.specs.Order.{column_cmp};
ghost use Rattle.mm_relation.specs.Reading.{value_at};
ghost use Rattle.mm_relation.specs.Sorting.{AreSorted};
ghost use Rattle.mm_relation.specs.State.{IsKeyed};

use crate::linked_keys::LinkedKeys;
use crate::order::value_in;
use crate::rows::Rows;
use crate::tree::Tree;
use no_memory::NoMemory;
use part_raw::TupleRef;
use plain_tables::{ColumnNumber, SeenValue, StoredValue};
use std::alloc::Global;

// A row's reference, with what the row has in the column by which it is sorted.
#[derive(Clone, Copy)]
struct SortedRow<V> {
    value: V,
    r: TupleRef,
}

// The rows in the order of their keys, with what they have in a column.
fn values_by_key<'a, R: LinkedKeys>(
    alloc: Global,
    rows: &'a Rows,
    by_key: &Tree,
    others: &'a R,
    column: ColumnNumber,
) -> Result<Vec<SortedRow<&'a StoredValue>>, NoMemory>
    requires keyed { IsKeyed rows.now.tuples (items_of_tree by_key.now) }
    requires read { (q : TupleRef) → IsSome (finite.get rows.now.tuples q) → IsSome (value_at (R.keys others.now) column.0 rows.now.tuples q) }
    ensures refs { IfOk result (λ v. map (λ s. s.r) v.items ≡ items_of_tree by_key.now) }
    ensures values { IfOk result (λ v. All (λ s. value_at (R.keys others.now) column.0 rows.now.tuples s.r ≡ Some s.value.now) v.items) }
{
    let mut sorted = Vec::with_capacity(alloc, by_key.len())?;
    for r in by_key.walk() {
        let value = value_in(rows, others, column, r);
        sorted.push(SortedRow { value, r })?;
    }
    Ok(sorted)
}

// The same with the integers themselves, where the rows have nothing else in the column: to compare two reads no row.
fn integers_by_key<R: LinkedKeys>(
    alloc: Global,
    rows: &Rows,
    by_key: &Tree,
    others: &R,
    column: ColumnNumber,
) -> Result<Option<Vec<SortedRow<i64>>>, NoMemory>
    requires keyed { IsKeyed rows.now.tuples (items_of_tree by_key.now) }
    requires read { (q : TupleRef) → IsSome (finite.get rows.now.tuples q) → IsSome (value_at (R.keys others.now) column.0 rows.now.tuples q) }
    ensures refs { IfOk result (λ o. IfSome o (λ v. map (λ s. s.r) v.items ≡ items_of_tree by_key.now)) }
    ensures values { IfOk result (λ o. IfSome o (λ v. All (λ s. value_at (R.keys others.now) column.0 rows.now.tuples s.r ≡ Some (Int s.value)) v.items)) }
{
    let mut sorted = Vec::with_capacity(alloc, by_key.len())?;
    for r in by_key.walk() {
        let SeenValue::Int(value) = value_in(rows, others, column, r).seen() else {
            return Ok(None);
        };
        sorted.push(SortedRow { value, r })?;
    }
    Ok(Some(sorted))
}

// Sorts rows by what they have in the column. Those that have the same stay in the order in which they came.
fn sort_by_value<V: Ord + Copy>(rows: &mut Vec<SortedRow<V>>) -> Result<(), NoMemory>
    ensures moved { IsPermutation rows.old.items rows.new.items }
    ensures sorted { OnOk result (IsSorted (λ s t. V.cmp s.value t.value) rows.new.items) }
    ensures stable { OnOk result (IsStable (λ s t. V.cmp s.value t.value) rows.old.items rows.new.items) }
{
    rows.sort_by(|s, t| s.value.cmp(&t.value))?;
    Ok(())
}

// Their references.
fn refs_of<V: Copy>(alloc: Global, rows: &[SortedRow<V>]) -> Result<Vec<TupleRef>, NoMemory>
    ensures { IfOk result (λ v. v.items ≡ map (λ s. s.r) rows.now) }
{
    Ok(rows.iter().map(|s| s.r).collect(alloc)?)
}

// The references of these rows, once they are sorted.
fn sorted_refs<V: Ord + Copy>(
    alloc: Global,
    mut rows: Vec<SortedRow<V>>,
) -> Result<Vec<TupleRef>, NoMemory>
    ensures { IfOk result (λ v. AreSorted V.cmp rows.items v.items) }
{
    sort_by_value(&mut rows)?;
    refs_of(alloc, rows.as_slice())
}

// The references of the rows in the order of a column.
pub fn rows_by_column<R: LinkedKeys>(
    alloc: Global,
    rows: &Rows,
    by_key: &Tree,
    others: &R,
    column: ColumnNumber,
) -> Result<Vec<TupleRef>, NoMemory>
    requires keyed { IsKeyed rows.now.tuples (items_of_tree by_key.now) }
    requires read { (q : TupleRef) → IsSome (finite.get rows.now.tuples q) → IsSome (value_at (R.keys others.now) column.0 rows.now.tuples q) }
    ensures bag { IfOk result (λ v. IsSameBag v.items (items_of_tree by_key.now)) }
    ensures rising { IfOk result (λ v. IsRising (column_cmp (R.keys others.now) column.0 rows.now.tuples) v.items) }
{
    if let Some(integers) = integers_by_key(alloc, rows, by_key, others, column)? {
        return sorted_refs(alloc, integers);
    }
    sorted_refs(alloc, values_by_key(alloc, rows, by_key, others, column)?)
}
