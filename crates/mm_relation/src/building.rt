//! A declared index that is made over the rows that are there, and one that goes.
ghost use Rattle.ttree.specs.Held.{items_of_tree};
ghost use Rattle.std.specs.Prelude.{◌≡◌, ◌≤◌, IsSome, IfOk, OnOk, OnErr, position};
ghost use Rattle.std.specs.FinMap as finite;
ghost use Rattle.part_raw.specs.declared.tuple_ref.TupleRef.{TupleRef};
ghost use Rattle.mm_relation.specs.Declaring.{without_first, is_index, IsAdded};
ghost use Rattle.mm_relation.specs.Owing.{HasOwed, IsReady};
ghost use Rattle.mm_relation.specs.Indexes.{declaration_of, seen, Serves, Serve};
ghost use Rattle.mm_relation.specs.Reading.{value_at};
ghost use Rattle.mm_relation.specs.State.{IsKeyed, TreeServes, HashServes};

use crate::index::{Index, IndexOn, hash_in};
use crate::indexes::is_same;
use crate::linked_keys::LinkedKeys;
use crate::numbers::DeclaredIndex;
use crate::rows::Rows;
use crate::sorted_rows::rows_by_column;
use crate::tree::{Tree, tree_of};
use lin_hash::RowHash;
use no_memory::NoMemory;
use part_raw::TupleRef;
use plain_tables::{ColumnNumber, IndexKind, Sequence};
use std::alloc::Global;

// A hash on a column, which has each of the rows. They come in one by one.
fn hash_over<R: LinkedKeys>(
    alloc: Global,
    rows: &Rows,
    by_key: &Tree,
    others: &R,
    column: ColumnNumber,
) -> Result<RowHash, NoMemory>
    requires keyed { IsKeyed rows.now.tuples (items_of_tree by_key.now) }
    requires few { finite.len rows.now.tuples ≤ 16777216 }
    requires read { (q : TupleRef) → IsSome (finite.get rows.now.tuples q) → IsSome (value_at (R.keys others.now) column.0 rows.now.tuples q) }
    ensures serves { IfOk result (λ h. HashServes (R.keys others.now) rows.now.tuples (items_of_tree by_key.now) (column.0, h.entries)) }
{
    let mut hash = RowHash::new(alloc);
    hash.reserve(by_key.len())?;
    let slots = rows.slots();
    for r in by_key.walk() {
        prove!(u64::from(r.number) < slots);
        hash.cover(r)?;
        hash.insert(hash_in(rows, others, column, r), r);
    }
    Ok(hash)
}

// A tree on a column, which has each of the rows. It is built from below.
fn tree_over<R: LinkedKeys>(
    alloc: Global,
    rows: &Rows,
    by_key: &Tree,
    others: &R,
    column: ColumnNumber,
) -> Result<Tree, NoMemory>
    requires keyed { IsKeyed rows.now.tuples (items_of_tree by_key.now) }
    requires few { finite.len rows.now.tuples ≤ 16777216 }
    requires read { (q : TupleRef) → IsSome (finite.get rows.now.tuples q) → IsSome (value_at (R.keys others.now) column.0 rows.now.tuples q) }
    ensures serves { IfOk result (λ t. TreeServes (R.keys others.now) rows.now.tuples (items_of_tree by_key.now) (column.0, t.tree)) }
{
    let refs = rows_by_column(alloc, rows, by_key, others, column)?;
    tree_of(alloc, refs.as_slice())
}

// Gives an index memory for the rows that are owed.
fn make_ready(on: &mut IndexOn, rows: &Rows) -> Result<(), NoMemory>
    ensures same { seen on.new ≡ seen on.old }
    ensures ready { OnOk result (IsReady rows.now.aside.owed rows.now.aside.hidden on.new) }
{
    let owed = rows.owed();
    if owed > 0 {
        for slot in 0..rows.slots() {
            on.cover(TupleRef {
                number: slot as u32,
            })?;
        }
        on.reserve(owed as usize)?;
    }
    Ok(())
}

// An index as it is declared, which has each of the rows, and memory for those that are owed.
fn index_over<R: LinkedKeys>(
    alloc: Global,
    rows: &Rows,
    by_key: &Tree,
    others: &R,
    declared: DeclaredIndex,
) -> Result<IndexOn, NoMemory>
    requires keyed { IsKeyed rows.now.tuples (items_of_tree by_key.now) }
    requires few { finite.len rows.now.tuples ≤ 16777216 }
    requires read { (q : TupleRef) → IsSome (finite.get rows.now.tuples q) → IsSome (value_at (R.keys others.now) declared.column.0 rows.now.tuples q) }
    ensures declaration { IfOk result (λ on. declaration_of on ≡ declared) }
    ensures serves { IfOk result (λ on. Serves (R.keys others.now) rows.now.tuples (items_of_tree by_key.now) (seen on)) }
    ensures ready { IfOk result (λ on. IsReady rows.now.aside.owed rows.now.aside.hidden on) }
{
    let column = declared.column;
    let index = match declared.kind {
        IndexKind::Tree => Index::Tree(tree_over(alloc, rows, by_key, others, column)?),
        IndexKind::Hash => Index::Hash(hash_over(alloc, rows, by_key, others, column)?),
    };
    let mut on = IndexOn { column, index };
    make_ready(&mut on, rows)?;
    Ok(on)
}

// Puts one more behind the others, which serves the rows.
pub fn add_index<R: LinkedKeys>(
    indexes: &mut Sequence<IndexOn>,
    rows: &Rows,
    by_key: &Tree,
    others: &R,
    index: DeclaredIndex,
    alloc: Global,
) -> Result<(), NoMemory>
    requires keyed { IsKeyed rows.now.tuples (items_of_tree by_key.now) }
    requires few { finite.len rows.now.tuples ≤ 16777216 }
    requires read { (q : TupleRef) → IsSome (finite.get rows.now.tuples q) → IsSome (value_at (R.keys others.now) index.column.0 rows.now.tuples q) }
    requires serve { Serve (R.keys others.now) rows.now.tuples (items_of_tree by_key.now) indexes.old }
    ensures added { OnOk result (IsAdded index indexes.old indexes.new) }
    ensures serve { Serve (R.keys others.now) rows.now.tuples (items_of_tree by_key.now) indexes.new }
    ensures owed { HasOwed rows.now.aside.owed rows.now.aside.hidden by_key.now indexes.old → HasOwed rows.now.aside.owed rows.now.aside.hidden by_key.now indexes.new }
    ensures unchanged { OnErr result (indexes.new ≡ indexes.old) }
{
    let on = index_over(alloc, rows, by_key, others, index)?;
    indexes.push(on)
}

// The place of the first index like this one.
pub fn first_index(indexes: &[IndexOn], index: DeclaredIndex) -> Option<usize>
    ensures { result ≡ position (λ on. is_index index (declaration_of on)) indexes.now }
{
    indexes
        .iter()
        .position(|on| is_same(on.declaration(), index))
}

// Takes out the first index like this one, where there is one.
#[tactic(auto, using(crate::proofs::Dropping::removed_first, crate::proofs::Dropping::nothing_first))]
pub fn drop_index(indexes: &mut Sequence<IndexOn>, index: DeclaredIndex)
    ensures { indexes.new ≡ without_first (λ on. is_index index (declaration_of on)) indexes.old }
{
    if let Some(place) = first_index(indexes.as_slice(), index) {
        indexes.remove(place);
    }
}
