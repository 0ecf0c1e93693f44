//! The declared indexes of a relation, all together, in the order of their declaration.
ghost use Rattle.std.specs.Prelude.{◌≡◌, ◌==◌, ◌&&◌, ℕ, ◌<◌, ◌≤◌, max, length, slice_index_or, map, OnOk, All};
ghost use Rattle.std.specs.List.{list_any};
ghost use Rattle.part_raw.specs.declared.tuple_ref.TupleRef.{TupleRef};
ghost use Rattle.mm_relation.specs.declared.index.IndexOn.{IndexOn};
ghost use Rattle.mm_relation.specs.Order.{KeysDiffer};
ghost use Rattle.mm_relation.specs.Declaring.{is_index};
ghost use Rattle.mm_relation.specs.Settings.{sets_column};
ghost use Rattle.mm_relation.specs.State.{tree_of, entries_on, buckets_on, HasColumn, HasHashColumn};
ghost use Rattle.mm_relation.specs.Indexes.{seen, declaration_of, room_in, sure, CoversIn, spares_in, HasFewSpares, trees_of, hashes_of, all_buckets, Awaits, Gains, Has, Loses, GainsSet, AwaitsSet, LosesSet, HaveRooms, KeepRoom, Cover, Await, Gain, Have, Lose, AwaitSet, GainSet, LoseSet};

use crate::index::{Index, IndexOn};
use crate::linked_keys::LinkedKeys;
use crate::numbers::DeclaredIndex;
use crate::rows::Rows;
use crate::stored_cell::StoredCell;
use crate::tree::Tree;
use lin_hash::RowHash;
use no_memory::NoMemory;
use part_raw::{MAX_TUPLES, TupleRef};
use plain_tables::{ColumnNumber, Sequence};

// How many references more an index has to be sure of: so many in a tree, and so many in a hash.
fn sure_in(on: &IndexOn, trees: usize, hashes: usize) -> usize
    ensures { result ≡ sure trees hashes on.now.index }
{
    match on.index {
        Index::Tree(_) => trees,
        Index::Hash(_) => hashes,
    }
}

fn reserve_each(indexes: &mut [IndexOn], trees: usize, hashes: usize) -> Result<(), NoMemory>
    requires few { trees ≤ 33554432 }
    requires few_hashes { hashes ≤ 33554432 }
    ensures same { (k : ℕ) (d : IndexOn) → k < length indexes.old → seen (slice_index_or indexes.new k d) ≡ seen (slice_index_or indexes.old k d) }
    ensures room { (t h k : ℕ) (d : IndexOn) → k < length indexes.old → sure t h (slice_index_or indexes.old k d).index ≤ room_in (slice_index_or indexes.old k d).index → sure t h (slice_index_or indexes.new k d).index ≤ room_in (slice_index_or indexes.new k d).index }
    ensures kept { (q : TupleRef) (k : ℕ) (d : IndexOn) → k < length indexes.old → CoversIn q (slice_index_or indexes.old k d).index → CoversIn q (slice_index_or indexes.new k d).index }
    ensures reserved { OnOk result (HaveRooms trees hashes indexes.new) }
    ensures spares { (k : ℕ) (d : IndexOn) → k < length indexes.old → spares_in (slice_index_or indexes.new k d).index ≤ max (spares_in (slice_index_or indexes.old k d).index) (max trees hashes) }
{
    for on in indexes.iter_mut() {
        let wanted = sure_in(on, trees, hashes);
        on.reserve(wanted)?;
    }
    Ok(())
}

fn cover_each(indexes: &mut [IndexOn], r: TupleRef) -> Result<(), NoMemory>
    requires { r.number < MAX_TUPLES }
    ensures same { (k : ℕ) (d : IndexOn) → k < length indexes.old → seen (slice_index_or indexes.new k d) ≡ seen (slice_index_or indexes.old k d) }
    ensures room { (t h k : ℕ) (d : IndexOn) → k < length indexes.old → sure t h (slice_index_or indexes.old k d).index ≤ room_in (slice_index_or indexes.old k d).index → sure t h (slice_index_or indexes.new k d).index ≤ room_in (slice_index_or indexes.new k d).index }
    ensures kept { (q : TupleRef) (k : ℕ) (d : IndexOn) → k < length indexes.old → CoversIn q (slice_index_or indexes.old k d).index → CoversIn q (slice_index_or indexes.new k d).index }
    ensures covered { OnOk result (All (λ on. CoversIn r on.index) indexes.new) }
{
    for on in indexes.iter_mut() {
        on.cover(r)?;
    }
    Ok(())
}

fn shed_each(indexes: &mut [IndexOn])
    ensures same { (k : ℕ) (d : IndexOn) → k < length indexes.old → seen (slice_index_or indexes.new k d) ≡ seen (slice_index_or indexes.old k d) }
    ensures few { All HasFewSpares indexes.new }
{
    for on in indexes.iter_mut() {
        on.shed_spares();
    }
}

fn insert_each<R: LinkedKeys>(indexes: &mut [IndexOn], rows: &Rows, others: &R, r: TupleRef)
    requires keys_differ { KeysDiffer rows.now.tuples }
    requires awaits { All (Awaits (R.keys others.now) rows.now.tuples r) indexes.old }
    ensures { (k : ℕ) (d : IndexOn) → k < length indexes.old → Gains (R.keys others.now) rows.now.tuples r (slice_index_or indexes.old k d) (slice_index_or indexes.new k d) }
{
    for on in indexes.iter_mut() {
        on.insert(rows, others, r);
    }
}

fn remove_each<R: LinkedKeys>(indexes: &mut [IndexOn], rows: &Rows, others: &R, r: TupleRef)
    requires keys_differ { KeysDiffer rows.now.tuples }
    requires has { All (Has (R.keys others.now) rows.now.tuples r) indexes.old }
    ensures { (k : ℕ) (d : IndexOn) → k < length indexes.old → Loses (R.keys others.now) rows.now.tuples r (slice_index_or indexes.old k d) (slice_index_or indexes.new k d) }
{
    for on in indexes.iter_mut() {
        on.remove(rows, others, r);
    }
}

// Whether one of these cells is set in this column.
fn is_set(sets: &[(ColumnNumber, StoredCell)], column: ColumnNumber) -> bool
    ensures { result ≡ sets_column sets.now column.0 }
{
    sets.iter().any(|set| set.0.0 == column.0)
}

fn insert_if_set<R: LinkedKeys>(
    on: &mut IndexOn,
    rows: &Rows,
    others: &R,
    r: TupleRef,
    sets: &[(ColumnNumber, StoredCell)],
)
    requires keys_differ { KeysDiffer rows.now.tuples }
    requires awaits { AwaitsSet (R.keys others.now) rows.now.tuples r sets.now on.old }
    ensures { GainsSet (R.keys others.now) rows.now.tuples r sets.now on.old on.new }
{
    if is_set(sets, on.column) {
        on.insert(rows, others, r);
    }
}

fn remove_if_set<R: LinkedKeys>(
    on: &mut IndexOn,
    rows: &Rows,
    others: &R,
    r: TupleRef,
    sets: &[(ColumnNumber, StoredCell)],
)
    requires keys_differ { KeysDiffer rows.now.tuples }
    requires has { Has (R.keys others.now) rows.now.tuples r on.old }
    ensures { LosesSet (R.keys others.now) rows.now.tuples r sets.now on.old on.new }
{
    if is_set(sets, on.column) {
        on.remove(rows, others, r);
    }
}

fn insert_each_set<R: LinkedKeys>(
    indexes: &mut [IndexOn],
    rows: &Rows,
    others: &R,
    r: TupleRef,
    sets: &[(ColumnNumber, StoredCell)],
)
    requires keys_differ { KeysDiffer rows.now.tuples }
    requires awaits { All (AwaitsSet (R.keys others.now) rows.now.tuples r sets.now) indexes.old }
    ensures { (k : ℕ) (d : IndexOn) → k < length indexes.old → GainsSet (R.keys others.now) rows.now.tuples r sets.now (slice_index_or indexes.old k d) (slice_index_or indexes.new k d) }
{
    for on in indexes.iter_mut() {
        insert_if_set(on, rows, others, r, sets);
    }
}

fn remove_each_set<R: LinkedKeys>(
    indexes: &mut [IndexOn],
    rows: &Rows,
    others: &R,
    r: TupleRef,
    sets: &[(ColumnNumber, StoredCell)],
)
    requires keys_differ { KeysDiffer rows.now.tuples }
    requires has { All (Has (R.keys others.now) rows.now.tuples r) indexes.old }
    ensures { (k : ℕ) (d : IndexOn) → k < length indexes.old → LosesSet (R.keys others.now) rows.now.tuples r sets.now (slice_index_or indexes.old k d) (slice_index_or indexes.new k d) }
{
    for on in indexes.iter_mut() {
        remove_if_set(on, rows, others, r, sets);
    }
}

// Makes sure of memory for so many references more in each tree, and for so many in each hash.
pub fn reserve(indexes: &mut Sequence<IndexOn>, trees: usize, hashes: usize) -> Result<(), NoMemory>
    requires few { trees ≤ 33554432 }
    requires few_hashes { hashes ≤ 33554432 }
    ensures same { map seen indexes.new ≡ map seen indexes.old }
    ensures keeps { KeepRoom 0 0 indexes.old indexes.new }
    ensures reserved { OnOk result (HaveRooms trees hashes indexes.new) }
    ensures spares { (k : ℕ) (d : IndexOn) → k < length indexes.old → spares_in (slice_index_or indexes.new k d).index ≤ max (spares_in (slice_index_or indexes.old k d).index) (max trees hashes) }
{
    reserve_each(indexes.as_mut_slice(), trees, hashes)
}

// Makes sure of memory in each for the node of this row. What they have room for stays.
pub fn cover(indexes: &mut Sequence<IndexOn>, r: TupleRef) -> Result<(), NoMemory>
    requires { r.number < MAX_TUPLES }
    ensures same { map seen indexes.new ≡ map seen indexes.old }
    ensures keeps { KeepRoom 0 0 indexes.old indexes.new }
    ensures covered { OnOk result (Cover r indexes.new) }
{
    cover_each(indexes.as_mut_slice(), r)
}

// Gives back what is spare of each, where that is more than what is in use.
pub fn shed_spares(indexes: &mut Sequence<IndexOn>)
    ensures same { map seen indexes.new ≡ map seen indexes.old }
    ensures few { All HasFewSpares indexes.new }
{
    shed_each(indexes.as_mut_slice());
}

// Puts a row's reference into each. It takes no memory.
pub fn insert<R: LinkedKeys>(indexes: &mut Sequence<IndexOn>, rows: &Rows, others: &R, r: TupleRef)
    requires keys_differ { KeysDiffer rows.now.tuples }
    requires awaits { Await (R.keys others.now) rows.now.tuples r indexes.old }
    ensures { Gain (R.keys others.now) rows.now.tuples r indexes.old indexes.new }
{
    insert_each(indexes.as_mut_slice(), rows, others, r);
}

// Takes a row's reference out of each. It takes no memory.
pub fn remove<R: LinkedKeys>(indexes: &mut Sequence<IndexOn>, rows: &Rows, others: &R, r: TupleRef)
    requires keys_differ { KeysDiffer rows.now.tuples }
    requires has { Have (R.keys others.now) rows.now.tuples r indexes.old }
    ensures { Lose (R.keys others.now) rows.now.tuples r indexes.old indexes.new }
{
    remove_each(indexes.as_mut_slice(), rows, others, r);
}

// Puts a row's reference into each whose column is set. It takes no memory.
pub fn insert_set<R: LinkedKeys>(
    indexes: &mut Sequence<IndexOn>,
    rows: &Rows,
    others: &R,
    r: TupleRef,
    sets: &[(ColumnNumber, StoredCell)],
)
    requires keys_differ { KeysDiffer rows.now.tuples }
    requires awaits { AwaitSet (R.keys others.now) rows.now.tuples r sets.now indexes.old }
    ensures { GainSet (R.keys others.now) rows.now.tuples r sets.now indexes.old indexes.new }
{
    insert_each_set(indexes.as_mut_slice(), rows, others, r, sets);
}

// Takes a row's reference out of each whose column is set. It takes no memory.
pub fn remove_set<R: LinkedKeys>(
    indexes: &mut Sequence<IndexOn>,
    rows: &Rows,
    others: &R,
    r: TupleRef,
    sets: &[(ColumnNumber, StoredCell)],
)
    requires keys_differ { KeysDiffer rows.now.tuples }
    requires has { Have (R.keys others.now) rows.now.tuples r indexes.old }
    ensures { LoseSet (R.keys others.now) rows.now.tuples r sets.now indexes.old indexes.new }
{
    remove_each_set(indexes.as_mut_slice(), rows, others, r, sets);
}

// Whether two declarations are alike.
pub fn is_same(a: DeclaredIndex, b: DeclaredIndex) -> bool
    ensures { result ≡ is_index b a }
{
    a.column.0 == b.column.0 && a.kind == b.kind
}

// Whether an index like this one stands there.
pub fn is_declared(indexes: &[IndexOn], index: DeclaredIndex) -> bool
    ensures { result ≡ list_any (λ on. is_index index (declaration_of on)) indexes.now }
{
    indexes.iter().any(|on| is_same(on.declaration(), index))
}

// The first tree on this column.
pub fn tree_on(indexes: &[IndexOn], column: ColumnNumber) -> &Tree
    requires { HasColumn column.0 (trees_of (map seen indexes.now)) }
    ensures { result.now.tree ≡ tree_of column.0 (trees_of (map seen indexes.now)) }
{
    let Some((first, rest)) = indexes.split_first() else {
        unreachable!()
    };
    match &first.index {
        Index::Tree(tree) if first.column == column => tree,
        _ => tree_on(rest, column),
    }
}

// The first hash on this column.
pub fn hash_on(indexes: &[IndexOn], column: ColumnNumber) -> &RowHash
    requires { HasHashColumn column.0 (hashes_of (map seen indexes.now)) }
    ensures entries { result.now.entries ≡ entries_on column.0 (hashes_of (map seen indexes.now)) }
    ensures buckets { result.now.buckets ≡ buckets_on column.0 (all_buckets (map seen indexes.now)) }
{
    let Some((first, rest)) = indexes.split_first() else {
        unreachable!()
    };
    match &first.index {
        Index::Hash(hash) if first.column == column => hash,
        _ => hash_on(rest, column),
    }
}
