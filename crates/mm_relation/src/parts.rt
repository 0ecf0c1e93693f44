//! A row under all indexes of a relation, over the relation's parts.
ghost use Rattle.ttree.specs.Held.{items_of_tree, size};
ghost use Rattle.ttree_node.specs.TreeWithSpares.{TreeWithSpares};
ghost use Rattle.ttree.specs.Room.{room_of, nodes_of, nodes_for};
ghost use Rattle.std.specs.Prelude.{◌≡◌, ℕ, ◌+◌, ◌-◌, ◌≤◌, ◌<◌, [], max, length, slice_index_or, None, Some, IsSome, IfOk, OnOk, OnErr, All, map};
ghost use Rattle.std.specs.FinMap as finite;
ghost use Rattle.mm_relation.specs.declared.index.IndexOn.{IndexOn};
ghost use Rattle.mm_relation.specs.Rows.{Row, StartsWithKey, referrers_at, row_of, with_hidden, with_number, with_shown, without_number};
ghost use Rattle.mm_relation.specs.State.{IsKeyed, HasKey};
ghost use Rattle.mm_relation.specs.Changes.{IsPlacedRightly};
ghost use Rattle.mm_relation.specs.Owing.{HasOwed};
ghost use Rattle.mm_relation.specs.Indexes.{seen, spares_in, HasFewSpares, declaration_of, HaveRooms, KeepRoom, Serve, CanRead, CanReadRow};

use crate::index::IndexOn;
use crate::indexes::{insert, remove, reserve, shed_spares};
use crate::keyed::{hide_row, put_row, show_row, take_row};
use crate::linked_keys::LinkedKeys;
use crate::refusal::RowRefusal;
use crate::rows::Rows;
use crate::spares::{shed_rows, shed_tree};
use crate::stored_cell::StoredCell;
use crate::tree::Tree;
use no_memory::NoMemory;
use part_raw::TupleRef;
use plain_tables::Sequence;

// Makes sure that so many rows can come in, one by one, with no memory but for their slots and for their nodes in the hashes.
// What the indexes hold stays.
pub fn make_ready(
    by_key: &mut Tree,
    indexes: &mut Sequence<IndexOn>,
    n: u64,
) -> Result<(), NoMemory>
    requires { n ≤ 16777217 }
    ensures by_key { by_key.new.tree ≡ by_key.old.tree }
    ensures same { map seen indexes.new ≡ map seen indexes.old }
    ensures key_kept { room_of 30 by_key.old ≤ room_of 30 by_key.new }
    ensures keeps { KeepRoom 0 0 indexes.old indexes.new }
    ensures key_room { OnOk result (n ≤ room_of 30 by_key.new) }
    ensures room { OnOk result (HaveRooms n n indexes.new) }
    // Each tree has so many spare nodes at most, or those that it had, and none more where its nodes suffice.
    ensures key_spares { by_key.new.spares ≤ max by_key.old.spares n }
    ensures key_nodes { nodes_of by_key.new ≤ max (nodes_of by_key.old) (nodes_for 30 (length (items_of_tree by_key.old) + n)) }
    ensures spares { (k : ℕ) (d : IndexOn) → k < length indexes.old → spares_in (slice_index_or indexes.new k d).index ≤ max (spares_in (slice_index_or indexes.old k d).index) n }
{
    let n = n as usize;
    by_key.reserve(n)?;
    reserve(indexes, n, n)
}

// Makes sure of room for one row more beside those that are owed. What the parts hold stays.
pub fn make_room(
    rows: &mut Rows,
    by_key: &mut Tree,
    indexes: &mut Sequence<IndexOn>,
) -> Result<(), NoMemory>
    requires few { finite.len rows.old.tuples < 16777216 }
    requires owed { HasOwed rows.old.aside.owed rows.old.aside.hidden by_key.old indexes.old }
    ensures rows { rows.new.tuples ≡ rows.old.tuples }
    ensures width { rows.new.width ≡ rows.old.width }
    ensures aside { rows.new.aside ≡ rows.old.aside }
    ensures by_key { by_key.new.tree ≡ by_key.old.tree }
    ensures same { map seen indexes.new ≡ map seen indexes.old }
    ensures owed { HasOwed rows.old.aside.owed rows.old.aside.hidden by_key.new indexes.new }
    ensures free { OnOk result (0 < rows.new.free) }
    ensures room { OnOk result (HasOwed (rows.old.aside.owed + 1) rows.old.aside.hidden by_key.new indexes.new) }
    // Where nothing is owed each tree has one spare node more at most, and none more where its nodes suffice.
    ensures key_spares { by_key.new.spares ≤ max by_key.old.spares (rows.old.aside.owed + 1) }
    ensures key_nodes { nodes_of by_key.new ≤ max (nodes_of by_key.old) (nodes_for 30 (length (items_of_tree by_key.old) + (rows.old.aside.owed + 1))) }
    ensures spares { (k : ℕ) (d : IndexOn) → k < length indexes.old → spares_in (slice_index_or indexes.new k d).index ≤ max (spares_in (slice_index_or indexes.old k d).index) (rows.old.aside.owed + 1) }
{
    let wanted = rows.owed() + 1;
    if rows.free() == 0 {
        rows.reserve()?;
    }
    make_ready(by_key, indexes, wanted)
}

// Takes the row of these cells in unless its key is there. There is room for it, but for its nodes in the hashes. The cells
// are gone either way.
pub fn place<R: LinkedKeys>(
    rows: &mut Rows,
    by_key: &mut Tree,
    indexes: &mut Sequence<IndexOn>,
    links: &R,
    row: &mut Vec<StoredCell>,
) -> Result<TupleRef, RowRefusal>
    requires free { 0 < rows.old.free }
    requires width { length row.old.items ≡ rows.old.width }
    requires starts { StartsWithKey row.old.items }
    requires owed { HasOwed (rows.old.aside.owed + 1) rows.old.aside.hidden by_key.old indexes.old }
    requires few { finite.len rows.old.tuples < 16777216 }
    requires keyed { IsKeyed rows.old.tuples (items_of_tree by_key.old) }
    requires read { CanRead (R.keys links.now) rows.old.tuples indexes.old }
    requires row_read { CanReadRow (R.keys links.now) (row_of row.old.items) indexes.old }
    requires serve { Serve (R.keys links.now) rows.old.tuples (items_of_tree by_key.old) indexes.old }
    ensures keyed { IsKeyed rows.new.tuples (items_of_tree by_key.new) }
    ensures serve { Serve (R.keys links.now) rows.new.tuples (items_of_tree by_key.new) indexes.new }
    ensures declared { map declaration_of indexes.new ≡ map declaration_of indexes.old }
    ensures fresh { IfOk result (λ r. finite.get rows.old.tuples r ≡ None) }
    ensures put { IfOk result (λ r. rows.new.tuples ≡ finite.insert rows.old.tuples r (row_of row.old.items)) }
    ensures told { IsPlacedRightly (HasKey rows.old.tuples (row_of row.old.items).key) result }
    ensures kept { OnErr result (rows.new.tuples ≡ rows.old.tuples) }
    ensures kept_tree { OnErr result (by_key.new ≡ by_key.old) }
    ensures kept_indexes { OnErr result (map seen indexes.new ≡ map seen indexes.old) }
    ensures moved { row.new.items ≡ [] }
    ensures width { rows.new.width ≡ rows.old.width }
    ensures aside { IfOk result (λ r. rows.new.aside ≡ with_number rows.old.aside r 0) }
    ensures kept_aside { OnErr result (rows.new.aside ≡ rows.old.aside) }
    ensures owed { HasOwed rows.old.aside.owed rows.old.aside.hidden by_key.new indexes.new }
{
    let r = put_row(rows, by_key, indexes, row)?;
    insert(indexes, rows, links, r);
    Ok(r)
}

// Gives back what is spare of the rows' store and of an index, where nothing is owed, and where that is more than a share of
// what is in use.
pub fn settle(rows: &mut Rows, by_key: &mut Tree, indexes: &mut Sequence<IndexOn>)
    ensures tuples { rows.new.tuples ≡ rows.old.tuples }
    ensures width { rows.new.width ≡ rows.old.width }
    ensures aside { rows.new.aside ≡ rows.old.aside }
    ensures by_key { by_key.new.tree ≡ by_key.old.tree }
    ensures same { map seen indexes.new ≡ map seen indexes.old }
    ensures owed { HasOwed rows.old.aside.owed rows.old.aside.hidden by_key.old indexes.old → HasOwed rows.old.aside.owed rows.old.aside.hidden by_key.new indexes.new }
    // A tree has no more spare nodes then than nodes in use, but for a few.
    ensures key_spares { rows.old.aside.owed ≡ 0 → by_key.new.spares ≤ max (size by_key.new.tree) 64 }
    ensures spares { rows.old.aside.owed ≡ 0 → All HasFewSpares indexes.new }
{
    if rows.owed() == 0 {
        shed_tree(by_key);
        shed_spares(indexes);
        shed_rows(rows);
    }
}

// The same of the declared indexes alone.
pub fn settle_indexes(rows: &Rows, indexes: &mut Sequence<IndexOn>)
    ensures same { map seen indexes.new ≡ map seen indexes.old }
    ensures owed { (by_key : TreeWithSpares) → HasOwed rows.now.aside.owed rows.now.aside.hidden by_key indexes.old → HasOwed rows.now.aside.owed rows.now.aside.hidden by_key indexes.new }
{
    if rows.owed() == 0 {
        shed_spares(indexes);
    }
}

// Takes a row out. It takes no memory, and gives back what is spare.
pub fn displace<R: LinkedKeys>(
    rows: &mut Rows,
    by_key: &mut Tree,
    indexes: &mut Sequence<IndexOn>,
    links: &R,
    r: TupleRef,
)
    requires held { IsSome (finite.get rows.old.tuples r) }
    requires keyed { IsKeyed rows.old.tuples (items_of_tree by_key.old) }
    requires read { CanRead (R.keys links.now) rows.old.tuples indexes.old }
    requires serve { Serve (R.keys links.now) rows.old.tuples (items_of_tree by_key.old) indexes.old }
    ensures taken { rows.new.tuples ≡ finite.remove rows.old.tuples r }
    ensures width { rows.new.width ≡ rows.old.width }
    ensures aside { rows.new.aside ≡ without_number rows.old.aside r }
    ensures keyed { IsKeyed rows.new.tuples (items_of_tree by_key.new) }
    ensures serve { Serve (R.keys links.now) rows.new.tuples (items_of_tree by_key.new) indexes.new }
    ensures declared { map declaration_of indexes.new ≡ map declaration_of indexes.old }
    ensures owed { HasOwed rows.old.aside.owed rows.old.aside.hidden by_key.old indexes.old → HasOwed rows.old.aside.owed rows.old.aside.hidden by_key.new indexes.new }
    ensures key_spares { rows.old.aside.owed ≡ 0 → by_key.new.spares ≤ max (size by_key.new.tree) 64 }
    ensures spares { rows.old.aside.owed ≡ 0 → All HasFewSpares indexes.new }
{
    remove(indexes, rows, links, r);
    take_row(rows, by_key, r);
    settle(rows, by_key, indexes);
}

// Hides a row, out of every index. It takes no memory, and the indexes keep theirs.
pub fn withdraw<R: LinkedKeys>(
    rows: &mut Rows,
    by_key: &mut Tree,
    indexes: &mut Sequence<IndexOn>,
    links: &R,
    r: TupleRef,
)
    requires held { IsSome (finite.get rows.old.tuples r) }
    requires unnamed { referrers_at rows.old.aside.numbers r ≡ 0 }
    requires few { finite.len rows.old.aside.hidden < rows.old.aside.owed }
    requires owed { HasOwed rows.old.aside.owed rows.old.aside.hidden by_key.old indexes.old }
    requires keyed { IsKeyed rows.old.tuples (items_of_tree by_key.old) }
    requires read { CanRead (R.keys links.now) rows.old.tuples indexes.old }
    requires serve { Serve (R.keys links.now) rows.old.tuples (items_of_tree by_key.old) indexes.old }
    ensures hidden { (row : Row) → finite.get rows.old.tuples r ≡ Some row → rows.new ≡ with_hidden rows.old r row }
    ensures keyed { IsKeyed rows.new.tuples (items_of_tree by_key.new) }
    ensures serve { Serve (R.keys links.now) rows.new.tuples (items_of_tree by_key.new) indexes.new }
    ensures declared { map declaration_of indexes.new ≡ map declaration_of indexes.old }
    ensures owed { HasOwed rows.new.aside.owed rows.new.aside.hidden by_key.new indexes.new }
{
    remove(indexes, rows, links, r);
    hide_row(rows, by_key, r);
}

// Shows a hidden row again, under every index. One row fewer can come in then. It takes no memory.
pub fn restore<R: LinkedKeys>(
    rows: &mut Rows,
    by_key: &mut Tree,
    indexes: &mut Sequence<IndexOn>,
    links: &R,
    r: TupleRef,
)
    requires hidden { IsSome (finite.get rows.old.aside.hidden r) }
    requires new_key { (row : Row) → finite.get rows.old.aside.hidden r ≡ Some row → HasKey rows.old.tuples row.key → ⊥ }
    requires few { finite.len rows.old.tuples < 16777216 }
    requires some { 0 < rows.old.aside.owed }
    requires owed { HasOwed rows.old.aside.owed rows.old.aside.hidden by_key.old indexes.old }
    requires keyed { IsKeyed rows.old.tuples (items_of_tree by_key.old) }
    requires read { CanRead (R.keys links.now) rows.old.tuples indexes.old }
    requires row_read { (row : Row) → finite.get rows.old.aside.hidden r ≡ Some row → CanReadRow (R.keys links.now) row indexes.old }
    requires serve { Serve (R.keys links.now) rows.old.tuples (items_of_tree by_key.old) indexes.old }
    ensures shown { (row : Row) → finite.get rows.old.aside.hidden r ≡ Some row → rows.new ≡ with_shown rows.old r row }
    ensures fresh { finite.get rows.old.tuples r ≡ None }
    ensures keyed { IsKeyed rows.new.tuples (items_of_tree by_key.new) }
    ensures serve { Serve (R.keys links.now) rows.new.tuples (items_of_tree by_key.new) indexes.new }
    ensures declared { map declaration_of indexes.new ≡ map declaration_of indexes.old }
    ensures owed { HasOwed (rows.new.aside.owed - 1) rows.new.aside.hidden by_key.new indexes.new }
{
    show_row(rows, by_key, r);
    insert(indexes, rows, links, r);
}
