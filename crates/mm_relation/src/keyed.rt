//! The rows in their store, under the tree of their keys.
ghost use Rattle.ttree.specs.Held.{items_of_tree};
ghost use Rattle.ttree.specs.Room.{room_of};
ghost use Rattle.std.specs.Prelude.{◌≡◌, ◌+◌, ◌<◌, ◌≤◌, ◌∷◌, [], None, Some, IsSome, IfOk, OnErr, length, map};
ghost use Rattle.std.specs.FinMap as finite;
ghost use Rattle.part_raw.specs.declared.tuple_ref.TupleRef.{TupleRef};
ghost use Rattle.mm_index.specs.Bag.{IsSameBag};
ghost use Rattle.mm_relation.specs.Rows.{Row, StartsWithKey, referrers_at, row_of, with_hidden, with_number, with_shown, without_number};
ghost use Rattle.mm_relation.specs.State.{IsKeyed, HasKey};
ghost use Rattle.mm_relation.specs.Changes.{IsPlacedRightly};
ghost use Rattle.mm_relation.specs.Indexes.{seen, KeepRoom, Cover};

use crate::index::IndexOn;
use crate::indexes::cover;
use crate::order::KeyOrder;
use crate::probe::KeySearch;
use crate::refusal::RowRefusal;
use crate::rows::Rows;
use crate::stored_cell::StoredCell;
use crate::tree::Tree;
use mm_index::OrderProbe;
use part_raw::TupleRef;
use plain_tables::Sequence;

// Takes the row of these cells in unless its key is there, by one search, or by none where the keys of rows before it
// stood behind all others and its own does. There is room for it, and the indexes get memory for its node. The cells are
// gone either way, and the vector keeps its memory.
pub fn put_row(
    rows: &mut Rows,
    by_key: &mut Tree,
    indexes: &mut Sequence<IndexOn>,
    row: &mut Vec<StoredCell>,
) -> Result<TupleRef, RowRefusal>
    requires free { 0 < rows.old.free }
    requires width { length row.old.items ≡ rows.old.width }
    requires starts { StartsWithKey row.old.items }
    requires key_room { 0 < (room_of 30 by_key.old) }
    requires few { finite.len rows.old.tuples < 16777216 }
    requires keyed { IsKeyed rows.old.tuples (items_of_tree by_key.old) }
    ensures keyed { IsKeyed rows.new.tuples (items_of_tree by_key.new) }
    ensures fresh { IfOk result (λ r. finite.get rows.old.tuples r ≡ None) }
    ensures put { IfOk result (λ r. rows.new.tuples ≡ finite.insert rows.old.tuples r (row_of row.old.items)) }
    ensures listed { IfOk result (λ r. IsSameBag (items_of_tree by_key.new) (r ∷ (items_of_tree by_key.old))) }
    ensures covered { IfOk result (λ r. Cover r indexes.new) }
    ensures told { IsPlacedRightly (HasKey rows.old.tuples (row_of row.old.items).key) result }
    ensures kept { OnErr result (rows.new.tuples ≡ rows.old.tuples) }
    ensures kept_tree { OnErr result (by_key.new ≡ by_key.old) }
    ensures same { map seen indexes.new ≡ map seen indexes.old }
    ensures keeps { KeepRoom 0 0 indexes.old indexes.new }
    ensures key_room { room_of 30 by_key.old ≤ room_of 30 by_key.new + 1 }
    ensures width { rows.new.width ≡ rows.old.width }
    ensures aside { IfOk result (λ r. rows.new.aside ≡ with_number rows.old.aside r 0) }
    ensures kept_aside { OnErr result (rows.new.aside ≡ rows.old.aside) }
    ensures moved { row.new.items ≡ [] }
{
    let r = rows.put(row)?;
    if cover(indexes, r).is_err() {
        rows.remove(r);
        return Err(RowRefusal::NoMemory);
    }
    let sought = rows.key(r).sought();
    let mut probe = KeySearch {
        rows,
        sought: &sought,
    };
    if by_key.insert_from_end(&mut probe, r).is_some() {
        rows.remove(r);
        return Err(RowRefusal::KeyExists);
    }
    Ok(r)
}

// Takes a row out. It takes no memory.
pub fn take_row(rows: &mut Rows, by_key: &mut Tree, r: TupleRef)
    requires held { IsSome (finite.get rows.old.tuples r) }
    requires keyed { IsKeyed rows.old.tuples (items_of_tree by_key.old) }
    ensures keyed { IsKeyed rows.new.tuples (items_of_tree by_key.new) }
    ensures taken { rows.new.tuples ≡ finite.remove rows.old.tuples r }
    ensures unlisted { IsSameBag (items_of_tree by_key.old) (r ∷ (items_of_tree by_key.new)) }
    ensures key_room { room_of 30 by_key.old ≤ room_of 30 by_key.new }
    ensures width { rows.new.width ≡ rows.old.width }
    ensures aside { rows.new.aside ≡ without_number rows.old.aside r }
{
    by_key.remove(&mut OrderProbe::new(&KeyOrder::beside(rows, r), r));
    rows.remove(r);
}

// Hides a row. It takes no memory.
pub fn hide_row(rows: &mut Rows, by_key: &mut Tree, r: TupleRef)
    requires held { IsSome (finite.get rows.old.tuples r) }
    requires unnamed { referrers_at rows.old.aside.numbers r ≡ 0 }
    requires owed { finite.len rows.old.aside.hidden < rows.old.aside.owed }
    requires keyed { IsKeyed rows.old.tuples (items_of_tree by_key.old) }
    ensures keyed { IsKeyed rows.new.tuples (items_of_tree by_key.new) }
    ensures unlisted { IsSameBag (items_of_tree by_key.old) (r ∷ (items_of_tree by_key.new)) }
    ensures key_room { room_of 30 by_key.old ≤ room_of 30 by_key.new }
    ensures hidden { (row : Row) → finite.get rows.old.tuples r ≡ Some row → rows.new ≡ with_hidden rows.old r row }
{
    by_key.remove(&mut OrderProbe::new(&KeyOrder::beside(rows, r), r));
    rows.hide(r);
}

// Shows a hidden row again, whose key no row has. It takes no memory.
pub fn show_row(rows: &mut Rows, by_key: &mut Tree, r: TupleRef)
    requires hidden { IsSome (finite.get rows.old.aside.hidden r) }
    requires new_key { (row : Row) → finite.get rows.old.aside.hidden r ≡ Some row → HasKey rows.old.tuples row.key → ⊥ }
    requires key_room { 0 < (room_of 30 by_key.old) }
    requires few { finite.len rows.old.tuples < 16777216 }
    requires keyed { IsKeyed rows.old.tuples (items_of_tree by_key.old) }
    ensures keyed { IsKeyed rows.new.tuples (items_of_tree by_key.new) }
    ensures fresh { finite.get rows.old.tuples r ≡ None }
    ensures listed { IsSameBag (items_of_tree by_key.new) (r ∷ (items_of_tree by_key.old)) }
    ensures key_room { room_of 30 by_key.old ≤ room_of 30 by_key.new + 1 }
    ensures shown { (row : Row) → finite.get rows.old.aside.hidden r ≡ Some row → rows.new ≡ with_shown rows.old r row }
{
    rows.hidden_are_apart();
    rows.show(r);
    let sought = rows.key(r).sought();
    let mut probe = KeySearch {
        rows,
        sought: &sought,
    };
    by_key.insert_from_end(&mut probe, r);
}
