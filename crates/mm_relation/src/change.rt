//! Cells set in rows, under all indexes of a relation.
ghost use Rattle.std.specs.Prelude.{◌≡◌, ◌≢◌, ◌∷◌, ◌++◌, ◌≤◌, ◌<◌, ◌-◌, [], List, Some, IsSome, IfOk, OnOk, All, length, map};
ghost use Rattle.std.specs.List.{AllPairs};
ghost use Rattle.std.specs.FinMap as finite;
ghost use Rattle.part_raw.specs.declared.tuple_ref.TupleRef.{TupleRef};
ghost use Rattle.mm_relation.specs.declared.row.Cell.{Cell};
ghost use Rattle.mm_relation.specs.Rows.{Row};
ghost use Rattle.mm_relation.specs.State.{IsKeyed};
ghost use Rattle.mm_relation.specs.Settings.{with_cells, piled, pile, IsPiled, CanSet, CellsSet, link_set};
ghost use Rattle.mm_relation.specs.Indexes.{declaration_of, HaveRoom, KeepRoom, Serve, CanRead};

use crate::index::IndexOn;
use crate::indexes::{insert_set, remove_set};
use crate::linked_keys::LinkedKeys;
use crate::rows::Rows;
use crate::stored_cell::StoredCell;
use no_memory::NoMemory;
use part_raw::TupleRef;
use plain_tables::{ColumnNumber, Sequence};
use std::alloc::Global;

// Puts a copy of each cell on the pile, the first set's uppermost.
fn pile_copies(
    alloc: Global,
    sets: &[(ColumnNumber, StoredCell)],
    copies: &mut Vec<StoredCell>,
) -> Result<(), NoMemory>
    ensures { OnOk result (copies.new.items ≡ piled sets.now copies.old.items) }
{
    let Some(((_, cell), rest)) = sets.split_first() else {
        return Ok(());
    };
    pile_copies(alloc, rest, copies)?;
    let copy = cell.copied(alloc)?;
    copies.push(copy)?;
    Ok(())
}

// Copies of the cells for so many rows.
pub fn copies_for(
    alloc: Global,
    sets: &[(ColumnNumber, StoredCell)],
    count: usize,
) -> Result<Vec<StoredCell>, NoMemory>
    ensures { IfOk result (λ copies. copies.items ≡ pile count sets.now) }
{
    let mut copies = Vec::new(alloc);
    for _ in 0..count {
        pile_copies(alloc, sets, &mut copies)?;
    }
    Ok(copies)
}

// Takes the copy on top off the pile.
fn top_of(copies: &mut Vec<StoredCell>) -> StoredCell
    requires { 0 < length copies.old.items }
    ensures { copies.old.items ≡ copies.new.items ++ result ∷ [] }
{
    match copies.pop() {
        Some(cell) => cell,
        None => unreachable!(),
    }
}

// Sets cells in a row, each to the copy on top of the pile.
fn write_cells(
    rows: &mut Rows,
    r: TupleRef,
    sets: &[(ColumnNumber, StoredCell)],
    copies: &mut Vec<StoredCell>,
)
    requires held { IsSome (finite.get rows.old.tuples r) }
    requires columns { (t : Row) → finite.get rows.old.tuples r ≡ Some t → All (λ s. (0 < s.0.0) × (s.0.0 ≤ length t.cells)) sets.now }
    requires ready { IsPiled sets.now copies.old.items }
    ensures row { (t : Row) → finite.get rows.old.tuples r ≡ Some t → rows.new.tuples ≡ finite.insert rows.old.tuples r (with_cells sets.now t) }
    ensures width { rows.new.width ≡ rows.old.width }
    ensures aside { rows.new.aside ≡ rows.old.aside }
    ensures left { (under : List Cell) → copies.old.items ≡ piled sets.now under → copies.new.items ≡ under }
{
    let Some(((column, _), rest)) = sets.split_first() else {
        return;
    };
    let cell = top_of(copies);
    rows.set_cell(r, *column, cell);
    write_cells(rows, r, rest, copies);
}

// Sets cells in one row, which keeps its key and its reference. It takes no memory.
fn change_row<R: LinkedKeys>(
    rows: &mut Rows,
    indexes: &mut Sequence<IndexOn>,
    links: &R,
    r: TupleRef,
    sets: &[(ColumnNumber, StoredCell)],
    copies: &mut Vec<StoredCell>,
)
    requires held { IsSome (finite.get rows.old.tuples r) }
    requires few { finite.len rows.old.tuples ≤ 16777216 }
    requires room { HaveRoom 1 indexes.old }
    requires ready { IsPiled sets.now copies.old.items }
    requires settable { CanSet (R.keys links.now) rows.old.tuples sets.now }
    requires read { CanRead (R.keys links.now) rows.old.tuples indexes.old }
    requires served { (list : List TupleRef) × IsKeyed rows.old.tuples list × Serve (R.keys links.now) rows.old.tuples list indexes.old }
    ensures row { (t : Row) → finite.get rows.old.tuples r ≡ Some t → rows.new.tuples ≡ finite.insert rows.old.tuples r (with_cells sets.now t) }
    ensures served { (list : List TupleRef) → IsKeyed rows.old.tuples list → Serve (R.keys links.now) rows.old.tuples list indexes.old
        → IsKeyed rows.new.tuples list × Serve (R.keys links.now) rows.new.tuples list indexes.new }
    ensures declared { map declaration_of indexes.new ≡ map declaration_of indexes.old }
    ensures keeps { KeepRoom 1 0 indexes.old indexes.new }
    ensures width { rows.new.width ≡ rows.old.width }
    ensures aside { rows.new.aside ≡ rows.old.aside }
    ensures left { (under : List Cell) → copies.old.items ≡ piled sets.now under → copies.new.items ≡ under }
{
    remove_set(indexes, rows, links, r, sets);
    write_cells(rows, r, sets, copies);
    insert_set(indexes, rows, links, r, sets);
}

// Moves the cells into a row. Links stay behind too.
fn move_cells(rows: &mut Rows, r: TupleRef, sets: &mut [(ColumnNumber, StoredCell)])
    requires held { IsSome (finite.get rows.old.tuples r) }
    requires columns { (t : Row) → finite.get rows.old.tuples r ≡ Some t → All (λ s. (0 < s.0.0) × (s.0.0 ≤ length t.cells)) sets.old }
    ensures row { (t : Row) → finite.get rows.old.tuples r ≡ Some t → rows.new.tuples ≡ finite.insert rows.old.tuples r (with_cells sets.old t) }
    ensures width { rows.new.width ≡ rows.old.width }
    ensures aside { rows.new.aside ≡ rows.old.aside }
    ensures links { map link_set sets.new ≡ map link_set sets.old }
{
    let Some((set, rest)) = sets.split_first_mut() else {
        return;
    };
    rows.set_cell(r, set.0, set.1.take());
    move_cells(rows, r, rest);
}

// Sets cells in one row, to which they are moved. It takes no memory.
pub fn change_last<R: LinkedKeys>(
    rows: &mut Rows,
    indexes: &mut Sequence<IndexOn>,
    links: &R,
    r: TupleRef,
    sets: &mut [(ColumnNumber, StoredCell)],
)
    requires held { IsSome (finite.get rows.old.tuples r) }
    requires few { finite.len rows.old.tuples ≤ 16777216 }
    requires room { HaveRoom 1 indexes.old }
    requires settable { CanSet (R.keys links.now) rows.old.tuples sets.old }
    requires read { CanRead (R.keys links.now) rows.old.tuples indexes.old }
    requires served { (list : List TupleRef) × IsKeyed rows.old.tuples list × Serve (R.keys links.now) rows.old.tuples list indexes.old }
    ensures row { (t : Row) → finite.get rows.old.tuples r ≡ Some t → rows.new.tuples ≡ finite.insert rows.old.tuples r (with_cells sets.old t) }
    ensures served { (list : List TupleRef) → IsKeyed rows.old.tuples list → Serve (R.keys links.now) rows.old.tuples list indexes.old
        → IsKeyed rows.new.tuples list × Serve (R.keys links.now) rows.new.tuples list indexes.new }
    ensures declared { map declaration_of indexes.new ≡ map declaration_of indexes.old }
    ensures keeps { KeepRoom 1 0 indexes.old indexes.new }
    ensures width { rows.new.width ≡ rows.old.width }
    ensures aside { rows.new.aside ≡ rows.old.aside }
    ensures links { map link_set sets.new ≡ map link_set sets.old }
{
    remove_set(indexes, rows, links, r, sets);
    move_cells(rows, r, sets);
    insert_set(indexes, rows, links, r, sets);
}

// Sets cells in each of these rows, with the copies that were made for them. It takes no memory.
fn change_each<R: LinkedKeys>(
    rows: &mut Rows,
    indexes: &mut Sequence<IndexOn>,
    links: &R,
    rs: &[TupleRef],
    sets: &[(ColumnNumber, StoredCell)],
    copies: &mut Vec<StoredCell>,
)
    requires held { All (λ r. IsSome (finite.get rows.old.tuples r)) rs.now }
    requires once { AllPairs (λ q r. q ≢ r) rs.now }
    requires few { finite.len rows.old.tuples ≤ 16777216 }
    requires room { HaveRoom (length rs.now) indexes.old }
    requires ready { copies.old.items ≡ pile (length rs.now) sets.now }
    requires settable { CanSet (R.keys links.now) rows.old.tuples sets.now }
    requires read { CanRead (R.keys links.now) rows.old.tuples indexes.old }
    requires served { (list : List TupleRef) × IsKeyed rows.old.tuples list × Serve (R.keys links.now) rows.old.tuples list indexes.old }
    ensures rows { CellsSet rows.old.tuples rows.new.tuples rs.now sets.now }
    ensures width { rows.new.width ≡ rows.old.width }
    ensures aside { rows.new.aside ≡ rows.old.aside }
    ensures served { (list : List TupleRef) → IsKeyed rows.old.tuples list → Serve (R.keys links.now) rows.old.tuples list indexes.old
        → IsKeyed rows.new.tuples list × Serve (R.keys links.now) rows.new.tuples list indexes.new }
    ensures declared { map declaration_of indexes.new ≡ map declaration_of indexes.old }
    ensures keeps { KeepRoom (length rs.now) 0 indexes.old indexes.new }
{
    for r in rs {
        change_row(rows, indexes, links, *r, sets, copies);
    }
}

// Sets cells in each of these rows: the cells are moved to the last, and to each other row goes a copy that was made for
// it. It takes no memory.
pub fn change_all<R: LinkedKeys>(
    rows: &mut Rows,
    indexes: &mut Sequence<IndexOn>,
    links: &R,
    rs: &[TupleRef],
    sets: &mut [(ColumnNumber, StoredCell)],
    copies: &mut Vec<StoredCell>,
)
    requires held { All (λ r. IsSome (finite.get rows.old.tuples r)) rs.now }
    requires once { AllPairs (λ q r. q ≢ r) rs.now }
    requires few { finite.len rows.old.tuples ≤ 16777216 }
    requires room { HaveRoom (length rs.now) indexes.old }
    requires ready { copies.old.items ≡ pile (length rs.now - 1) sets.old }
    requires settable { CanSet (R.keys links.now) rows.old.tuples sets.old }
    requires read { CanRead (R.keys links.now) rows.old.tuples indexes.old }
    requires served { (list : List TupleRef) × IsKeyed rows.old.tuples list × Serve (R.keys links.now) rows.old.tuples list indexes.old }
    ensures rows { CellsSet rows.old.tuples rows.new.tuples rs.now sets.old }
    ensures width { rows.new.width ≡ rows.old.width }
    ensures aside { rows.new.aside ≡ rows.old.aside }
    ensures served { (list : List TupleRef) → IsKeyed rows.old.tuples list → Serve (R.keys links.now) rows.old.tuples list indexes.old
        → IsKeyed rows.new.tuples list × Serve (R.keys links.now) rows.new.tuples list indexes.new }
    ensures declared { map declaration_of indexes.new ≡ map declaration_of indexes.old }
    ensures keeps { KeepRoom (length rs.now) 0 indexes.old indexes.new }
    ensures links { map link_set sets.new ≡ map link_set sets.old }
{
    let Some((last, others)) = rs.split_last() else {
        return;
    };
    change_each(rows, indexes, links, others, sets, copies);
    change_last(rows, indexes, links, *last, sets);
}
