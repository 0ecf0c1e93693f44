//! The rows of a relation in their store. A row's cells stand side by side, the key's the first, and the number of links
//! that name the row stands beside them.
//!
//! A row may be hidden: it keeps its slot and its reference, but is no row of the relation until it is shown again. How
//! many rows may be hidden is owed first, with the memory that they need. Where nothing is owed no row is hidden. What tells
//! hidden rows apart is a bit for each slot, made where rows are owed for the first time. It is kept from then on, until it is
//! for far more slots than the store has, or the store has no row.
ghost use Rattle.std.specs.Prelude.{◌≡◌, ℕ, ◌+◌, ◌-◌, ◌*◌, ◌/◌, ◌<◌, ◌≤◌, [], true, false, Some, None, IsOk, IsSome, IsTrue, IfOk, OnErr, OnOk, length, slice_set};
ghost use Rattle.std.specs.FinMap as finite;
ghost use Rattle.mm_relation.specs.Reading.{key_at};
ghost use Rattle.part_raw.specs.TupleRefs.{part_of};
ghost use Rattle.part_raw.specs.declared.tuple_ref.TupleRef.{TupleRef};
ghost use Rattle.mm_relation.specs.Rows.{ChangesSlot, HaveNoReferrers, Row, StartsWithKey, has_slot, referrers_at, row_of, row_store, with_hidden, with_number, with_shown, without_number};
ghost use Rattle.mm_relation.specs.Settling.{DropsHidden, HasNoneBefore};
ghost use Rattle.mm_relation.specs.Slots.{HasNoSlot};

use crate::slot_set::{SlotSet, WORD_BITS};
use crate::stored_cell::StoredCell;
use no_memory::NoMemory;
use part_raw::{MAX_TUPLES, MAX_WIDTH, Partitions, TupleRef};
use plain_tables::{ColumnNumber, StoredValue};
use std::alloc::Global;
use std::marker::Model;

// A store of rows, each under a reference that is its own while it is held.
#[derive(Drop)]
pub struct Rows {
    store: Partitions<StoredCell>,
    // The slots of the hidden rows, and how many these are.
    hidden: SlotSet,
    hidden_count: u64,
    owed: u64,
}

impl Model for Rows {
    ghost use Rattle.plain_tables.specs.contracts.value.Value.{the_row as value_row};
    ghost use Rattle.mm_relation.specs.contracts.row.Cell.{the_row as cell_row};
    ghost use Rattle.mm_relation.specs.Rows.{RowStore, row_code, row_store_code, rows_of, IsParted};

    ghost Value = { RowStore };

    ghost coded = { row_store_code (row_code value_row.coded cell_row.coded) };

    ghost view = { λ r. rows_of r.store r.hidden r.owed };

    ghost invariant = { λ r. IsParted r.store.width r.store.tuples r.store.counts r.hidden r.hidden_count r.owed };
}

// Makes memory to hide each row of the store, where rows are owed.
fn cover(hidden: &mut SlotSet, store: &Partitions<StoredCell>, owed: u64) -> Result<(), NoMemory>
    ensures same { (slot : ℕ) → has_slot hidden.new slot ≡ has_slot hidden.old slot }
    ensures grows { length hidden.old ≤ length hidden.new }
    ensures covered { OnOk result (0 < owed → (r : TupleRef) → IsSome (finite.get store.now.tuples r) → r.number / 64 < length hidden.new) }
    ensures sure { owed ≡ 0 → IsOk result }
{
    if owed > 0 {
        hidden.cover(store.slots())?;
    }
    Ok(())
}

// Gives that memory back where nothing is owed, and it is for far more slots than the store has, or the store has no row.
fn shed(hidden: &mut SlotSet, store: &Partitions<StoredCell>, owed: u64)
    requires { owed ≡ 0 → HasNoSlot hidden.old }
    ensures same { (slot : ℕ) → has_slot hidden.new slot ≡ has_slot hidden.old slot }
    ensures kept { 0 < owed → hidden.new ≡ hidden.old }
{
    if owed == 0 {
        hidden.shed(if store.len() == 0 { 0 } else { store.slots() });
    }
}

// Whether the row in a slot is hidden, where so many are.
#[inline]
fn hides(hidden: &SlotSet, count: u64, slot: u32) -> bool
    requires { count ≡ 0 → HasNoSlot hidden.now }
    ensures { result ≡ has_slot hidden.now slot }
{
    count > 0 && hidden.has(slot)
}

// Puts a slot to those of the hidden rows, where so many are.
fn put_slot(hidden: &mut SlotSet, count: u64, slot: u32)
    requires none { count ≡ 0 → HasNoSlot hidden.old }
    requires room { slot / 64 < length hidden.old }
    ensures changes { ChangesSlot hidden.old hidden.new slot true }
    ensures covers { length hidden.new ≡ length hidden.old }
{
    if count == 0 {
        hidden.forget_bounds();
    }
    hidden.insert(slot);
}

impl Rows {
    // No row, in a store for rows of so many columns. It takes no memory.
    pub fn new(alloc: Global, width: usize) -> Rows
        requires { (0 < width) × (width ≤ MAX_WIDTH) }
        ensures { result ≡ row_store width finite.empty (record { numbers = finite.empty; counted = false; hidden = finite.empty; owed = 0 }) 0 }
    {
        Rows {
            store: Partitions::new(alloc, width),
            hidden: SlotSet::new(alloc),
            hidden_count: 0,
            owed: 0,
        }
    }

    // The same rows, each under its reference, in memory of their own.
    pub fn try_clone(&self) -> Result<Rows, NoMemory>
        ensures { IfOk result (λ copy. copy ≡ self.now) }
    {
        Ok(Rows {
            store: self.store.try_clone()?,
            hidden: self.hidden.try_clone()?,
            hidden_count: self.hidden_count,
            owed: self.owed,
        })
    }

    // How many rows more there is room for.
    pub fn free(&self) -> u64
        ensures { result ≡ self.now.free }
    {
        self.store.free()
    }

    // How many rows there are.
    pub fn len(&self) -> u64
        ensures { result ≡ finite.len self.now.tuples }
    {
        self.store.len() - self.hidden_count
    }

    // How many rows it owes that they can come back.
    pub fn owed(&self) -> u64
        ensures value { result ≡ self.now.aside.owed }
        ensures few { result ≤ 16777216 }
        ensures hidden { finite.len self.now.aside.hidden ≤ result }
    {
        self.owed
    }

    // No hidden row is one of the rows, and as many rows are owed at least.
    pub fn hidden_are_apart(&self)
        ensures apart { (r : TupleRef) → IsSome (finite.get self.now.aside.hidden r) → finite.get self.now.tuples r ≡ None }
        ensures owed { finite.len self.now.aside.hidden ≤ self.now.aside.owed }
    {
        let _ = &self.hidden_count;
    }

    // Makes sure of room for one row more.
    pub fn reserve(&mut self) -> Result<(), NoMemory>
        requires { finite.len self.old.tuples < 16777216 }
        ensures width { self.new.width ≡ self.old.width }
        ensures aside { self.new.aside ≡ self.old.aside }
        ensures tuples { self.new.tuples ≡ self.old.tuples }
        ensures free { OnOk result (0 < self.new.free) }
    {
        self.store.reserve()
    }

    // Makes sure of room for so many rows more. What it got at an error stays until spare memory is shed.
    pub fn reserve_many(&mut self, n: u64) -> Result<(), NoMemory>
        requires { finite.len self.old.tuples + n ≤ 16777216 }
        ensures width { self.new.width ≡ self.old.width }
        ensures aside { self.new.aside ≡ self.old.aside }
        ensures tuples { self.new.tuples ≡ self.old.tuples }
        ensures free { OnOk result (n ≤ self.new.free) }
    {
        self.store.reserve_many(n)
    }

    // Gives the memory of the partitions with no row back where it is that of more than so many rows, and of more than a
    // quarter as many as there are. No row moves. It takes no memory. Where nothing is owed what tells hidden rows apart goes
    // too, if it is for far more slots than are left.
    pub fn shed_spares(&mut self, few: u64)
        ensures tuples { self.new.tuples ≡ self.old.tuples }
        ensures width { self.new.width ≡ self.old.width }
        ensures aside { self.new.aside ≡ self.old.aside }
        ensures kept { self.old.free ≤ few → self.new ≡ self.old }
    {
        self.store.shed_spares(few);
        shed(&mut self.hidden, &self.store, self.owed);
    }

    // How many cells a row has.
    pub fn width(&self) -> usize
        ensures value { result ≡ self.now.width }
        ensures within { 0 < result }
    {
        self.store.width()
    }

    // Moves the cells of a row in, with no links that name it. It takes no memory but what is needed to hide the row, where
    // rows are owed. The cells are gone either way, and the vector keeps its memory.
    pub fn put(&mut self, row: &mut Vec<StoredCell>) -> Result<TupleRef, NoMemory>
        requires free { 0 < self.old.free }
        requires width { length row.old.items ≡ self.old.width }
        requires keyed { StartsWithKey row.old.items }
        ensures fresh { IfOk result (λ r. finite.get self.old.tuples r ≡ None) }
        ensures numbered { IfOk result (λ r. r.number < MAX_TUPLES) }
        ensures unnamed { IfOk result (λ r. finite.get self.old.aside.numbers r ≡ None) }
        ensures tuples { IfOk result (λ r. self.new.tuples ≡ finite.insert self.old.tuples r (row_of row.old.items)) }
        ensures width { self.new.width ≡ self.old.width }
        ensures aside { IfOk result (λ r. self.new.aside ≡ with_number self.old.aside r 0) }
        ensures kept { OnErr result (self.new.tuples ≡ self.old.tuples) }
        ensures kept_aside { OnErr result (self.new.aside ≡ self.old.aside) }
        ensures sure { self.old.aside.owed ≡ 0 → IsOk result }
        ensures moved { row.new.items ≡ [] }
    {
        let r = self.store.put(row);
        match cover(&mut self.hidden, &self.store, self.owed) {
            Ok(()) => Ok(r),
            Err(refused) => {
                self.store.remove(r);
                Err(refused)
            }
        }
    }

    // Whether a row is held under this reference, which may be any.
    pub fn holds(&self, r: TupleRef) -> bool
        ensures { result ≡ finite.contains_key self.now.tuples r }
    {
        self.store.holds(r) && !hides(&self.hidden, self.hidden_count, r.number)
    }

    // Whether a row is held under each reference into this partition, which may be any. Where a row is hidden anywhere it says no.
    pub fn fills(&self, part: u32) -> bool
        ensures { IsTrue result → (r : TupleRef) → part_of r ≡ part → IsSome (finite.get self.now.tuples r) }
    {
        self.hidden_count == 0 && self.store.fills(part)
    }

    // The number of slots, free or not. The number of each row's reference is below it.
    pub fn slots(&self) -> u64
        ensures most { result ≤ MAX_TUPLES }
        ensures within { (r : TupleRef) → IsSome (finite.get self.now.tuples r) → r.number < result }
        ensures hidden { (r : TupleRef) → IsSome (finite.get self.now.aside.hidden r) → r.number < result }
    {
        self.store.slots()
    }

    // The cells of a row, its key's the first.
    pub fn cells(&self, r: TupleRef) -> &[StoredCell]
        requires { IsSome (finite.get self.now.tuples r) }
        ensures row { finite.get self.now.tuples r ≡ Some (row_of result.now) }
        ensures keyed { StartsWithKey result.now }
        ensures width { length result.now ≡ self.now.width }
    {
        self.store.get(r)
    }

    // The key of a row.
    pub fn key(&self, r: TupleRef) -> &StoredValue
        requires { IsSome (finite.get self.now.tuples r) }
        ensures { key_at self.now.tuples r ≡ Some result.now }
    {
        self.cells(r)[0].own()
    }

    // How many links name a row. It is read where it is asked for.
    pub fn referrers(&self, r: TupleRef) -> &u64
        requires { IsSome (finite.get self.now.tuples r) }
        ensures { result.now ≡ referrers_at self.now.aside.numbers r }
    {
        self.store.count(r)
    }

    // Whether the store has memory for the numbers of links that name its rows. Where it has none, no link names a row.
    pub fn is_counted(&self) -> bool
        ensures value { result ≡ self.now.aside.counted }
        ensures none { result ≡ false → HaveNoReferrers self.now.tuples self.now.aside.numbers }
    {
        self.store.is_counted()
    }

    // Makes memory for those numbers.
    pub fn keep_counts(&mut self) -> Result<(), NoMemory>
        ensures ok { OnOk result (self.new ≡ record self.old { aside = record self.old.aside { counted = true } }) }
        ensures err { OnErr result (self.new ≡ self.old) }
        ensures had { IsTrue self.old.aside.counted → IsOk result }
    {
        self.store.keep_counts()
    }

    // Gives the memory of those numbers back, each of which is 0. It takes no memory.
    pub fn forget_counts(&mut self)
        requires { HaveNoReferrers self.old.tuples self.old.aside.numbers }
        ensures { self.new ≡ record self.old { aside = record self.old.aside { counted = false } } }
    {
        self.store.forget_counts();
    }

    // Sets how many links name a row, where these numbers are kept.
    pub fn set_referrers(&mut self, r: TupleRef, n: u64)
        requires held { IsSome (finite.get self.old.tuples r) }
        requires counted { IsTrue self.old.aside.counted }
        ensures { self.new ≡ record self.old { aside = with_number self.old.aside r n } }
    {
        self.store.set_count(r, n);
    }

    // Sets the cell of a row in one column.
    pub fn set_cell(&mut self, r: TupleRef, column: ColumnNumber, cell: StoredCell)
        requires held { IsSome (finite.get self.old.tuples r) }
        requires column { (t : Row) → finite.get self.old.tuples r ≡ Some t → (0 < column.0) × (column.0 ≤ length t.cells) }
        ensures width { self.new.width ≡ self.old.width }
        ensures aside { self.new.aside ≡ self.old.aside }
        ensures row { (t : Row) → finite.get self.old.tuples r ≡ Some t → self.new.tuples ≡ finite.insert self.old.tuples r (record t { cells = slice_set t.cells (column.0 - 1) cell }) }
    {
        drop(self.store.replace(r, column.0, cell));
    }

    // Drops a row. It takes no memory.
    pub fn remove(&mut self, r: TupleRef)
        requires { IsSome (finite.get self.old.tuples r) }
        ensures width { self.new.width ≡ self.old.width }
        ensures aside { self.new.aside ≡ without_number self.old.aside r }
        ensures rows { self.new.tuples ≡ finite.remove self.old.tuples r }
    {
        self.store.remove(r);
    }

    // Owes so many rows more, at most 16,777,216 in all, and makes memory to hide as many.
    pub fn owe(&mut self, n: u64) -> Result<(), NoMemory>
        requires { self.old.aside.owed + n ≤ 16777216 }
        ensures ok { OnOk result (self.new ≡ record self.old { aside = record self.old.aside { owed = self.old.aside.owed + n } }) }
        ensures err { OnErr result (self.new ≡ self.old) }
    {
        cover(&mut self.hidden, &self.store, self.owed + n)?;
        self.owed += n;
        Ok(())
    }

    // So many rows are owed no longer, and none of them is hidden. It takes no memory.
    pub fn forgive(&mut self, n: u64)
        requires { n + finite.len self.old.aside.hidden ≤ self.old.aside.owed }
        ensures { self.new ≡ record self.old { aside = record self.old.aside { owed = self.old.aside.owed - n } } }
    {
        self.owed -= n;
    }

    // Hides a row that no link names, where more are owed than are hidden. It takes no memory.
    pub fn hide(&mut self, r: TupleRef)
        requires held { IsSome (finite.get self.old.tuples r) }
        requires unnamed { referrers_at self.old.aside.numbers r ≡ 0 }
        requires owed { finite.len self.old.aside.hidden < self.old.aside.owed }
        ensures { (row : Row) → finite.get self.old.tuples r ≡ Some row → self.new ≡ with_hidden self.old r row }
    {
        put_slot(&mut self.hidden, self.hidden_count, r.number);
        self.hidden_count += 1;
    }

    // Shows a hidden row again. It takes no memory.
    pub fn show(&mut self, r: TupleRef)
        requires { IsSome (finite.get self.old.aside.hidden r) }
        ensures { (row : Row) → finite.get self.old.aside.hidden r ≡ Some row → self.new ≡ with_shown self.old r row }
    {
        self.hidden.remove(r.number);
        self.hidden_count -= 1;
    }

    // Drops a hidden row. It takes no memory.
    pub fn drop_hidden(&mut self, r: TupleRef)
        requires { IsSome (finite.get self.old.aside.hidden r) }
        ensures tuples { self.new.tuples ≡ self.old.tuples }
        ensures width { self.new.width ≡ self.old.width }
        ensures aside { self.new.aside ≡ record self.old.aside { hidden = finite.remove self.old.aside.hidden r } }
    {
        self.hidden.remove(r.number);
        self.hidden_count -= 1;
        self.store.remove(r);
    }

    // Drops the hidden row in this slot, if there is one, where none is before it.
    fn clear_slot(&mut self, slot: u32)
        requires { HasNoneBefore slot self.old.aside.hidden }
        ensures drops { DropsHidden self.old self.new }
        ensures none { HasNoneBefore (slot + 1) self.new.aside.hidden }
    {
        if self.hidden.has(slot) {
            self.drop_hidden(TupleRef { number: slot });
        }
    }

    // Drops the hidden rows in the slots of this word, where none is before them.
    fn clear_word(&mut self, place: u32)
        requires few { place < 67108864 }
        requires none { HasNoneBefore (place * 64) self.old.aside.hidden }
        ensures drops { DropsHidden self.old self.new }
        ensures none { HasNoneBefore (place * 64 + 64) self.new.aside.hidden }
    {
        if self.hidden.lacks_word(place) {
            return;
        }
        for bit in 0..WORD_BITS {
            self.clear_slot(place * WORD_BITS + bit);
        }
    }

    // The words that have the slots of hidden rows: from the first up to the second.
    fn hidden_words(&self) -> (u32, u32)
        ensures first { HasNoneBefore (result.0 * 64) self.now.aside.hidden }
        ensures last { (r : TupleRef) → IsSome (finite.get self.now.aside.hidden r) → r.number < result.1 * 64 }
        ensures most { result.1 ≤ 67108864 }
    {
        self.hidden.bounds()
    }

    // Drops all hidden rows. It takes no memory.
    pub fn clear_hidden(&mut self)
        ensures tuples { self.new.tuples ≡ self.old.tuples }
        ensures width { self.new.width ≡ self.old.width }
        ensures aside { self.new.aside ≡ record self.old.aside { hidden = finite.empty } }
    {
        if self.hidden_count == 0 {
            return;
        }
        let (start, end) = self.hidden_words();
        for place in start..end {
            self.clear_word(place);
        }
    }
}
