//! All partitions of a store, and the list of those with a free slot. A look-up reads the blocks alone; a put and a take
//! keep the bitmaps, the count of free slots and the list in step with them.
ghost use Rattle.std.specs.Prelude.{◌≡◌, ◌↔◌, ℕ, Bool, ◌+◌, ◌-◌, ◌*◌, ◌<◌, ◌≤◌, [], true, false, None, Some, IfSome, IfOk, IsOk, IsSome, IsTrue, OnErr, OnOk, ◌++◌, is_some, length, map, max, option_to_list, sum_by, slice_index_or, slice_set, take};
ghost use Rattle.std.specs.Borrow.{sem};
ghost use Rattle.std.specs.FinMap as finite;
ghost use Rattle.std.specs.Vec.{vec_len, vec_capacity};
ghost use Rattle.part_raw.specs.Store.{store, count_of, tuple_at, with_cells, with_count, IsHeld, HasNoCounts, EndsHeld, free_reserved};
ghost use Rattle.part_raw.specs.Counted.{number_of, zeros};
ghost use Rattle.part_raw.specs.Layout.{is_set, tuples_of, vacancies};
ghost use Rattle.part_raw.specs.TupleRefs.{part_of};
ghost use Rattle.part_raw.specs.Open.{AreKept, HaveCounts, HoldsWhereBlock, IsOpenList, Tells, below, has_block_at, next_at, tables};

mod copies;

use crate::bitmap::Bitmap;
use crate::block::Block;
use crate::counts::{Counts, count_at, set_count_at, set_counts};
use crate::partition::{discard, empty, exchange, fill, vacate};
use crate::{MAX_PARTITIONS, MAX_TUPLES, MAX_WIDTH, SLOTS, TupleRef};
use no_memory::NoMemory;
use std::alloc::Global;
use std::marker::Model;
use std::mem;

// A store keeps one slot of a partition that holds no tuple for so many tuples.
const TUPLES_A_SPARE_SLOT: u64 = 4;

// Which slots of a partition hold a tuple, the next in the list of the partitions that have a free slot, and whether the
// partition has its block. Outside that list the link says nothing, and a partition with no block has no slot.
#[derive(Clone, Copy)]
struct Occupancy {
    held: Bitmap,
    next_open: Option<u32>,
    has_block: bool,
}

impl Occupancy {
    // Whether the partition has a free slot.
    fn is_open(&self) -> bool
        ensures bare { self.now.has_block ≡ false → result ≡ false }
        ensures full { self.now.has_block ≡ true → (result ≡ false) ↔ ((slot : ℕ) → slot < SLOTS → is_set self.now.held.words slot ≡ true) }
    {
        self.has_block && !self.held.is_full()
    }

    // Whether the partition has a block that holds no tuple.
    fn is_spare(&self) -> bool
        ensures block { result ≡ true → self.now.has_block ≡ true }
        ensures clear { result ≡ true → (slot : ℕ) → slot < SLOTS → is_set self.now.held.words slot ≡ false }
        ensures held { result ≡ false → self.now.has_block ≡ true → (slot : ℕ) × (slot < SLOTS) × (is_set self.now.held.words slot ≡ true) }
    {
        self.has_block && self.held.first_set().is_none()
    }
}

/// Tuples that do not move, each under a reference that is its own while it is held.
///
/// A store grows by partitions of `SLOTS` slots. `release_spares` gives back the memory of those that hold no tuple.
///
/// It keeps no counts at first: the count of each tuple is 0. `keep_counts` gives it memory for them.
pub struct Partitions<T> {
    alloc: Global,
    // How many cells a tuple has.
    width: usize,
    // A look-up of a tuple reads this alone, so the blocks stand apart from what only `put`, `take` and `holds` read.
    blocks: Vec<Block<T>>,
    // Those of each partition where counts are kept, and else none.
    counts: Vec<Counts>,
    occupancies: Vec<Occupancy>,
    // How many slots the partitions with a block have, and how many of them are free.
    slots: u64,
    free: u64,
    first_open: Option<u32>,
    // Where a partition with no block is looked for.
    next_bare: usize,
    // How many partitions have a block that holds no tuple. It tells when to give these back, and nothing else.
    spare: u64,
    counted: bool,
}

impl<T> Model for Partitions<T> {
    ghost use Rattle.part_raw.specs.Store.{Store, store_code};

    ghost Value = { Store T };

    ghost coded = { store_code T.code };

    ghost use Rattle.std.specs.Prelude.{◌≡◌, length, sum_by};
    ghost use Rattle.part_raw.specs.Layout.{tuples_of};
    ghost use Rattle.part_raw.specs.Counted.{seen};
    ghost use Rattle.part_raw.specs.Open.{tables, IsStocked};

    ghost view = { λ s. seen s.width (tuples_of (tables s.width s.blocks.items)) s.counts.items s.free s.counted };

    ghost invariant = { λ s. IsStocked s.counted s.width s.blocks.items s.counts.items s.occupancies.items s.free s.first_open
        × (s.slots ≡ sum_by length (tables s.width s.blocks.items)) };
}

/// Each tuple that is held is dropped, and each block is freed.
impl<T: Drop> Drop for Partitions<T> {
    fn drop(self) {
        let Partitions {
            alloc: _,
            width,
            mut blocks,
            counts: _,
            mut occupancies,
            slots: _,
            free: _,
            first_open: _,
            next_bare: _,
            spare: _,
            counted: _,
        } = self;
        while let Some(block) = blocks.pop() {
            match occupancies.pop() {
                Some(occupancy) if occupancy.has_block => discard(occupancy.held, block, width),
                Some(_) => block.let_go(),
                None => unreachable!(),
            }
        }
        blocks.destroy_empty();
    }
}

impl<T> Partitions<T> {
    ghost use Rattle.part_raw.specs.StoreLends.{LendsCells};

    /// An empty store of tuples of so many cells, which keeps no counts. It takes no memory.
    pub fn new(alloc: Global, width: usize) -> Partitions<T>
        requires { (0 < width) × (width ≤ MAX_WIDTH) }
        ensures { result ≡ store width finite.empty finite.empty 0 false }
    {
        Partitions {
            alloc,
            width,
            blocks: Vec::new(alloc),
            counts: Vec::new(alloc),
            occupancies: Vec::new(alloc),
            slots: 0,
            free: 0,
            first_open: None,
            next_bare: 0,
            spare: 0,
            counted: false,
        }
    }

    /// How many cells a tuple has.
    pub fn width(&self) -> usize
        ensures value { result ≡ self.now.width }
        ensures within { (0 < result) × (result ≤ MAX_WIDTH) }
    {
        self.width
    }

    /// The number of free slots: so many calls of `put` need no `reserve` before them.
    pub fn free(&self) -> u64
        ensures value { result ≡ self.now.free }
        ensures within { finite.len self.now.tuples + self.now.free ≤ MAX_TUPLES }
    {
        self.free
    }

    /// The number of tuples that are held.
    pub fn len(&self) -> u64
        ensures value { result ≡ finite.len self.now.tuples }
        ensures within { finite.len self.now.tuples + self.now.free ≤ MAX_TUPLES }
    {
        self.slots - self.free
    }

    /// A number above that of each reference under which a tuple is held: how many slots there are, with those of the
    /// partitions whose memory was given back.
    pub fn slots(&self) -> u64
        ensures least { finite.len self.now.tuples + self.now.free ≤ result }
        ensures most { result ≤ MAX_TUPLES }
        ensures within { (r : TupleRef) → IsHeld self.now r → r.number < result }
    {
        self.blocks.len() as u64 * SLOTS as u64
    }

    /// Makes sure of one free slot: a store with none gets a partition of `SLOTS` more, or the memory again of one that gave
    /// it back.
    pub fn reserve(&mut self) -> Result<(), NoMemory>
        requires { self.old.free ≡ 0 → finite.len self.old.tuples < MAX_TUPLES }
        ensures ok { OnOk result (self.new ≡ record self.old { free = free_reserved self.old.free }) }
        ensures err { OnErr result (self.new ≡ self.old) }
        ensures had_room { 0 < self.old.free → IsOk result }
    {
        if self.free > 0 {
            return Ok(());
        }
        self.grow()
    }

    /// Makes sure of so many free slots, with as few partitions more as these need. The lowest that has one is filled first.
    /// After an error the slots that were made stay: `shed_spares` gives them back.
    pub fn reserve_many(&mut self, n: u64) -> Result<(), NoMemory>
        requires { finite.len self.old.tuples + n ≤ MAX_TUPLES }
        ensures ok { OnOk result (n ≤ self.new.free) }
        ensures same { self.new ≡ record self.old { free = self.new.free } }
        ensures least { self.old.free ≤ self.new.free }
        ensures most { self.new.free ≤ max self.old.free (n + (SLOTS - 1)) }
        ensures had_room { n ≤ self.old.free → IsOk result }
    {
        if self.free >= n {
            return Ok(());
        }
        let result = self.grow_to(n);
        self.link_lowest_first();
        result
    }

    // Adds partitions until so many slots are free.
    fn grow_to(&mut self, n: u64) -> Result<(), NoMemory>
        requires { finite.len self.old.tuples + n ≤ MAX_TUPLES }
        ensures ok { OnOk result (n ≤ self.new.free) }
        ensures same { self.new ≡ record self.old { free = self.new.free } }
        ensures least { self.old.free ≤ self.new.free }
        ensures most { self.new.free ≤ max self.old.free (n + (SLOTS - 1)) }
    {
        while self.free() < n {
            self.grow()?;
        }
        Ok(())
    }

    // Links the partitions that have a free slot anew, the lowest first, so tuples to come stand in the order in which they
    // are put.
    fn link_lowest_first(&mut self)
        ensures { self.new ≡ self.old }
    {
        self.first_open = relink(&mut self.occupancies);
    }

    // Adds a partition of `SLOTS` free slots, or the memory again of one that gave it back.
    fn grow(&mut self) -> Result<(), NoMemory>
        requires { finite.len self.old.tuples + self.old.free < MAX_TUPLES }
        ensures ok { OnOk result (self.new ≡ record self.old { free = self.old.free + SLOTS }) }
        ensures err { OnErr result (self.new ≡ self.old) }
    {
        let bare = bare_place(&self.occupancies, self.next_bare);
        if bare >= self.blocks.len() {
            self.blocks.reserve(1)?;
            self.occupancies.reserve(1)?;
            let counts = next_counts(&mut self.counts, self.alloc, self.counted)?;
            let block = Block::new(self.alloc, SLOTS as usize * self.width)?;
            let part = self.blocks.len();
            self.blocks.push_reserved(block);
            push_next(&mut self.counts, counts);
            self.occupancies.push_reserved(Occupancy {
                held: Bitmap::new(),
                next_open: self.first_open,
                has_block: true,
            });
            self.first_open = Some(part as u32);
            self.next_bare = part;
            self.slots += SLOTS as u64;
            self.free += SLOTS as u64;
            self.spare = self.spare.saturating_add(1);
            return Ok(());
        }
        let counts = Counts::new(self.alloc, self.counted)?;
        let block = Block::new(self.alloc, SLOTS as usize * self.width)?;
        mem::replace(&mut self.blocks[bare], block).let_go();
        set_counts(&mut self.counts, bare, counts);
        let occupancy = &mut self.occupancies[bare];
        occupancy.next_open = self.first_open;
        occupancy.has_block = true;
        self.first_open = Some(bare as u32);
        self.next_bare = bare;
        self.slots += SLOTS as u64;
        self.free += SLOTS as u64;
        self.spare = self.spare.saturating_add(1);
        Ok(())
    }

    /// Moves the cells into a free slot. It takes no memory, and the vector keeps its own.
    pub fn put(&mut self, cells: &mut Vec<T>) -> TupleRef
        requires room { 0 < self.old.free }
        requires width { length cells.old.items ≡ self.old.width }
        ensures fresh { tuple_at self.old result ≡ None }
        ensures uncounted { finite.get self.old.counts result ≡ None }
        ensures numbered { result.number < MAX_TUPLES }
        ensures tuples { self.new.tuples ≡ finite.insert self.old.tuples result cells.old.items }
        ensures counts { self.new.counts ≡ finite.insert self.old.counts result 0 }
        ensures free { self.new.free + 1 ≡ self.old.free }
        ensures width { self.new.width ≡ self.old.width }
        ensures counted { self.new.counted ≡ self.old.counted }
        ensures moved { cells.new.items ≡ [] }
        ensures capacity { vec_capacity cells.new ≡ vec_capacity cells.old }
    {
        let part = match self.first_open {
            Some(part) => part,
            None => unreachable!(),
        };
        self.free -= 1;
        let occupancy = &mut self.occupancies[part as usize];
        let block = &mut self.blocks[part as usize];
        self.spare = self.spare.saturating_sub(occupancy.held.is_clear() as u64);
        let slot = fill(&mut occupancy.held, block, cells);
        set_count_at(&mut self.counts, part, slot, 0);
        let r = TupleRef::to(part, slot);
        if occupancy.held.is_full() {
            self.first_open = occupancy.next_open;
        }
        r
    }

    /// Whether a tuple is held under this reference, which may be any.
    pub fn holds(&self, r: TupleRef) -> bool
        ensures { result ≡ finite.contains_key self.now.tuples r }
    {
        let part = r.part() as usize;
        part < self.occupancies.len() && self.occupancies[part].held.has(r.slot())
    }

    /// Whether each slot of this partition holds a tuple. There may be no such partition.
    pub fn fills(&self, part: u32) -> bool
        ensures { IsTrue result → (r : TupleRef) → part_of r ≡ part → IsHeld self.now r }
    {
        let place = part as usize;
        place < self.occupancies.len() && self.occupancies[place].held.is_full()
    }

    /// The cells of the tuple under this reference.
    pub fn get(&self, r: TupleRef) -> &[T]
        requires { IsHeld self.now r }
        ensures tuple { tuple_at self.now r ≡ Some result.now }
        ensures width { length result.now ≡ self.now.width }
    {
        let part = r.part();
        let slot = r.slot();
        self.blocks[part as usize].run(slot as usize * self.width, self.width)
    }

    /// The cells of the tuple under this reference, to write to. The tuple has what was written last, and all else stays.
    pub fn get_mut(&mut self, r: TupleRef) -> &mut [T]
        requires { IsHeld self.old r }
        ensures* writes_back { sem 𝓛 (LendsCells T.row self.entry r result) }
        ensures tuple { tuple_at self.old r ≡ Some result.now }
        ensures width { length result.now ≡ self.old.width }
    {
        let part = r.part();
        let slot = r.slot();
        let width = self.width;
        self.blocks[part as usize].run_mut(slot as usize * width, width)
    }

    /// Whether counts are kept. Where they are not, the count of each tuple is 0.
    pub fn is_counted(&self) -> bool
        ensures value { result ≡ self.now.counted }
        ensures none { result ≡ false → HasNoCounts self.now }
    {
        self.counted
    }

    /// Makes memory for a count of each slot, also of those to come. Where counts are kept already, nothing is done.
    pub fn keep_counts(&mut self) -> Result<(), NoMemory>
        ensures ok { OnOk result (self.new ≡ record self.old { counted = true }) }
        ensures err { OnErr result (self.new ≡ self.old) }
        ensures had { IsTrue self.old.counted → IsOk result }
    {
        if self.counted {
            return Ok(());
        }
        self.counts = new_counts(self.alloc, &self.occupancies)?;
        self.counted = true;
        Ok(())
    }

    /// Gives the memory of the counts back, each of which is 0. It takes no memory.
    pub fn forget_counts(&mut self)
        requires { HasNoCounts self.old }
        ensures { self.new ≡ record self.old { counted = false } }
    {
        self.counts = Vec::new(self.alloc);
        self.counted = false;
    }

    /// The count of the tuple under this reference. It is read where it is asked for.
    pub fn count(&self, r: TupleRef) -> &u64
        requires { IsHeld self.now r }
        ensures { result.now ≡ count_of self.now r }
    {
        count_at(&self.counts, r.part(), r.slot())
    }

    /// Sets the count of the tuple under this reference, where counts are kept.
    pub fn set_count(&mut self, r: TupleRef, n: u64)
        requires held { IsHeld self.old r }
        requires counted { IsTrue self.old.counted }
        ensures { self.new ≡ with_count self.old r n }
    {
        set_count_at(&mut self.counts, r.part(), r.slot(), n);
    }

    /// Puts a value in the place of a cell, and gives the one that was there.
    pub fn replace(&mut self, r: TupleRef, column: usize, value: T) -> T
        requires held { IsHeld self.old r }
        requires column { column < self.old.width }
        ensures value { IfSome (tuple_at self.old r) (λ cells. result ≡ slice_index_or cells column result) }
        ensures tuples { IfSome (tuple_at self.old r) (λ cells. self.new ≡ with_cells self.old r (slice_set cells column value)) }
    {
        let part = r.part();
        let slot = r.slot();
        exchange(
            &mut self.blocks[part as usize],
            slot,
            self.width,
            column,
            value,
        )
    }

    /// Moves the cells of the tuple into a vector that has room for them, and gives its count. The slot is free from
    /// then on.
    pub fn take(&mut self, r: TupleRef, cells: &mut Vec<T>) -> u64
        requires held { IsHeld self.old r }
        requires empty { cells.old.items ≡ [] }
        requires room { self.old.width ≤ vec_capacity cells.old }
        ensures tuple { tuple_at self.old r ≡ Some cells.new.items }
        ensures count { result ≡ count_of self.old r }
        ensures tuples { self.new.tuples ≡ finite.remove self.old.tuples r }
        ensures counts { self.new.counts ≡ finite.remove self.old.counts r }
        ensures free { self.new.free ≡ self.old.free + 1 }
        ensures width { self.new.width ≡ self.old.width }
        ensures counted { self.new.counted ≡ self.old.counted }
        ensures capacity { vec_capacity cells.new ≡ vec_capacity cells.old }
    {
        self.free += 1;
        let part = r.part();
        let slot = r.slot();
        let occupancy = &mut self.occupancies[part as usize];
        let block = &mut self.blocks[part as usize];
        let was_full = occupancy.held.is_full();
        vacate(&mut occupancy.held, block, slot, self.width, cells);
        self.spare = self.spare.saturating_add(occupancy.held.is_clear() as u64);
        let count = *count_at(&self.counts, part, slot);
        if was_full {
            occupancy.next_open = self.first_open;
            self.first_open = Some(part);
        }
        count
    }

    /// Drops the tuple. Its slot is free from then on. It takes no memory.
    pub fn remove(&mut self, r: TupleRef)
    where
        T: Drop,
        requires { IsHeld self.old r }
        ensures tuples { self.new.tuples ≡ finite.remove self.old.tuples r }
        ensures counts { self.new.counts ≡ finite.remove self.old.counts r }
        ensures free { self.new.free ≡ self.old.free + 1 }
        ensures width { self.new.width ≡ self.old.width }
        ensures counted { self.new.counted ≡ self.old.counted }
    {
        self.free += 1;
        let part = r.part();
        let slot = r.slot();
        let occupancy = &mut self.occupancies[part as usize];
        let block = &mut self.blocks[part as usize];
        let was_full = occupancy.held.is_full();
        empty(&mut occupancy.held, block, slot, self.width);
        self.spare = self.spare.saturating_add(occupancy.held.is_clear() as u64);
        if was_full {
            occupancy.next_open = self.first_open;
            self.first_open = Some(part);
        }
    }

    /// Gives the memory of each partition back that holds no tuple, and that of its counts. No tuple moves. It takes no
    /// memory, and looks at each partition's bits.
    pub fn release_spares(&mut self)
        ensures tuples { self.new.tuples ≡ self.old.tuples }
        ensures counts { self.new.counts ≡ self.old.counts }
        ensures width { self.new.width ≡ self.old.width }
        ensures free { self.new.free ≤ self.old.free }
        ensures counted { self.new.counted ≡ self.old.counted }
        ensures last { EndsHeld self.new }
        ensures few { self.new.free ≤ (SLOTS - 1) * finite.len self.new.tuples }
    {
        let len = self.len();
        self.slots -= release_empty(
            &mut self.blocks,
            &mut self.counts,
            &mut self.occupancies,
            self.width,
        );
        pop_bare(
            &mut self.blocks,
            &mut self.counts,
            &mut self.occupancies,
            self.width,
        );
        self.first_open = relink(&mut self.occupancies);
        self.next_bare = 0;
        self.spare = 0;
        self.free = self.slots - len;
    }

    /// Gives the memory of the partitions back that hold no tuple where these have more than so many slots, and more than a
    /// quarter as many as there are tuples. It takes no memory, and else looks at no partition.
    pub fn shed_spares(&mut self, few: u64)
        ensures tuples { self.new.tuples ≡ self.old.tuples }
        ensures counts { self.new.counts ≡ self.old.counts }
        ensures width { self.new.width ≡ self.old.width }
        ensures free { self.new.free ≤ self.old.free }
        ensures counted { self.new.counted ≡ self.old.counted }
        ensures kept { self.old.free ≤ few → self.new ≡ self.old }
    {
        let slots = SLOTS as u64;
        if self.free > few
            && self.spare > few / slots
            && self.spare > self.len() / TUPLES_A_SPARE_SLOT / slots
        {
            self.release_spares();
        }
    }
}

// The first partition from this one on that has no block. There is none where the answer is past the partitions.
fn bare_from(occupancies: &Vec<Occupancy>, from: usize) -> usize
    ensures bare { result < length occupancies.now.items → has_block_at occupancies.now.items result ≡ false }
    ensures blocks { (part : ℕ) → from ≤ part → part < result → part < length occupancies.now.items → has_block_at occupancies.now.items part ≡ true }
{
    let mut part = from;
    while part < occupancies.len() && occupancies[part].has_block {
        part += 1;
    }
    part
}

// The first partition from this one on that has no block, or, where no partition can follow on the others, the first of all
// that has none. There is none where the answer is past the partitions.
fn bare_place(occupancies: &Vec<Occupancy>, from: usize) -> usize
    ensures bare { result < length occupancies.now.items → has_block_at occupancies.now.items result ≡ false }
    ensures blocks { MAX_PARTITIONS ≤ length occupancies.now.items → (part : ℕ) → part < result → part < length occupancies.now.items → has_block_at occupancies.now.items part ≡ true }
{
    if occupancies.len() < MAX_PARTITIONS as usize {
        return bare_from(occupancies, from);
    }
    bare_from(occupancies, 0)
}

// Whether there is a partition, and the last has no block.
fn ends_bare(occupancies: &Vec<Occupancy>) -> bool
    ensures some { result ≡ true → 0 < length occupancies.now.items }
    ensures bare { result ≡ true → has_block_at occupancies.now.items (length occupancies.now.items - 1) ≡ false }
    ensures block { result ≡ false → 0 < length occupancies.now.items → has_block_at occupancies.now.items (length occupancies.now.items - 1) ≡ true }
{
    let n = occupancies.len();
    n > 0 && !occupancies[n - 1].has_block
}

// The counts of each partition, each 0: of one with no block there is none.
fn new_counts(alloc: Global, occupancies: &Vec<Occupancy>) -> Result<Vec<Counts>, NoMemory>
    ensures { IfOk result (λ counts. counts.items ≡ map zeros (map (λ o. o.has_block) occupancies.now.items)) }
{
    let mut counts = Vec::with_capacity(alloc, occupancies.len())?;
    for occupancy in occupancies {
        counts.push_reserved(Counts::new(alloc, occupancy.has_block)?);
    }
    Ok(counts)
}

// Room for the counts of one partition more, where counts are kept, and these, each 0.
fn next_counts(
    counts: &mut Vec<Counts>,
    alloc: Global,
    counted: bool,
) -> Result<Option<Counts>, NoMemory>
    ensures items { counts.new.items ≡ counts.old.items }
    ensures made { IfOk result (λ next. is_some next ≡ counted) }
    ensures zeros { IfOk result (λ next. IfSome next (λ its. its ≡ zeros true)) }
    ensures room { IfOk result (λ next. IsSome next → vec_len counts.new < vec_capacity counts.new) }
{
    if !counted {
        return Ok(None);
    }
    counts.reserve(1)?;
    let next = Counts::new(alloc, true)?;
    Ok(Some(next))
}

// Puts the counts of one partition more behind the others, if there are any.
fn push_next(counts: &mut Vec<Counts>, next: Option<Counts>)
    requires { IsSome next → vec_len counts.old < vec_capacity counts.old }
    ensures { counts.new.items ≡ counts.old.items ++ option_to_list next }
{
    if let Some(next) = next {
        counts.push_reserved(next);
    }
}

// Gives the block of each partition back that holds no tuple, with its counts, and tells how many slots they had.
fn release_empty<T>(
    blocks: &mut Vec<Block<T>>,
    counts: &mut Vec<Counts>,
    occupancies: &mut Vec<Occupancy>,
    width: usize,
) -> u64
    requires wide { (0 < width) × (width ≤ MAX_WIDTH) }
    requires few { length blocks.old.items ≤ MAX_PARTITIONS }
    requires kept { AreKept width blocks.old.items occupancies.old.items }
    ensures kept { AreKept width blocks.new.items occupancies.new.items }
    ensures as_many { length blocks.new.items ≡ length blocks.old.items }
    ensures counts { length counts.new.items ≡ length counts.old.items }
    ensures own { HaveCounts blocks.old.items counts.old.items → HaveCounts blocks.new.items counts.new.items }
    ensures tuples { tuples_of (tables width blocks.new.items) ≡ tuples_of (tables width blocks.old.items) }
    ensures numbers { (r : TupleRef) → IsSome (finite.get (tuples_of (tables width blocks.new.items)) r) → number_of counts.new.items r ≡ number_of counts.old.items r }
    ensures free { sum_by vacancies (tables width blocks.new.items) + result ≡ sum_by vacancies (tables width blocks.old.items) }
    ensures slots { sum_by length (tables width blocks.new.items) + result ≡ sum_by length (tables width blocks.old.items) }
    ensures held { (part : ℕ) → part < length occupancies.new.items → HoldsWhereBlock occupancies.new.items part }
{
    let mut given = 0;
    for part in 0..blocks.len() {
        let occupancy = &mut occupancies[part];
        if !occupancy.is_spare() {
            continue;
        }
        blocks[part].release(SLOTS as usize * width);
        set_counts(counts, part, Counts::none());
        occupancy.has_block = false;
        given += SLOTS as u64;
    }
    given
}

// Takes away the partitions at the end that have no block.
fn pop_bare<T>(
    blocks: &mut Vec<Block<T>>,
    counts: &mut Vec<Counts>,
    occupancies: &mut Vec<Occupancy>,
    width: usize,
)
    requires kept { AreKept width blocks.old.items occupancies.old.items }
    ensures kept { AreKept width blocks.new.items occupancies.new.items }
    ensures tuples { tuples_of (tables width blocks.new.items) ≡ tuples_of (tables width blocks.old.items) }
    ensures fewer { length blocks.new.items ≤ length blocks.old.items }
    ensures counts { counts.new.items ≡ take (length blocks.new.items) counts.old.items }
    ensures own { HaveCounts blocks.old.items counts.old.items → HaveCounts blocks.new.items counts.new.items }
    ensures free { sum_by vacancies (tables width blocks.new.items) ≡ sum_by vacancies (tables width blocks.old.items) }
    ensures slots { sum_by length (tables width blocks.new.items) ≡ sum_by length (tables width blocks.old.items) }
    ensures held { ((part : ℕ) → part < length occupancies.old.items → HoldsWhereBlock occupancies.old.items part) → (part : ℕ) → part < length occupancies.new.items → HoldsWhereBlock occupancies.new.items part }
    ensures last { 0 < length occupancies.new.items → has_block_at occupancies.new.items (length occupancies.new.items - 1) ≡ true }
{
    while ends_bare(occupancies) {
        match (blocks.pop(), occupancies.pop()) {
            (Some(block), Some(_)) => block.let_go(),
            _ => unreachable!(),
        }
    }
    counts.truncate(blocks.len());
    blocks.shrink_to_fit();
    counts.shrink_to_fit();
    occupancies.shrink_to_fit();
}

// Links the partitions that have a free slot, the lowest first, and names the first.
fn relink(occupancies: &mut Vec<Occupancy>) -> Option<u32>
    requires { length occupancies.old.items < 4294967296 }
    ensures held { map (λ o. o.held.words) occupancies.new.items ≡ map (λ o. o.held.words) occupancies.old.items }
    ensures blocks { map (λ o. o.has_block) occupancies.new.items ≡ map (λ o. o.has_block) occupancies.old.items }
    ensures linked { (is_open : ℕ → Bool) → Tells is_open occupancies.old.items → IsOpenList is_open (next_at occupancies.new.items) (below is_open (length occupancies.old.items)) result }
{
    let mut first_open = None;
    let mut part = occupancies.len();
    while part > 0 {
        part -= 1;
        let occupancy = &mut occupancies[part];
        if occupancy.is_open() {
            occupancy.next_open = first_open;
            first_open = Some(part as u32);
        }
    }
    first_open
}
