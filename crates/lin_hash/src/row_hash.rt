//! The hash of the rows of one store: a table of buckets, and how many more rows have their heads.
//!
//! It counts the rows, so that the table knows when to split and when to fold. Where a row stands is the table's matter. A
//! new hash has no table, and takes one with its first `reserve` or `cover`.
ghost use Rattle.std.specs.Prelude.{◌≡◌, ◌+◌, ◌*◌, ◌^◌, ◌-◌, ◌<◌, ◌≤◌, ℕ, [], ◌∷◌, length, Contains, IfOk, OnOk, OnErr};
ghost use Rattle.std.specs.Bool.{OnTrue, OnFalse};
ghost use Rattle.part_raw.specs.declared.tuple_ref.TupleRef.{TupleRef};
ghost use Rattle.mm_index.specs.Bag.{AppendsBag, IsSameBag, with_hash};
ghost use Rattle.lin_hash.specs.Held.{StaysOrDoubles};
ghost use Rattle.lin_hash.specs.HeldRows.{IsCovered};
ghost use Rattle.lin_hash.specs.RowsHeld.{rows_buckets, rows_covered, rows_entries, rows_heads};
ghost use Rattle.lin_hash.specs.RowRest.{row_chain_rest};
ghost use Rattle.lin_hash.specs.Shape.{HasHashShape, IsLongestChain};

use crate::address::FIRST_BUCKETS;
use crate::node::NodeLink;
use crate::row_chain::RowChain;
use crate::row_table::RowTable;
use crate::shape::HashShape;
use no_memory::NoMemory;
use part_raw::{MAX_TUPLES, TupleRef};
use std::alloc::Global;
use std::marker::Model;

/// A modified linear hash of the rows of one store, each under one hash. The node of a row stands at the place that its
/// reference names, so a row is taken out without a search, however many have its hash.
pub struct RowHash {
    alloc: Global,
    table: Option<RowTable>,
    len: usize,
}

impl Drop for RowHash {
    fn drop(self) {
        let RowHash {
            alloc: _,
            table: _,
            len: _,
        } = self;
    }
}

impl Model for RowHash {
    ghost use Rattle.std.specs.Prelude.{◌-◌, ◌*◌, length};
    ghost use Rattle.lin_hash.specs.HeldRows.{HeldRows};
    ghost use Rattle.lin_hash.specs.RowsHeld.{rows_buckets, rows_covered, rows_entries, rows_heads};

    ghost Value = { HeldRows };

    ghost view = { λ h. record {
      entries = rows_entries h.table;
      room = 2 * rows_heads h.table - length (rows_entries h.table);
      buckets = rows_buckets h.table;
      heads = rows_heads h.table;
      covered = rows_covered h.table;
    } };

    ghost use Rattle.lin_hash.specs.RowsRoom.{AreCountedRows};

    ghost invariant = { λ h. AreCountedRows h };
}

impl RowHash {
    /// An empty hash, which has taken no memory.
    pub fn new(alloc: Global) -> RowHash
        ensures entries { result.entries ≡ [] }
        ensures buckets { result.buckets ≡ 4 }
        ensures heads { result.heads ≡ 0 }
        ensures covered { result.covered ≡ [] }
    {
        RowHash {
            alloc,
            table: None,
            len: 0,
        }
    }

    /// A hash of its own with the same rows, and with memory for the same nodes and heads. It gives all of its memory back
    /// where this runs out.
    pub fn try_clone(&self) -> Result<RowHash, NoMemory>
        ensures { IfOk result (λ copy. copy ≡ self.now) }
    {
        let table = copy_table(&self.table)?;
        Ok(RowHash {
            alloc: self.alloc,
            table,
            len: self.len,
        })
    }

    /// How many rows there are. It was counted before.
    pub fn len(&self) -> usize
        ensures { result ≡ length self.now.entries }
    {
        self.len
    }

    /// How many buckets there are.
    pub fn buckets(&self) -> usize
        ensures value { result ≡ self.now.buckets }
        ensures first { 4 ≤ result }
        ensures dense { length self.now.entries ≤ 2 * result }
    {
        match &self.table {
            Some(table) => table.buckets(),
            None => FIRST_BUCKETS,
        }
    }

    /// For how many heads of buckets there is memory.
    pub fn heads(&self) -> usize
        ensures { result ≡ self.now.heads }
    {
        match &self.table {
            Some(table) => table.heads(),
            None => 0,
        }
    }

    /// How many nodes, of 12 bytes each, stand in blocks in which no row stands: the memory that `release_spares` gives back.
    pub fn spare_nodes(&self) -> usize {
        match &self.table {
            Some(table) => table.spare_nodes(),
            None => 0,
        }
    }

    /// Whether a row stands under some hash: the row may be any.
    pub fn holds(&self, r: TupleRef) -> bool
        ensures held { OnTrue result ((hash : ℕ) × Contains self.now.entries (hash, r)) }
        ensures absent { OnFalse result ((hash : ℕ) → ¬ (Contains self.now.entries (hash, r))) }
    {
        match &self.table {
            Some(table) => table.holds(r),
            None => false,
        }
    }

    /// How it stands. It goes along each chain once, and takes no memory.
    pub fn shape(&self) -> HashShape
        ensures told { HasHashShape self.now.entries result }
        ensures buckets { result.buckets ≡ self.now.buckets }
    {
        HashShape {
            items: self.len,
            buckets: self.buckets(),
            longest: self.longest_chain(),
        }
    }

    // How many rows the longest chain has.
    fn longest_chain(&self) -> usize
        ensures { IsLongestChain self.now.buckets self.now.entries result }
    {
        match &self.table {
            Some(table) => table.longest_chain(),
            None => 0,
        }
    }

    /// The rows with that hash, in any order. It borrows the hash and takes no memory.
    pub fn chain(&self, hash: u32) -> RowChain<'_>
        ensures { IsSameBag (row_chain_rest result) (with_hash hash self.now.entries) }
    {
        match &self.table {
            Some(table) => table.chain(hash),
            None => RowChain::new(hash, &[], NodeLink::none()),
        }
    }

    /// Appends what `chain` gives. After an error `out` is as before.
    pub fn matching(&self, hash: u32, out: &mut Vec<TupleRef>) -> Result<(), NoMemory>
        ensures ok { OnOk result (AppendsBag out.old.items out.new.items (with_hash hash self.now.entries)) }
        ensures err { OnErr result (out.new.items ≡ out.old.items) }
    {
        let before = out.len();
        for r in self.chain(hash) {
            if let Err(refused) = out.push(r) {
                out.truncate(before);
                return Err(NoMemory::from(refused));
            }
        }
        Ok(())
    }

    /// Makes sure of memory for the heads of buckets that `n` rows more ask for, until `release_spares`. After an error what
    /// was gained is kept.
    pub fn reserve(&mut self, n: usize) -> Result<(), NoMemory>
        requires { n ≤ 2 ^ 32 }
        ensures entries { self.new.entries ≡ self.old.entries }
        ensures covered { self.new.covered ≡ self.old.covered }
        ensures buckets { self.new.buckets ≡ self.old.buckets }
        ensures reserved { OnOk result (n ≤ self.new.room) }
        ensures room { self.old.room ≤ self.new.room }

        // The first four buckets have their heads. From then on memory stays as it is where it suffices, and comes else to
        // twice as much at least.
        ensures first { OnOk result (4 ≤ self.new.heads) }
        ensures grown_heads { StaysOrDoubles self.old.heads self.new.heads }
        ensures enough_heads { 4 ≤ self.old.heads → length self.old.entries + n ≤ 2 * self.old.heads → self.new.heads ≡ self.old.heads }
    {
        reserve_heads(&mut self.table, self.alloc, self.len + n)
    }

    /// Makes sure of memory for the node of a row, with the whole block of 256 in which it stands. At an error nothing has
    /// changed.
    pub fn cover(&mut self, r: TupleRef) -> Result<(), NoMemory>
        requires { r.number < MAX_TUPLES }
        ensures covered { OnOk result (IsCovered self.new.covered r) }
        ensures kept { (q : TupleRef) → IsCovered self.old.covered q → IsCovered self.new.covered q }
        ensures had { IsCovered self.old.covered r → self.new ≡ self.old }
        ensures err { OnErr result (self.new ≡ self.old) }
        ensures entries { self.new.entries ≡ self.old.entries }
        ensures buckets { self.new.buckets ≡ self.old.buckets }
        ensures room { self.old.room ≤ self.new.room }
    {
        cover_row(&mut self.table, self.alloc, r)
    }

    /// Puts a row in that stands under no hash yet, and splits one bucket at most. Takes no memory.
    pub fn insert(&mut self, hash: u32, r: TupleRef)
        requires reserved { 0 < self.old.room }
        requires short { length self.old.entries < 2 ^ 32 }
        requires covered { IsCovered self.old.covered r }
        requires absent { (h : ℕ) → ¬ (Contains self.old.entries (h, r)) }
        ensures entries { IsSameBag self.new.entries ((hash, r) ∷ self.old.entries) }
        ensures room { self.old.room ≤ self.new.room + 1 }
        ensures covered { self.new.covered ≡ self.old.covered }
        ensures heads { self.new.heads ≡ self.old.heads }

        // The buckets grow by one exactly where there are then more rows than twice the buckets.
        ensures split { 2 * self.old.buckets < length self.new.entries → self.new.buckets ≡ self.old.buckets + 1 }
        ensures unsplit { length self.new.entries ≤ 2 * self.old.buckets → self.new.buckets ≡ self.old.buckets }
    {
        self.len += 1;
        insert_row(&mut self.table, hash, r, self.len);
    }

    /// Takes a row out, and folds one bucket at most. It looks for nothing: the node tells its hash and the nodes beside it.
    /// Takes no memory and gives none back, so the row can be put in again.
    pub fn remove(&mut self, r: TupleRef)
        requires { (hash : ℕ) × Contains self.old.entries (hash, r) }
        ensures entries { (hash : ℕ) → Contains self.old.entries (hash, r) → IsSameBag self.old.entries ((hash, r) ∷ self.new.entries) }
        ensures room { self.old.room + 1 ≤ self.new.room }
        ensures covered { self.new.covered ≡ self.old.covered }
        ensures stays { IsCovered self.new.covered r }
        ensures heads { self.new.heads ≡ self.old.heads }

        // The buckets shrink by one exactly where there are more than four, and then fewer rows than half of them.
        ensures folded { 2 * length self.new.entries < self.old.buckets → 4 < self.old.buckets → self.new.buckets + 1 ≡ self.old.buckets }
        ensures unfolded { self.old.buckets ≤ 2 * length self.new.entries → self.new.buckets ≡ self.old.buckets }
        ensures first { self.old.buckets ≤ 4 → self.new.buckets ≡ self.old.buckets }
    {
        self.len -= 1;
        remove_row(&mut self.table, r, self.len);
    }

    /// Gives back the memory of blocks in which no row stands, and of heads that are not used. It takes no memory.
    pub fn release_spares(&mut self)
        ensures entries { self.new.entries ≡ self.old.entries }
        ensures buckets { self.new.buckets ≡ self.old.buckets }
        ensures heads { self.new.heads ≤ self.old.heads }
        ensures covered { (q : TupleRef) → IsCovered self.new.covered q → IsCovered self.old.covered q }
    {
        if let Some(table) = &mut self.table {
            table.release_spares();
        }
    }
}

// The table, copied, where there is one.
fn copy_table(table: &Option<RowTable>) -> Result<Option<RowTable>, NoMemory>
    ensures { IfOk result (λ copy. copy ≡ table.now) }
{
    match table {
        Some(table) => Ok(Some(table.try_clone()?)),
        None => Ok(None),
    }
}

// Makes sure of the heads of the buckets of so many rows, and of the first four.
fn reserve_heads(
    table: &mut Option<RowTable>,
    alloc: Global,
    entries: usize,
) -> Result<(), NoMemory>
    ensures entries { rows_entries table.new ≡ rows_entries table.old }
    ensures covered { rows_covered table.new ≡ rows_covered table.old }
    ensures buckets { rows_buckets table.new ≡ rows_buckets table.old }
    ensures reserved { OnOk result (entries ≤ 2 * rows_heads table.new) }
    ensures first { OnOk result (4 ≤ rows_heads table.new) }
    ensures more { rows_heads table.old ≤ rows_heads table.new }
    ensures grown { StaysOrDoubles (rows_heads table.old) (rows_heads table.new) }
    ensures enough { 4 ≤ rows_heads table.old → entries ≤ 2 * rows_heads table.old → rows_heads table.new ≡ rows_heads table.old }
{
    match table {
        Some(table) => table.reserve(entries),
        None => {
            let mut first = RowTable::new(alloc)?;
            first.reserve(entries)?;
            *table = Some(first);
            Ok(())
        }
    }
}

// Makes sure of the memory for the node of a row.
fn cover_row(table: &mut Option<RowTable>, alloc: Global, r: TupleRef) -> Result<(), NoMemory>
    requires { r.number < MAX_TUPLES }
    ensures covered { OnOk result (IsCovered (rows_covered table.new) r) }
    ensures kept { (q : TupleRef) → IsCovered (rows_covered table.old) q → IsCovered (rows_covered table.new) q }
    ensures had { IsCovered (rows_covered table.old) r → table.new ≡ table.old }
    ensures err { OnErr result (table.new ≡ table.old) }
    ensures entries { rows_entries table.new ≡ rows_entries table.old }
    ensures buckets { rows_buckets table.new ≡ rows_buckets table.old }
    ensures heads { rows_heads table.old ≤ rows_heads table.new }
{
    match table {
        Some(table) => table.cover(r),
        None => {
            let mut first = RowTable::new(alloc)?;
            first.cover(r)?;
            *table = Some(first);
            Ok(())
        }
    }
}

// Puts a row into the table, which then has `len` of them.
fn insert_row(table: &mut Option<RowTable>, hash: u32, r: TupleRef, len: usize)
    requires covered { IsCovered (rows_covered table.old) r }
    requires absent { (h : ℕ) → ¬ (Contains (rows_entries table.old) (h, r)) }
    requires heads { length (rows_entries table.old) < 2 * rows_heads table.old }
    requires counted { len ≡ length (rows_entries table.old) + 1 }
    requires short { len ≤ 2 ^ 32 }
    ensures entries { IsSameBag (rows_entries table.new) ((hash, r) ∷ rows_entries table.old) }
    ensures covered { rows_covered table.new ≡ rows_covered table.old }
    ensures heads { rows_heads table.new ≡ rows_heads table.old }
    ensures split { 2 * rows_buckets table.old < len → rows_buckets table.new ≡ rows_buckets table.old + 1 }
    ensures unsplit { len ≤ 2 * rows_buckets table.old → rows_buckets table.new ≡ rows_buckets table.old }
{
    match table {
        Some(table) => table.insert(hash, r, len),
        None => unreachable!(),
    }
}

// Takes a row out of the table, which then has `len` of them.
fn remove_row(table: &mut Option<RowTable>, r: TupleRef, len: usize)
    requires held { (hash : ℕ) × Contains (rows_entries table.old) (hash, r) }
    requires counted { length (rows_entries table.old) ≡ len + 1 }
    requires short { len < 2 ^ 32 }
    ensures entries { (hash : ℕ) → Contains (rows_entries table.old) (hash, r) → IsSameBag (rows_entries table.old) ((hash, r) ∷ rows_entries table.new) }
    ensures covered { rows_covered table.new ≡ rows_covered table.old }
    ensures stays { IsCovered (rows_covered table.new) r }
    ensures heads { rows_heads table.new ≡ rows_heads table.old }
    ensures folded { 2 * len < rows_buckets table.old → 4 < rows_buckets table.old → rows_buckets table.new + 1 ≡ rows_buckets table.old }
    ensures unfolded { rows_buckets table.old ≤ 2 * len → rows_buckets table.new ≡ rows_buckets table.old }
    ensures first { rows_buckets table.old ≤ 4 → rows_buckets table.new ≡ rows_buckets table.old }
{
    match table {
        Some(table) => table.remove(r, len),
        None => unreachable!(),
    }
}
