//! The index: a table of buckets, and how many inserts have their nodes.
//!
//! It counts the entries, so that the table knows when to split and when to fold, and it makes sure that an insert has its
//! memory. The room is the lesser of two numbers: the spare nodes, and two entries a head less those held. The table alone
//! knows where an entry is. A new index has no table, and makes one in its first `reserve`.
ghost use Rattle.std.specs.Prelude.{◌≡◌, ◌+◌, ◌*◌, ◌^◌, ◌-◌, ◌<◌, ◌≤◌, [], ◌∷◌, length, max, Contains, OnOk};
ghost use Rattle.mm_index.specs.Bag.{IsSameBag, with_hash};
ghost use Rattle.lin_hash.specs.Held.{StaysOrDoubles, table_entries, table_nodes, table_heads, table_listed, table_buckets};
ghost use Rattle.lin_hash.specs.Rest.{chain_rest};
ghost use Rattle.lin_hash.specs.Shape.{HasHashShape, IsLongestChain};

use crate::address::FIRST_BUCKETS;
use crate::chain::Chain;
use crate::node::NodeLink;
use crate::shape::HashShape;
use crate::table::Table;
use mm_index::ExactIndex;
use no_memory::NoMemory;
use part_raw::TupleRef;
use std::alloc::Global;
use std::marker::Model;

/// A modified linear hash: a bag of references under hashes. A look-up visits the nodes of one bucket, of which there are
/// at least half as many as entries.
pub struct LinHash {
    alloc: Global,
    table: Option<Table>,
    len: usize,
    spares: usize,
}

impl Drop for LinHash {
    fn drop(self) {
        let LinHash {
            alloc: _,
            table: _,
            len: _,
            spares: _,
        } = self;
    }
}

impl Model for LinHash {
    ghost use Rattle.std.specs.Prelude.{◌-◌, ◌*◌, length, min};
    ghost use Rattle.lin_hash.specs.Held.{HeldBuckets, table_entries, table_nodes, table_heads, table_listed, table_buckets};

    ghost Value = { HeldBuckets };

    ghost view = { λ h. record {
      entries = table_entries h.table;
      room = min h.spares (2 * table_heads h.table - length (table_entries h.table));
      buckets = table_buckets h.table;
      nodes = table_nodes h.table;
      heads = table_heads h.table;
      listed = table_listed h.table;
    } };

    ghost use Rattle.lin_hash.specs.Counted.{IsCounted};

    ghost invariant = { λ h. IsCounted h };
}

impl LinHash {
    /// An empty index, which has taken no memory.
    pub fn new(alloc: Global) -> LinHash
        ensures entries { result.entries ≡ [] }
        ensures buckets { result.buckets ≡ 4 }
        ensures nodes { result.nodes ≡ 0 }
        ensures heads { result.heads ≡ 0 }
        ensures listed { result.listed ≡ 0 }
    {
        LinHash {
            alloc,
            table: None,
            len: 0,
            spares: 0,
        }
    }

    /// How many buckets there are.
    pub fn buckets(&self) -> usize
        ensures value { result ≡ self.now.buckets }
        ensures first { 4 ≤ result }
        ensures dense { length self.now.entries ≤ 2 * result }
    {
        match &self.table {
            Some(table) => table.buckets(),
            None => FIRST_BUCKETS,
        }
    }

    /// For how many nodes there is memory. Each entry has one of them.
    pub fn nodes(&self) -> usize
        ensures { result ≡ self.now.nodes }
    {
        match &self.table {
            Some(table) => table.nodes(),
            None => 0,
        }
    }

    /// How it stands. It goes along each chain once, and takes no memory.
    pub fn shape(&self) -> HashShape
        ensures told { HasHashShape self.now.entries result }
        ensures buckets { result.buckets ≡ self.now.buckets }
    {
        HashShape {
            items: self.len,
            buckets: self.buckets(),
            longest: self.longest_chain(),
        }
    }

    // How many entries the longest chain has.
    fn longest_chain(&self) -> usize
        ensures { IsLongestChain self.now.buckets self.now.entries result }
    {
        match &self.table {
            Some(table) => table.longest_chain(),
            None => 0,
        }
    }

    /// The references with that hash, each as often as it is held, in any order. It borrows the index and takes no memory.
    pub fn chain(&self, hash: u32) -> Chain<'_>
        ensures { IsSameBag (chain_rest result) (with_hash hash self.now.entries) }
    {
        match &self.table {
            Some(table) => table.chain(hash),
            None => Chain::new(hash, &[], NodeLink::none()),
        }
    }
}

impl ExactIndex for LinHash {
    ghost entries = { λ h. h.entries };

    ghost room = { λ h. h.room };

    /// Makes sure of memory for `n` inserts, until `release_spares`: for the nodes of all of them, and for as many heads of
    /// buckets as the entries and `n` more ask for. With these there are fewer than 2^32 entries, since links name so many
    /// nodes. After an error what was gained is kept.
    fn reserve(&mut self, n: usize) -> Result<(), NoMemory>
        requires { length self.old.entries + n < 2 ^ 32 }
        ensures entries { self.new.entries ≡ self.old.entries }
        ensures reserved { OnOk result (n ≤ self.new.room) }
        ensures room { self.old.room ≤ self.new.room }
        ensures buckets { self.new.buckets ≡ self.old.buckets }

        // The first four buckets have their heads. From then on memory stays as it is where it suffices. Else that of
        // nodes comes to less than a block more than is needed, and that for heads, and for blocks in their list, to
        // twice as much at least.
        ensures first { OnOk result (4 ≤ self.new.heads) }
        ensures grown_heads { StaysOrDoubles self.old.heads self.new.heads }
        ensures grown_nodes { self.new.nodes ≤ max self.old.nodes (length self.old.entries + n + 255) }
        ensures grown_list { StaysOrDoubles self.old.listed self.new.listed }
        ensures enough_heads { 4 ≤ self.old.heads → length self.old.entries + n ≤ 2 * self.old.heads → self.new.heads ≡ self.old.heads }
        ensures enough_nodes { length self.old.entries + n ≤ self.old.nodes → self.new.nodes ≡ self.old.nodes }
        ensures enough_list { length self.old.entries + n ≤ self.old.nodes → self.new.listed ≡ self.old.listed }
    {
        reserve_memory(&mut self.table, self.alloc, self.len + n)?;
        self.spares = self.spares.max(n);
        Ok(())
    }

    /// Puts one pair in, and splits one bucket at most. Takes no memory.
    fn insert(&mut self, hash: u32, r: TupleRef)
        requires reserved { 0 < self.old.room }
        requires short { length self.old.entries < 2 ^ 32 }
        ensures entries { IsSameBag self.new.entries ((hash, r) ∷ self.old.entries) }
        ensures room { self.old.room ≤ self.new.room + 1 }
        ensures nodes { self.new.nodes ≡ self.old.nodes }
        ensures heads { self.new.heads ≡ self.old.heads }
        ensures listed { self.new.listed ≡ self.old.listed }

        // The buckets grow by one exactly where there are then more entries than twice the buckets.
        ensures split { 2 * self.old.buckets < length self.new.entries → self.new.buckets ≡ self.old.buckets + 1 }
        ensures unsplit { length self.new.entries ≤ 2 * self.old.buckets → self.new.buckets ≡ self.old.buckets }
    {
        self.spares -= 1;
        self.len += 1;
        insert_entry(&mut self.table, hash, r, self.len);
    }

    /// Takes one such pair out, and folds one bucket at most. Takes no memory and gives none back: the node is a spare one
    /// then, so that what was taken out can be put in again.
    fn remove(&mut self, hash: u32, r: TupleRef)
        requires { Contains self.old.entries (hash, r) }
        ensures entries { IsSameBag self.old.entries ((hash, r) ∷ self.new.entries) }
        ensures room { self.old.room + 1 ≤ self.new.room }
        ensures nodes { self.new.nodes ≡ self.old.nodes }
        ensures heads { self.new.heads ≡ self.old.heads }
        ensures listed { self.new.listed ≡ self.old.listed }

        // The buckets shrink by one exactly where there are more than four, and then fewer entries than half
        // of them.
        ensures folded { 2 * length self.new.entries < self.old.buckets → 4 < self.old.buckets → self.new.buckets + 1 ≡ self.old.buckets }
        ensures unfolded { self.old.buckets ≤ 2 * length self.new.entries → self.new.buckets ≡ self.old.buckets }
        ensures first { self.old.buckets ≤ 4 → self.new.buckets ≡ self.old.buckets }
    {
        self.len -= 1;
        self.spares += 1;
        remove_entry(&mut self.table, hash, r, self.len);
    }

    /// Appends what `chain` gives. After an error `out` is as before.
    fn matching(&self, hash: u32, out: &mut Vec<TupleRef>) -> Result<(), NoMemory> {
        let before = out.len();
        for r in self.chain(hash) {
            if let Err(refused) = out.push(r) {
                out.truncate(before);
                return Err(NoMemory::from(refused));
            }
        }
        Ok(())
    }

    /// How many pairs there are. It was counted before.
    fn len(&self) -> usize {
        self.len
    }

    /// Gives back the memory of nodes and of heads that no entry needs.
    fn release_spares(&mut self)
        ensures entries { self.new.entries ≡ self.old.entries }
        ensures room { self.new.room ≡ 0 }
        ensures nodes { self.new.nodes ≤ self.old.nodes }
        ensures few_nodes { self.new.nodes ≤ length self.new.entries + 255 }
        ensures heads { self.new.heads ≤ self.old.heads }
        ensures listed { self.new.listed ≤ self.old.listed }
        ensures buckets { self.new.buckets ≡ self.old.buckets }
    {
        self.spares = 0;
        if let Some(table) = &mut self.table {
            table.release_spares();
        }
    }
}

// Makes sure of the nodes and the heads of the buckets of so many entries, and of the first four.
fn reserve_memory(table: &mut Option<Table>, alloc: Global, entries: usize) -> Result<(), NoMemory>
    requires { entries < 2 ^ 32 }
    ensures entries { table_entries table.new ≡ table_entries table.old }
    ensures nodes { OnOk result (entries ≤ table_nodes table.new) }
    ensures reserved { OnOk result (entries ≤ 2 * table_heads table.new) }
    ensures first { OnOk result (4 ≤ table_heads table.new) }
    ensures more_nodes { table_nodes table.old ≤ table_nodes table.new }
    ensures more_heads { table_heads table.old ≤ table_heads table.new }
    ensures buckets { table_buckets table.new ≡ table_buckets table.old }
    ensures grown_heads { StaysOrDoubles (table_heads table.old) (table_heads table.new) }
    ensures grown_nodes { table_nodes table.new ≤ max (table_nodes table.old) (entries + 255) }
    ensures grown_list { StaysOrDoubles (table_listed table.old) (table_listed table.new) }
    ensures enough_heads { 4 ≤ table_heads table.old → entries ≤ 2 * table_heads table.old → table_heads table.new ≡ table_heads table.old }
    ensures enough_nodes { entries ≤ table_nodes table.old → table_nodes table.new ≡ table_nodes table.old }
    ensures enough_list { entries ≤ table_nodes table.old → table_listed table.new ≡ table_listed table.old }
{
    match table {
        Some(table) => table.reserve(entries),
        None => {
            let mut first = Table::new(alloc)?;
            first.reserve(entries)?;
            *table = Some(first);
            Ok(())
        }
    }
}

// Puts an entry into the table, which then has `len` of them.
fn insert_entry(table: &mut Option<Table>, hash: u32, r: TupleRef, len: usize)
    requires nodes { length (table_entries table.old) < table_nodes table.old }
    requires heads { length (table_entries table.old) < 2 * table_heads table.old }
    requires counted { len ≡ length (table_entries table.old) + 1 }
    requires short { len ≤ 2 ^ 32 }
    ensures entries { IsSameBag (table_entries table.new) ((hash, r) ∷ table_entries table.old) }
    ensures nodes { table_nodes table.new ≡ table_nodes table.old }
    ensures heads { table_heads table.new ≡ table_heads table.old }
    ensures listed { table_listed table.new ≡ table_listed table.old }
    ensures split { 2 * table_buckets table.old < len → table_buckets table.new ≡ table_buckets table.old + 1 }
    ensures unsplit { len ≤ 2 * table_buckets table.old → table_buckets table.new ≡ table_buckets table.old }
{
    match table {
        Some(table) => table.insert(hash, r, len),
        None => unreachable!(),
    }
}

// Takes an entry out of the table, which then has `len` of them.
fn remove_entry(table: &mut Option<Table>, hash: u32, r: TupleRef, len: usize)
    requires held { Contains (table_entries table.old) (hash, r) }
    requires counted { length (table_entries table.old) ≡ len + 1 }
    requires short { len < 2 ^ 32 }
    ensures entries { IsSameBag (table_entries table.old) ((hash, r) ∷ table_entries table.new) }
    ensures nodes { table_nodes table.new ≡ table_nodes table.old }
    ensures heads { table_heads table.new ≡ table_heads table.old }
    ensures listed { table_listed table.new ≡ table_listed table.old }
    ensures folded { 2 * len < table_buckets table.old → 4 < table_buckets table.old → table_buckets table.new + 1 ≡ table_buckets table.old }
    ensures unfolded { table_buckets table.old ≤ 2 * len → table_buckets table.new ≡ table_buckets table.old }
    ensures first { table_buckets table.old ≤ 4 → table_buckets table.new ≡ table_buckets table.old }
{
    match table {
        Some(table) => table.remove(hash, r, len),
        None => unreachable!(),
    }
}
