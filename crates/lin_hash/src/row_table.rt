//! The buckets of rows, each row in that of its hash, and the split and the fold that add and remove one.
//!
//! The head of a bucket links to the first node of its chain. The heads stand in one vector, and each node at the place of
//! its row. Who counts the rows is not the table's matter: it is told.
ghost use Rattle.std.specs.Prelude.{◌≡◌, ◌+◌, ◌-◌, ◌*◌, ◌^◌, ◌<◌, ◌≤◌, ℕ, [], ◌∷◌, length, vec_len, vec_capacity, IfOk, OnOk, OnErr, Contains};
ghost use Rattle.std.specs.Bool.{OnTrue, OnFalse};
ghost use Rattle.part_raw.specs.declared.tuple_ref.TupleRef.{TupleRef};
ghost use Rattle.mm_index.specs.Bag.{IsSameBag, with_hash};
ghost use Rattle.lin_hash.specs.Held.{StaysOrDoubles};
ghost use Rattle.lin_hash.specs.HeldRows.{IsCovered};
ghost use Rattle.lin_hash.specs.RowRest.{row_chain_rest};
ghost use Rattle.lin_hash.specs.Shape.{IsLongestChain};

use crate::address::{Address, FIRST_BUCKETS};
use crate::copying::copy_heads;
use crate::growing::reserve_by_doubling;
use crate::node::NodeLink;
use crate::row_chain::RowChain;
use crate::row_chains::{link, link_from, longest, unlink};
use crate::row_nodes::RowNodes;
use crate::table::{MOST_BUCKETS_AN_ENTRY, MOST_ENTRIES_A_BUCKET};
use no_memory::NoMemory;
use part_raw::{MAX_TUPLES, TupleRef};
use std::alloc::Global;
use std::marker::Model;
use std::mem;

/// At least four buckets, and the nodes of their chains.
#[derive(Drop)]
pub struct RowTable {
    address: Address,
    heads: Vec<NodeLink>,
    nodes: RowNodes,
}

impl Model for RowTable {
    ghost use Rattle.std.specs.Prelude.{vec_len, vec_capacity};
    ghost use Rattle.lin_hash.specs.HeldRows.{HeldRowTable};
    ghost use Rattle.lin_hash.specs.RowNodes.{rows_of};

    ghost Value = { HeldRowTable };

    ghost view = { λ t. record {
      entries = rows_of t.nodes.items;
      buckets = vec_len t.heads;
      heads = vec_capacity t.heads;
      covered = t.nodes.covered;
    } };

    ghost use Rattle.lin_hash.specs.RowTables.{IsRowTable};

    ghost invariant = { λ t. IsRowTable t };
}

impl RowTable {
    // Four empty buckets.
    pub fn new(alloc: Global) -> Result<RowTable, NoMemory>
        ensures entries { IfOk result (λ table. table.entries ≡ []) }
        ensures buckets { IfOk result (λ table. table.buckets ≡ 4) }
        ensures heads { IfOk result (λ table. 4 ≤ table.heads) }
        ensures covered { IfOk result (λ table. table.covered ≡ []) }
    {
        let mut heads = Vec::new(alloc);
        heads.reserve(FIRST_BUCKETS)?;
        for _ in 0..FIRST_BUCKETS {
            heads.push(NodeLink::none())?;
        }
        Ok(RowTable {
            address: Address { level: 0, mark: 0 },
            heads,
            nodes: RowNodes::new(alloc),
        })
    }

    // The same buckets, with memory for as many heads.
    pub fn try_clone(&self) -> Result<RowTable, NoMemory>
        ensures { IfOk result (λ copy. copy ≡ self.now) }
    {
        let heads = copy_heads(&self.heads, *self.heads.allocator())?;
        let nodes = self.nodes.try_clone()?;
        Ok(RowTable {
            address: self.address,
            heads,
            nodes,
        })
    }

    // How many there are.
    pub fn buckets(&self) -> usize
        ensures value { result ≡ self.now.buckets }
        ensures first { 4 ≤ result }
        ensures few { result < 2 ^ 34 }
    {
        self.heads.len()
    }

    // For how many heads there is memory.
    pub fn heads(&self) -> usize
        ensures { result ≡ self.now.heads }
    {
        self.heads.capacity()
    }

    // How many nodes stand in blocks that no row uses.
    pub fn spare_nodes(&self) -> usize {
        self.nodes.spare()
    }

    // Makes sure of a head for every two of so many rows. After an error what was gained is kept.
    pub fn reserve(&mut self, entries: usize) -> Result<(), NoMemory>
        ensures entries { self.new.entries ≡ self.old.entries }
        ensures covered { self.new.covered ≡ self.old.covered }
        ensures buckets { self.new.buckets ≡ self.old.buckets }
        ensures reserved { OnOk result (entries ≤ 2 * self.new.heads) }
        ensures first { 4 ≤ self.new.heads }
        ensures more { self.old.heads ≤ self.new.heads }
        ensures grown { StaysOrDoubles self.old.heads self.new.heads }
        ensures enough { entries ≤ 2 * self.old.heads → self.new.heads ≡ self.old.heads }
    {
        let heads = entries.div_ceil(MOST_ENTRIES_A_BUCKET);
        reserve_by_doubling(&mut self.heads, heads)
    }

    // Makes sure of memory for the node of a row. At an error nothing has changed.
    pub fn cover(&mut self, r: TupleRef) -> Result<(), NoMemory>
        requires { r.number < MAX_TUPLES }
        ensures covered { OnOk result (IsCovered self.new.covered r) }
        ensures kept { (q : TupleRef) → IsCovered self.old.covered q → IsCovered self.new.covered q }
        ensures had { IsCovered self.old.covered r → self.new ≡ self.old }
        ensures err { OnErr result (self.new ≡ self.old) }
        ensures entries { self.new.entries ≡ self.old.entries }
        ensures buckets { self.new.buckets ≡ self.old.buckets }
        ensures heads { self.new.heads ≡ self.old.heads }
    {
        self.nodes.cover(r.number as usize)
    }

    // Gives back the memory of blocks in which no row stands, and of heads that are not used.
    pub fn release_spares(&mut self)
        ensures entries { self.new.entries ≡ self.old.entries }
        ensures buckets { self.new.buckets ≡ self.old.buckets }
        ensures heads { self.new.buckets ≤ self.new.heads }
        ensures fewer_heads { self.new.heads ≤ self.old.heads }
        ensures fewer_covered { (q : TupleRef) → IsCovered self.new.covered q → IsCovered self.old.covered q }
    {
        self.nodes.release_spares();
        self.heads.shrink_to_fit();
    }

    // Puts a row in, and splits a bucket where there are then more rows than twice the buckets: `len` of them.
    pub fn insert(&mut self, hash: u32, r: TupleRef, len: usize)
        requires covered { IsCovered self.old.covered r }
        requires absent { (h : ℕ) → ¬ (Contains self.old.entries (h, r)) }
        requires heads { length self.old.entries < 2 * self.old.heads }
        requires counted { len ≡ length self.old.entries + 1 }
        requires short { len ≤ 2 ^ 32 }
        ensures entries { IsSameBag self.new.entries ((hash, r) ∷ self.old.entries) }
        ensures covered { self.new.covered ≡ self.old.covered }
        ensures heads { self.new.heads ≡ self.old.heads }
        ensures split { 2 * self.old.buckets < len → self.new.buckets ≡ self.old.buckets + 1 }
        ensures unsplit { len ≤ 2 * self.old.buckets → self.new.buckets ≡ self.old.buckets }
    {
        self.add(hash, r);
        if len > MOST_ENTRIES_A_BUCKET * self.buckets() {
            self.split();
        }
    }

    // Takes a row out, and folds a bucket where there are then fewer rows than half the buckets: `len` of them.
    pub fn remove(&mut self, r: TupleRef, len: usize)
        requires held { (hash : ℕ) × Contains self.old.entries (hash, r) }
        requires counted { length self.old.entries ≡ len + 1 }
        requires short { len < 2 ^ 32 }
        ensures entries { (hash : ℕ) → Contains self.old.entries (hash, r) → IsSameBag self.old.entries ((hash, r) ∷ self.new.entries) }
        ensures covered { self.new.covered ≡ self.old.covered }
        ensures stays { IsCovered self.new.covered r }
        ensures heads { self.new.heads ≡ self.old.heads }
        ensures folded { 2 * len < self.old.buckets → 4 < self.old.buckets → self.new.buckets + 1 ≡ self.old.buckets }
        ensures unfolded { self.old.buckets ≤ 2 * len → self.new.buckets ≡ self.old.buckets }
        ensures first { self.old.buckets ≤ 4 → self.new.buckets ≡ self.old.buckets }
    {
        self.take(r);
        let buckets = self.buckets();
        if len * MOST_BUCKETS_AN_ENTRY < buckets && buckets > FIRST_BUCKETS {
            self.fold();
        }
    }

    // The rows with a hash.
    pub fn chain(&self, hash: u32) -> RowChain<'_>
        ensures { IsSameBag (row_chain_rest result) (with_hash hash self.now.entries) }
    {
        let bucket = self.address.bucket(hash);
        RowChain::new(hash, self.nodes.as_blocks(), self.heads[bucket])
    }

    // Whether a row stands under some hash.
    pub fn holds(&self, r: TupleRef) -> bool
        ensures held { OnTrue result ((hash : ℕ) × Contains self.now.entries (hash, r)) }
        ensures absent { OnFalse result ((hash : ℕ) → ¬ (Contains self.now.entries (hash, r))) }
    {
        self.nodes.holds(r.number as usize)
    }

    // How many rows the longest chain has.
    pub fn longest_chain(&self) -> usize
        ensures { IsLongestChain self.now.buckets self.now.entries result }
    {
        longest(&self.nodes, self.heads.as_slice())
    }

    // Puts a row into the bucket of its hash.
    fn add(&mut self, hash: u32, r: TupleRef)
        requires covered { IsCovered self.old.covered r }
        requires absent { (h : ℕ) → ¬ (Contains self.old.entries (h, r)) }
        ensures entries { IsSameBag self.new.entries ((hash, r) ∷ self.old.entries) }
        ensures covered { self.new.covered ≡ self.old.covered }
        ensures heads { self.new.heads ≡ self.old.heads }
        ensures buckets { self.new.buckets ≡ self.old.buckets }
    {
        let place = r.number as usize;
        self.nodes.enter(place, hash);
        link(&mut self.nodes, &mut self.heads, self.address, place);
    }

    // Takes a row out of the bucket of its hash.
    fn take(&mut self, r: TupleRef)
        requires { (hash : ℕ) × Contains self.old.entries (hash, r) }
        ensures entries { (hash : ℕ) → Contains self.old.entries (hash, r) → IsSameBag self.old.entries ((hash, r) ∷ self.new.entries) }
        ensures covered { self.new.covered ≡ self.old.covered }
        ensures stays { IsCovered self.new.covered r }
        ensures heads { self.new.heads ≡ self.old.heads }
        ensures buckets { self.new.buckets ≡ self.old.buckets }
    {
        let place = r.number as usize;
        let bucket = self.address.bucket(self.nodes.get(place).hash);
        unlink(&mut self.nodes, &mut self.heads, bucket, place);
        self.nodes.leave(place);
    }

    // Shares the bucket at the mark out between itself and a new last bucket.
    fn split(&mut self)
        requires room { self.old.buckets < self.old.heads }
        requires few { self.old.buckets < 2 ^ 32 }
        ensures entries { self.new.entries ≡ self.old.entries }
        ensures covered { self.new.covered ≡ self.old.covered }
        ensures heads { self.new.heads ≡ self.old.heads }
        ensures buckets { self.new.buckets ≡ self.old.buckets + 1 }
    {
        let first = mem::replace(&mut self.heads[self.address.mark], NodeLink::none());
        self.heads.push_reserved(NodeLink::none());
        self.address = self.address.raised();
        link_from(&mut self.nodes, &mut self.heads, self.address, first);
    }

    // Undoes the last split: the rows of the last bucket go back to where they came from.
    fn fold(&mut self)
        requires { 4 < self.old.buckets }
        ensures entries { self.new.entries ≡ self.old.entries }
        ensures covered { self.new.covered ≡ self.old.covered }
        ensures heads { self.new.heads ≡ self.old.heads }
        ensures buckets { self.new.buckets + 1 ≡ self.old.buckets }
    {
        self.address = self.address.lowered();
        if let Some(last) = self.heads.pop() {
            link_from(&mut self.nodes, &mut self.heads, self.address, last);
        }
    }
}
