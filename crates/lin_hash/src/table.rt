//! The buckets, each entry in that of its hash, and the split and the fold that add and remove one.
//!
//! The head of a bucket links to the first node of its chain. The heads stand in one vector, and the nodes fill the places
//! from the first on: where an entry is taken out, that of the last node comes to its place. Who counts the entries is not
//! the table's matter: it is told.
ghost use Rattle.std.specs.Prelude.{◌≡◌, ◌+◌, ◌-◌, ◌*◌, ◌^◌, ◌<◌, ◌≤◌, [], ◌∷◌, ◌++◌, length, max, vec_len, vec_capacity, IfOk, OnOk, Contains};
ghost use Rattle.mm_index.specs.Bag.{IsSameBag, with_hash};
ghost use Rattle.lin_hash.specs.Held.{StaysOrDoubles};
ghost use Rattle.lin_hash.specs.Rest.{chain_rest};
ghost use Rattle.lin_hash.specs.Shape.{IsLongestChain};

use crate::address::{Address, FIRST_BUCKETS};
use crate::chain::Chain;
use crate::chains::{Position, before, find, link, link_from, longest, unlink};
use crate::growing::reserve_by_doubling;
use crate::node::{Node, NodeLink};
use crate::nodes::Nodes;
use no_memory::NoMemory;
use part_raw::TupleRef;
use std::alloc::Global;
use std::marker::Model;
use std::mem;

// More entries to a bucket than these, and an insert splits one.
pub const MOST_ENTRIES_A_BUCKET: usize = 2;

// More buckets to an entry than these, and a remove folds one.
pub const MOST_BUCKETS_AN_ENTRY: usize = 2;

/// At least four buckets, and the nodes of their chains.
#[derive(Drop)]
pub struct Table {
    address: Address,
    heads: Vec<NodeLink>,
    nodes: Nodes,
}

impl Model for Table {
    ghost use Rattle.std.specs.Prelude.{vec_len, vec_capacity};
    ghost use Rattle.lin_hash.specs.Held.{HeldTable};
    ghost use Rattle.lin_hash.specs.Nodes.{entries_of};

    ghost Value = { HeldTable };

    ghost view = { λ t. record {
      entries = entries_of t.nodes.items;
      nodes = t.nodes.memory;
      heads = vec_capacity t.heads;
      listed = t.nodes.listed;
      buckets = vec_len t.heads;
    } };

    ghost use Rattle.lin_hash.specs.Tables.{IsTable};

    ghost invariant = { λ t. IsTable t };
}

impl Table {
    // Four empty buckets.
    pub fn new(alloc: Global) -> Result<Table, NoMemory>
        ensures entries { IfOk result (λ table. table.entries ≡ []) }
        ensures buckets { IfOk result (λ table. table.buckets ≡ 4) }
        ensures nodes { IfOk result (λ table. table.nodes ≡ 0) }
        ensures listed { IfOk result (λ table. table.listed ≡ 0) }
    {
        let mut heads = Vec::new(alloc);
        heads.reserve(FIRST_BUCKETS)?;
        for _ in 0..FIRST_BUCKETS {
            heads.push(NodeLink::none())?;
        }
        Ok(Table {
            address: Address { level: 0, mark: 0 },
            heads,
            nodes: Nodes::new(alloc),
        })
    }

    // How many there are.
    pub fn buckets(&self) -> usize
        ensures value { result ≡ self.now.buckets }
        ensures first { 4 ≤ result }
        ensures few { result < 2 ^ 34 }
    {
        self.heads.len()
    }

    // For how many nodes there is memory.
    pub fn nodes(&self) -> usize
        ensures { result ≡ self.now.nodes }
    {
        self.nodes.memory()
    }

    // Makes sure of a node for each of so many entries, which links can name, and of a head for every two. After an error what
    // was gained is kept.
    pub fn reserve(&mut self, entries: usize) -> Result<(), NoMemory>
        requires { entries < 2 ^ 32 }
        ensures entries { self.new.entries ≡ self.old.entries }
        ensures nodes { OnOk result (entries ≤ self.new.nodes) }
        ensures reserved { OnOk result (entries ≤ 2 * self.new.heads) }
        ensures first { OnOk result (4 ≤ self.new.heads) }
        ensures more_nodes { self.old.nodes ≤ self.new.nodes }
        ensures more_heads { self.old.heads ≤ self.new.heads }
        ensures buckets { self.new.buckets ≡ self.old.buckets }

        // Memory that suffices stays as it is. Else that of nodes comes to less than a block more than is needed,
        // and that for heads, and for blocks in their list, to twice as much at least.
        ensures grown_heads { StaysOrDoubles self.old.heads self.new.heads }
        ensures grown_nodes { self.new.nodes ≤ max self.old.nodes (entries + 255) }
        ensures grown_list { StaysOrDoubles self.old.listed self.new.listed }
        ensures enough_heads { entries ≤ 2 * self.old.heads → self.new.heads ≡ self.old.heads }
        ensures enough_nodes { entries ≤ self.old.nodes → self.new.nodes ≡ self.old.nodes }
        ensures enough_list { entries ≤ self.old.nodes → self.new.listed ≡ self.old.listed }
    {
        self.nodes.reserve(entries)?;
        let heads = entries.div_ceil(MOST_ENTRIES_A_BUCKET);
        reserve_by_doubling(&mut self.heads, heads)
    }

    // Gives back the memory of nodes and of heads that is not used.
    pub fn release_spares(&mut self)
        ensures entries { self.new.entries ≡ self.old.entries }
        ensures heads { self.new.buckets ≤ self.new.heads }
        ensures nodes { length self.new.entries ≤ self.new.nodes }
        ensures fewer_heads { self.new.heads ≤ self.old.heads }
        ensures fewer_nodes { self.new.nodes ≤ self.old.nodes }
        ensures few_nodes { self.new.nodes ≤ length self.new.entries + 255 }
        ensures fewer_listed { self.new.listed ≤ self.old.listed }
        ensures buckets { self.new.buckets ≡ self.old.buckets }
    {
        self.nodes.release_spares();
        self.heads.shrink_to_fit();
    }

    // Puts an entry in, and splits a bucket where there are then more entries than twice the buckets: `len` of
    // them.
    pub fn insert(&mut self, hash: u32, r: TupleRef, len: usize)
        requires nodes { length self.old.entries < self.old.nodes }
        requires heads { length self.old.entries < 2 * self.old.heads }
        requires counted { len ≡ length self.old.entries + 1 }
        requires short { len ≤ 2 ^ 32 }
        ensures entries { IsSameBag self.new.entries ((hash, r) ∷ self.old.entries) }
        ensures nodes { self.new.nodes ≡ self.old.nodes }
        ensures heads { self.new.heads ≡ self.old.heads }
        ensures listed { self.new.listed ≡ self.old.listed }
        ensures split { 2 * self.old.buckets < len → self.new.buckets ≡ self.old.buckets + 1 }
        ensures unsplit { len ≤ 2 * self.old.buckets → self.new.buckets ≡ self.old.buckets }
    {
        self.add(hash, r);
        if len > MOST_ENTRIES_A_BUCKET * self.buckets() {
            self.split();
        }
    }

    // Takes one such entry out, and folds a bucket where there are then fewer entries than half the buckets:
    // `len` of them.
    pub fn remove(&mut self, hash: u32, r: TupleRef, len: usize)
        requires held { Contains self.old.entries (hash, r) }
        requires counted { length self.old.entries ≡ len + 1 }
        requires short { len < 2 ^ 32 }
        ensures entries { IsSameBag self.old.entries ((hash, r) ∷ self.new.entries) }
        ensures nodes { self.new.nodes ≡ self.old.nodes }
        ensures heads { self.new.heads ≡ self.old.heads }
        ensures listed { self.new.listed ≡ self.old.listed }
        ensures folded { 2 * len < self.old.buckets → 4 < self.old.buckets → self.new.buckets + 1 ≡ self.old.buckets }
        ensures unfolded { self.old.buckets ≤ 2 * len → self.new.buckets ≡ self.old.buckets }
        ensures first { self.old.buckets ≤ 4 → self.new.buckets ≡ self.old.buckets }
    {
        self.take(hash, r);
        let buckets = self.buckets();
        if len * MOST_BUCKETS_AN_ENTRY < buckets && buckets > FIRST_BUCKETS {
            self.fold();
        }
    }

    // The references with a hash.
    pub fn chain(&self, hash: u32) -> Chain<'_>
        ensures { IsSameBag (chain_rest result) (with_hash hash self.now.entries) }
    {
        let bucket = self.address.bucket(hash);
        Chain::new(hash, self.nodes.as_blocks(), self.heads[bucket])
    }

    // How many entries the longest chain has.
    pub fn longest_chain(&self) -> usize
        ensures { IsLongestChain self.now.buckets self.now.entries result }
    {
        longest(&self.nodes, self.heads.as_slice())
    }

    // Puts an entry into the bucket of its hash.
    fn add(&mut self, hash: u32, r: TupleRef)
        requires { length self.old.entries < self.old.nodes }
        ensures entries { IsSameBag self.new.entries ((hash, r) ∷ self.old.entries) }
        ensures nodes { self.new.nodes ≡ self.old.nodes }
        ensures heads { self.new.heads ≡ self.old.heads }
        ensures listed { self.new.listed ≡ self.old.listed }
        ensures buckets { self.new.buckets ≡ self.old.buckets }
    {
        let place = self.nodes.len();
        self.nodes.push(Node {
            hash,
            reference: r,
            next: NodeLink::none(),
        });
        link(&mut self.nodes, &mut self.heads, self.address, place);
    }

    // Takes one such entry out.
    fn take(&mut self, hash: u32, r: TupleRef)
        requires { Contains self.old.entries (hash, r) }
        ensures entries { IsSameBag self.old.entries ((hash, r) ∷ self.new.entries) }
        ensures nodes { self.new.nodes ≡ self.old.nodes }
        ensures heads { self.new.heads ≡ self.old.heads }
        ensures listed { self.new.listed ≡ self.old.listed }
        ensures buckets { self.new.buckets ≡ self.old.buckets }
    {
        let last = self.pop();
        if last != (hash, r) {
            self.replace(hash, r, last);
        }
    }

    // Takes the last node off, and gives its entry.
    fn pop(&mut self) -> (u32, TupleRef)
        requires { 0 < length self.old.entries }
        ensures entries { self.old.entries ≡ self.new.entries ++ result ∷ [] }
        ensures nodes { self.new.nodes ≡ self.old.nodes }
        ensures heads { self.new.heads ≡ self.old.heads }
        ensures listed { self.new.listed ≡ self.old.listed }
        ensures buckets { self.new.buckets ≡ self.old.buckets }
    {
        let place = self.nodes.len() - 1;
        let node = self.nodes.get(place);
        let bucket = self.address.bucket(node.hash);
        let behind = before(&self.nodes, self.heads[bucket], place);
        unlink(
            &mut self.nodes,
            &mut self.heads,
            bucket,
            Position { behind, place },
        );
        self.nodes.pop();
        (node.hash, node.reference)
    }

    // Puts an entry where another one is, which goes.
    fn replace(&mut self, hash: u32, r: TupleRef, by: (u32, TupleRef))
        requires { Contains self.old.entries (hash, r) }
        ensures entries { IsSameBag ((hash, r) ∷ self.new.entries) (by ∷ self.old.entries) }
        ensures nodes { self.new.nodes ≡ self.old.nodes }
        ensures heads { self.new.heads ≡ self.old.heads }
        ensures listed { self.new.listed ≡ self.old.listed }
        ensures buckets { self.new.buckets ≡ self.old.buckets }
    {
        let bucket = self.address.bucket(hash);
        let at = find(&self.nodes, self.heads[bucket], hash, r);
        unlink(&mut self.nodes, &mut self.heads, bucket, at);
        let (hash, reference) = by;
        let next = NodeLink::none();
        self.nodes.put(
            at.place,
            Node {
                hash,
                reference,
                next,
            },
        );
        link(&mut self.nodes, &mut self.heads, self.address, at.place);
    }

    // Shares the bucket at the mark out between itself and a new last bucket.
    fn split(&mut self)
        requires room { self.old.buckets < self.old.heads }
        requires few { self.old.buckets < 2 ^ 32 }
        ensures entries { self.new.entries ≡ self.old.entries }
        ensures nodes { self.new.nodes ≡ self.old.nodes }
        ensures heads { self.new.heads ≡ self.old.heads }
        ensures listed { self.new.listed ≡ self.old.listed }
        ensures buckets { self.new.buckets ≡ self.old.buckets + 1 }
    {
        let first = mem::replace(&mut self.heads[self.address.mark], NodeLink::none());
        self.heads.push_reserved(NodeLink::none());
        self.address = self.address.raised();
        link_from(&mut self.nodes, &mut self.heads, self.address, first);
    }

    // Undoes the last split: the entries of the last bucket go back to where they came from.
    fn fold(&mut self)
        requires { 4 < self.old.buckets }
        ensures entries { self.new.entries ≡ self.old.entries }
        ensures nodes { self.new.nodes ≡ self.old.nodes }
        ensures heads { self.new.heads ≡ self.old.heads }
        ensures listed { self.new.listed ≡ self.old.listed }
        ensures buckets { self.new.buckets + 1 ≡ self.old.buckets }
    {
        self.address = self.address.lowered();
        if let Some(last) = self.heads.pop() {
            link_from(&mut self.nodes, &mut self.heads, self.address, last);
        }
    }
}
