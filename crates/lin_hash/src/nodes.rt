//! The nodes of a table, which fill the places from the first on: there is no place between them that has none.
//!
//! They stand in blocks of one size, so no node moves when there come to be more, and there is never memory for a block
//! more than was asked for. What grows by doubling is the list of the blocks.
ghost use Rattle.std.specs.Prelude.{◌≡◌, ◌+◌, ◌-◌, ◌^◌, ◌<◌, ◌≤◌, [], ◌∷◌, ◌++◌, length, max, slice_set, take, OnOk};
ghost use Rattle.lin_hash.specs.Held.{StaysOrDoubles};
ghost use Rattle.lin_hash.specs.Blocks.{nodes_in};
ghost use Rattle.lin_hash.specs.Nodes.{node_at, leading_to};

use crate::block::{Block, NODES_A_BLOCK};
use crate::blocks::{add_blocks, node_in};
use crate::growing::reserve_by_doubling;
use crate::node::{MOST_NODES, Node, NodeLink};
use no_memory::NoMemory;
use std::alloc::Global;
use std::marker::Model;

/// Nodes by their places.
#[derive(Drop)]
pub struct Nodes {
    blocks: Vec<Block>,
    len: usize,
}

impl Model for Nodes {
    ghost use Rattle.std.specs.Prelude.{◌^◌, ◌-◌, ◌*◌, min, take, vec_len, vec_capacity};
    ghost use Rattle.lin_hash.specs.Held.{HeldNodes};

    ghost Value = { HeldNodes };

    ghost use Rattle.lin_hash.specs.Blocks.{nodes_in};

    ghost view = { λ n. record {
      items = take n.len (nodes_in n.blocks.items);
      memory = min (256 * vec_len n.blocks) (2 ^ 32 - 1);
      listed = vec_capacity n.blocks;
    } };

    ghost use Rattle.lin_hash.specs.Filled.{IsFilled};

    ghost invariant = { λ n. IsFilled n };
}

impl Nodes {
    // No node, and no memory.
    pub fn new(alloc: Global) -> Nodes
        ensures items { result.items ≡ [] }
        ensures memory { result.memory ≡ 0 }
        ensures listed { result.listed ≡ 0 }
    {
        Nodes {
            blocks: Vec::new(alloc),
            len: 0,
        }
    }

    // How many there are.
    pub fn len(&self) -> usize
        ensures value { result ≡ length self.now.items }
        ensures few { result < 2 ^ 32 }
    {
        self.len
    }

    // For how many there is memory.
    pub fn memory(&self) -> usize
        ensures { result ≡ self.now.memory }
    {
        (NODES_A_BLOCK * self.blocks.len()).min(MOST_NODES)
    }

    // The node at a place.
    pub fn get(&self, place: usize) -> Node
        requires { place < length self.now.items }
        ensures { result ≡ node_at self.now.items place }
    {
        node_in(self.blocks.as_slice(), place)
    }

    // The blocks in which they stand.
    pub fn as_blocks(&self) -> &[Block]
        ensures { take (length self.now.items) (nodes_in result.now) ≡ self.now.items }
    {
        self.blocks.as_slice()
    }

    // Another node comes to a place.
    pub fn put(&mut self, place: usize, node: Node)
        requires { place < length self.old.items }
        ensures items { self.new.items ≡ slice_set self.old.items place node }
        ensures memory { self.new.memory ≡ self.old.memory }
        ensures listed { self.new.listed ≡ self.old.listed }
    {
        self.blocks[place / NODES_A_BLOCK].put(place % NODES_A_BLOCK, node);
    }

    // The node at a place leads elsewhere.
    pub fn lead(&mut self, place: usize, next: NodeLink)
        requires { place < length self.old.items }
        ensures items { self.new.items ≡ slice_set self.old.items place (leading_to (node_at self.old.items place) next) }
        ensures memory { self.new.memory ≡ self.old.memory }
        ensures listed { self.new.listed ≡ self.old.listed }
    {
        self.blocks[place / NODES_A_BLOCK].lead(place % NODES_A_BLOCK, next);
    }

    // A node comes to the end.
    pub fn push(&mut self, node: Node)
        requires { length self.old.items < self.old.memory }
        ensures items { self.new.items ≡ self.old.items ++ node ∷ [] }
        ensures few { length self.new.items < 2 ^ 32 }
        ensures memory { self.new.memory ≡ self.old.memory }
        ensures listed { self.new.listed ≡ self.old.listed }
    {
        let place = self.len;
        self.blocks[place / NODES_A_BLOCK].put(place % NODES_A_BLOCK, node);
        self.len += 1;
    }

    // The last node goes.
    pub fn pop(&mut self)
        requires { 0 < length self.old.items }
        ensures items { self.old.items ≡ self.new.items ++ node_at self.old.items (length self.old.items - 1) ∷ [] }
        ensures memory { self.new.memory ≡ self.old.memory }
        ensures listed { self.new.listed ≡ self.old.listed }
    {
        self.len -= 1;
    }

    // Makes sure of memory for so many, which links can name. After an error what was gained is kept.
    pub fn reserve(&mut self, wanted: usize) -> Result<(), NoMemory>
        requires { wanted < 2 ^ 32 }
        ensures items { self.new.items ≡ self.old.items }
        ensures ok { OnOk result (wanted ≤ self.new.memory) }
        ensures more { self.old.memory ≤ self.new.memory }
        ensures grown { self.new.memory ≤ max self.old.memory (wanted + 255) }
        ensures enough { wanted ≤ self.old.memory → self.new.memory ≡ self.old.memory }
        ensures listed { StaysOrDoubles self.old.listed self.new.listed }
        ensures enough_list { wanted ≤ self.old.memory → self.new.listed ≡ self.old.listed }
    {
        let blocks = wanted.div_ceil(NODES_A_BLOCK);
        reserve_by_doubling(&mut self.blocks, blocks)?;
        add_blocks(&mut self.blocks, blocks)
    }

    // Gives the blocks back in which no node stands.
    pub fn release_spares(&mut self)
        ensures items { self.new.items ≡ self.old.items }
        ensures memory { self.new.memory ≤ self.old.memory }
        ensures enough { length self.old.items ≤ self.new.memory }
        ensures few { self.new.memory ≤ length self.old.items + 255 }
        ensures listed { self.new.listed ≤ self.old.listed }
    {
        self.blocks.truncate(self.len.div_ceil(NODES_A_BLOCK));
        self.blocks.shrink_to_fit();
    }
}
