//! A block of nodes.
ghost use Rattle.std.specs.Prelude.{◌≡◌, ◌<◌, length, slice_set};
ghost use Rattle.lin_hash.specs.Nodes.{node_at, leading_to};

use crate::node::{Node, NodeLink};
use no_memory::NoMemory;
use part_raw::TupleRef;
use std::alloc::Global;

// How many nodes a block has.
pub const NODES_A_BLOCK: usize = 256;

/// The memory of so many nodes, which stay where they are.
#[derive(Drop)]
pub struct Block {
    pub nodes: Box<[Node; NODES_A_BLOCK]>,
    ghost full: { length nodes.value ≡ 256 },
}

impl Block {
    // A block in which no node is in use.
    pub fn new(alloc: Global) -> Result<Block, NoMemory> {
        let unused = Node {
            hash: 0,
            reference: TupleRef { number: 0 },
            next: NodeLink::none(),
        };
        Ok(Block {
            nodes: Box::new(alloc, [unused; NODES_A_BLOCK])?,
        })
    }
    // Another node comes to a place of the block.
    pub fn put(&mut self, at: usize, node: Node)
        requires { at < 256 }
        ensures { self.new.nodes.value ≡ slice_set self.old.nodes.value at node }
    {
        self.nodes[at] = node;
    }

    // The node at a place of the block leads elsewhere.
    pub fn lead(&mut self, at: usize, next: NodeLink)
        requires { at < 256 }
        ensures { self.new.nodes.value ≡ slice_set self.old.nodes.value at (leading_to (node_at self.old.nodes.value at) next) }
    {
        self.nodes[at].next = next;
    }
}
