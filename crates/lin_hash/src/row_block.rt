//! A block of nodes of rows.
ghost use Rattle.std.specs.Prelude.{◌≡◌, ◌+◌, ◌<◌, IsSome, IfOk, true, false, None, length, count_by, replicate, slice_set};
ghost use Rattle.lin_hash.specs.RowNodes.{block_nodes, is_used, row_node_at, unused_node};

use crate::block::NODES_A_BLOCK;
use crate::row_node::RowNode;
use no_memory::NoMemory;
use std::alloc::Global;

/// The nodes of as many rows as a partition has, once there is memory for them, and how many of them rows use.
#[derive(Drop)]
pub struct RowBlock {
    pub nodes: Option<Box<[RowNode; NODES_A_BLOCK]>>,
    pub used: usize,
    ghost full: { length (block_nodes nodes) ≡ 256 },
    ghost counted: { used ≡ count_by is_used (block_nodes nodes) },
}

impl RowBlock {
    ghost use Rattle.lin_hash.specs.RowBlocks.{has_memory, IsShed};
    ghost use Rattle.lin_hash.specs.Copies.{shown};

    // A block with no memory.
    pub fn absent() -> RowBlock
        ensures { result.nodes ≡ None }
    {
        RowBlock {
            nodes: None,
            used: 0,
        }
    }

    // A block with memory, which no row uses.
    pub fn new(alloc: Global) -> Result<RowBlock, NoMemory>
        ensures unused { IfOk result (λ b. block_nodes b.nodes ≡ replicate 256 unused_node) }
        ensures there { IfOk result (λ b. has_memory b ≡ true) }
        ensures used { IfOk result (λ b. b.used ≡ 0) }
    {
        Ok(RowBlock {
            nodes: Some(Box::new(alloc, [RowNode::unused(); NODES_A_BLOCK])?),
            used: 0,
        })
    }

    // A block of its own with the same nodes, or with no memory where this has none.
    pub fn try_clone(&self, alloc: Global) -> Result<RowBlock, NoMemory>
        ensures { IfOk result (λ copy. shown copy ≡ shown self.now) }
    {
        match &self.nodes {
            Some(nodes) => Ok(RowBlock {
                nodes: Some(Box::new(alloc, **nodes)?),
                used: self.used,
            }),
            None => Ok(RowBlock {
                nodes: None,
                used: self.used,
            }),
        }
    }

    // The node at a place of the block.
    pub fn get(&self, at: usize) -> RowNode
        requires { at < 256 }
        ensures { result ≡ row_node_at (block_nodes self.now.nodes) at }
    {
        match &self.nodes {
            Some(nodes) => nodes[at],
            None => RowNode::unused(),
        }
    }

    // Another node comes to a place of the block. As many are used as before.
    pub fn put(&mut self, at: usize, node: RowNode)
        requires at { at < 256 }
        requires there { IsSome self.old.nodes }
        requires alike { is_used node ≡ is_used (row_node_at (block_nodes self.old.nodes) at) }
        ensures nodes { block_nodes self.new.nodes ≡ slice_set (block_nodes self.old.nodes) at node }
        ensures there { IsSome self.new.nodes }
        ensures used { self.new.used ≡ self.old.used }
    {
        match &mut self.nodes {
            Some(nodes) => nodes[at] = node,
            None => unreachable!(),
        }
    }

    // A row's node comes to a place that no row uses.
    pub fn enter(&mut self, at: usize, node: RowNode)
        requires at { at < 256 }
        requires there { IsSome self.old.nodes }
        requires free { is_used (row_node_at (block_nodes self.old.nodes) at) ≡ false }
        requires used { is_used node ≡ true }
        ensures nodes { block_nodes self.new.nodes ≡ slice_set (block_nodes self.old.nodes) at node }
        ensures there { IsSome self.new.nodes }
        ensures used { self.new.used ≡ self.old.used + 1 }
    {
        match &mut self.nodes {
            Some(nodes) => nodes[at] = node,
            None => unreachable!(),
        }
        self.used += 1;
    }

    // No row uses the node at a place any more.
    pub fn leave(&mut self, at: usize)
        requires at { at < 256 }
        requires there { IsSome self.old.nodes }
        requires held { is_used (row_node_at (block_nodes self.old.nodes) at) ≡ true }
        ensures nodes { block_nodes self.new.nodes ≡ slice_set (block_nodes self.old.nodes) at unused_node }
        ensures there { IsSome self.new.nodes }
        ensures used { self.new.used + 1 ≡ self.old.used }
    {
        match &mut self.nodes {
            Some(nodes) => nodes[at] = RowNode::unused(),
            None => unreachable!(),
        }
        self.used -= 1;
    }

    // Gives its memory back where no row uses it.
    pub fn shed(&mut self)
        ensures { IsShed self.old self.new }
    {
        if self.used == 0 {
            self.nodes = None;
        }
    }
}
