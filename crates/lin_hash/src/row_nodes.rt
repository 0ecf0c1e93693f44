//! The nodes of rows, each at the place of its row.
//!
//! They stand in blocks of as many as a partition of rows has. A block has memory once a row needs its node there, and no
//! node moves. Blocks that no row uses are counted, so that who gives memory back knows whether there is any.
ghost use Rattle.std.specs.Prelude.{◌≡◌, ◌+◌, ◌-◌, ◌*◌, ◌/◌, ◌^◌, ◌<◌, ◌≤◌, ◌↔◌, ℕ, true, false, [], ◌++◌, List, ◌≢◌, All, IfOk, IsTrue, OnOk, OnErr, length, max, slice_index_or, slice_set, vec_len, vec_capacity};
ghost use Rattle.lin_hash.specs.Nodes.{unused_link};
ghost use Rattle.part_raw.specs.declared.tuple_ref.TupleRef.{TupleRef};
ghost use Rattle.lin_hash.specs.declared.row_block.RowBlock.{RowBlock};
ghost use Rattle.lin_hash.specs.HeldRows.{IsCovered, KeepsRows};
ghost use Rattle.lin_hash.specs.RowBlocks.{IsShed, has_memory, row_nodes_in};
ghost use Rattle.lin_hash.specs.RowNodes.{is_used, loose_node, row_at, row_node_at, unused_node, with_next, with_prev};

use crate::block::NODES_A_BLOCK;
use crate::copying::copy_blocks;
use crate::growing::reserve_by_doubling;
use crate::node::NodeLink;
use crate::row_block::RowBlock;
use crate::row_node::RowNode;
use no_memory::NoMemory;
use part_raw::MAX_TUPLES;
use std::alloc::Global;
use std::marker::Model;

/// Nodes by the places of their rows.
#[derive(Drop)]
pub struct RowNodes {
    blocks: Vec<RowBlock>,
    spare: usize,
}

impl Model for RowNodes {
    ghost use Rattle.lin_hash.specs.HeldRows.{HeldRowNodes};
    ghost use Rattle.lin_hash.specs.RowBlocks.{row_nodes_in, covered_by};

    ghost Value = { HeldRowNodes };

    ghost view = { λ n. record { items = row_nodes_in n.blocks.items; covered = covered_by n.blocks.items } };

    ghost use Rattle.lin_hash.specs.RowsCounted.{AreCountedBlocks};

    ghost invariant = { λ n. AreCountedBlocks n };
}

// The node at a place of the blocks.
pub fn row_node_in(blocks: &[RowBlock], place: usize) -> RowNode
    requires { place < length (row_nodes_in blocks.now) }
    ensures { result ≡ row_node_at (row_nodes_in blocks.now) place }
{
    blocks[place / NODES_A_BLOCK].get(place % NODES_A_BLOCK)
}

// Gives the memory of those blocks back that no row uses.
fn shed_each(blocks: &mut [RowBlock])
    ensures { (k : ℕ) (d : RowBlock) → k < length blocks.old → IsShed (slice_index_or blocks.old k d) (slice_index_or blocks.new k d) }
{
    for block in blocks.iter_mut() {
        block.shed();
    }
}

// How many blocks there are up to the last one with memory.
fn blocks_in_use(blocks: &[RowBlock]) -> usize
    ensures within { result ≤ length blocks.now }
    ensures rest { (k : ℕ) (d : RowBlock) → result ≤ k → k < length blocks.now → has_memory (slice_index_or blocks.now k d) ≡ false }
{
    let mut count = blocks.len();
    while count > 0 && blocks[count - 1].nodes.is_none() {
        count -= 1;
    }
    count
}

// Makes so many blocks of them at least, of which those that come have no memory. There is room for them.
fn lengthen(blocks: &mut Vec<RowBlock>, wanted: usize)
    requires { wanted ≤ vec_capacity blocks.old }
    ensures blocks { (added : List RowBlock) × (blocks.new.items ≡ blocks.old.items ++ added) × All (λ b. has_memory b ≡ false) added }
    ensures long { wanted ≤ vec_len blocks.new }
    ensures few { vec_len blocks.new ≤ max (vec_len blocks.old) wanted }
{
    for _ in blocks.len()..wanted {
        blocks.push_reserved(RowBlock::absent());
    }
}

impl RowNodes {
    // No node, and no memory.
    pub fn new(alloc: Global) -> RowNodes
        ensures items { result.items ≡ [] }
        ensures covered { result.covered ≡ [] }
    {
        RowNodes {
            blocks: Vec::new(alloc),
            spare: 0,
        }
    }

    // The same nodes, in blocks of their own.
    pub fn try_clone(&self) -> Result<RowNodes, NoMemory>
        ensures { IfOk result (λ copy. copy ≡ self.now) }
    {
        let blocks = copy_blocks(&self.blocks, *self.blocks.allocator())?;
        Ok(RowNodes {
            blocks,
            spare: self.spare,
        })
    }

    // How many nodes stand in blocks that no row uses.
    pub fn spare(&self) -> usize {
        NODES_A_BLOCK * self.spare
    }

    // The node at a place.
    pub fn get(&self, place: usize) -> RowNode
        requires { place < length self.now.items }
        ensures { result ≡ row_node_at self.now.items place }
    {
        row_node_in(self.blocks.as_slice(), place)
    }

    // The blocks in which they stand.
    pub fn as_blocks(&self) -> &[RowBlock]
        ensures { row_nodes_in result.now ≡ self.now.items }
    {
        self.blocks.as_slice()
    }

    // Whether the block of a place has its memory.
    fn is_covered(&self, place: usize) -> bool
        ensures { IsTrue result ↔ IsCovered self.now.covered (row_at place) }
    {
        match self.blocks.get(place / NODES_A_BLOCK) {
            Some(block) => block.nodes.is_some(),
            None => false,
        }
    }

    // Whether a row uses the node at a place, which may be any.
    pub fn holds(&self, place: usize) -> bool
        ensures { result ≡ is_used (row_node_at self.now.items place) }
    {
        let at = place / NODES_A_BLOCK;
        if at >= self.blocks.len() {
            return false;
        }
        self.get(place).is_used()
    }

    // Another node comes to a place that a row uses.
    pub fn put(&mut self, place: usize, node: RowNode)
        requires held { is_used (row_node_at self.old.items place) ≡ true }
        requires used { is_used node ≡ true }
        ensures items { self.new.items ≡ slice_set self.old.items place node }
        ensures covered { self.new.covered ≡ self.old.covered }
    {
        self.blocks[place / NODES_A_BLOCK].put(place % NODES_A_BLOCK, node);
    }

    // The node at a place leads elsewhere.
    pub fn lead(&mut self, place: usize, next: NodeLink)
        requires { is_used (row_node_at self.old.items place) ≡ true }
        ensures items { self.new.items ≡ slice_set self.old.items place (with_next (row_node_at self.old.items place) next) }
        ensures covered { self.new.covered ≡ self.old.covered }
    {
        let node = self.get(place);
        self.put(place, RowNode { next, ..node });
    }

    // The node at a place, which a row uses, stands behind another one.
    pub fn trail(&mut self, place: usize, prev: NodeLink)
        requires held { is_used (row_node_at self.old.items place) ≡ true }
        requires linked { prev ≢ unused_link }
        ensures items { self.new.items ≡ slice_set self.old.items place (with_prev (row_node_at self.old.items place) prev) }
        ensures covered { self.new.covered ≡ self.old.covered }
    {
        let node = self.get(place);
        self.put(place, RowNode { prev, ..node });
    }

    // A row's node comes to its place, on no chain so far.
    pub fn enter(&mut self, place: usize, hash: u32)
        requires covered { IsCovered self.old.covered (row_at place) }
        requires free { is_used (row_node_at self.old.items place) ≡ false }
        ensures inside { place < length self.old.items }
        ensures items { self.new.items ≡ slice_set self.old.items place (loose_node hash) }
        ensures covered { self.new.covered ≡ self.old.covered }
    {
        let block = &mut self.blocks[place / NODES_A_BLOCK];
        if block.used == 0 {
            self.spare -= 1;
        }
        block.enter(
            place % NODES_A_BLOCK,
            RowNode {
                hash,
                next: NodeLink::none(),
                prev: NodeLink::none(),
            },
        );
    }

    // No row uses the node at a place any more.
    pub fn leave(&mut self, place: usize)
        requires { is_used (row_node_at self.old.items place) ≡ true }
        ensures items { self.new.items ≡ slice_set self.old.items place unused_node }
        ensures covered { self.new.covered ≡ self.old.covered }
        ensures stays { IsCovered self.new.covered (row_at place) }
    {
        let block = &mut self.blocks[place / NODES_A_BLOCK];
        block.leave(place % NODES_A_BLOCK);
        if block.used == 0 {
            self.spare += 1;
        }
    }

    // Makes sure of memory for the node at a place, with that of its whole block. At an error nothing has changed.
    pub fn cover(&mut self, place: usize) -> Result<(), NoMemory>
        requires { place < MAX_TUPLES }
        ensures covered { OnOk result (IsCovered self.new.covered (row_at place)) }
        ensures kept { (r : TupleRef) → IsCovered self.old.covered r → IsCovered self.new.covered r }
        ensures keeps { KeepsRows self.old.items self.new.items }
        ensures few { length self.old.items < 2 ^ 32 - 2 → length self.new.items < 2 ^ 32 - 2 }
        ensures had { IsCovered self.old.covered (row_at place) → self.new ≡ self.old }
        ensures err { OnErr result (self.new ≡ self.old) }
    {
        if self.is_covered(place) {
            return Ok(());
        }
        let at = place / NODES_A_BLOCK;
        reserve_by_doubling(&mut self.blocks, at + 1)?;
        let block = RowBlock::new(*self.blocks.allocator())?;
        lengthen(&mut self.blocks, at + 1);
        self.blocks[at] = block;
        self.spare += 1;
        Ok(())
    }

    // Gives the memory of those blocks back that no row uses.
    pub fn release_spares(&mut self)
        ensures kept { (r : TupleRef) → IsCovered self.new.covered r → IsCovered self.old.covered r }
        ensures keeps { KeepsRows self.old.items self.new.items }
        ensures few { length self.new.items < 2 ^ 32 - 2 }
    {
        shed_each(self.blocks.as_mut_slice());
        self.spare = 0;
        self.blocks.truncate(blocks_in_use(self.blocks.as_slice()));
        self.blocks.shrink_to_fit();
    }
}
