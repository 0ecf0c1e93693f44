//! Copies of the heads and of the blocks of a hash of rows.
ghost use Rattle.std.specs.Prelude.{◌≡◌, IfOk, map, vec_capacity};
ghost use Rattle.lin_hash.specs.Copies.{shown};

use crate::node::NodeLink;
use crate::row_block::RowBlock;
use no_memory::NoMemory;
use std::alloc::Global;

// The heads, with memory for as many more.
pub fn copy_heads(heads: &Vec<NodeLink>, alloc: Global) -> Result<Vec<NodeLink>, NoMemory>
    ensures items { IfOk result (λ copies. copies.items ≡ heads.now.items) }
    ensures capacity { IfOk result (λ copies. vec_capacity copies ≡ vec_capacity heads.now) }
{
    let mut copies = Vec::with_capacity(alloc, heads.capacity())?;
    for head in heads {
        copies.push_reserved(*head);
    }
    Ok(copies)
}

// The blocks, each with a copy of its nodes.
pub fn copy_blocks(blocks: &Vec<RowBlock>, alloc: Global) -> Result<Vec<RowBlock>, NoMemory>
    ensures { IfOk result (λ copies. map shown copies.items ≡ map shown blocks.now.items) }
{
    let mut copies = Vec::with_capacity(alloc, blocks.len())?;
    for block in blocks {
        copies.push_reserved(block.try_clone(alloc)?);
    }
    Ok(copies)
}
