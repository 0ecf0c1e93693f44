//! Nodes in blocks: the place of a node tells its block, and where it stands there.
ghost use Rattle.std.specs.Prelude.{◌≡◌, ◌<◌, ◌≤◌, ◌++◌, List, length, max, vec_len, vec_capacity, OnOk};
ghost use Rattle.lin_hash.specs.declared.node.Node.{Node};
ghost use Rattle.lin_hash.specs.Blocks.{nodes_in};
ghost use Rattle.lin_hash.specs.Nodes.{node_at};

use crate::block::{Block, NODES_A_BLOCK};
use crate::node::Node;
use no_memory::NoMemory;

// The node at a place of the blocks.
pub fn node_in(blocks: &[Block], place: usize) -> Node
    requires { place < length (nodes_in blocks.now) }
    ensures { result ≡ node_at (nodes_in blocks.now) place }
{
    blocks[place / NODES_A_BLOCK].nodes[place % NODES_A_BLOCK]
}

// Adds blocks until there are so many. After an error those that were added stay.
pub fn add_blocks(blocks: &mut Vec<Block>, wanted: usize) -> Result<(), NoMemory>
    requires { wanted ≤ vec_capacity blocks.old }
    ensures nodes { (added : List Node) × (nodes_in blocks.new.items ≡ nodes_in blocks.old.items ++ added) }
    ensures ok { OnOk result (wanted ≤ vec_len blocks.new) }
    ensures more { vec_len blocks.old ≤ vec_len blocks.new }
    ensures few { vec_len blocks.new ≤ max (vec_len blocks.old) wanted }
    ensures capacity { vec_capacity blocks.new ≡ vec_capacity blocks.old }
{
    for _ in blocks.len()..wanted {
        let block = Block::new(*blocks.allocator())?;
        blocks.push_reserved(block);
    }
    Ok(())
}
