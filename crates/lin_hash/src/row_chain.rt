//! The rows with one hash, as a look-up gives them.
//!
//! A walk along the chain of one bucket, which passes over the rows of other hashes. In what order it comes upon the rows
//! matters to nobody.
ghost use Rattle.std.specs.Prelude.{◌^◌, ◌<◌, length};
ghost use Rattle.lin_hash.specs.RowBlocks.{row_nodes_in};
ghost use Rattle.lin_hash.specs.RowChains.{RowsEndWithin, RowsEndWithin-prop};

use crate::node::NodeLink;
use crate::row_block::RowBlock;
use crate::row_nodes::row_node_in;
use part_raw::TupleRef;

/// The rows with one hash that are left to visit. A copy goes on from the same place.
#[derive(Clone, Copy)]
pub struct RowChain<'a> {
    hash: u32,
    blocks: &'a [RowBlock],
    rest: NodeLink,
    ghost few: { length (row_nodes_in blocks.now) < 2 ^ 32 },
    ghost ends: { RowsEndWithin (length (row_nodes_in blocks.now)) (row_nodes_in blocks.now) rest } by { RowsEndWithin-prop (length (row_nodes_in blocks.now)) (row_nodes_in blocks.now) rest },
}

impl<'a> RowChain<'a> {
    ghost use Rattle.std.specs.Prelude.{◌≡◌, ◌^◌, ◌<◌, length};
    ghost use Rattle.mm_index.specs.Bag.{with_hash};
    ghost use Rattle.lin_hash.specs.RowBlocks.{row_nodes_in};
    ghost use Rattle.lin_hash.specs.RowChains.{RowsEndWithin, row_entries_from};
    ghost use Rattle.lin_hash.specs.RowRest.{row_chain_rest};

    // Those with that hash from a node on.
    pub(crate) fn new(hash: u32, blocks: &'a [RowBlock], rest: NodeLink) -> RowChain<'a>
        requires few { length (row_nodes_in blocks.now) < 2 ^ 32 }
        requires ends { RowsEndWithin (length (row_nodes_in blocks.now)) (row_nodes_in blocks.now) rest }
        ensures { row_chain_rest result ≡ with_hash hash (row_entries_from (length (row_nodes_in blocks.entry.now)) (row_nodes_in blocks.entry.now) rest) }
    {
        RowChain { hash, blocks, rest }
    }
}

impl<'a> Iterator for RowChain<'a> {
    type Item = TupleRef;

    ghost use Rattle.std.specs.Iterator.{YieldsFirst, item_count};
    ghost use Rattle.lin_hash.specs.RowRest.{row_chain_rest};

    ghost next_gives = { YieldsFirst row_chain_rest };

    ghost remaining = { item_count row_chain_rest };

    fn next(&mut self) -> Option<TupleRef> {
        let blocks = self.blocks;
        let mut rest = self.rest;
        while let Some(place) = rest.place() {
            let node = row_node_in(blocks, place);
            rest = node.next;
            if node.hash == self.hash {
                self.rest = rest;
                return Some(TupleRef {
                    number: place as u32,
                });
            }
        }
        self.rest = rest;
        None
    }
}
