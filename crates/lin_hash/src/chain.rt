//! The references with one hash, as a look-up gives them.
//!
//! A walk along the chain of one bucket, which passes over the entries of other hashes. In what order it comes upon the
//! references matters to nobody.
ghost use Rattle.std.specs.Prelude.{length};
ghost use Rattle.lin_hash.specs.Blocks.{nodes_in};
ghost use Rattle.lin_hash.specs.Walks.{EndsWithin, EndsWithin-prop};

use crate::block::Block;
use crate::blocks::node_in;
use crate::node::NodeLink;
use part_raw::TupleRef;

/// The references with one hash that are left to visit. A copy goes on from the same place.
#[derive(Clone, Copy)]
pub struct Chain<'a> {
    hash: u32,
    blocks: &'a [Block],
    rest: NodeLink,
    ghost ends: { EndsWithin (length (nodes_in blocks.now)) (nodes_in blocks.now) rest } by { EndsWithin-prop (length (nodes_in blocks.now)) (nodes_in blocks.now) rest },
}

impl<'a> Chain<'a> {
    ghost use Rattle.std.specs.Prelude.{◌≡◌, length};
    ghost use Rattle.mm_index.specs.Bag.{with_hash};
    ghost use Rattle.lin_hash.specs.Blocks.{nodes_in};
    ghost use Rattle.lin_hash.specs.Walks.{EndsWithin};
    ghost use Rattle.lin_hash.specs.Nodes.{entries_from};
    ghost use Rattle.lin_hash.specs.Rest.{chain_rest};

    // Those with that hash from a node on.
    pub(crate) fn new(hash: u32, blocks: &'a [Block], rest: NodeLink) -> Chain<'a>
        requires { EndsWithin (length (nodes_in blocks.now)) (nodes_in blocks.now) rest }
        ensures { chain_rest result ≡ with_hash hash (entries_from (length (nodes_in blocks.entry.now)) (nodes_in blocks.entry.now) rest) }
    {
        Chain { hash, blocks, rest }
    }
}

impl<'a> Iterator for Chain<'a> {
    type Item = TupleRef;

    ghost use Rattle.std.specs.Iterator.{YieldsFirst, item_count};
    ghost use Rattle.lin_hash.specs.Rest.{chain_rest};

    ghost next_gives = { YieldsFirst chain_rest };

    ghost remaining = { item_count chain_rest };

    fn next(&mut self) -> Option<TupleRef> {
        let blocks = self.blocks;
        let mut rest = self.rest;
        while let Some(place) = rest.place() {
            let node = node_in(blocks, place);
            rest = node.next;
            if node.hash == self.hash {
                self.rest = rest;
                return Some(node.reference);
            }
        }
        self.rest = rest;
        None
    }
}
