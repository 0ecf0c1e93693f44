//! The chains: how nodes come in front of one, are found in it and leave it.
//!
//! A bucket is a chain: a link to its first node, and from each node to the next. In what order a chain has its nodes
//! matters to nothing above.
ghost use Rattle.std.specs.Prelude.{◌≡◌, ◌<◌, ◌≤◌, ◌^◌, List, [], length, slice_set, IfSome, EachIndex};
ghost use Rattle.std.specs.List.{SomeIndex};
ghost use Rattle.lin_hash.specs.Address.{bucket_of};
ghost use Rattle.lin_hash.specs.Nodes.{link_to, node_at, head_at, leading_to, next_at, relinked_behind, relinked_head, entries_of};
ghost use Rattle.lin_hash.specs.Walks.{EndsWithin, walked_from};
ghost use Rattle.lin_hash.specs.Chains.{Placed, placed_at, AreHung, IsChain, HoldsEntry, Visits, IsBehind, StandsAt};

use crate::address::Address;
use crate::node::NodeLink;
use crate::nodes::Nodes;
use part_raw::TupleRef;

/// Where a node stands: in front of its chain, or behind the node at another place.
#[derive(Clone, Copy, Drop)]
pub struct Position {
    pub behind: Option<usize>,
    pub place: usize,
}

// Puts the node at a place in front of the chain of its hash.
pub fn link(nodes: &mut Nodes, heads: &mut [NodeLink], address: Address, place: usize)
    requires low { address.level ≤ 30 }
    requires place { place < length nodes.old.items }
    requires few { length nodes.old.items < 2 ^ 32 }
    requires bucket { bucket_of address.level address.mark (node_at nodes.old.items place).hash < length heads.old }
    ensures nodes { let bucket = bucket_of address.level address.mark (node_at nodes.old.items place).hash in
        nodes.new.items ≡ slice_set nodes.old.items place (leading_to (node_at nodes.old.items place) (head_at heads.old bucket)) }
    ensures heads { let bucket = bucket_of address.level address.mark (node_at nodes.old.items place).hash in
        heads.new ≡ slice_set heads.old bucket (link_to place) }
    ensures memory { nodes.new.memory ≡ nodes.old.memory }
    ensures listed { nodes.new.listed ≡ nodes.old.listed }
{
    let bucket = address.bucket(nodes.get(place).hash);
    nodes.lead(place, heads[bucket]);
    heads[bucket] = NodeLink::to(place);
}

// Puts the nodes from a link on, which hang on no bucket, in front of the chains of their hashes.
pub fn link_from(nodes: &mut Nodes, heads: &mut [NodeLink], address: Address, first: NodeLink)
    requires loose { (loose : List Placed) × IsChain nodes.old.items first loose × AreHung address.level address.mark nodes.old.items heads.old loose }
    requires few { length nodes.old.items < 2 ^ 32 }
    ensures hung { AreHung address.level address.mark nodes.new.items heads.new [] }
    ensures entries { entries_of nodes.new.items ≡ entries_of nodes.old.items }
    ensures nodes_len { length nodes.new.items ≡ length nodes.old.items }
    ensures heads_len { length heads.new ≡ length heads.old }
    ensures memory { nodes.new.memory ≡ nodes.old.memory }
    ensures listed { nodes.new.listed ≡ nodes.old.listed }
{
    let mut rest = first;
    while let Some(place) = rest.place() {
        rest = nodes.get(place).next;
        link(nodes, heads, address, place);
    }
}

// Where a node with that entry stands in the chain from a link on.
pub fn find(nodes: &Nodes, first: NodeLink, hash: u32, r: TupleRef) -> Position
    requires { HoldsEntry nodes.now.items first hash r }
    ensures { StandsAt nodes.now.items first hash r result }
{
    let mut behind = None;
    let mut at = first;
    while let Some(place) = at.place() {
        let node = nodes.get(place);
        if node.hash == hash && node.reference == r {
            return Position { behind, place };
        }
        behind = Some(place);
        at = node.next;
    }
    unreachable!()
}

// Behind which node of the chain from a link on that one stands, or behind none.
pub fn before(nodes: &Nodes, first: NodeLink, sought: usize) -> Option<usize>
    requires { Visits nodes.now.items first sought }
    ensures { IsBehind nodes.now.items first (placed_at nodes.now.items sought) result }
{
    let mut behind = None;
    let mut at = first;
    while let Some(place) = at.place() {
        if place == sought {
            return behind;
        }
        behind = Some(place);
        at = nodes.get(place).next;
    }
    unreachable!()
}

// Takes a node out of the chain of a bucket: what led to it leads to the next one.
pub fn unlink(nodes: &mut Nodes, heads: &mut [NodeLink], bucket: usize, at: Position)
    requires place { at.place < length nodes.old.items }
    requires behind { IfSome at.behind (λ place. place < length nodes.old.items) }
    requires bucket { bucket < length heads.old }
    ensures nodes { nodes.new.items ≡ relinked_behind nodes.old.items at.behind (next_at nodes.old.items at.place) }
    ensures heads { heads.new ≡ relinked_head heads.old bucket at.behind (next_at nodes.old.items at.place) }
    ensures memory { nodes.new.memory ≡ nodes.old.memory }
    ensures listed { nodes.new.listed ≡ nodes.old.listed }
{
    let next = nodes.get(at.place).next;
    match at.behind {
        Some(place) => nodes.lead(place, next),
        None => heads[bucket] = next,
    }
}

// How many nodes there are from a link on.
fn walked(nodes: &Nodes, first: NodeLink) -> usize
    requires few { length nodes.now.items < 2 ^ 32 }
    requires ends { EndsWithin (length nodes.now.items) nodes.now.items first }
    ensures { result ≡ walked_from nodes.now.items first }
{
    let mut count = 0;
    let mut rest = first;
    while let Some(place) = rest.place() {
        rest = nodes.get(place).next;
        count += 1;
    }
    count
}

// How many nodes the longest chain has.
pub fn longest(nodes: &Nodes, heads: &[NodeLink]) -> usize
    requires few { length nodes.now.items < 2 ^ 32 }
    requires some { 0 < length heads.now }
    requires end { EachIndex heads.now (λ i. EndsWithin (length nodes.now.items) nodes.now.items (head_at heads.now i)) }
    ensures within { EachIndex heads.now (λ i. walked_from nodes.now.items (head_at heads.now i) ≤ result) }
    ensures reached { SomeIndex heads.now (λ i. walked_from nodes.now.items (head_at heads.now i) ≡ result) }
{
    let mut longest = 0;
    for head in heads {
        longest = longest.max(walked(nodes, *head));
    }
    longest
}
