//! The chains of rows: how a row's node comes in front of one and leaves it.
//!
//! A node leads to the next one and back to the one before, so a node leaves its chain by what it says itself, however long
//! the chain is. In what order a chain has its nodes matters to nothing above.
ghost use Rattle.std.specs.Prelude.{◌≡◌, ◌-◌, ◌<◌, ◌≤◌, ◌^◌, true, [], length, slice_set, IfSome, EachIndex};
ghost use Rattle.std.specs.List.{SomeIndex};
ghost use Rattle.lin_hash.specs.Address.{bucket_of};
ghost use Rattle.lin_hash.specs.Nodes.{head_at, leads_to, link_to};
ghost use Rattle.lin_hash.specs.RowNodes.{headed_at, is_used, linked_before, linked_past, row_node_at, rows_of};
ghost use Rattle.lin_hash.specs.RowChains.{AreLoose, AreRowsHung, RowsEndWithin, rows_walked_from};

use crate::address::Address;
use crate::node::NodeLink;
use crate::row_node::RowNode;
use crate::row_nodes::RowNodes;

// Puts the node of a row, which hangs on no chain, in front of the chain of its hash.
pub fn link(nodes: &mut RowNodes, heads: &mut [NodeLink], address: Address, place: usize)
    requires low { address.level ≤ 30 }
    requires held { is_used (row_node_at nodes.old.items place) ≡ true }
    requires few { place < 2 ^ 32 - 2 }
    requires bucket { bucket_of address.level address.mark (row_node_at nodes.old.items place).hash < length heads.old }
    requires first { let bucket = bucket_of address.level address.mark (row_node_at nodes.old.items place).hash in
        IfSome (leads_to (head_at heads.old bucket)) (λ q. is_used (row_node_at nodes.old.items q) ≡ true) }
    ensures nodes { let bucket = bucket_of address.level address.mark (row_node_at nodes.old.items place).hash in
        nodes.new.items ≡ linked_before nodes.old.items place (head_at heads.old bucket) }
    ensures heads { let bucket = bucket_of address.level address.mark (row_node_at nodes.old.items place).hash in
        heads.new ≡ slice_set heads.old bucket (link_to place) }
    ensures covered { nodes.new.covered ≡ nodes.old.covered }
{
    let hash = nodes.get(place).hash;
    let bucket = address.bucket(hash);
    let next = heads[bucket];
    let prev = NodeLink::none();
    nodes.put(place, RowNode { hash, next, prev });
    if let Some(first) = next.place() {
        nodes.trail(first, NodeLink::to(place));
    }
    heads[bucket] = NodeLink::to(place);
}

// Puts the nodes from a link on, which hang on no bucket, in front of the chains of their hashes.
pub fn link_from(nodes: &mut RowNodes, heads: &mut [NodeLink], address: Address, first: NodeLink)
    requires loose { AreLoose address.level address.mark nodes.old.items heads.old first }
    requires few { length nodes.old.items < 2 ^ 32 - 2 }
    ensures hung { AreRowsHung address.level address.mark nodes.new.items heads.new [] }
    ensures rows { rows_of nodes.new.items ≡ rows_of nodes.old.items }
    ensures nodes_len { length nodes.new.items ≡ length nodes.old.items }
    ensures heads_len { length heads.new ≡ length heads.old }
    ensures covered { nodes.new.covered ≡ nodes.old.covered }
{
    let mut rest = first;
    while let Some(place) = rest.place() {
        rest = nodes.get(place).next;
        link(nodes, heads, address, place);
    }
}

// Takes a node out of the chain of a bucket: those beside it lead to each other.
pub fn unlink(nodes: &mut RowNodes, heads: &mut [NodeLink], bucket: usize, place: usize)
    requires held { is_used (row_node_at nodes.old.items place) ≡ true }
    requires bucket { bucket < length heads.old }
    requires prev { IfSome (leads_to (row_node_at nodes.old.items place).prev) (λ q. is_used (row_node_at nodes.old.items q) ≡ true) }
    requires next { IfSome (leads_to (row_node_at nodes.old.items place).next) (λ q. is_used (row_node_at nodes.old.items q) ≡ true) }
    ensures nodes { nodes.new.items ≡ linked_past nodes.old.items (row_node_at nodes.old.items place) }
    ensures heads { let n = row_node_at nodes.old.items place in heads.new ≡ headed_at heads.old bucket (leads_to n.prev) n.next }
    ensures covered { nodes.new.covered ≡ nodes.old.covered }
{
    let node = nodes.get(place);
    match node.prev.place() {
        Some(before) => nodes.lead(before, node.next),
        None => heads[bucket] = node.next,
    }
    if let Some(after) = node.next.place() {
        nodes.trail(after, node.prev);
    }
}

// How many nodes there are from a link on.
fn walked(nodes: &RowNodes, first: NodeLink) -> usize
    requires few { length nodes.now.items < 2 ^ 32 }
    requires ends { RowsEndWithin (length nodes.now.items) nodes.now.items first }
    ensures { result ≡ rows_walked_from nodes.now.items first }
{
    let mut count = 0;
    let mut rest = first;
    while let Some(place) = rest.place() {
        rest = nodes.get(place).next;
        count += 1;
    }
    count
}

// How many nodes the longest chain has.
pub fn longest(nodes: &RowNodes, heads: &[NodeLink]) -> usize
    requires few { length nodes.now.items < 2 ^ 32 }
    requires some { 0 < length heads.now }
    requires end { EachIndex heads.now (λ i. RowsEndWithin (length nodes.now.items) nodes.now.items (head_at heads.now i)) }
    ensures within { EachIndex heads.now (λ i. rows_walked_from nodes.now.items (head_at heads.now i) ≤ result) }
    ensures reached { SomeIndex heads.now (λ i. rows_walked_from nodes.now.items (head_at heads.now i) ≡ result) }
{
    let mut longest = 0;
    for head in heads {
        longest = longest.max(walked(nodes, *head));
    }
    longest
}
