//! A tree with spare nodes, as the T-tree sees it: where the nodes lie is hidden.
ghost use Rattle.std.specs.Prelude.{◌≡◌, ◌+◌, ◌<◌, ◌≤◌, [], max, IfOk, OnOk, OnErr};
ghost use Rattle.std.specs.Borrow.{sem};

use crate::linked_nodes::LinkedNodes;
use crate::look::Look;
use crate::walk::Walk;
use no_memory::NoMemory;
use std::alloc::Global;
use std::marker::Model;

/// A tree of nodes that hold at most `MAX` items each, and spare nodes for it to grow by. It is seen as that tree and the number of the
/// spare nodes: two `LinkedTree` with the same tree and as many spare nodes are one value, wherever their nodes lie.
#[derive(Drop)]
pub struct LinkedTree<const MAX: usize> {
    nodes: LinkedNodes<MAX>,
}

impl<const MAX: usize> Model for LinkedTree<MAX> {
    ghost use Rattle.ttree_node.specs.TreeWithSpares.{TreeWithSpares, tree_with_spares_code};

    ghost Value = { TreeWithSpares };

    ghost coded = { tree_with_spares_code };

    ghost use Rattle.ttree_node.specs.Seen.{shown};

    ghost view = { λ a. shown a.nodes };
}

impl<const MAX: usize> LinkedTree<MAX> {
    ghost use Rattle.ttree_node.specs.Tree.{empty, at, list, size};
    ghost use Rattle.ttree_node.specs.Seen.{shown};
    ghost use Rattle.ttree_node.specs.Linked.{node_limit};
    ghost use Rattle.ttree_node.specs.Look.{position};
    ghost use Rattle.ttree_node.specs.LinkedTreeLends.{LendsNodes};
    ghost use Rattle.ttree_node.specs.Walk.{rest_of};

    /// An empty tree with no spare nodes. It takes no memory.
    pub fn new(alloc: Global) -> LinkedTree<MAX>
        ensures tree { result.tree ≡ empty }
        ensures spares { result.spares ≡ 0 }
    {
        LinkedTree {
            nodes: LinkedNodes::new(alloc),
        }
    }

    /// The number of spare nodes.
    pub fn spares(&self) -> usize
        ensures { result ≡ self.now.spares }
    {
        self.nodes.spares()
    }

    /// Sees to `n` spare nodes. Nothing else takes memory. Where there is none, nothing has changed.
    pub fn reserve(&mut self, n: usize) -> Result<(), NoMemory>
        requires { n + size self.old.tree < node_limit }
        ensures tree { self.new.tree ≡ self.old.tree }
        ensures ok { OnOk result (self.new.spares ≡ max self.old.spares n) }
        ensures err { OnErr result (self.new ≡ self.old) }
    {
        self.nodes.reserve(n)
    }

    /// Gives the spare nodes back to the heap.
    pub fn release_spares(&mut self)
        ensures tree { self.new.tree ≡ self.old.tree }
        ensures spares { self.new.spares ≡ 0 }
    {
        self.nodes.release_spares();
    }

    /// An empty tree with `nodes` spare nodes: room for a copy of this one, if they are as many as its own.
    pub fn room_for_copy(&self, nodes: usize) -> Result<LinkedTree<MAX>, NoMemory>
        requires { nodes ≤ size self.now.tree + self.now.spares }
        ensures tree { IfOk result (λ room. room.tree ≡ empty) }
        ensures spares { IfOk result (λ room. room.spares ≡ nodes) }
    {
        let nodes = self.nodes.room_for_copy(nodes)?;
        Ok(LinkedTree { nodes })
    }

    /// The root of the tree, to be read.
    pub fn look(&self) -> Look<'_, MAX>
        ensures shown { shown result.nodes.now ≡ self.now }
        ensures root { position result ≡ at [] self.now.tree }
    {
        self.nodes.look()
    }

    /// All items in list order.
    pub fn walk(&self) -> Walk<'_, MAX>
        ensures { rest_of result ≡ list self.now.tree }
    {
        self.nodes.walk()
    }

    /// The nodes, which are edited at a place of theirs. What they are when that ends, the tree is.
    pub fn nodes_mut(&mut self) -> &mut LinkedNodes<MAX>
        ensures* writes_back { sem 𝓛 (LendsNodes MAX.row self.entry result) }
        ensures shown { shown result.now ≡ self.old }
    {
        &mut self.nodes
    }
}
