//! The owner of a tree's nodes, seen with the places at which they lie.
ghost use Rattle.std.specs.Prelude.{◌≡◌, ◌+◌, ◌<◌, ◌≤◌, max, OnOk, OnErr};

use crate::parts::Parts;
use no_memory::NoMemory;
use std::alloc::Global;
use std::marker::Model;

/// The nodes of a tree, with left, right and parent links, and its spare nodes: what a `LinkedTree` hides. It is seen with the place of each node,
/// since an `Editor` works out its place in the tree from the pointer that it keeps.
pub struct LinkedNodes<const MAX: usize> {
    pub(crate) parts: Parts<MAX>,
}

impl<const MAX: usize> Model for LinkedNodes<MAX> {
    ghost use Rattle.ttree_node.specs.declared.parts.Parts.{Parts};

    ghost Value = { Parts MAX };

    ghost use Rattle.ttree_node.specs.Linked.{Sound};

    ghost view = { λ a. a.parts };

    ghost invariant = { λ a. Sound a.parts };
}

/// Each node is freed, and each spare node.
impl<const MAX: usize> Drop for LinkedNodes<MAX> {
    fn drop(mut self) {
        self.clear();
        self.release_spares();
        let LinkedNodes { parts } = self;
        let Parts {
            nodes,
            alloc: _,
            root: _,
            free: _,
            spares: _,
        } = parts;
        nodes.finish();
    }
}

impl<const MAX: usize> LinkedNodes<MAX> {
    ghost use Rattle.ttree_node.specs.Tree.{empty, size};
    ghost use Rattle.ttree_node.specs.Seen.{tree_of, spares_of};
    ghost use Rattle.ttree_node.specs.Linked.{node_limit};

    // An empty tree with no spare nodes. It takes no memory.
    pub(crate) fn new(alloc: Global) -> LinkedNodes<MAX>
        ensures tree { tree_of result ≡ empty }
        ensures spares { spares_of result ≡ 0 }
    {
        LinkedNodes {
            parts: Parts::new(alloc),
        }
    }

    // The number of spare nodes.
    pub(crate) fn spares(&self) -> usize
        ensures { result ≡ spares_of self.now }
    {
        self.parts.spares
    }

    // Sees to `n` spare nodes. Nothing else takes memory.
    pub(crate) fn reserve(&mut self, n: usize) -> Result<(), NoMemory>
        requires { n + size (tree_of self.old) < node_limit }
        ensures tree { tree_of self.new ≡ tree_of self.old }
        ensures ok { OnOk result (spares_of self.new ≡ max (spares_of self.old) n) }
        ensures err { OnErr result (spares_of self.new ≡ spares_of self.old) }
    {
        let before = self.spares();
        while self.spares() < n {
            if let Err(refused) = self.add_spare() {
                self.shed_to(before);
                return Err(refused);
            }
        }
        Ok(())
    }

    // Gives the spare nodes back to the heap.
    pub(crate) fn release_spares(&mut self)
        ensures tree { tree_of self.new ≡ tree_of self.old }
        ensures spares { spares_of self.new ≡ 0 }
    {
        self.shed_to(0);
    }

    fn shed_to(&mut self, count: usize)
        requires { count ≤ spares_of self.old }
        ensures tree { tree_of self.new ≡ tree_of self.old }
        ensures spares { spares_of self.new ≡ count }
    {
        while self.spares() > count {
            self.shed_spare();
        }
    }

    fn add_spare(&mut self) -> Result<(), NoMemory>
        requires { size (tree_of self.old) + spares_of self.old + 1 < node_limit }
        ensures tree { tree_of self.new ≡ tree_of self.old }
        ensures ok { OnOk result (spares_of self.new ≡ spares_of self.old + 1) }
        ensures err { OnErr result (spares_of self.new ≡ spares_of self.old) }
    {
        self.parts.add_spare()
    }

    fn shed_spare(&mut self)
        requires { 0 < spares_of self.old }
        ensures tree { tree_of self.new ≡ tree_of self.old }
        ensures spares { spares_of self.new + 1 ≡ spares_of self.old }
    {
        self.parts.shed_spare();
    }
}
