//! A place in a tree that is only read.
ghost use Rattle.std.specs.Prelude.{◌≡◌, true, false, slice_get};
ghost use Rattle.ttree_node.specs.Linked.{located, IsPlaceIn};

use crate::linked_nodes::LinkedNodes;
use crate::nodes::NodePlace;
use part_raw::TupleRef;

/// A place in the tree of a `LinkedTree`: a node, or nothing where the tree is empty.
#[derive(Clone, Copy)]
pub struct Look<'a, const MAX: usize> {
    pub(crate) nodes: &'a LinkedNodes<MAX>,
    pub(crate) at: Option<NodePlace>,
    ghost placed: { IsPlaceIn (located nodes.now) at },
}

impl<'a, const MAX: usize> Look<'a, MAX> {
    ghost use Rattle.ttree_node.specs.Tree.{is_node, is_root, has_left, has_right, left_of, right_of, down_left, down_right, up, to_root, items_of, stated};
    ghost use Rattle.ttree_node.specs.Seen.{position_at};
    ghost use Rattle.ttree_node.specs.Look.{position};

    /// The place, for an editor of the same nodes to go to.
    pub fn place(&self) -> Option<NodePlace>
        ensures placed { IsPlaceIn (located self.now.nodes.now) result }
        ensures place { position_at self.now.nodes.now result ≡ position self.now }
    {
        self.at
    }

    /// Whether a node is there.
    pub fn has_node(&self) -> bool
        ensures { result ≡ is_node (position self.now).here }
    {
        self.nodes.is_node(self.at)
    }

    /// Whether this is the root, or the tree is empty.
    pub fn at_root(&self) -> bool
        ensures { result ≡ is_root (position self.now).above }
    {
        self.nodes.is_root(self.at)
    }

    /// Whether the node has a left child.
    pub fn has_left(&self) -> bool
        ensures { result ≡ has_left (position self.now).here }
    {
        self.nodes.has_left(self.at)
    }

    /// Whether the node has a right child.
    pub fn has_right(&self) -> bool
        ensures { result ≡ has_right (position self.now).here }
    {
        self.nodes.has_right(self.at)
    }

    /// The items of the node.
    pub fn items(&self) -> &[TupleRef]
        ensures { result.now ≡ items_of (position self.now).here }
    {
        self.nodes.items(self.at)
    }

    /// The stated height of the node, 0 where no node is.
    pub fn height(&self) -> u32
        ensures { result ≡ stated (position self.now).here }
    {
        self.nodes.height_at(self.at)
    }

    /// The stated heights of the left and of the right child, 0 for none.
    pub fn heights(&self) -> (u32, u32)
        ensures left { result.0 ≡ stated (left_of (position self.now).here) }
        ensures right { result.1 ≡ stated (right_of (position self.now).here) }
    {
        self.nodes.heights(self.at)
    }

    /// The least item of the left and of the right child, where there is one.
    #[inline]
    pub fn least_below(&self) -> (Option<TupleRef>, Option<TupleRef>)
        ensures left { result.0 ≡ slice_get (items_of (left_of (position self.now).here)) 0 }
        ensures right { result.1 ≡ slice_get (items_of (right_of (position self.now).here)) 0 }
    {
        self.nodes.least_below(self.at)
    }

    /// Goes to the root.
    pub fn to_root(&mut self)
        ensures nodes { self.new.nodes ≡ self.old.nodes }
        ensures moved { position self.new ≡ to_root (position self.old) }
    {
        self.at = self.nodes.root();
    }

    /// Goes to the left child.
    pub fn down_left(&mut self)
        requires { has_left (position self.old).here ≡ true }
        ensures nodes { self.new.nodes ≡ self.old.nodes }
        ensures moved { position self.new ≡ down_left (position self.old) }
    {
        self.at = self.nodes.left_of(self.at);
    }

    /// Goes to the right child.
    pub fn down_right(&mut self)
        requires { has_right (position self.old).here ≡ true }
        ensures nodes { self.new.nodes ≡ self.old.nodes }
        ensures moved { position self.new ≡ down_right (position self.old) }
    {
        self.at = self.nodes.right_of(self.at);
    }

    /// Goes to the parent.
    pub fn up(&mut self)
        requires { is_root (position self.old).above ≡ false }
        ensures nodes { self.new.nodes ≡ self.old.nodes }
        ensures moved { position self.new ≡ up (position self.old) }
    {
        self.at = self.nodes.parent_of(self.at);
    }
}
