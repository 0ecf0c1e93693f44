//! A place in a tree that is changed there.
ghost use Rattle.std.specs.Prelude.{◌≡◌, ◌+◌, ◌++◌, ◌<◌, ◌≤◌, true, false, length, insert, remove, slice_index_or};
ghost use Rattle.ttree_node.specs.Linked.{located, IsPlaceIn};

use crate::linked_nodes::LinkedNodes;
use crate::look::Look;
use crate::node::{Side, Way};
use crate::nodes::NodePlace;
use part_raw::TupleRef;

/// A place in a tree that is edited: a node, or nothing where the tree is empty. No call takes memory.
#[derive(Drop)]
pub struct Editor<'a, const MAX: usize> {
    pub(crate) nodes: &'a mut LinkedNodes<MAX>,
    pub(crate) at: Option<NodePlace>,
    ghost placed: { IsPlaceIn (located nodes.now) at },
}

impl<'a, const MAX: usize> Editor<'a, MAX> {
    ghost use Rattle.ttree_node.specs.Tree.{whole, list, is_node, is_leaf, is_root, has_left, has_right, left_of, right_of, down_left, down_right, up, to_root, items_of, stated, with_items, with_height, height_over, with_leaf, without_leaf, with_tree};
    ghost use Rattle.ttree_node.specs.Seen.{on_side, child, opposite, hangs_on_node, raised, merged, giver, taker, slid};
    ghost use Rattle.ttree_node.specs.Seen.{position_at};
    ghost use Rattle.ttree_node.specs.Look.{position as look_position};
    ghost use Rattle.ttree_node.specs.Editor.{position, tree_at, spares_at};

    /// Whether a node is there.
    pub fn has_node(&self) -> bool
        ensures { result ≡ is_node (position self.now).here }
    {
        self.nodes.is_node(self.at)
    }

    /// The number of spare nodes.
    pub fn spares(&self) -> usize
        ensures { result ≡ spares_at self.now }
    {
        self.nodes.spares()
    }

    /// Whether this is the root, or the tree is empty.
    pub fn at_root(&self) -> bool
        ensures { result ≡ is_root (position self.now).above }
    {
        self.nodes.is_root(self.at)
    }

    /// Whether the node has a left child.
    pub fn has_left(&self) -> bool
        ensures { result ≡ has_left (position self.now).here }
    {
        self.nodes.has_left(self.at)
    }

    /// Whether the node has a right child.
    pub fn has_right(&self) -> bool
        ensures { result ≡ has_right (position self.now).here }
    {
        self.nodes.has_right(self.at)
    }

    /// The items of the node.
    pub fn items(&self) -> &[TupleRef]
        ensures { result.now ≡ items_of (position self.now).here }
    {
        self.nodes.items(self.at)
    }

    /// The stated height of the node, 0 where no node is.
    pub fn height(&self) -> u32
        ensures { result ≡ stated (position self.now).here }
    {
        self.nodes.height_at(self.at)
    }

    /// The stated heights of the left and of the right child, 0 for none.
    pub fn heights(&self) -> (u32, u32)
        ensures left { result.0 ≡ stated (left_of (position self.now).here) }
        ensures right { result.1 ≡ stated (right_of (position self.now).here) }
    {
        self.nodes.heights(self.at)
    }

    /// The same place, to be read.
    pub fn look(&self) -> Look<'_, MAX>
        ensures nodes { result.nodes.now ≡ self.now.nodes.now }
        ensures place { look_position result ≡ position self.now }
    {
        self.nodes.look_at(self.at)
    }

    /// Goes to a place that a look at these nodes found.
    pub fn go_to(&mut self, place: Option<NodePlace>)
        requires { IsPlaceIn (located self.old.nodes.now) place }
        ensures same_reference { self.new.nodes.ghost_name ≡ self.old.nodes.ghost_name }
        ensures moved { position self.new ≡ position_at self.old.nodes.now place }
        ensures tree { tree_at self.new ≡ tree_at self.old }
        ensures spares { spares_at self.new ≡ spares_at self.old }
    {
        self.at = place;
    }

    /// Goes to the root.
    pub fn to_root(&mut self)
        ensures same_reference { self.new.nodes.ghost_name ≡ self.old.nodes.ghost_name }
        ensures moved { position self.new ≡ to_root (position self.old) }
        ensures tree { tree_at self.new ≡ tree_at self.old }
        ensures spares { spares_at self.new ≡ spares_at self.old }
    {
        self.at = self.nodes.root();
    }

    /// Goes to the left child.
    pub fn down_left(&mut self)
        requires { has_left (position self.old).here ≡ true }
        ensures same_reference { self.new.nodes.ghost_name ≡ self.old.nodes.ghost_name }
        ensures moved { position self.new ≡ down_left (position self.old) }
        ensures tree { tree_at self.new ≡ tree_at self.old }
        ensures spares { spares_at self.new ≡ spares_at self.old }
    {
        self.at = self.nodes.left_of(self.at);
    }

    /// Goes to the right child.
    pub fn down_right(&mut self)
        requires { has_right (position self.old).here ≡ true }
        ensures same_reference { self.new.nodes.ghost_name ≡ self.old.nodes.ghost_name }
        ensures moved { position self.new ≡ down_right (position self.old) }
        ensures tree { tree_at self.new ≡ tree_at self.old }
        ensures spares { spares_at self.new ≡ spares_at self.old }
    {
        self.at = self.nodes.right_of(self.at);
    }

    /// Goes to the parent.
    pub fn up(&mut self)
        requires { is_root (position self.old).above ≡ false }
        ensures same_reference { self.new.nodes.ghost_name ≡ self.old.nodes.ghost_name }
        ensures moved { position self.new ≡ up (position self.old) }
        ensures tree { tree_at self.new ≡ tree_at self.old }
        ensures spares { spares_at self.new ≡ spares_at self.old }
    {
        self.at = self.nodes.parent_of(self.at);
    }

    /// Puts the item in before the one at `index`, or at the end.
    pub fn put(&mut self, index: usize, item: TupleRef)
        requires node { is_node (position self.old).here ≡ true }
        requires index { index ≤ length (items_of (position self.old).here) }
        requires room { length (items_of (position self.old).here) < MAX }
        ensures same_reference { self.new.nodes.ghost_name ≡ self.old.nodes.ghost_name }
        ensures items { position self.new ≡ with_items (insert (items_of (position self.old).here) index item) (position self.old) }
        ensures tree { tree_at self.new ≡ whole (position self.new) }
        ensures spares { spares_at self.new ≡ spares_at self.old }
    {
        self.nodes.put(self.at, index, item);
    }

    /// Puts the items in behind those that are there.
    pub fn put_behind(&mut self, items: &[TupleRef])
        requires node { is_node (position self.old).here ≡ true }
        requires room { length (items_of (position self.old).here) + length items.now ≤ MAX }
        ensures same_reference { self.new.nodes.ghost_name ≡ self.old.nodes.ghost_name }
        ensures items { position self.new ≡ with_items (items_of (position self.old).here ++ items.now) (position self.old) }
        ensures tree { tree_at self.new ≡ whole (position self.new) }
        ensures spares { spares_at self.new ≡ spares_at self.old }
    {
        self.nodes.put_behind(self.at, items);
    }

    /// Takes out the item at `index`.
    pub fn cut(&mut self, index: usize) -> TupleRef
        requires { index < length (items_of (position self.old).here) }
        ensures same_reference { self.new.nodes.ghost_name ≡ self.old.nodes.ghost_name }
        ensures item { result ≡ slice_index_or (items_of (position self.old).here) index result }
        ensures items { position self.new ≡ with_items (remove (items_of (position self.old).here) index) (position self.old) }
        ensures tree { tree_at self.new ≡ whole (position self.new) }
        ensures spares { spares_at self.new ≡ spares_at self.old }
    {
        self.nodes.cut(self.at, index)
    }

    /// States the node's height anew, from the stated heights of its children. It stops at the greatest `u32`.
    pub fn reheight(&mut self)
        requires { is_node (position self.old).here ≡ true }
        ensures same_reference { self.new.nodes.ghost_name ≡ self.old.nodes.ghost_name }
        ensures height { position self.new ≡ with_height (height_over (position self.old).here) (position self.old) }
        ensures tree { tree_at self.new ≡ whole (position self.new) }
        ensures spares { spares_at self.new ≡ spares_at self.old }
    {
        self.nodes.reheight(self.at);
    }

    /// Makes a spare node a leaf of height 1 with one item, on that side of the node, or as the root where the tree is empty. The editor then stands at the leaf.
    pub fn new_leaf(&mut self, side: Side, item: TupleRef)
        requires fits { is_node (position self.old).here ≡ hangs_on_node side }
        requires open { is_node (child side (position self.old).here) ≡ false }
        requires spare { 0 < spares_at self.old }
        requires room { 0 < MAX }
        ensures same_reference { self.new.nodes.ghost_name ≡ self.old.nodes.ghost_name }
        ensures leaf { position self.new ≡ with_leaf item (on_side side (position self.old)) }
        ensures tree { tree_at self.new ≡ whole (position self.new) }
        ensures spares { spares_at self.new + 1 ≡ spares_at self.old }
    {
        self.at = self.nodes.new_leaf(self.at, side, item);
    }

    /// Makes an empty leaf a spare node. The editor then stands at its parent, or nowhere if it was the root.
    pub fn drop_leaf(&mut self)
        requires leaf { is_leaf (position self.old).here }
        requires no_items { length (items_of (position self.old).here) ≡ 0 }
        ensures same_reference { self.new.nodes.ghost_name ≡ self.old.nodes.ghost_name }
        ensures gone { position self.new ≡ without_leaf (position self.old) }
        ensures tree { tree_at self.new ≡ whole (position self.new) }
        ensures spares { spares_at self.new ≡ spares_at self.old + 1 }
    {
        self.at = self.nodes.drop_leaf(self.at);
    }

    /// Moves `count` items, nearest first, between the node and its child on that side, up to the node or down to the child.
    pub fn slide(&mut self, side: Side, way: Way, count: usize)
        requires child { is_node (child side (position self.old).here) ≡ true }
        requires open { is_node (child (opposite side) (child side (position self.old).here)) ≡ false }
        requires items { count ≤ length (items_of (giver way side (position self.old).here)) }
        requires room { length (items_of (taker way side (position self.old).here)) + count ≤ MAX }
        ensures same_reference { self.new.nodes.ghost_name ≡ self.old.nodes.ghost_name }
        ensures slid { position self.new ≡ with_tree (slid side way count) (position self.old) }
        ensures list { list (tree_at self.new) ≡ list (whole (position self.old)) }
        ensures tree { tree_at self.new ≡ whole (position self.new) }
        ensures spares { spares_at self.new ≡ spares_at self.old }
    {
        self.at = self.nodes.slide(self.at, side, way, count);
    }

    /// Gives the node all items of its one child, a leaf, which becomes a spare node.
    pub fn merge(&mut self, side: Side)
        requires leaf { is_leaf (child side (position self.old).here) }
        requires other { is_node (child (opposite side) (position self.old).here) ≡ false }
        requires room { length (items_of (position self.old).here) + length (items_of (child side (position self.old).here)) ≤ MAX }
        ensures same_reference { self.new.nodes.ghost_name ≡ self.old.nodes.ghost_name }
        ensures merged { position self.new ≡ with_tree (merged side) (position self.old) }
        ensures list { list (tree_at self.new) ≡ list (whole (position self.old)) }
        ensures tree { tree_at self.new ≡ whole (position self.new) }
        ensures spares { spares_at self.new ≡ spares_at self.old + 1 }
    {
        self.at = self.nodes.merge(self.at, side);
    }

    /// The child on that side takes the node's place, and the node becomes that child's child on the other side.
    pub fn raise(&mut self, side: Side)
        requires { is_node (child side (position self.old).here) ≡ true }
        ensures same_reference { self.new.nodes.ghost_name ≡ self.old.nodes.ghost_name }
        ensures turned { position self.new ≡ with_tree (raised side) (position self.old) }
        ensures list { list (tree_at self.new) ≡ list (whole (position self.old)) }
        ensures tree { tree_at self.new ≡ whole (position self.new) }
        ensures spares { spares_at self.new ≡ spares_at self.old }
    {
        self.at = self.nodes.raise(self.at, side);
    }
}
