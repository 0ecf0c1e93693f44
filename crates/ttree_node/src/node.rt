//! One node: what it holds, and what it links.
ghost use Rattle.std.specs.Prelude.{◌≡◌, IfSome};
ghost use Rattle.ttree_node.specs.Link.{link as link_so, child_link, relinked};

use crate::nodes::NodePlace;
use arrayvec::ArrayVec;
use part_raw::TupleRef;
use std::marker::Model;

/// Where a node hangs.
#[derive(Clone, Copy)]
pub enum Side {
    /// Nowhere, as the root.
    Root,
    /// On the left of its parent.
    Left,
    /// On the right of its parent.
    Right,
}

impl Side {
    ghost use Rattle.ttree_node.specs.Seen.{opposite};

    /// The other side of a node.
    #[inline]
    pub fn opposite(self) -> Side
        ensures { result ≡ opposite self }
    {
        match self {
            Side::Root => Side::Root,
            Side::Left => Side::Right,
            Side::Right => Side::Left,
        }
    }
}

/// Which way items go between a node and its child.
#[derive(Clone, Copy)]
pub enum Way {
    /// From the child to the node.
    Up,
    /// From the node to the child.
    Down,
}

// What a node is beside its items: its stated height, its parent, the side of it on which the node hangs, and its children.
#[derive(Clone, Copy)]
pub struct HeadFields {
    pub(crate) height: u32,
    pub(crate) side: Side,
    pub(crate) left: Option<NodePlace>,
    pub(crate) right: Option<NodePlace>,
    pub(crate) parent: Option<NodePlace>,
}

impl HeadFields {
    // The child on that side.
    #[inline]
    pub(crate) fn child(&self, side: Side) -> Option<NodePlace>
        ensures { result ≡ child_link side self.now }
    {
        match side {
            Side::Root => None,
            Side::Left => self.left,
            Side::Right => self.right,
        }
    }
}

// The same in 32 bytes. An `Option` of a place takes two words. So the places lie side by side, and beside them stands of each whether
// it is one; what is none is nowhere.
#[derive(Drop)]
pub struct Head {
    left: NodePlace,
    right: NodePlace,
    parent: NodePlace,
    height: u32,
    side: Side,
    has_left: bool,
    has_right: bool,
    has_parent: bool,
}

impl Model for Head {
    ghost use Rattle.ttree_node.specs.declared.node.HeadFields.{HeadFields};
    ghost use Rattle.ttree_node.specs.Link.{link};

    ghost Value = { HeadFields };

    ghost view = { λ h. record { height = h.height; side = h.side; left = link h.has_left h.left; right = link h.has_right h.right; parent = link h.has_parent h.parent } };
}

// A link, where it leads to a node.
#[inline]
fn link(is_there: bool, place: NodePlace) -> Option<NodePlace>
    ensures { result ≡ link_so is_there place }
{
    if is_there { Some(place) } else { None }
}

// The place of a link, which may lead to none.
#[inline]
fn place_of(link: Option<NodePlace>) -> NodePlace
    ensures { IfSome link (λ place. result ≡ place) }
{
    match link {
        Some(place) => place,
        None => NodePlace::nowhere(),
    }
}

impl Head {
    // The head of a spare node, which links the next one.
    pub(crate) fn spare(next: Option<NodePlace>) -> Head
        ensures { result ≡ record { height = 0; side = Side.Root; left = next; right = None; parent = None } }
    {
        Head::of(HeadFields {
            height: 0,
            side: Side::Root,
            left: next,
            right: None,
            parent: None,
        })
    }

    // The head with these fields.
    pub(crate) fn of(head: HeadFields) -> Head
        ensures { result ≡ head }
    {
        Head {
            left: place_of(head.left),
            right: place_of(head.right),
            parent: place_of(head.parent),
            height: head.height,
            side: head.side,
            has_left: head.left.is_some(),
            has_right: head.right.is_some(),
            has_parent: head.parent.is_some(),
        }
    }

    // All of them.
    #[inline]
    pub(crate) fn read(&self) -> HeadFields
        ensures { result ≡ self.now }
    {
        HeadFields {
            height: self.height,
            side: self.side(),
            left: self.left(),
            right: self.right(),
            parent: self.parent(),
        }
    }

    // The stated height.
    #[inline]
    pub(crate) fn height(&self) -> u32
        ensures { result ≡ self.now.height }
    {
        self.height
    }

    // On which side of its parent the node hangs.
    #[inline]
    pub(crate) fn side(&self) -> Side
        ensures { result ≡ self.now.side }
    {
        self.side
    }

    // The left child.
    #[inline]
    pub(crate) fn left(&self) -> Option<NodePlace>
        ensures { result ≡ self.now.left }
    {
        link(self.has_left, self.left)
    }

    // The right child.
    #[inline]
    pub(crate) fn right(&self) -> Option<NodePlace>
        ensures { result ≡ self.now.right }
    {
        link(self.has_right, self.right)
    }

    // The node above.
    #[inline]
    pub(crate) fn parent(&self) -> Option<NodePlace>
        ensures { result ≡ self.now.parent }
    {
        link(self.has_parent, self.parent)
    }

    // States the height anew.
    pub(crate) fn set_height(&mut self, height: u32)
        ensures { self.new ≡ record self.old { height = height } }
    {
        self.height = height;
    }

    // Hangs a tree on the left, or none.
    fn set_left(&mut self, child: Option<NodePlace>)
        ensures { self.new ≡ record self.old { left = child } }
    {
        self.has_left = child.is_some();
        self.left = place_of(child);
    }

    // Hangs a tree on the right, or none.
    fn set_right(&mut self, child: Option<NodePlace>)
        ensures { self.new ≡ record self.old { right = child } }
    {
        self.has_right = child.is_some();
        self.right = place_of(child);
    }

    // Hangs a tree on that side, or none.
    pub(crate) fn set_child(&mut self, side: Side, child: Option<NodePlace>)
        ensures { self.new ≡ relinked side child self.old }
    {
        match side {
            Side::Root => {}
            Side::Left => self.set_left(child),
            Side::Right => self.set_right(child),
        }
    }

    // Hangs the node on that side of a node above, or makes it a root.
    pub(crate) fn set_parent(&mut self, parent: Option<NodePlace>, side: Side)
        ensures { self.new ≡ record self.old { parent = parent; side = side } }
    {
        self.has_parent = parent.is_some();
        self.parent = place_of(parent);
        self.side = side;
    }
}

// The items of a node, and what it is beside them.
#[derive(Drop)]
pub struct Node<const MAX: usize> {
    pub(crate) head: Head,
    pub(crate) items: ArrayVec<TupleRef, MAX>,
}
