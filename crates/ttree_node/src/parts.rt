//! The nodes of a tree and its spare nodes, with the steps that link and unlink them.
ghost use Rattle.std.specs.Prelude.{◌≡◌, ◌+◌, ◌-◌, ◌<◌, ◌≤◌, List, [], ◌∷◌, Some, None, IsSome, OnOk, OnErr};
ghost use denote.RawPtr.{Ptr};

use crate::node::{Head, HeadFields, Node, Side};
use crate::nodes::{NodePlace, Nodes};
use arrayvec::ArrayVec;
use no_memory::{NoMemory, check_size};
use part_raw::TupleRef;
use raw_box::RawBox;
use std::alloc::Global;

// No block of memory holds a node of more items.
pub(crate) const MOST_ITEMS: usize = 1 << 60;

// The fields of `LinkedNodes`, of which a step may leave some links wrong for a while.
pub struct Parts<const MAX: usize> {
    pub(crate) nodes: Nodes<Node<MAX>>,
    pub(crate) alloc: Global,
    pub(crate) root: Option<NodePlace>,
    pub(crate) free: Option<NodePlace>,
    pub(crate) spares: usize,
}

impl<const MAX: usize> Parts<MAX> {
    ghost use Rattle.ttree_node.specs.Held.{node_at, set_node};
    ghost use Rattle.ttree_node.specs.Tree.{Tree, size};
    ghost use Rattle.ttree_node.specs.declared.node.Side.TheVariants.{Root};
    ghost use Rattle.ttree_node.specs.declared.node.Node.{Node};
    ghost use Rattle.ttree_node.specs.Linked.{Spot, Linked, Sound, located, node_limit, Present, linked_down, linked_up, hung, rooted, node_for, head_of};

    pub(crate) fn new(alloc: Global) -> Parts<MAX>
        ensures { (result.nodes.held ≡ []) × (result.root ≡ None) × (result.free ≡ None) × (result.spares ≡ 0) }
    {
        Parts {
            nodes: Nodes::new(),
            alloc,
            root: None,
            free: None,
            spares: 0,
        }
    }

    // Takes the first spare node as a leaf with one item that links its parent. No node links it yet.
    pub(crate) fn take_spare(
        &mut self,
        parent: Option<NodePlace>,
        side: Side,
        item: TupleRef,
    ) -> NodePlace
        requires sound { Sound self.old }
        requires some { 0 < self.old.spares }
        requires room { 0 < MAX }
        ensures first { self.old.free ≡ Some result }
        ensures held { self.new.nodes.held ≡ set_node result.at (node_for (record { items = item ∷ []; height = 1 }) parent side None None) self.old.nodes.held }
        ensures root { self.new.root ≡ self.old.root }
        ensures next { (t : Tree Spot) (ps : List Ptr) → Linked self.old t (result.at ∷ ps) → self.new.free ≡ head_of ps }
        ensures spares { self.new.spares + 1 ≡ self.old.spares }
    {
        let place = self.free.unwrap();
        let node = self.nodes.get_mut(place);
        let next = node.head.left();
        node.head = Head::of(HeadFields {
            height: 1,
            side,
            left: None,
            right: None,
            parent,
        });
        node.items.push(item);
        self.free = next;
        self.spares -= 1;
        place
    }

    // Makes the node there the first spare node. Nodes that link it are left as they are.
    pub(crate) fn retire(&mut self, place: NodePlace)
        requires present { IsSome (node_at place.at self.old.nodes.held) }
        requires narrow { MAX ≤ MOST_ITEMS }
        requires few { self.old.spares < node_limit }
        ensures held { self.new.nodes.held ≡ set_node place.at (node_for (record { items = []; height = 0 }) None Root self.old.free None) self.old.nodes.held }
        ensures root { self.new.root ≡ self.old.root }
        ensures free { self.new.free ≡ Some place }
        ensures spares { self.new.spares ≡ self.old.spares + 1 }
    {
        let head = Head::spare(self.free);
        let node = self.nodes.get_mut(place);
        node.head = head;
        node.items.clear();
        self.free = Some(place);
        self.spares += 1;
    }

    // Makes `child` the child of `parent` on that side, or the root where there is no parent.
    pub(crate) fn set_child(
        &mut self,
        parent: Option<NodePlace>,
        side: Side,
        child: Option<NodePlace>,
    )
        requires { Present self.old.nodes.held parent }
        ensures held { self.new.nodes.held ≡ linked_down parent side child self.old.nodes.held }
        ensures root { self.new.root ≡ rooted parent child self.old.root }
        ensures rest { (self.new.free ≡ self.old.free) × (self.new.spares ≡ self.old.spares) }
    {
        match parent {
            None => self.root = child,
            Some(above) => {
                let node = self.nodes.get_mut(above);
                node.head.set_child(side, child);
            }
        }
    }

    // Hangs `child`, if it is a node, on that side of `parent`. The parent's link is left as it is.
    pub(crate) fn set_parent(
        &mut self,
        child: Option<NodePlace>,
        parent: Option<NodePlace>,
        side: Side,
    )
        requires { Present self.old.nodes.held child }
        ensures held { self.new.nodes.held ≡ linked_up child parent side self.old.nodes.held }
        ensures rest { (self.new.root ≡ self.old.root) × (self.new.free ≡ self.old.free) × (self.new.spares ≡ self.old.spares) }
    {
        if let Some(below) = child {
            let node = self.nodes.get_mut(below);
            node.head.set_parent(parent, side);
        }
    }

    // Hangs `child`, if it is a node, on that side of `parent`, or makes it the root where there is no parent.
    pub(crate) fn hang(&mut self, child: Option<NodePlace>, parent: Option<NodePlace>, side: Side)
        requires child { Present self.old.nodes.held child }
        requires parent { Present self.old.nodes.held parent }
        ensures held { self.new.nodes.held ≡ hung child parent side self.old.nodes.held }
        ensures root { self.new.root ≡ rooted parent child self.old.root }
        ensures rest { (self.new.free ≡ self.old.free) × (self.new.spares ≡ self.old.spares) }
    {
        self.set_child(parent, side, child);
        self.set_parent(child, parent, side);
    }

    // Takes memory for one more spare node.
    pub(crate) fn add_spare(&mut self) -> Result<(), NoMemory>
        requires sound { Sound self.old }
        requires room { size (located self.old) + self.old.spares + 1 < node_limit }
        ensures sound { Sound self.new }
        ensures tree { located self.new ≡ located self.old }
        ensures ok { OnOk result (self.new.spares ≡ self.old.spares + 1) }
        ensures err { OnErr result (self.new.spares ≡ self.old.spares) }
    {
        // A node takes 4 bytes for each item, and less than as many more.
        check_size::<u64>(MAX)?;
        let node = Node {
            head: Head::spare(self.free),
            items: ArrayVec::new(),
        };
        let block = RawBox::new(self.alloc, node)?;
        let place = self.nodes.take_in(block);
        self.free = Some(place);
        self.spares += 1;
        Ok(())
    }

    // Gives one spare node back to the heap.
    pub(crate) fn shed_spare(&mut self)
        requires sound { Sound self.old }
        requires some { 0 < self.old.spares }
        ensures sound { Sound self.new }
        ensures tree { located self.new ≡ located self.old }
        ensures spares { self.new.spares + 1 ≡ self.old.spares }
    {
        let place = self.free.unwrap();
        let node = self.nodes.give_out(place, self.alloc).into_inner();
        self.free = node.head.left();
        self.spares -= 1;
    }
}
