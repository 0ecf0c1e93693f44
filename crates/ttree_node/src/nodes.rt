//! The one module that reads and writes through a pointer: a set of nodes on the heap, which is seen as a finite map from places to nodes.
ghost use Rattle.std.specs.Prelude.{◌≡◌, List as Seq, [], ◌∷◌};
ghost use denote.RawPtr.{Ptr};
ghost use Rattle.ttree_node.specs.Held.{node_at, without, held_owns, held_lent};

use raw_box::RawBox;
use std::alloc::Global;
use std::marker::{Model, PhantomData};
use std::ptr::null_mut;

// Where a node lies. It owns nothing.
#[derive(Clone, Copy)]
pub struct NodePlace {
    at: *mut u8,
}

impl NodePlace {
    // A place at which nothing lies.
    pub(crate) fn nowhere() -> NodePlace {
        NodePlace { at: null_mut() }
    }
}

unsafe impl Send for NodePlace {}

unsafe impl Sync for NodePlace {}

// The owner of the nodes' memory. It takes no space: the places lie in the nodes.
pub struct Nodes<T> {
    mark: PhantomData<*mut T>,
    ghost held: { Seq (Ptr × T) },
}

impl<T> Model for Nodes<T> {
    ghost also_owns = { λ n. held_owns T.row n.held };

    ghost also_shares = { λ n _ κ. held_lent T.row n.held κ };
}

unsafe impl<T: Send> Send for Nodes<T> {}

unsafe impl<T: Sync> Sync for Nodes<T> {}

impl<T> Nodes<T> {
    ghost use Rattle.std.specs.Prelude.{◌<◌, Some, None, IsSome};
    ghost use Rattle.std.specs.Borrow.{sem};
    ghost use denote.Memory.{lone};
    ghost use prog.Memory.{size};
    ghost use Rattle.ttree_node.specs.Lends.{lends_node};

    pub(crate) fn new() -> Nodes<T>
        ensures { result.held ≡ [] }
    {
        Nodes { mark: PhantomData }
    }

    // Ends a set from which each node was given out.
    pub(crate) fn finish(self)
        requires { self.held ≡ [] }
    {
        let Nodes { mark: _ } = self;
    }

    pub(crate) fn take_in(&mut self, block: RawBox<T, Global>) -> NodePlace
        requires { 0 < size (lone T.row.mir) }
        ensures held { self.new.held ≡ (result.at, block.value) ∷ self.old.held }
        ensures fresh { node_at result.at self.old.held ≡ None }
    {
        let RawBox { at, alloc: _ } = block;
        NodePlace { at: at as *mut u8 }
    }

    pub(crate) fn give_out(&mut self, place: NodePlace, alloc: Global) -> RawBox<T, Global>
        requires { IsSome (node_at place.at self.old.held) }
        ensures held { self.new.held ≡ without place.at self.old.held }
        ensures value { node_at place.at self.old.held ≡ Some result.value }
    {
        let _set = self;
        RawBox {
            at: place.at as *mut T,
            alloc,
        }
    }

    pub(crate) fn get(&self, place: NodePlace) -> &T
        requires { IsSome (node_at place.at self.now.held) }
        ensures { node_at place.at self.now.held ≡ Some result.now }
    {
        let _set = self;
        unsafe { &*(place.at as *const T) }
    }

    pub(crate) fn get_mut(&mut self, place: NodePlace) -> &mut T
        requires { IsSome (node_at place.at self.old.held) }
        ensures* writes_back { sem 𝓛 (lends_node T.row self.entry place.at result) }
        ensures value { node_at place.at self.old.held ≡ Some result.now }
    {
        let _set = self;
        unsafe { &mut *(place.at as *mut T) }
    }
}
