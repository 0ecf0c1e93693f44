//! The T-tree as an `OrderedIndex`: each call is the tree's own, which says more.
ghost use Rattle.std.specs.Prelude.{◌≡◌, ◌+◌, Some};
ghost use Rattle.ttree_node.specs.Tree.{height};
ghost use Rattle.ttree.specs.Held.{items_of_tree};
ghost use Rattle.ttree.specs.Room.{room_of};
ghost use Rattle.ttree.specs.Shape.{binary_digits};

use crate::tree::TTree;
use mm_index::{OrderProbe, OrderedIndex, Probe, TupleOrder};
use no_memory::NoMemory;
use part_raw::TupleRef;

/// Each call is the tree's own.
impl<const MIN: usize, const MAX: usize> OrderedIndex for TTree<MIN, MAX> {
    ghost items = { λ t. items_of_tree t };

    ghost room = { λ t. room_of MIN t };

    ghost most_asked = { λ t. Some (height t.tree + binary_digits MAX) };

    fn reserve(&mut self, n: usize) -> Result<(), NoMemory> {
        TTree::reserve(self, n)
    }

    fn insert<O: TupleOrder>(&mut self, probe: &mut OrderProbe<'_, O>) {
        TTree::insert(self, probe);
    }

    fn remove<O: TupleOrder>(&mut self, probe: &mut OrderProbe<'_, O>) {
        TTree::remove(self, probe);
    }

    fn find<P: Probe>(&self, probe: &mut P) -> Option<TupleRef> {
        TTree::find(self, probe)
    }

    fn insert_unless_found<P: Probe>(&mut self, probe: &mut P, r: TupleRef) -> Option<TupleRef> {
        TTree::insert_unless_found(self, probe, r)
    }

    fn range<P: Probe>(&self, probe: &mut P, out: &mut Vec<TupleRef>) -> Result<(), NoMemory> {
        TTree::range(self, probe, out)
    }

    fn len(&self) -> usize {
        TTree::len(self)
    }

    fn release_spares(&mut self)
        ensures items { items_of_tree self.new ≡ items_of_tree self.old }
        ensures room { room_of MIN self.new ≡ 0 }
    {
        TTree::release_spares(self);
    }
}
