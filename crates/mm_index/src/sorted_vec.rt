//! The plain ordered index: a sorted vector of references. Its room is the vector's capacity that is not used.
ghost use Rattle.std.specs.Prelude.{◌≡◌, ◌+◌, ◌<◌, ◌≤◌, [], length, insert, All};
ghost use Rattle.mm_index.specs.Asking.{IsOnlyAsked, counted};
ghost use Rattle.mm_index.specs.Range.{NeverFalls, from_range};
ghost use Rattle.std.specs.Iterator.{YieldsFirst, item_count};

use crate::order_probe::OrderProbe;
use crate::ordered_index::OrderedIndex;
use crate::probe::Probe;
use crate::search::{find_or_place, first_not_below, first_not_equal, place_by_order};
use crate::tuple_order::TupleOrder;
use no_memory::NoMemory;
use part_raw::TupleRef;
use std::alloc::Global;
use std::marker::Model;

/// References in a vector, in order. An insert and a removal move what stands behind.
#[derive(Drop)]
pub struct SortedVec {
    refs: Vec<TupleRef>,
}

impl Model for SortedVec {
    ghost use Rattle.std.specs.Prelude.{◌-◌, vec_len, vec_capacity};
    ghost use Rattle.mm_index.specs.Held.{HeldList};

    ghost Value = { HeldList };

    ghost view = { λ s. record { items = s.refs.items; room = vec_capacity s.refs - vec_len s.refs } };
}

impl SortedVec {
    ghost use Rattle.mm_index.specs.Walk.{rest_of};

    /// An empty index, which has taken no memory.
    pub fn new(alloc: Global) -> SortedVec
        ensures { result.items ≡ [] }
    {
        SortedVec {
            refs: Vec::new(alloc),
        }
    }

    /// The references in order.
    pub fn walk(&self) -> Walk<'_>
        ensures { rest_of result ≡ self.now.items }
    {
        Walk {
            rest: self.refs.as_slice(),
        }
    }

    /// The references in order, from the first that does not stand below the probe's range.
    pub fn walk_from<P: Probe>(&self, probe: &mut P) -> Walk<'_>
        requires sound { P.is_sound probe.old }
        requires placed { All (P.can_place probe.old) self.now.items }
        requires in_order { NeverFalls (P.place probe.old) self.now.items }
        ensures rest { rest_of result ≡ from_range (P.place probe.old) self.now.items }
        ensures probe { IsOnlyAsked P.is_sound P.can_place P.place P.asked probe.old probe.new }
        ensures asks { 0 < length self.now.items → counted (P.asked probe.old) ≤ P.asked probe.new }
    {
        let refs = self.refs.as_slice();
        let first = first_not_below(refs, probe);
        Walk {
            rest: &refs[first..],
        }
    }

    // Puts `r` at a place of the list.
    fn insert_at(&mut self, place: usize, r: TupleRef)
        requires reserved { 0 < self.old.room }
        requires within { place ≤ length self.old.items }
        ensures items { self.new.items ≡ insert self.old.items place r }
        ensures room { self.old.room ≤ self.new.room + 1 }
    {
        let inserted = self.refs.insert(place, r);
        prove!(inserted.is_ok());
    }
}

impl OrderedIndex for SortedVec {
    ghost items = { λ s. s.items };

    ghost room = { λ s. s.room };

    fn reserve(&mut self, n: usize) -> Result<(), NoMemory> {
        self.refs.reserve(n)?;
        Ok(())
    }

    fn insert<O: TupleOrder>(&mut self, probe: &mut OrderProbe<'_, O>) {
        let r = probe.sought();
        let place = place_by_order(self.refs.as_slice(), probe);
        self.insert_at(place, r);
    }

    fn remove<O: TupleOrder>(&mut self, probe: &mut OrderProbe<'_, O>) {
        let place = place_by_order(self.refs.as_slice(), probe);
        self.refs.remove(place);
    }

    fn find<P: Probe>(&self, probe: &mut P) -> Option<TupleRef> {
        find_or_place(self.refs.as_slice(), probe).ok()
    }

    fn insert_unless_found<P: Probe>(&mut self, probe: &mut P, r: TupleRef) -> Option<TupleRef> {
        match find_or_place(self.refs.as_slice(), probe) {
            Ok(found) => Some(found),
            Err(place) => {
                self.insert_at(place, r);
                None
            }
        }
    }

    fn range<P: Probe>(&self, probe: &mut P, out: &mut Vec<TupleRef>) -> Result<(), NoMemory> {
        let refs = self.refs.as_slice();
        let first = first_not_below(refs, probe);
        let end = first_not_equal(refs, first, probe);
        out.extend_from_slice(&refs[first..end])?;
        Ok(())
    }

    fn len(&self) -> usize {
        self.refs.len()
    }

    fn release_spares(&mut self) {
        self.refs.shrink_to_fit();
    }
}

/// The references of an index that are left to visit, in order.
#[derive(Clone, Copy)]
pub struct Walk<'a> {
    rest: &'a [TupleRef],
}

impl<'a> Iterator for Walk<'a> {
    ghost use Rattle.mm_index.specs.Walk.{rest_of};

    type Item = TupleRef;

    ghost next_gives = { YieldsFirst rest_of };

    ghost remaining = { item_count rest_of };

    fn next(&mut self) -> Option<TupleRef> {
        let (first, rest) = self.rest.split_first()?;
        self.rest = rest;
        Some(*first)
    }
}
