//! The block of a partition: its places, each empty or holding a value, and the right to give their memory back.
ghost use Rattle.std.specs.Prelude.{◌≡◌, ◌<◌, [], None, Some, length, map, replicate, slice_index_or, slice_set, IfOk, IsSome};
ghost use Rattle.part_raw.specs.Rows.{IsRun, window};
ghost use Rattle.std.specs.Borrow.{sem};

use crate::raw::{Deed, Slots, allocate, deallocate, let_go, no_deed};
use no_memory::{NoMemory, check_size};
use std::alloc::Global;
use std::marker::Model;
use std::mem;

// The places of a partition, seen as a list of what each holds. It takes the 8 bytes of the block's address. Neither it
// nor a value in it can be let go: `release` gives the memory back once every place is empty, and nothing else does. No
// place is left then, and what has none can be let go.
pub struct Block<T> {
    slots: Slots<T>,
    deed: Deed<T, Global>,
    alloc: Global,
}

impl<T> Model for Block<T> {
    ghost use Rattle.std.specs.Prelude.{List, Option};
    ghost use Rattle.part_raw.specs.Block.{IsBlock};

    ghost Value = { List (Option T) };

    ghost view = { λ b. b.slots.held };

    ghost invariant = { λ b. IsBlock b.slots b.deed b.alloc };
}

impl<T> Block<T> {
    ghost use Rattle.part_raw.specs.BlockLends.{LendsPlaces};

    // A block with so many places, each empty. Nothing is written to a place.
    pub(crate) fn new(alloc: Global, places: usize) -> Result<Block<T>, NoMemory>
        ensures { IfOk result (λ block. block ≡ replicate places None) }
    {
        check_size::<T>(places)?;
        let (slots, deed) = allocate(&alloc, places)?;
        Ok(Block { slots, deed, alloc })
    }

    // A block with no place, beside this one. It takes no memory.
    pub(crate) fn bare(&self) -> Block<T>
        ensures { result ≡ [] }
    {
        Block {
            slots: self.slots.none(),
            deed: no_deed(&self.alloc),
            alloc: self.alloc,
        }
    }

    // Gives the memory back. No place is left.
    pub(crate) fn release(&mut self, places: usize)
        requires some { 0 < places }
        requires empty { self.old ≡ replicate places None }
        ensures { self.new ≡ [] }
    {
        let deed = mem::replace(&mut self.deed, no_deed(&self.alloc));
        deallocate(&self.alloc, &mut self.slots, places, deed);
    }

    // Lets go what has no place.
    pub(crate) fn let_go(self)
        requires { self ≡ [] }
    {
        let Block {
            slots,
            deed,
            alloc: _,
        } = self;
        let_go(slots, deed);
    }

    // The values of `count` places from `from` on.
    pub(crate) fn run(&self, from: usize, count: usize) -> &[T]
        requires { IsRun self.now from count }
        ensures { window from count self.now ≡ map Some result.now }
    {
        self.slots.run(from, count)
    }

    // The same, to write to.
    pub(crate) fn run_mut(&mut self, from: usize, count: usize) -> &mut [T]
        requires { IsRun self.old from count }
        ensures* writes_back { sem 𝓛 (LendsPlaces T.row self.entry from count result) }
        ensures values { window from count self.old ≡ map Some result.now }
    {
        self.slots.run_mut(from, count)
    }

    // Puts a value into an empty place.
    pub(crate) fn write(&mut self, place: usize, value: T)
        requires within { place < length self.old }
        requires empty { slice_index_or self.old place None ≡ None }
        ensures { self.new ≡ slice_set self.old place (Some value) }
    {
        self.slots.write(place, value);
    }

    // Takes the value out of a place, which is empty from then on.
    pub(crate) fn read(&mut self, place: usize) -> T
        requires { IsSome (slice_index_or self.old place None) }
        ensures value { slice_index_or self.old place None ≡ Some result }
        ensures places { self.new ≡ slice_set self.old place None }
    {
        self.slots.read(place)
    }
}
