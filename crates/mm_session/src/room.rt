//! The room for what selects find, which is kept from one select to the next.

ghost use Rattle.mm_session.specs.Rooms.{IsBounded};

use mm_relation::TupleRef;
use std::alloc::Global;
use temp_list::KeySorter;

// The room of so many rows is kept, which is 64 KiB.
const MOST_KEPT: usize = 16_384;

/// Room for the rows that a select finds, and to put them into the order of their keys. If its owner keeps it, the next select that finds
/// no more rows by an index takes no memory for them. What a select shows doesn't depend on it.
#[derive(Drop)]
pub struct SelectRoom {
    pub(crate) rows: Vec<TupleRef>,
    pub(crate) sorter: KeySorter,
}

impl SelectRoom {
    /// Room for no rows.
    pub fn new(alloc: Global) -> SelectRoom
        ensures { IsBounded result }
    {
        SelectRoom {
            rows: Vec::new(alloc),
            sorter: KeySorter::new(alloc),
        }
    }

    /// Lets the rows go. If their room is more than 64 KiB, it is freed, and so is that to sort them.
    pub fn empty(&mut self)
        ensures { IsBounded self.new }
    {
        if self.rows.capacity() > MOST_KEPT {
            self.rows = Vec::new(*self.rows.allocator());
        } else {
            self.rows.clear();
        }
        self.sorter.empty();
    }
}
