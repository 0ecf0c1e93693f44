//! A store of tuples that do not move, each named by a reference: a partition and a slot in it. A tuple is a run of
//! cells, as many as the store was made for, with a count beside them, where the store keeps counts.
//!
//! A store is a finite map from references to tuples, with a number of free slots. It does not care what a cell is,
//! which cell is a key, or in what order tuples are looked for: it gives out a reference for a tuple, and the tuple
//! for the reference.
//!
//! ```text
//! Partitions<T>, for tuples of three cells
//!   blocks       ──▶ ┌ Block ┐ ┌ Block ┐ ..  8 bytes each, all that `get` reads
//!                    └───┼───┘ └───┼───┘
//!                        └──▶ ┌──────┬──────┬──────┬──────┬──────┬──────┬─ .. ─┐
//!                             │ cell │ cell │ cell │ cell │ cell │ cell │      │  one block of memory, 256 slots,
//!                             └──────┴──────┴──────┴──────┴──────┴──────┴─ .. ─┘  each as long as three cells
//!                              slot 0               slot 1
//!   counts       ──▶ ┌ Counts ┐ ┌ Counts ┐ ..  16 bytes each where counts are kept, and else none
//!                    └───┼────┘ └───┼────┘
//!                        └──▶ 256 numbers, one for each slot
//!   occupancies  ──▶ ┌ Occupancy ──────┐ ┌ Occupancy ──────┐ ..
//!                    │ held: 256 bits  │ │                 │   which slots of the block hold a tuple
//!                    │ next_open ──────┼─┼─▶ ..            │   the next partition with a free slot
//!                    │ has_block       │ │                 │   whether the partition has its block
//!                    └─────────────────┘ └─────────────────┘
//!   first_open       the first partition with a free slot
//!   slots            how many slots the partitions with a block have
//!   free             how many of them are free
//! ```
//!
//! What always holds:
//! - Where the bit of a slot is set, each of its places holds a cell, and else none does. Only places that hold one are
//!   read. Making a partition writes nothing to its places.
//! - The list from `first_open` on has each partition with a free slot once, and no other.
//! - Each slot is free or holds a tuple, so `len` is told by `slots` and `free`.
//! - There are as many counts as blocks where counts are kept, and else none; then the count of each tuple is 0.
//! - A partition has its block, 256 slots and, where counts are kept, a count for each, or it has none of them.
//! - After `release_spares` each partition with a block holds a tuple, and so does the last, where there is one.
//! - A block can't be let go, nor can a cell in it: it is given back to the allocator once, and only with all its places
//!   empty.
//!
//! All that reads or writes through a pointer stands in `raw`: a few functions of a line or two.
#![tactic(auto)]

mod bitmap;
mod block;
mod copying;
mod counts;
mod partition;
mod raw;
mod row;
mod store;
mod tuple_ref;

pub use copying::TryClone;
pub use store::Partitions;
pub use tuple_ref::TupleRef;

/// How many slots a partition has.
pub const SLOTS: u32 = 256;

/// How many partitions a store has at most: all but one of those that references can name. So links of 32 bits to what
/// stands beside each tuple have two values left that name none.
pub const MAX_PARTITIONS: u32 = (1 << 24) - 1;

/// How many tuples a store has at most. One with no free slot that holds as many can't grow.
pub const MAX_TUPLES: u64 = (1 << 32) - 256;

/// The most cells of a tuple.
pub const MAX_WIDTH: usize = 65_536;
