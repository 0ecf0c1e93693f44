//! Indexes that hold references and no keys: the traits behind which a table keeps its indexes, and a plain form of each.
//!
//! An index reads no tuple. Whatever compares tuples, an order or a probe, is handed in with the call that needs it, and a
//! hash is a number that the caller made. So an index doesn't care what a key is, whether two rows have the same, or into
//! which store its references lead. When a tuple changes, the caller takes its reference out by the order before the change,
//! and puts it in by the order after.
//!
//! - An ordered index is a list of references that rises by the order handed in; a hash index is a bag of pairs of a hash
//!   and a reference. That is all that contracts see of one, beside its room.
//! - `room` inserts are sure of their memory: `reserve` and what appends to a caller's vector take memory, and nothing
//!   else does.
//! - A search changes nothing but its probe's count.
//!
//! The plain forms keep what they hold in one vector. They are what an index is compared with, and not made to be fast.
//! The laws of `specs/` on which a table rests are contracts of functions that do nothing (`laws`).
#![tactic(auto)]

mod exact_index;
pub mod laws;
mod order_probe;
mod ordered_index;
mod plain_bag;
mod probe;
mod search;
mod sorted_vec;
mod tuple_order;

pub use exact_index::ExactIndex;
pub use order_probe::OrderProbe;
pub use ordered_index::OrderedIndex;
pub use plain_bag::{Chain, PlainBag};
pub use probe::Probe;
pub use sorted_vec::{SortedVec, Walk};
pub use tuple_order::TupleOrder;

/// How many references an index can be asked to hold at most: 2^32.
pub const MAX_LEN: usize = 4_294_967_296;
