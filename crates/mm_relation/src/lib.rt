//! The rows of one table, under the T-tree of its key and every declared index, which hold references and no keys.
//!
//! ```text
//!  by_key, indexes                rows                                   another table
//!  references in an order,  ──▶  slot: key, cells, referrers  ──link──▶  slot: its key is the value
//!  or under a hash
//! ```
//!
//! It does not care what its table is called, which command changes it, or whether its links are held where they lead. It
//! reads other tables through one map from references to keys, and says what it needs of that map.
//!
//! - No two rows have one key, and the key's tree has each row once, in the order of the keys.
//! - Under the keys that links lead to, each declared tree has each row once in its column's order, and each declared hash
//!   each row under the hash of its value. A call asks this and ensures it again.
//! - A call that runs out of memory does so before the first change.
//! - Once a row was taken out, no tree has more spare nodes than nodes in use, but for a few, where no rows are owed.
//! - A row that is owed can come back as it was, with no memory.
#![tactic(auto)]

mod building;
mod change;
mod copying;
mod declare;
mod in_key_order;
mod index;
mod indexes;
mod keyed;
pub mod laws;
mod linked_keys;
mod numbers;
mod order;
mod owing;
mod parts;
mod pause;
mod probe;
mod referring;
mod refusal;
mod relation;
mod relations;
mod reserving;
mod row;
mod rows;
mod slot_set;
mod sorted_rows;
mod spares;
mod stored_cell;
mod taken;
mod tree;
mod version;
mod view;
mod warming;

pub use copying::copy_columns;
pub use in_key_order::LEAST_IN_ORDER;
pub use lin_hash::{HashShape, RowChain};
pub use linked_keys::LinkedKeys;
pub use mm_index::Probe;
pub use numbers::DeclaredIndex;
pub use part_raw::TupleRef;
pub use pause::Pause;
pub use plain_tables::{ColumnNumber, TableNumber};
pub use probe::KeyProbe;
pub use refusal::RowRefusal;
pub use relation::Relation;
pub use relations::Relations;
pub use row::Cell;
pub use slot_set::SlotSet;
pub use stored_cell::StoredCell;
pub use taken::DroppedIndex;
pub use tree::Walk;
pub use ttree::{ABREAST, LEAST_ITEMS, MOST_ITEMS, TreeShape};
pub use view::RowView;
pub use warming::{Way, Ways, number_of};
