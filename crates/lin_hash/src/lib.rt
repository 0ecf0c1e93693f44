//! Modified linear hashing: a hash index whose buckets grow and shrink one at a time.
//!
//! The index holds references to tuples under the hashes of their keys, and no keys. It is linear hashing after Litwin
//! (VLDB 1980) in the form for main memory of Lehman and Carey (VLDB 1986). A bucket is a chain of nodes with one entry
//! each, and the table has a bucket more or less by how many entries there are.
//!
//! It does not care which key a hash is of, whether two keys share one, nor what a reference leads to: who looks up
//! compares the keys. It computes no hash, and promises nothing of a chain's length or order.
//!
//! What always holds:
//! - Each entry stands in the bucket of its hash, by the level and the mark (`table`).
//! - There are at least four buckets, and at most twice as many entries as buckets (`index`).
//! - Each node stands in one bucket once (`chains`), and the nodes fill the places of their blocks from the first on (`nodes`, `blocks`).
#![tactic(auto)]

mod address;
mod block;
mod blocks;
mod chain;
mod chains;
mod copying;
mod growing;
mod index;
mod node;
mod nodes;
mod row_block;
mod row_chain;
mod row_chains;
mod row_hash;
mod row_node;
mod row_nodes;
mod row_table;
mod shape;
mod table;

pub use chain::Chain;
pub use index::LinHash;
pub use row_chain::RowChain;
pub use row_hash::RowHash;
pub use shape::HashShape;
