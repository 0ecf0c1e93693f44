//! Lists without rows that are shown alike.
//!
//! Rows of a list are shown by some of their columns, and many may show the same values. Here each list of values that occurs
//! is kept once, and the rows stand in the order of what they show. A row is found again by the hash of its values, and then
//! by the values themselves: no value is copied, and no hash decides.
#![tactic(auto)]

mod duplicates;
mod hashing;
mod known;
pub mod laws;
mod scanning;
mod shown;
mod table;
mod values;

pub use duplicates::distinct;
pub use scanning::distinct_of_table;
