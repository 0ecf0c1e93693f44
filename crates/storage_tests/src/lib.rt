//! What no contract of the storage crates says: what a store frees and drops, and that the compiled code does as the
//! contracts say. The tests call the public functions alone. They stand in a crate of their own, since a crate with
//! tests is proved twice.
#![tactic(auto)]

#[cfg(test)]
mod hashes;
#[cfg(test)]
mod linked_nodes;
#[cfg(test)]
mod partitions;
