//! Lemmas on lists, options and orders that several crates need and the standard library has not.
//!
//! There is no code here. Each file of `proofs/` has one topic, and any crate may cite it.
#![tactic(auto)]
