//! The tests of mm_relation that no statement of the language can make, by its public calls alone. They stand in a crate of
//! its own, since a crate with tests is proved twice.
#![tactic(auto)]

#[cfg(test)]
mod searches;
