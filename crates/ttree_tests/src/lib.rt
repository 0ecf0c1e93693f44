//! What no contract of the T-tree says: the shapes of its trees, and that the compiled code does as the contracts say.
//! The tests call the public functions alone. They stand in a crate of their own, since a crate with tests is proved
//! twice.
#![tactic(auto)]

#[cfg(test)]
mod built;
#[cfg(test)]
mod held;
#[cfg(test)]
mod keys;
#[cfg(test)]
mod shapes;
#[cfg(test)]
mod toggles;
