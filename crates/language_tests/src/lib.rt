//! What no contract of plain_tables, mm_lang and mm_csv says: worked spellings, statements, blocks and hashes, and that calls find
//! memory. The tests call the public functions alone. They stand in a crate of their own, since a crate with tests is
//! proved twice.
#![tactic(auto)]

#[cfg(test)]
mod blocks;
#[cfg(test)]
mod hashes;
#[cfg(test)]
mod spellings;
#[cfg(test)]
mod statements;
#[cfg(test)]
mod stops;
