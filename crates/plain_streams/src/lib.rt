//! Streams of bytes: the requests that they are, what those are answered, and the laws of it. Definitions and laws alone.
//!
//! ```text
//!  bytes ──▶ requests: a line, and the block that it asks for ──▶ effects on plain tables ──▶ answers
//! ```
#![tactic(auto)]

pub mod laws;
