//! Statements: commands on rows in which holes may stand for values. Their meaning: definitions and laws, and what a value has to be.
//!
//! ```text
//!  line with ? ──▶ statement ──▶ the command with these values in its holes ──▶ its effect on plain tables
//!                      └──────▶ resolution: what is left to be checked of values, and what is done then
//! ```
//!
//! A statement with values does and answers just what the command does that has these values in the place of the holes
//! (`specs/Executing.antt`). The line that spells it is a line of that command once literals are written for its question marks
//! (`specs/StatementSpelling.antt`). Nothing here says how a line is read or how a statement is resolved: the contracts of the
//! crates above say it, in these words.
#![tactic(auto)]

pub mod laws;
mod resolution;
mod statement;

pub use resolution::{
    Need, Resolution, SlotAssignment, SlotJoined, SlotQuery, SlotSource, SlotTest, Template, Want,
};
pub use statement::{Slot, SlotCond, SlotSetting, Statement};
