//! The types and the definitions that the crates of the language and the tables speak of.
//!
//! The types are what a command line can say: values, columns, conditions, commands, refusals. The definitions, in
//! `specs/`, are what it means: which line spells which command, what a command does to a database of plain tables, and
//! which bytes answer a stream. Every promise above is stated by these words, and by no others. The laws of the
//! definitions are contracts of functions that do nothing (`laws`, `command_laws`, `query_laws`,
//! `resolved_laws`, `spelling_laws`, `transaction_laws`, `written_laws`).
//!
//! Nothing here cares how rows are kept, which index finds them, how a line is read, or how a stream is cut in pieces.
//!
//! - A text or a name is seen as its bytes (`Text`), a list as its items (`Sequence`); so a definition takes the very
//!   command that a parser gives.
//! - The order of values is total, and values that compare alike are one; equal values have equal hashes.
//! - A refusal has one number, one text, and a record's number where it comes out of a block.
#![tactic(auto)]

mod command;
pub mod command_laws;
mod condition;
mod digits;
mod hash;
pub mod laws;
mod numbers;
pub mod query_laws;
mod refusal;
mod resolved;
pub mod resolved_laws;
mod row_list;
mod schema;
mod seen_value;
mod sequence;
mod short_text;
mod sought_value;
pub mod spelling_laws;
mod stored_value;
mod text;
pub mod transaction_laws;
mod value;
pub mod written_laws;

pub use command::{Command, Items, Join, JoinSide, LONGEST_BLOCK, Limits, MOST_ROWS, Setting};
pub use condition::{ColName, Cond, Op};
pub use digits::{integer, magnitude};
pub use hash::{hash_of, hash_of_sought, low_bits};
pub use no_memory::NoMemory;
pub use numbers::{ColumnNumber, Place, TableNumber};
pub use refusal::Refusal;
pub use resolved::{Assignment, Joined, Query, Resolved, Shown, Source, Test};
pub use row_list::{RowList, RowParts};
pub use schema::{BaseKind, ColKind, Column, IndexKind, Schema};
pub use seen_value::SeenValue;
pub use sequence::Sequence;
pub use sought_value::SoughtValue;
pub use stored_value::StoredValue;
pub use text::{LONGEST_TEXT, Text};
pub use value::Value;
