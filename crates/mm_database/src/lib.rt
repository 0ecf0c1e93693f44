//! The database that a handle owns: a session with statements, the answers to the last call, and what each statement has shown.
//!
//! It does not care how a request is answered and how a statement is done: mm_session and mm_statements say that, and mm_reason finds the
//! words of reasons and plans. Nor does it care how C holds a database, and by which status C is told: that is mmdb_c.
//!
//! - The answer to a call is kept until the next call that changes it. Where a call is refused, the refusal is the answer.
//! - What a statement has shown stays where it lies, and as it is, until that statement is executed again, asked for its first rows, or
//!   freed. So do the columns last asked for, and what the line last queried has shown.
//! - What is told of rows are the places of their cells and texts, and how many they are (`Rows`).
//! - A call that asks for a reason changes only the reason.
//! - A cursor keeps the cells of the rows that it read last. A mark of a save and a dump that is taken in stand beside the database.
#![tactic(auto)]

mod cloning;
mod counts;
mod cursors;
mod database;
mod firsts;
mod given;
mod many;
mod plans;
mod reasons;
mod restoring;
mod rows;
mod saves;
mod sharing;
mod statements;
mod transactions;
mod versions;

pub use cursors::{OpenCursor, Unopened};
pub use database::OpenDatabase;
pub use many::UnexecutedMany;
pub use reasons::Unexplained;
pub use restoring::OpenRestore;
pub use rows::Rows;
pub use saves::{SaveMark, Unsaved};
pub use statements::{Statement, Unexecuted, Unprepared};
