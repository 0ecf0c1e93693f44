//! Databases with statements: a session, and the statements that are kept of its tables, each under its number.
//!
//! ```text
//!  line with ? ──▶ statement ──▶ number: line, values bound by place, and what it means of the tables
//!                                   │
//!                                   ▼
//!                   the resolved command that these values make of it ──▶ its effect, or a refusal
//! ```
//!
//! It does not care how a line is read as a statement, nor how a statement is resolved: mm_lang and mm_catalog say that. Nor does it care
//! how values are kept and filled in, how a resolved command is done, and how a session is shared, which mm_prepared, mm_session and
//! mm_shared say. It promises that an execution does and answers what the command with these values does.
//!
//! - A number names one statement from the call that gives it to the one that frees it.
//! - A statement has as many values as holes, each null until one is bound, and it stays until another is.
//! - What is known of a statement's meaning is right by names and columns that are noted beside it. Where those of the tables may have
//!   changed, they are compared when a statement is executed next. Only if they differ it is worked out anew from the line.
//! - What is declined changes nothing.
//! - Several databases may share a session. Each reads its tables by statements of its own, and none changes them while another is there.
//!   A database that shares none has it for itself, and is never declined because of others.
//! - In a transaction all is done that is done outside, by statements, lines, queries and pieces of the stream. Only sharing and
//!   leaving are declined there, and cursors.
//! - A cursor has the rows of a select that are still to be read. It shares the session, so the tables are as they were when it was opened.
#![tactic(auto)]

mod columns;
mod counting;
mod cursor;
mod database;
mod faults;
pub mod laws;
mod many;
mod planning;
mod querying;
mod reading;
mod resolving;

pub use cursor::Cursor;
pub use database::{Database, Executed, Numbered, PreparedLine};
pub use faults::{CursorFault, ExecuteFault, PrepareFault, QueryFault, ShareFault};
pub use mm_prepared::{Bound, Declined, LentValue, Prepared, Statements, finish};
pub use mm_shared::{BeginFault, RequestFault, StreamFault};
pub use mm_transactions::NoTransaction;
pub use planning::PlannedSelect;
