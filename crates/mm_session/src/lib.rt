//! Streams of requests, answered: the one crate through which bytes come in and go out.
//!
//! ```text
//!  pieces of bytes ──▶ requests ──▶ command ──▶ effect on the tables ──▶ answer ──▶ bytes
//!   session             stream:      execute:    execute: search, query,   answer:    stream:
//!   stream: whole_run   responder,   respond,    select, listing, blocks   records    writing
//!    outlet             lines, kept, reads and   and mm_catalog            and mm_csv
//!                       pending_block parse
//! ```
//!
//! It doesn't care how a line spells its command, how a record is quoted, nor how tables are kept and what a command may do
//! to them: mm_lang, mm_csv and mm_catalog say that. It promises that the bytes answered are those of plain tables, whatever
//! the pieces.
//!
//! - What is kept between two pieces is the unfinished request and nothing else: its line in a buffer that never grows, and its
//!   block in memory that is asked for once, when the line has ended. A block that cannot be kept is counted down.
//! - A command is done whole or not at all: a refused change leaves all as it was, and the answer to one that is done needs no memory.
//! - A whole run reads only while the outlet of its answers holds nothing back.
//! - An answer is whole before its first byte is written, so that a refusal can still stand in its place.
//! - A session that met a write fault has ended, and writes nothing more.
//! - A request can be asked by itself, with its answer in a buffer of the caller's. It leaves the stream where it is. One that changes
//!   no tables can be asked where these are only lent.
//! - So can a resolved command be done, without a line and an answer: it tells how many rows it changed, or puts the values that it
//!   shows, or what tells their columns, into cells of the caller's. Or the rows of a select are counted, and none is kept; or they are
//!   found, kept as references, and shown page by page.
#![tactic(auto)]

mod answer;
mod execute;
mod fault;
mod found_rows;
pub mod laws;
mod restore;
mod room;
mod saving;
mod session;
mod stream;

pub use answer::Answer;
pub use execute::search::rows_passing;
pub use execute::told::{NextJoin, ToldPlan, Way};
pub use fault::{CountFault, NotOneRequest, ReadFault, RunFault, SelectFault, SessionFault};
pub use found_rows::FoundRows;
pub use restore::{Restore, RestoreFault};
pub use room::SelectRoom;
pub use saving::{SaveFault, SavePlace};
pub use session::Session;
pub use stream::lines::{Judged, LONGEST_LINE, judge_line, split_line};
pub use stream::outlet::{Outlet, PromptRead};
pub use stream::whole_run::{run, run_promptly};
pub use stream::writing::WriteFault;
