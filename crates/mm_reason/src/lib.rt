//! Why a request was refused, in a line of words: what stands where in a line that is no command, and which name, column,
//! value, row or limit it was of one that is. Also the plan of a select in words.
//!
//! ```text
//!  line that is no command ──▶ mm_syntax: the symbol where the parser stops, and what may stand there
//!  command                 ──▶ mm_resolver tells what is to blame ──▶ blamed, by declaring, joins, values and blocks
//!  rows                    ──▶ rows: which key, which reference; referrers: who names the row
//!  statement with values   ──▶ filled: the command that it is ──▶ as above ──▶ statements: the column of the value's question mark
//!  plan of a select        ──▶ plans: a line for each of its steps
//! ```
//!
//! It is asked after a refusal, which has changed nothing: so what is found out costs nothing where nobody asks. What a command
//! means it doesn't work out itself: the resolver resolves the line once more and tells what of it is to blame. It takes the
//! tables by a shared reference. What it tells is tested, and its contracts say nothing of it.
//!
//! - Columns of a line count its characters from 1.
//! - Texts are cut where they are shown.
#![tactic(auto)]

mod answered;
mod blamed;
mod blocks;
mod declaring;
mod fault;
mod filled;
mod joins;
mod parts;
mod plans;
mod reasons;
mod referrers;
mod rows;
mod statements;
mod tables;
mod told;
mod values;

pub use answered::refusal_of;
pub use fault::ReasonFault;
pub use plans::plan_words;
pub use reasons::reason;
pub use statements::{prepare_reason, statement_reason};
