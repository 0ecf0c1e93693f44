//! Prepared statements, each under its number: the values that are bound to its holes, and the commands that it is filled to.
//!
//! ```text
//!  number ──▶ line, values bound by place, what it means of the tables ──▶ the resolved command that these values make of it
//! ```
//!
//! It knows no tables and no session: mm_statements works out what a statement means, and does the commands. It promises that a
//! number names what was kept under it, and that a filled command is what the definitions make of the template and the values.
//!
//! - A number names one statement from the call that gives it to the one that frees it.
//! - A statement has as many values as holes, each null until one is bound, and it stays until another is.
//! - A filled command takes the room of the one before it, so that an execution takes no memory for it.
//! - What is declined changes nothing.
#![tactic(auto)]

mod bound;
mod commands;
mod declaring;
mod declined;
mod filling;
mod finishing;
mod kept;
mod lent;
mod lent_value;
mod many;

pub use bound::Bound;
pub use commands::Commands;
pub use declaring::may_declare;
pub use declined::Declined;
pub use finishing::finish;
pub use kept::{Prepared, Statements};
pub use lent::{Lent, lend};
pub use lent_value::LentValue;
pub use many::{check_each, in_record, rows_of_insert};
