//! In words why a line is no command, or no statement: the symbol where the parser stops, what may stand there, and what may help.
//! It knows no tables. Names near to others, and how names, values and symbols are shown, serve the reasons that do.
//!
//! ```text
//!  where the parser stops ──▶ syntax: the symbol that stands there, and what may
//!                         ──▶ advice: what may help, by hints, beside and nearest
//! ```
//!
//! Columns of a line count its characters from 1. What it tells is tested, and its contracts say nothing of it.
#![tactic(auto)]

mod advice;
mod beside;
mod columns;
mod hints;
mod nearest;
mod shown;
mod syntax;
mod unfit;

pub use columns::column_of_hole;
pub use nearest::Nearest;
pub use shown::{Cut, Shown};
pub use syntax::why_stopped;
