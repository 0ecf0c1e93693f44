//! Lists of rows of references, which say what a query found and copy no value.
//!
//! ```text
//!  sources   dept     emp          a table's number each
//!  rows      0.3      0.7          a reference into each source's table
//!            0.3      1.2
//!  columns   (1, 0)   (0, 1)       the columns shown: source and column
//! ```
//!
//! Values are read through the relations that a call is lent, when they are asked for. A list does not care which plan found
//! its rows, nor what becomes of them: its caller reads it while the relations stand as they were.
//!
//! - A list has a source, and each of its rows a reference for each source.
//! - What finds no memory leaves the list as it was.
#![tactic(auto)]

mod bounds_probe;
mod first_rows;
mod keyed;
pub mod laws;
mod list;
mod only_row;
mod paired;
mod range;
mod range_probe;
mod row;
pub mod search;
mod selecting;
mod sorting;
mod standing;

pub use first_rows::find_first_rows;
pub use keyed::KeySorter;
pub use list::TempList;
pub use only_row::{find_only_row, find_row_of_key};
pub use selecting::{find_few_rows, find_rows, find_rows_into, most_sorted, select};
pub use standing::stands;
