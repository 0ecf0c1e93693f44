//! Tables by name over relations, with references between them.
//!
//! ```text
//!  names      0 dept      1 emp            the same number names both
//!  relations  dept's  ◀── emp's            links lead into relations before
//! ```
//!
//! A catalog is the one type that is seen as a database of plain tables. Each call says by the definitions of
//! plain_tables what it does to that database, and asks that its command be one of it. `Catalog::resolve` makes such a
//! command of one by names, or tells why it is refused: mm_resolver does that, of the names, the columns and the indexes.
//!
//! It does not care how a relation keeps its rows and indexes, how a command is spelled, nor what it answers.
//!
//! - There are as many names as relations, and the database is sound.
//! - A relation's links lead into the tables that its columns refer to, and it is current under the keys there.
//! - Each row's number of referrers is the number of links that name it.
//! - What finds no memory finds none before the first change.
#![tactic(auto)]

mod before;
mod by_key;
mod catalog;
mod changing_back;
mod copying;
mod create;
mod declare;
mod delete;
mod dropped_table;
mod emptying;
mod guesses;
mod hiding;
mod indexes;
mod insert;
pub mod laws;
mod load;
mod noting;
mod references;
mod removal;
mod renumbering;
mod room;
mod row_values;
mod schemas;
mod settling;
mod taking_back;
mod unindexing;
mod updating;
mod versions;

pub use catalog::Catalog;
pub use dropped_table::{DroppedTable, TableRoom};
pub use indexes::{IndexShape, TableIndex};
pub use mm_relation::copy_columns;
pub use mm_resolver::{MOST_COLUMNS, MOST_CONDITIONS, MOST_ITEMS, MOST_JOINS, MOST_TABLES};
