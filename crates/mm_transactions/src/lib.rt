//! Transactions over a catalog: begin, commit and rollback, one in another as deep as wanted.
//!
//! ```text
//!  catalog    the tables as they are
//!  log        steps   emp: 2 rows came │ dept: 1 row updated │ emp: 2 rows went │ emp dropped     the oldest first
//!             refs    7 8              │ 3                   │ 7 8              │
//!             cells                    │ 'Sales'             │                  │                 what stood in them
//!             marks   0                                      2                                    where each open transaction begins
//! ```
//!
//! A rollback takes the steps back to the innermost mark, the newest first. Nothing is copied when a transaction begins. It knows
//! no names and makes no checks: the catalog does the changes, and says of each which rows came. Rows that went are hidden
//! there, and keep their references, until the outermost transaction ends. Where values were assigned, the log keeps the
//! cells that the rows had. Where a table or an index was declared, a step has no rows. Where one was dropped, it keeps that
//! whole, and the memory that it takes to put it back. Before a table is dropped, its rows go as in a delete.
//!
//! - Each open transaction can be rolled back to just the database that it began with, without memory.
//! - Outside a transaction nothing is noted.
//! - All that changes a database is noted: rows come, go and are updated, and tables and indexes are declared and dropped.
//! - A commit of the outermost transaction drops what is hidden, the cells that rows had, and dropped tables and indexes.
//! - A step's number of a table is the one that it had then, and serves only as steps are undone.
#![tactic(auto)]

mod lodged;
mod log;
mod no_transaction;
mod step;
mod transactional;

pub use no_transaction::NoTransaction;
pub use transactional::TransactionalCatalog;
