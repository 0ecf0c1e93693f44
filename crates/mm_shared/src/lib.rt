//! A session that databases share, and the names and columns that are noted of its tables.
//!
//! ```text
//!  database ──▶ own session                      database ──┐
//!                                                database ──┴──▶ one session, counted
//! ```
//!
//! - A session that isn't shared is its owner's alone, and does all that a session does.
//! - A session that is shared is read by each of its owners, and changed by none of them, until only one is left.
//! - What is noted of tables is their names and columns. Each is current, or in doubt: then it is compared with the tables before it is
//!   relied on.
//!
//! It does not care what the owners keep beside the session, nor why they note something.
#![tactic(auto)]

mod faults;
mod noted;
mod shared;

pub use faults::{BeginFault, ChangeFault, RequestFault, StreamFault};
pub use noted::{NotedTable, NotedTables};
pub use shared::SharedSession;
