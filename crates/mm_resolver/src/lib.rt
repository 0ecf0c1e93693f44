//! From names to numbers: what a command, or a statement with holes for values, means of the tables that there are.
//!
//! ```text
//!  names     select emp.id from emp join dept on emp.dept = dept.id where dept.name = 'toys'
//!  numbers   source 0: table 1, column 0    source 1: table 0, the test column 1 = 'toys'    joined: 0.2 = 1.0
//! ```
//!
//! It knows the names, the columns and the declared indexes of tables, and no row of one. What knows them is a `Schemas`:
//! each call says by the definitions of plain_tables and plain_statements what is meant of the database that it is seen as,
//! or why it is refused.
//!
//! It does not care how tables keep their rows and indexes, how a command is spelled, nor what it answers.
#![tactic(auto)]

mod checks;
mod commands;
mod culprit;
mod late;
mod load;
mod named_table;
mod names;
mod repeats;
mod rows;
mod schemas;
mod scope;
mod selected;
mod slots;
mod slotted;
mod statements;
mod types;
mod wanted;
mod witness;

pub use checks::{MOST_COLUMNS, MOST_CONDITIONS, MOST_ITEMS, MOST_JOINS, MOST_TABLES};
pub use commands::resolve;
pub use culprit::Culprit;
pub use schemas::Schemas;
pub use statements::resolve_statement;
pub use types::{referred, type_of};
pub use witness::{command_culprit, statement_culprit};
