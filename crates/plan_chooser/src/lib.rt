//! Which plan finds the rows that a command asks for.
//!
//! It reads what indexes are declared and how many rows there are, and no row. It does not care how a plan is carried out:
//! a plan is one value, and every plan of a command finds the same rows.
//!
//! - A plan is just what the tables of the policies say (`specs/Choosing.antt`).
//! - A plan that is chosen can be carried out: the indexes and links that it needs are there (`specs/Plans.antt`).
//! - No choice takes memory.
#![tactic(auto)]

mod joins;
mod plans;
mod policy;
mod selects;

pub use joins::{choose_join, choose_next_join};
pub use plans::{JoinInput, JoinPlan, NextJoinPlan, SelectPlan};
pub use policy::{POLICY_NAMES, Policy};
pub use selects::choose_select;
