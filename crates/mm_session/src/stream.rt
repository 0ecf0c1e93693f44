//! From pieces of bytes to requests, and from answers to bytes that are written.

pub mod kept;
pub mod lines;
pub mod outlet;
pub mod pending_block;
pub mod responder;
pub mod whole_run;
pub mod writing;
