//! References between rows: the cells of the values that name rows, the links that rows have, and how many links name each
//! row.

pub mod cells;
pub mod counting;
pub mod link;
pub mod named;
