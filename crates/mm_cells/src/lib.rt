//! Values as a program reads them: a cell of 16 bytes each, and the bytes of their texts one behind the other.
//!
//! It doesn't care which values they are, nor how many stand in a row. What is put in is read back, and stays so while more comes.
#![tactic(auto)]

mod cells;
mod fault;
mod progress;

pub use cells::{Cells, INTEGER, NULL, ResultCell, TEXT};
pub use fault::CellFault;
