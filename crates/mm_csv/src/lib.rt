//! Rows as CSV: fields between commas, each record ended by a line feed, a field quoted only where it must be.
//!
//! `RecordWriter` writes one record at a time, from values that it borrows; `block_of` writes a header and all rows. Both
//! write straight to where the record goes. The quoting is the library's, by its default settings: a field that stands
//! between quotes goes through its writer, and what is stated of that is joined to the definition of a record.
//!
//! `rows_of` reads a block under a layout of its columns: a header and rows, or the first record that is no row. The records
//! are those that the library states.
//!
//! It doesn't care which rows they are, nor where the bytes go. A writer that has failed fails from then on.
#![tactic(auto)]

mod block;
mod csv_refusal;
mod ending;
mod ends;
mod field;
mod fields;
mod front;
mod full_name;
pub mod laws;
mod numbers;
mod output;
mod plain;
mod quotes;
mod record_writer;
mod rows;
mod sink;
mod values;

pub use block::block_of;
pub use csv_refusal::CsvRefusal;
pub use field::Field;
pub use full_name::FullName;
pub use record_writer::RecordWriter;
pub use rows::rows_of;
pub use sink::ByteSink;
