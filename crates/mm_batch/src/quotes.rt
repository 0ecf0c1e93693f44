//! Quote marks of a CSV that are read otherwise than they were meant.
//!
//! A field is quoted if a mark is its first byte. It holds all bytes up to the next mark that isn't doubled. If none comes, it holds the
//! rest of the CSV. What stands between that mark and the end of the field is read as a part of it.

use std::fmt;

const BYTE_ORDER_MARK: &[u8] = b"\xef\xbb\xbf";

/// A field whose quote marks are odd.
#[derive(Clone, Copy, Debug, PartialEq, Eq)]
pub struct OddQuotes {
    /// The number of its record, which is 0 for that of the names.
    pub record: u64,
    /// Whether no mark closes the field. Else text stands behind the closing mark.
    pub is_open: bool,
}

impl fmt::Display for OddQuotes {
    fn fmt<W: fmt::Write>(&self, f: &mut fmt::Formatter<W>) -> fmt::Result {
        match self.record {
            0 => f.write_str("the record of names")?,
            record => write!(f, "record {record}")?,
        }
        f.write_str(if self.is_open {
            " has a field whose quote mark is never closed, and which holds all that follows"
        } else {
            " has a field with text behind its closing quote mark, which is read as a part of it"
        })
    }
}

// Where the reader of a CSV is.
#[derive(Clone, Copy)]
enum At {
    // At the front of a record, which has no byte so far.
    Record,
    // At the front of another field.
    Field,
    // In a field without marks.
    Plain,
    // In a field that a mark has opened.
    Quoted,
    // Behind a mark in such a field. It closes the field unless another mark follows.
    Closed,
}

// A reader of a CSV, and the number of the record where it is.
#[derive(Drop)]
struct Reader {
    at: At,
    record: u64,
}

impl Reader {
    // Where it is behind a byte. None where that is text behind a closing mark.
    fn behind(&mut self, byte: u8) -> Option<At> {
        Some(match (self.at, byte) {
            (At::Record | At::Field | At::Closed, b'"') => At::Quoted,
            (At::Quoted, b'"') => At::Closed,
            (At::Quoted, _) => At::Quoted,
            (_, b',') => At::Field,
            (At::Record, b'\r' | b'\n') => At::Record,
            (_, b'\r' | b'\n') => {
                self.record = self.record.saturating_add(1);
                At::Record
            }
            (At::Closed, _) => return None,
            _ => At::Plain,
        })
    }
}

/// The first field of a CSV whose quote marks are odd.
pub fn odd_quotes(csv: &[u8]) -> Option<OddQuotes> {
    let mut reader = Reader {
        at: At::Record,
        record: 0,
    };
    for byte in csv.strip_prefix(BYTE_ORDER_MARK).unwrap_or(csv) {
        match reader.behind(*byte) {
            Some(at) => reader.at = at,
            None => {
                return Some(OddQuotes {
                    record: reader.record,
                    is_open: false,
                });
            }
        }
    }
    if reader.at != At::Quoted {
        return None;
    }
    Some(OddQuotes {
        record: reader.record,
        is_open: true,
    })
}
