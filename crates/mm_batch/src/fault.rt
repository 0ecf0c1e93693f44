//! Why a source can't be read.

use crate::quotes::OddQuotes;
use plain_tables::{LONGEST_BLOCK, NoMemory};
use std::io;
use thiserror::Error;

/// Why a source gives no more bytes.
#[derive(Clone, Copy, Debug, PartialEq, Eq, Error)]
pub enum SourceFault {
    #[error("no such file")]
    Missing,
    #[error("it is a folder")]
    Folder,
    #[error("it may not be read")]
    Forbidden,
    /// Opening it or reading it failed otherwise.
    #[error("read fault")]
    Unreadable,
    /// A CSV file is longer than the block of a load may be.
    #[error("it has more than {LONGEST_BLOCK} bytes, the most that one load takes")]
    TooLong,
    #[error("no memory was found for its bytes")]
    NoMemory,
    /// A CSV file that is to be loaded strictly has a field with odd quote marks.
    #[error("{0}")]
    OddQuotes(OddQuotes),
}

impl From<io::Error> for SourceFault {
    fn from(error: io::Error) -> SourceFault {
        match error.kind() {
            io::ErrorKind::NotFound | io::ErrorKind::NotADirectory => SourceFault::Missing,
            io::ErrorKind::IsADirectory => SourceFault::Folder,
            io::ErrorKind::PermissionDenied => SourceFault::Forbidden,
            io::ErrorKind::OutOfMemory => SourceFault::NoMemory,
            _ => SourceFault::Unreadable,
        }
    }
}

impl From<NoMemory> for SourceFault {
    fn from(_: NoMemory) -> SourceFault {
        SourceFault::NoMemory
    }
}
