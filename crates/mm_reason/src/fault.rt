//! Why it is not found out why a request was refused.

use no_memory::NoMemory;
use plain_tables::Refusal;

/// Why it is not found out why a request was refused.
#[derive(Clone, Copy)]
pub enum ReasonFault {
    /// A growth was refused.
    NoMemory,
}

impl From<NoMemory> for ReasonFault {
    fn from(_: NoMemory) -> ReasonFault {
        ReasonFault::NoMemory
    }
}

/// What was found, or None where that was refused for anything but memory.
pub fn unless_refused<T>(found: Result<T, Refusal>) -> Result<Option<T>, ReasonFault> {
    match found {
        Ok(found) => Ok(Some(found)),
        Err(Refusal::NoMemory) => Err(ReasonFault::NoMemory),
        Err(_) => Ok(None),
    }
}
