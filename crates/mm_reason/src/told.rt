//! What a search for a reason gives.

use crate::fault::ReasonFault;
use no_memory::NoMemory;
use std::alloc::AllocError;

/// The words of a reason.
#[derive(Drop)]
pub struct Told {
    pub words: String,
    /// The number of the value that they are about, where it is one of the command's own, as a `Culprit` counts them.
    pub value: Option<usize>,
}

impl Told {
    /// Words that are about no value of the command.
    pub fn of(words: String) -> Told {
        Told { words, value: None }
    }

    /// The words, which are about the value of a number.
    pub fn about(mut self, number: usize) -> Told {
        self.value = Some(number);
        self
    }
}

/// The words of a reason, where it can be told.
pub type Reason = Result<Option<Told>, ReasonFault>;

/// Words, where there was memory for them.
pub fn words(formatted: Result<String, AllocError>) -> Result<String, NoMemory> {
    Ok(formatted?)
}

/// The reason of these words.
pub fn tell(formatted: Result<String, AllocError>) -> Reason {
    Ok(Some(Told::of(words(formatted)?)))
}

/// The reason, which is about the value of a number.
pub fn about(reason: Reason, number: usize) -> Reason {
    match reason? {
        Some(told) => Ok(Some(told.about(number))),
        None => Ok(None),
    }
}
