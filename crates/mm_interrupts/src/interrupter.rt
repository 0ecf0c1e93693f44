//! Who asks searches to end, and how these see it.

ghost use Rattle.std.specs.Prelude.{◌≡◌, IsOk, None};

use no_memory::NoMemory;
use std::alloc::Global;
use std::sync::Arc;
use std::sync::atomic::{AtomicBool, Ordering};
use thiserror::Error;

/// A search was asked to end.
#[derive(Clone, Copy, Debug, PartialEq, Eq, Error)]
#[error("interrupted")]
pub struct Interrupted;

/// What asks searches to end. Several may share a word, which lives until the last of them is gone. It is seen as nothing: whether
/// searches were asked to end, and whether one sees it, no contract says.
#[derive(Drop)]
pub struct Interrupter {
    asked: Arc<AtomicBool, Global>,
}

impl Interrupter {
    /// An interrupter with a word of its own.
    pub fn new(alloc: Global) -> Result<Interrupter, NoMemory> {
        let asked = Arc::new(alloc, AtomicBool::new(false))?;
        Ok(Interrupter { asked })
    }

    /// One more with the same word. It is refused only past 2^63 of them.
    pub fn another(&self) -> Result<Interrupter, NoMemory> {
        let asked = Arc::try_clone(&self.asked)?;
        Ok(Interrupter { asked })
    }

    /// Asks the search that is under way to end. It takes no memory and waits for nothing.
    pub fn interrupt(&self) {
        self.asked.store(true, Ordering::SeqCst);
    }

    /// Begins a search: nobody asked it to end yet.
    pub fn begin(&self) -> Interrupts<'_> {
        self.asked.store(false, Ordering::SeqCst);
        Interrupts {
            asked: Some(&self.asked),
        }
    }
}

/// Where a search sees whether it is asked to end.
#[derive(Clone, Copy)]
pub struct Interrupts<'i> {
    asked: Option<&'i AtomicBool>,
}

impl<'i> Interrupts<'i> {
    /// Nobody asks.
    pub fn none() -> Interrupts<'i>
        ensures { result.asked ≡ None }
    {
        Interrupts { asked: None }
    }

    /// Whether the search is asked to end: never where nobody asks.
    #[inline(always)]
    pub fn check(&self) -> Result<(), Interrupted>
        ensures { self.now.asked ≡ None → IsOk result }
    {
        match self.asked {
            Some(asked) if asked.load(Ordering::SeqCst) => Err(Interrupted),
            _ => Ok(()),
        }
    }
}
