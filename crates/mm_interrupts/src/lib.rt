//! How a search that takes long is asked to end.
//!
//! Whoever searches asks at each row that it comes to whether to go on. It doesn't care what is searched, nor who asks for the end. The
//! one that asks, an [`Interrupter`], may be in another thread: it sets a word that both own, and waits for nothing.
#![tactic(auto)]

mod interrupter;
mod progress;

pub use interrupter::{Interrupted, Interrupter, Interrupts};
pub use progress::{Progress, ToTheEnd};
