//! Files of command lines and CSV files as one stream, and streams that are watched for refusals.
//!
//! ```text
//!  standard input, files, CSV files ──▶ source ──▶ joined: one stream ──┬──▶ run_promptly of mm_session
//!            load: a CSV file as a request                              └──▶ watched: request by request, by follower
//! ```
//!
//! It doesn't care what a request is answered: sessions say that. It promises that sources are read in their order, with a
//! line feed between two where one is missing. A stream that is watched is answered as any other, up to the first refusal at
//! which the watcher stops it.
//!
//! - A file is opened when the stream reaches it, and closed at its end.
//! - A CSV file is a load, whose line has the number of its bytes. Odd quote marks in it are reported, or refused.
//! - Where a refusal stands is known by following the stream beside the session, which keeps that to itself. No answer
//!   depends on it.
#![tactic(auto)]

mod fault;
mod follower;
mod joined;
mod load;
mod quotes;
mod source;
mod watched;

pub use fault::SourceFault;
pub use joined::{Joined, Parts};
pub use load::{LoadRequest, load_request};
pub use quotes::OddQuotes;
pub use source::{Origin, Source};
pub use watched::{Ending, Refused, Watch, answer_watched};
