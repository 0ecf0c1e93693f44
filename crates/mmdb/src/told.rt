//! What standard error is told: refusals, and sources that can't be read.

use crate::words::Wish;
use mm_batch::{Origin, Refused, Source, Watch};
use mm_session::RunFault;

/// Tells of refusals.
#[derive(Clone, Copy)]
pub struct Told<'a> {
    rt: &'a HostRuntime,
    wish: &'a Wish<'a>,
}

impl<'a> Told<'a> {
    /// As the words ask for.
    pub fn new(rt: &'a HostRuntime, wish: &'a Wish<'a>) -> Told<'a> {
        Told { rt, wish }
    }
}

impl Watch for Told<'_> {
    ghost stops = { λ told. λ _. told.wish.now.stop };

    fn goes_on(&mut self, refused: &Refused<'_>) -> bool {
        let origin = self
            .wish
            .origins
            .get(refused.reader())
            .copied()
            .unwrap_or(Origin::Input);
        let (line, answer) = (refused.line(), refused.answer());
        let rt = self.rt;
        let reason = refused.reason(rt.alloc());
        let (sign, words) = match &reason {
            Some(words) => (": ", words.as_str()),
            None => ("", ""),
        };
        let _ = match origin {
            Origin::Input => eprintln!(rt; "mmdb: line {line}: {answer}{sign}{words}"),
            Origin::Commands { path } => {
                eprintln!(rt; "mmdb: {path} line {line}: {answer}{sign}{words}")
            }
            Origin::Load { path, .. } => eprintln!(rt; "mmdb: {path}: {answer}{sign}{words}"),
        };
        !self.wish.stop
    }
}

/// Names on standard error the source that could not be read, and why.
pub fn tell_read_fault(rt: &HostRuntime, source: Option<&Source<'_>>) {
    let named = source.and_then(|source| Some((source.origin().path()?, source.fault()?)));
    let _ = match named {
        Some((path, fault)) => eprintln!(rt; "mmdb: {path}: {fault}"),
        None => eprintln!(rt; "mmdb: {}", RunFault::Read),
    };
}
