//! Calls of a session on a page, of which it is told what they answer.

use crate::pages::Page;
use mm_session::{Answer, NotOneRequest, Session, SessionFault};
use plain_tables::NoMemory;
use plan_chooser::Policy;
use std::alloc::Global;

/// A session with no tables.
pub fn opened(alloc: Global) -> Result<Session, NoMemory> {
    Session::new(alloc, Policy::Auto)
}

pub fn feeds(session: &mut Session, piece: &str, page: &mut Page) -> Result<(), SessionFault> {
    session.feed(piece.as_bytes(), page)
}

pub fn finishes(session: Session, page: &mut Page) -> Result<(), SessionFault> {
    session.finish(page)
}

pub fn answers(
    session: &mut Session,
    line: &str,
    block: &str,
    answer: &mut Answer,
) -> Result<(), NotOneRequest> {
    session.answer_request(line.as_bytes(), block.as_bytes(), answer)
}
