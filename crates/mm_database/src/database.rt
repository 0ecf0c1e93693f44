//! A database, the answers to the last call, the values that its statements have shown, and the reason that was last asked for.

ghost use Rattle.std.specs.Prelude.{◌≡◌, ◌≤◌, ◌↔◌, IsTrue, IsErrOf, IfOk, OnOk, OnErr};
ghost use Rattle.plain_streams.specs.Division.{IsWhole};
ghost use Rattle.mm_shared.specs.declared.faults.RequestFault.TheVariants as request_fault;
ghost use Rattle.mm_shared.specs.declared.faults.StreamFault.TheVariants as stream_fault;

use mm_cells::Cells;
use mm_reason::{ReasonFault, reason, refusal_of};
use mm_session::Answer;
use mm_statements::{RequestFault, StreamFault};
use plain_tables::{Limits, NoMemory};
use plan_chooser::Policy;
use std::alloc::Global;

/// A database, the answers to the last call, the reason that was last asked for, the values that each of its statements has shown, by
/// their numbers, the columns that were last asked for, and the values that the line last queried has shown.
#[derive(Drop)]
pub struct OpenDatabase {
    pub inner: mm_statements::Database,
    pub answer: Answer,
    pub reason: Answer,
    pub shown: Vec<Cells>,
    pub columns: Cells,
    pub queried: Cells,
}

impl OpenDatabase {
    ghost use Rattle.mm_database.specs.Calls.{request, IsNew, AnswersRequest, TellsIndexes, TakesPiece, LosesStream, IsAsBefore};
    ghost use Rattle.mm_database.specs.Sharing.{IsRequestKeptOff, IsShared, LosesAnswer};

    /// A database with no tables and no statements, an empty answer and an empty reason.
    pub fn new(alloc: Global, policy: Policy, limits: Limits) -> Result<OpenDatabase, NoMemory>
        requires { limits.rows ≤ 16777216 }
        ensures { IfOk result (IsNew limits) }
    {
        Ok(OpenDatabase {
            inner: mm_statements::Database::new(alloc, policy, limits)?,
            answer: Answer::new(alloc)?,
            reason: Answer::new(alloc)?,
            shown: Vec::new(alloc),
            columns: Cells::new(alloc),
            queried: Cells::new(alloc),
        })
    }

    /// Answers the request of a line and a block, beside the stream.
    pub fn answer_request(&mut self, line: &[u8], block: &[u8]) -> Result<(), RequestFault>
        ensures ok { OnOk result (AnswersRequest (request line.now block.now) self.old self.new) }
        ensures err { IsErrOf result request_fault.NotOneRequest → ¬ (IsWhole (request line.now block.now)) }
        ensures kept_off { IsErrOf result request_fault.Shared → IsRequestKeptOff (request line.now block.now) self.old }
        ensures unchanged { OnErr result (self.new ≡ self.old) }
    {
        self.inner.answer_request(line, block, &mut self.answer)
    }

    /// Makes the answer how the indexes of the table of a name stand, beside the stream.
    pub fn tell_indexes(&mut self, name: &[u8])
        ensures { TellsIndexes name.now self.old self.new }
    {
        self.inner.session().tell_indexes(name, &mut self.answer)
    }

    /// Takes the next bytes of the stream, and keeps the answers of the requests that end in them.
    pub fn feed(&mut self, piece: &[u8]) -> Result<(), StreamFault>
        ensures ok { OnOk result (TakesPiece piece.now self.old self.new) }
        ensures write { IsErrOf result stream_fault.Write → LosesStream piece.now self.old self.new }
        ensures ended { IsErrOf result stream_fault.Ended ↔ IsTrue self.old.inner.session.ended }
        ensures unchanged { IsErrOf result stream_fault.Ended → self.new ≡ self.old }
        ensures shared { IsErrOf result stream_fault.Shared → LosesAnswer self.old self.new }
        ensures sharing { IsErrOf result stream_fault.Shared → IsShared self.old }
    {
        if self.inner.session().has_ended() {
            return Err(StreamFault::Ended);
        }
        self.answer.clear();
        self.inner.feed(piece, &mut self.answer)
    }

    /// Keeps the words that say why the request of a line and a block was refused by the refusal that the answers begin with.
    /// There are none where they begin with none, or where that can't be told.
    pub fn find_reason(
        &mut self,
        alloc: Global,
        line: &[u8],
        block: &[u8],
    ) -> Result<(), ReasonFault>
        ensures { IsAsBefore self.old self.new }
    {
        self.reason.clear();
        let Some(refusal) = refusal_of(self.answer.as_slice()) else {
            return Ok(());
        };
        match reason(alloc, self.inner.session().catalog(), line, block, refusal)? {
            Some(words) => Ok(self.reason.push(words.as_bytes())?),
            None => Ok(()),
        }
    }
}
