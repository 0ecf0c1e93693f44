//! A session that is made of a dump, which comes in pieces.

ghost use Rattle.std.specs.Prelude.{◌≡◌, ◌≢◌, ◌+◌, ◌-◌, ◌^◌, ◌≤◌, ◌⊎◌, [], min, length, Err, IfErr, IfOk, IsTrue, OnErr, OnOk, false, true};
ghost use Rattle.mm_session.specs.Restoring.{IsRestored, StandsBehind, TakesIn, TellsSome, goes_on_first};
ghost use Rattle.mm_session.specs.declared.restore.RestoreFault.TheVariants as fault;

use crate::answer::Answer;
use crate::execute::saving::{FIRST, push_last};
use crate::session::Session;
use no_memory::NoMemory;
use plain_tables::Limits;
use plan_chooser::Policy;
use std::alloc::Global;
use thiserror::Error;

// The longest last line of one, with the line feed before it.
const LONGEST_LAST: usize = 96;

/// Why a dump is not taken in, or not taken for whole.
#[derive(Clone, Copy, Debug, PartialEq, Eq, Error)]
pub enum RestoreFault {
    /// A growth was refused.
    #[error("no memory")]
    NoMemory(NoMemory),
    /// It doesn't begin with the first line of a dump.
    #[error("no dump")]
    NotADump,
    /// One of its requests was refused. The answer tells by what.
    #[error("refused")]
    Refused,
    /// It ends within a request, or with another line than the last one of a dump of these tables.
    #[error("cut short")]
    CutShort,
    /// It was not taken in before.
    #[error("failed")]
    Failed,
}

impl From<NoMemory> for RestoreFault {
    ghost use Rattle.std.specs.Prelude.{◌≡◌};
    ghost use Rattle.mm_session.specs.declared.restore.RestoreFault.TheVariants as fault;

    ghost from_gives = { λ refused e. e ≡ fault.NoMemory refused };

    fn from(refused: NoMemory) -> RestoreFault {
        RestoreFault::NoMemory(refused)
    }
}

/// A dump that is taken in, piece by piece: the session that its requests make, from no tables on. Once a piece was not taken in none is,
/// and there is no session.
#[derive(Drop)]
pub struct Restore {
    session: Session,
    // The answer to the last request.
    answer: Answer,
    // How many bytes have come.
    begun: usize,
    // The last bytes that have come.
    last: Vec<u8>,
    failed: bool,
}

impl Restore {
    /// A dump of which nothing has come, to be restored under these limits.
    pub fn new(alloc: Global, policy: Policy, limits: Limits) -> Result<Restore, NoMemory>
        requires { limits.rows ≤ 16777216 }
        ensures behind { IfOk result (λ r. StandsBehind r.session [] []) }
        ensures limits { IfOk result (λ r. r.session.limits ≡ limits) }
        ensures outside { IfOk result (λ r. r.session.saved ≡ []) }
        ensures begun { IfOk result (λ r. r.begun ≡ 0) }
        ensures good { IfOk result (λ r. r.failed ≡ false) }
    {
        Ok(Restore {
            session: Session::with_limits(alloc, policy, limits)?,
            answer: Answer::new(alloc)?,
            begun: 0,
            last: Vec::with_capacity(alloc, 2 * LONGEST_LAST)?,
            failed: false,
        })
    }

    /// The answer to the request that was answered last: the refusal, where one was refused.
    pub fn answer(&self) -> &Answer
        ensures { result.now ≡ self.now.answer }
    {
        &self.answer
    }

    // Whether the dump goes on with this piece as its first line says.
    fn begins(&mut self, piece: &[u8]) -> bool
        ensures session { self.new.session ≡ self.old.session }
        ensures first { result ≡ goes_on_first self.old.begun piece.now }
        ensures counted { self.new.begun ≡ min (self.old.begun + length piece.now) (2 ^ 64 - 1) }
    {
        let wanted = FIRST.get(self.begun..).unwrap_or(&[]);
        self.begun = self.begun.saturating_add(piece.len());
        wanted.starts_with(piece) || piece.starts_with(wanted)
    }

    // Keeps the last bytes.
    fn keep_last(&mut self, piece: &[u8]) -> Result<(), NoMemory>
        ensures session { self.new.session ≡ self.old.session }
        ensures begun { self.new.begun ≡ self.old.begun }
    {
        let behind = piece.len().saturating_sub(LONGEST_LAST);
        self.last
            .extend_from_slice(piece.get(behind..).unwrap_or(&[]))?;
        let before = self.last.len().saturating_sub(LONGEST_LAST);
        self.last.rotate_left(before);
        self.last.truncate(LONGEST_LAST);
        Ok(())
    }

    // Does the requests that end in these bytes.
    fn do_requests(&mut self, bytes: &[u8]) -> Result<(), RestoreFault>
        requires { self.old.session.ended ≡ false }
        ensures taken { OnOk result (TakesIn self.old.session self.new.session bytes.now) }
        ensures refused { IfErr result (λ e. (e ≡ fault.Refused) × TellsSome self.new.answer) }
        ensures begun { self.new.begun ≡ self.old.begun }
    {
        let mut rest = bytes;
        while let Some(others) = self.session.answer_next(rest, &mut self.answer) {
            if self.answer.refusal() != 0 {
                return Err(RestoreFault::Refused);
            }
            rest = others;
        }
        Ok(())
    }

    // Takes in a piece, where none failed before.
    fn take_in(&mut self, piece: &[u8]) -> Result<(), RestoreFault>
        ensures taken { OnOk result (TakesIn self.old.session self.new.session piece.now) }
        ensures good { OnOk result (self.old.failed ≡ false) }
        ensures first { OnOk result (IsTrue (goes_on_first self.old.begun piece.now)) }
        ensures spent { result ≡ Err fault.Failed → IsTrue self.old.failed ⊎ IsTrue self.old.session.ended }
        ensures other { result ≡ Err fault.NotADump → goes_on_first self.old.begun piece.now ≡ false }
        ensures refused { result ≡ Err fault.Refused → TellsSome self.new.answer }
        ensures counted { OnOk result (self.new.begun ≡ min (self.old.begun + length piece.now) (2 ^ 64 - 1)) }
        ensures uncut { result ≢ Err fault.CutShort }
    {
        if self.failed || self.session.has_ended() {
            return Err(RestoreFault::Failed);
        }
        if !self.begins(piece) {
            return Err(RestoreFault::NotADump);
        }
        self.keep_last(piece)?;
        self.do_requests(piece)
    }

    /// Takes in the next piece of the dump, and does the requests that end in it. The first that is refused is the last.
    pub fn take(&mut self, piece: &[u8]) -> Result<(), RestoreFault>
        ensures taken { OnOk result (TakesIn self.old.session self.new.session piece.now) }
        ensures failed { OnErr result (self.new.failed ≡ true) }
        // None is taken in once one wasn't.
        ensures good { OnOk result (self.old.failed ≡ false) }
        ensures spent { result ≡ Err fault.Failed → IsTrue self.old.failed ⊎ IsTrue self.old.session.ended }
        // The first bytes are those of a dump, or it is none.
        ensures first { OnOk result (IsTrue (goes_on_first self.old.begun piece.now)) }
        ensures other { result ≡ Err fault.NotADump → goes_on_first self.old.begun piece.now ≡ false }
        // The request that is refused is the last, and the answer tells by what.
        ensures refused { result ≡ Err fault.Refused → TellsSome self.new.answer }
        ensures counted { OnOk result (self.new.begun ≡ min (self.old.begun + length piece.now) (2 ^ 64 - 1)) }
        ensures goes_on { OnOk result (self.new.failed ≡ false) }
        ensures uncut { result ≢ Err fault.CutShort }
    {
        let taken = self.take_in(piece);
        self.failed = taken.is_err();
        taken
    }

    // Whether the last bytes are the last line of a dump of the tables.
    fn has_last_line(&self, alloc: Global) -> Result<bool, NoMemory> {
        let mut line = Answer::new(alloc)?;
        line.push(b"\n")?;
        push_last(&mut line, self.session.catalog())?;
        Ok(self.last.ends_with(line.as_slice()))
    }

    /// Whether the dump is whole: it has come to its last line, and nothing in it was refused. Else it says why not.
    pub fn check_whole(&self, alloc: Global) -> Result<(), RestoreFault>
        ensures restored { OnOk result (IsRestored self.now.session self.now.session.database) }
        ensures good { OnOk result (self.now.failed ≡ false) }
        ensures spent { result ≡ Err fault.Failed → IsTrue self.now.failed }
    {
        if self.failed {
            return Err(RestoreFault::Failed);
        }
        if !self.session.is_between_requests() {
            return Err(RestoreFault::CutShort);
        }
        if !self.has_last_line(alloc)? {
            return Err(RestoreFault::CutShort);
        }
        Ok(())
    }

    /// The session that the requests so far made.
    pub fn into_session(self) -> Session
        ensures { result ≡ self.session }
    {
        let Restore { session, .. } = self;
        session
    }
}
