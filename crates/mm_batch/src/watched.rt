//! A whole stream, answered while each refusal is told.

ghost use Rattle.std.specs.Prelude.{◌≡◌, ℕ, Bool, [], Ok, not, true, false, if◌then◌else◌, IfOk, IfErr, OnOk, OnErr, IsErrOf};
ghost use Rattle.std.specs.Io.KnownBytes.{Appends, Keeps, IsAtEnd};
ghost use Rattle.plain_tables.specs.declared.command.TheConstants.Limits.{STANDARD};
ghost use Rattle.mm_session.specs.Sessions.{Gains, new_session};
ghost use Rattle.mm_session.specs.Turns.{IsPrompt};
ghost use Rattle.mm_session.specs.WholeRuns.{Reads, IsFrontOfAnswers};
ghost use Rattle.mm_session.specs.Writing.{AppendsFront};
ghost use Rattle.mm_batch.specs.Watching.{IsAnswered, IsPassed, EndsAt, EndsStream, LosesStream, TakesPiece, told_number};

use crate::follower::Follower;
use crate::joined::Parts;
use mm_catalog::Catalog;
use mm_reason::{reason, refusal_of};
use mm_session::{Answer, Outlet, PromptRead, RunFault, Session};
use plain_tables::Refusal;
use plan_chooser::Policy;
use std::alloc::Global;

// The bytes that one read may take.
const PIECE: usize = 65_536;

// The greatest number of reads.
const MOST_READS: u64 = 1 << 40;

/// A request that was refused, as it is told.
#[derive(Clone, Copy)]
pub struct Refused<'a> {
    follower: &'a Follower,
    catalog: &'a Catalog,
    answer: &'a [u8],
    number: u32,
}

impl Refused<'_> {
    /// The number of the refusal.
    pub fn number(&self) -> u32
        ensures { result ≡ told_number self.now }
    {
        self.number
    }

    /// The number of the reader in which the request began, from 0.
    pub fn reader(&self) -> usize {
        self.follower.begun().reader
    }

    /// The number of its line in that reader, from 1.
    pub fn line(&self) -> u64 {
        self.follower.begun().line
    }

    /// The answer, without its line feed.
    pub fn answer(&self) -> &str {
        match str::from_utf8(self.answer) {
            Ok(answer) => answer.trim_end(),
            Err(_) => "",
        }
    }

    /// Why it was refused, in words, where that can be told.
    pub fn reason(&self, alloc: Global) -> Option<String> {
        let refusal = refusal_of(self.answer)?;
        let block = match self.follower.block() {
            Some(block) => block,
            None if refusal == Refusal::BlockTooLong => &[],
            None => return None,
        };
        reason(alloc, self.catalog, self.follower.line(), block, refusal).unwrap_or(None)
    }
}

/// Who is told of each refusal.
pub trait Watch {
    // whether a refusal of that number is to be the last answer
    ghost stops: { Self → ℕ → Bool };

    /// Takes a refusal, whose answer is written and flushed. It says whether the stream is to go on.
    fn goes_on(&mut self, refused: &Refused<'_>) -> bool
        ensures says { result ≡ not (stops self.old (told_number refused.now)) }
        ensures same { stops self.new ≡ stops self.old };
}

/// How a stream ended that was watched.
#[derive(Clone, Copy)]
pub enum Ending {
    /// All of it was answered.
    Whole,
    /// A request was refused, and nothing behind it was read as a request.
    Stopped,
}

// A session, what is known of the request that comes, and the last answer.
#[derive(Drop)]
struct Watched {
    session: Session,
    follower: Follower,
    answer: Answer,
}

fn flush<O: Outlet>(outlet: &mut O) -> Result<(), RunFault>
    ensures flushed { OnOk result (O.is_flushed outlet.new) }
    ensures bytes { Keeps (O.contents outlet.old) (O.contents outlet.new) }
    ensures kind { IfErr result (λ e. e ≡ RunFault.Write) }
{
    match outlet.flush_all() {
        Ok(()) => Ok(()),
        Err(_) => Err(RunFault::Write),
    }
}

impl Watched {
    fn new(alloc: Global, policy: Policy) -> Result<Watched, RunFault>
        ensures ok { IfOk result (λ watched. watched.session ≡ new_session STANDARD [] watched.session.catalog) }
        ensures kind { IfErr result (λ e. e ≡ RunFault.NoMemory) }
    {
        let Ok(session) = Session::new(alloc, policy) else {
            return Err(RunFault::NoMemory);
        };
        let longest_block = u64::from(session.catalog().limits().block);
        let Ok(follower) = Follower::new(alloc, longest_block) else {
            return Err(RunFault::NoMemory);
        };
        let Ok(answer) = Answer::new(alloc) else {
            return Err(RunFault::NoMemory);
        };
        Ok(Watched {
            session,
            follower,
            answer,
        })
    }

    // Tells of the last answer, which is the refusal of that number.
    fn look<T: Watch>(&self, number: u32, watch: &mut T) -> Ending
        ensures says { result ≡ (if T.stops watch.old number then Ending.Stopped else Ending.Whole) }
        ensures same { T.stops watch.new ≡ T.stops watch.old }
    {
        let refused = Refused {
            follower: &self.follower,
            catalog: self.session.catalog(),
            answer: self.answer.as_slice(),
            number,
        };
        if watch.goes_on(&refused) {
            Ending::Whole
        } else {
            Ending::Stopped
        }
    }

    // Writes the last answer, and tells of it where it is a refusal.
    fn tell<O: Outlet, T: Watch>(&self, outlet: &mut O, watch: &mut T) -> Result<Ending, RunFault>
        ensures ok { OnOk result (Appends (O.contents outlet.old) (O.contents outlet.new) self.now.answer) }
        ensures fault { OnErr result (AppendsFront (O.contents outlet.old) (O.contents outlet.new) self.now.answer) }
        ensures ending { IfOk result (EndsAt (T.stops watch.old) self.now.answer) }
        ensures kind { IfErr result (λ e. e ≡ RunFault.Write) }
        ensures same { T.stops watch.new ≡ T.stops watch.old }
    {
        if outlet.put(self.answer.as_slice()).is_err() {
            return Err(RunFault::Write);
        }
        let number = self.answer.refusal();
        if number == 0 {
            return Ok(Ending::Whole);
        }
        if flush(outlet).is_err() {
            return Err(RunFault::Write);
        }
        Ok(self.look(number, watch))
    }

    // Takes a piece of the stream, answers each request that ends in it, and flushes the answers.
    fn take_piece<O: Outlet, T: Watch>(
        &mut self,
        piece: &[u8],
        outlet: &mut O,
        watch: &mut T,
    ) -> Result<Ending, RunFault>
        requires { self.old.session.ended ≡ false }
        ensures ok { IfOk result (λ ending. Gains (O.contents outlet.old) (O.contents outlet.new)
            (TakesPiece (T.stops watch.old) ending self.old.session self.new.session piece.now)) }
        ensures fault { OnErr result (Gains (O.contents outlet.old) (O.contents outlet.new)
            (LosesStream (T.stops watch.old) self.old.session piece.now false)) }
        ensures kind { IfErr result (λ e. e ≡ RunFault.Write) }
        ensures flushed { result ≡ Ok Ending.Whole → O.is_flushed outlet.new }
        ensures same { T.stops watch.new ≡ T.stops watch.old }
    {
        let mut rest = piece;
        while let Some(others) = self.session.answer_next(rest, &mut self.answer) {
            let taken = rest.len().saturating_sub(others.len());
            self.follower.follow(rest.split_at(taken).0);
            match self.tell(outlet, watch)? {
                Ending::Stopped => return Ok(Ending::Stopped),
                Ending::Whole => self.follower.begin_next(),
            }
            rest = others;
        }
        self.follower.follow(rest);
        flush(outlet)?;
        Ok(Ending::Whole)
    }

    // Answers the last request of the stream, where there is one that has not ended.
    fn finish<O: Outlet, T: Watch>(
        mut self,
        outlet: &mut O,
        watch: &mut T,
    ) -> Result<Ending, RunFault>
        requires { self.session.ended ≡ false }
        ensures ok { IfOk result (λ ending. Gains (O.contents outlet.old) (O.contents outlet.new)
            (EndsStream (T.stops watch.old) ending self.session)) }
        ensures fault { OnErr result (Gains (O.contents outlet.old) (O.contents outlet.new)
            (LosesStream (T.stops watch.old) self.session [] true)) }
        ensures kind { IfErr result (λ e. e ≡ RunFault.Write) }
    {
        self.session.answer_last(&mut self.answer);
        let ending = self.tell(outlet, watch)?;
        flush(outlet)?;
        Ok(ending)
    }
}

/// Answers a whole stream as `run` does, and tells of each refusal, until one is to be the last. The reader is read only while
/// the outlet holds nothing back.
pub fn answer_watched<R: PromptRead<O> + Parts, O: Outlet, T: Watch>(
    alloc: Global,
    r: &mut R,
    outlet: &mut O,
    policy: Policy,
    watch: &mut T,
) -> Result<Ending, RunFault>
    requires { O.is_flushed outlet.old }

    // At each read all whole requests that had come were answered.
    ensures prompt { IsPrompt (R.turns r.old) (R.turns r.new) (O.contents outlet.old) }

    // What was written is the answers of the finished stream, at none of which the watcher stops it; or it was stopped, and that is
    // the answers up to the first at which the watcher stops it.
    ensures ok { IfOk result (λ ending. Reads (R.to_come r.old) (R.to_come r.new) (λ stream.
        Gains (O.contents outlet.old) (O.contents outlet.new) (IsAnswered (T.stops watch.old) ending stream))) }

    // Unless it was stopped, the reader was read to its end.
    ensures end { result ≡ Ok Ending.Whole → IsAtEnd (R.to_come r.new) }

    // What was written is the answers of all whole requests of what was read, at none of which the watcher stops it.
    ensures read { IsErrOf result RunFault.Read → Reads (R.to_come r.old) (R.to_come r.new) (λ stream.
        Gains (O.contents outlet.old) (O.contents outlet.new) (IsPassed (T.stops watch.old) false stream)) }

    // What was written is the front of the answers to what was read.
    ensures write { IsErrOf result RunFault.Write → Reads (R.to_come r.old) (R.to_come r.new) (λ stream.
        Gains (O.contents outlet.old) (O.contents outlet.new) (IsFrontOfAnswers stream)) }

    // Nothing was read or written.
    ensures no_memory { IsErrOf result RunFault.NoMemory → Keeps (R.to_come r.old) (R.to_come r.new)
        × Keeps (O.contents outlet.old) (O.contents outlet.new) }
{
    let mut watched = Watched::new(alloc, policy)?;
    let mut buffer = [0_u8; PIECE];
    for _ in 0..MOST_READS {
        match r.read_when_flushed(outlet, &mut buffer) {
            Err(_) => return Err(RunFault::Read),
            Ok(0) => return watched.finish(outlet, watch),
            Ok(n) => {
                watched.follower.go_to(r.given());
                match watched.take_piece(&buffer[..n], outlet, watch)? {
                    Ending::Stopped => return Ok(Ending::Stopped),
                    Ending::Whole => {}
                }
            }
        }
    }
    Err(RunFault::Read)
}
