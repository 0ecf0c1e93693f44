//! A whole stream, from a reader to a writer.

ghost use Rattle.std.specs.Prelude.{◌≡◌, ◌<◌, [], true, false, OnOk, OnErr, IfErr, IsErrOf};
ghost use Rattle.std.specs.Io.KnownBytes.{Keeps, IsAtEnd};
ghost use Rattle.mm_session.specs.Sessions.{Gains, Feeds, Finishes, BreaksOff};
ghost use Rattle.mm_session.specs.Turns.{IsPrompt};
ghost use Rattle.mm_session.specs.WholeRuns.{Reads, IsAnsweredAll, IsAnsweredSoFar, IsFrontOfAnswers};

use crate::fault::RunFault;
use crate::session::Session;
use crate::stream::outlet::{Lent, Outlet, PromptRead};
use plan_chooser::Policy;
use std::alloc::Global;
use std::io::{Read, Write};

// The bytes that one read may take.
const PIECE: usize = 65_536;

// The greatest number of reads.
const MOST_READS: u64 = 1 << 40;

// Feeds a piece, and flushes its answers.
fn feed_and_flush<O: Outlet>(
    session: &mut Session,
    piece: &[u8],
    outlet: &mut O,
) -> Result<(), RunFault>
    requires { session.old.ended ≡ false }
    ensures ok { OnOk result (Gains (O.contents outlet.old) (O.contents outlet.new) (Feeds session.old session.new piece.now)) }
    ensures fault { OnErr result (Gains (O.contents outlet.old) (O.contents outlet.new) (BreaksOff session.old session.new piece.now false)) }
    ensures kind { IfErr result (λ e. e ≡ RunFault.Write) }
    ensures flushed { OnOk result (O.is_flushed outlet.new) }
    ensures name { O.name outlet.new ≡ O.name outlet.old }
{
    if session.feed_into(piece, outlet).is_err() {
        return Err(RunFault::Write);
    }
    match outlet.flush_all() {
        Ok(()) => Ok(()),
        Err(_) => Err(RunFault::Write),
    }
}

// Finishes a stream, and flushes its last answer.
fn finish_and_flush<O: Outlet>(session: &mut Session, outlet: &mut O) -> Result<(), RunFault>
    requires { session.old.ended ≡ false }
    ensures ok { OnOk result (Gains (O.contents outlet.old) (O.contents outlet.new) (Finishes session.old session.new)) }
    ensures fault { OnErr result (Gains (O.contents outlet.old) (O.contents outlet.new) (BreaksOff session.old session.new [] true)) }
    ensures kind { IfErr result (λ e. e ≡ RunFault.Write) }
    ensures name { O.name outlet.new ≡ O.name outlet.old }
{
    if session.end_into(outlet).is_err() {
        return Err(RunFault::Write);
    }
    match outlet.flush_all() {
        Ok(()) => Ok(()),
        Err(_) => Err(RunFault::Write),
    }
}

/// Answers a whole stream, as `run` does. The reader is read only while the outlet holds nothing back: before each read the
/// answers to all that was read are written and flushed.
pub fn run_promptly<R: PromptRead<O>, O: Outlet>(
    alloc: Global,
    r: &mut R,
    outlet: &mut O,
    policy: Policy,
) -> Result<(), RunFault>
    requires { O.is_flushed outlet.old }

    // At each read all whole requests that had come were answered.
    ensures prompt { IsPrompt (R.turns r.old) (R.turns r.new) (O.contents outlet.old) }

    // The reader was read to its end, and what was written is the answers of the finished stream.
    ensures ok { OnOk result (Reads (R.to_come r.old) (R.to_come r.new) (λ stream.
        IsAtEnd (R.to_come r.new) × Gains (O.contents outlet.old) (O.contents outlet.new) (IsAnsweredAll stream))) }

    // What was written is the answers of all whole requests of what was read.
    ensures read { IsErrOf result RunFault.Read → Reads (R.to_come r.old) (R.to_come r.new) (λ stream.
        Gains (O.contents outlet.old) (O.contents outlet.new) (IsAnsweredSoFar stream)) }

    // What was written is the front of the answers to what was read.
    ensures write { IsErrOf result RunFault.Write → Reads (R.to_come r.old) (R.to_come r.new) (λ stream.
        Gains (O.contents outlet.old) (O.contents outlet.new) (IsFrontOfAnswers stream)) }

    // Nothing was read or written.
    ensures no_memory { IsErrOf result RunFault.NoMemory →
        Keeps (R.to_come r.old) (R.to_come r.new) × Keeps (O.contents outlet.old) (O.contents outlet.new) }
    ensures name { O.name outlet.new ≡ O.name outlet.old }
{
    let Ok(mut session) = Session::new(alloc, policy) else {
        return Err(RunFault::NoMemory);
    };
    let mut buffer = [0_u8; PIECE];
    for _ in 0..MOST_READS {
        match r.read_when_flushed(outlet, &mut buffer) {
            Err(_) => return Err(RunFault::Read),
            Ok(0) => return finish_and_flush(&mut session, outlet),
            Ok(n) => feed_and_flush(&mut session, &buffer[..n], outlet)?,
        }
    }
    Err(RunFault::Read)
}

/// Answers a whole stream. The answers are flushed after each piece that was read, and at the end.
///
/// At `Read` a read answered an error, or 2^40 reads did not reach the end; the request that had not ended has
/// no answer. At `Write` a write or a flush answered an error, or a write took no byte. At `NoMemory` the session
/// could not be made.
pub fn run<R: Read, W: Write>(
    alloc: Global,
    r: &mut R,
    w: &mut W,
    policy: Policy,
) -> Result<(), RunFault>
    // The reader was read to its end, and what was written is the answers of the finished stream.
    ensures ok { OnOk result (Reads (R.remaining r.old) (R.remaining r.new) (λ stream.
        IsAtEnd (R.remaining r.new) × Gains (W.contents w.old) (W.contents w.new) (IsAnsweredAll stream))) }

    // What was written is the answers of all whole requests of what was read.
    ensures read { IsErrOf result RunFault.Read → Reads (R.remaining r.old) (R.remaining r.new) (λ stream.
        Gains (W.contents w.old) (W.contents w.new) (IsAnsweredSoFar stream)) }

    // What was written is the front of the answers to what was read.
    ensures write { IsErrOf result RunFault.Write → Reads (R.remaining r.old) (R.remaining r.new) (λ stream.
        Gains (W.contents w.old) (W.contents w.new) (IsFrontOfAnswers stream)) }

    // Nothing was read or written.
    ensures no_memory { IsErrOf result RunFault.NoMemory →
        Keeps (R.remaining r.old) (R.remaining r.new) × Keeps (W.contents w.old) (W.contents w.new) }
{
    let mut outlet = Lent {
        writer: w,
        is_flushed: true,
    };
    run_promptly(alloc, r, &mut outlet, policy)
}
