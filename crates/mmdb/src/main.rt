//! The program mmdb: a database in memory, which answers the command lines of files or of standard input on standard output.
//!
//! Its exit status is 0 if all was answered. It is 1 after a failed read, 2 for wrong words, 3 after a failed write, 4 if
//! there was no memory to begin, and 5 if a refusal was to be the last answer.
#![tactic(auto)]

mod told;
mod words;

use crate::told::{Told, tell_read_fault};
use crate::words::{Wish, all_words, read_words};
use clap::error::ErrorKind;
use mm_batch::{Ending, Joined, Source, answer_watched};
use mm_session::{RunFault, run_promptly};
use std::io::BufWriter;
use std::process::ExitCode;

// The bytes of answers that are kept back until a piece of the input is answered.
const ROOM: usize = 65_536;

// The status where a read failed.
const READ_FAULT: u8 = 1;

// The sources that are to be read, as one stream. Where the first refusal is to end it, they are read strictly.
fn stream_of<'a>(rt: &'a HostRuntime, wish: &Wish<'a>) -> Result<Joined<Source<'a>>, RunFault> {
    let Ok(mut sources) = Vec::with_capacity(rt.alloc(), wish.origins.len()) else {
        return Err(RunFault::NoMemory);
    };
    for origin in &wish.origins {
        if sources.push(Source::new(rt, *origin, wish.stop)).is_err() {
            return Err(RunFault::NoMemory);
        }
    }
    Ok(Joined::new(sources))
}

// Answers a stream on standard output, and tells of refusals on standard error where that is wanted.
fn answer(
    rt: &HostRuntime,
    wish: &Wish<'_>,
    stream: &mut Joined<Source<'_>>,
) -> Result<Ending, RunFault> {
    let Ok(mut writer) = BufWriter::with_capacity(rt.alloc(), ROOM, rt.stdout()) else {
        return Err(RunFault::NoMemory);
    };
    if !wish.explain && !wish.stop {
        run_promptly(rt.alloc(), stream, &mut writer, wish.policy)?;
        return Ok(Ending::Whole);
    }
    let mut told = Told::new(rt, wish);
    answer_watched(rt.alloc(), stream, &mut writer, wish.policy, &mut told)
}

// Names the fault on standard error, and gives the status to end with.
fn report(rt: &HostRuntime, fault: RunFault) -> ExitCode {
    let _ = eprintln!(rt; "mmdb: {fault}");
    ExitCode::from(match fault {
        RunFault::Read => READ_FAULT,
        RunFault::Write => 3,
        RunFault::NoMemory => 4,
    })
}

// Answers what the words name, and gives the status to end with.
fn answer_all(rt: &HostRuntime, wish: &Wish<'_>) -> ExitCode {
    let mut stream = match stream_of(rt, wish) {
        Ok(stream) => stream,
        Err(fault) => return report(rt, fault),
    };
    match answer(rt, wish, &mut stream) {
        Ok(Ending::Whole) => ExitCode::SUCCESS,
        Ok(Ending::Stopped) => ExitCode::from(5),
        Err(RunFault::Read) => {
            tell_read_fault(rt, stream.current());
            ExitCode::from(READ_FAULT)
        }
        Err(fault) => report(rt, fault),
    }
}

// Prints what the words asked for or what is wrong with them, and gives the status to end with.
fn report_words(rt: &HostRuntime, error: &clap::Error) -> ExitCode {
    if error.kind() == ErrorKind::OutOfMemory {
        return report(rt, RunFault::NoMemory);
    }
    if error.print(rt).is_err() && !error.use_stderr() {
        return report(rt, RunFault::Write);
    }
    ExitCode::from(if error.use_stderr() { 2 } else { 0 })
}

fn main(rt: HostRuntime) -> ExitCode {
    let words = match all_words(&rt) {
        Ok(words) => words,
        Err(error) => return report_words(&rt, &error),
    };
    match read_words(&rt, &words) {
        Ok(wish) => answer_all(&rt, &wish),
        Err(error) => report_words(&rt, &error),
    }
}
