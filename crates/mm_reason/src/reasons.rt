//! The reason for a refusal.

use crate::blamed::Blamed;
use crate::blocks::{cut_short, too_long, too_long_dump};
use crate::fault::{ReasonFault, unless_refused};
use crate::parts::Parts;
use crate::rows::refused_by_rows;
use crate::told::{Reason, Told, tell};
use mm_catalog::Catalog;
use mm_lang::{Line, Stopped, parse_or_stop};
use mm_resolver::{Culprit, command_culprit};
use mm_session::{Judged, LONGEST_LINE, judge_line, split_line};
use mm_syntax::why_stopped;
use plain_tables::{Command, Refusal};
use std::alloc::Global;

/// Why a command is refused so, where this of it is to blame.
pub fn blame(
    alloc: Global,
    catalog: &Catalog,
    command: &Command,
    block: &[u8],
    culprit: Culprit,
    refusal: Refusal,
) -> Reason {
    let Some(parts) = Parts::of(alloc, command)? else {
        return Ok(None);
    };
    Blamed {
        alloc,
        catalog,
        parts,
        block,
        refusal,
    }
    .reason(culprit)
}

// Why a command is refused by the resolver, which resolves it again and tells what of it is to blame.
fn of_names(
    alloc: Global,
    catalog: &Catalog,
    command: &Command,
    again: Command,
    block: &[u8],
    refusal: Refusal,
) -> Reason {
    match unless_refused(command_culprit(catalog, again, block, refusal))? {
        Some(Some(culprit)) => blame(alloc, catalog, command, block, culprit, refusal),
        _ => Ok(None),
    }
}

// Whether a refusal is of the length of a block or a dump.
fn is_of_length(refusal: Refusal) -> bool {
    matches!(
        refusal,
        Refusal::BlockTooLong | Refusal::BlockCutShort | Refusal::DumpTooLong
    )
}

// That a block or a dump is too long, or that a block is cut short.
fn of_length(
    alloc: Global,
    catalog: &Catalog,
    command: &Command,
    block: &[u8],
    refusal: Refusal,
) -> Reason {
    match (command, refusal) {
        (Command::Load { bytes, .. }, Refusal::BlockTooLong) => too_long(alloc, catalog, *bytes),
        (Command::Load { bytes, .. }, Refusal::BlockCutShort) => cut_short(alloc, *bytes, block),
        (Command::Dump { table }, Refusal::DumpTooLong) => too_long_dump(alloc, catalog, table),
        _ => Ok(None),
    }
}

/// Why a command is refused. It is passed twice: one is described, and the other is resolved again.
pub fn of_command(
    alloc: Global,
    catalog: &Catalog,
    command: &Command,
    again: Command,
    block: &[u8],
    refusal: Refusal,
) -> Reason {
    match refusal {
        Refusal::KeyExists { .. }
        | Refusal::NoReferencedRow { .. }
        | Refusal::TableFull { .. }
        | Refusal::RowIsReferenced => refused_by_rows(alloc, catalog, again, block, refusal),
        _ => of_names(alloc, catalog, command, again, block, refusal),
    }
}

/// Why a line spells no command or no statement, where it is refused for that.
pub fn of_stop(alloc: Global, line: &str, stopped: Stopped, refusal: Refusal) -> Reason {
    let Some(stop) = stopped.stop() else {
        return Err(ReasonFault::NoMemory);
    };
    if refusal != Refusal::NotACommand {
        return Ok(None);
    }
    Ok(Some(Told::of(why_stopped(alloc, line, stop)?)))
}

// Why the command that a line spells is refused, with the block behind it. It is read once more, to be resolved again.
fn of_spelled(
    alloc: Global,
    catalog: &Catalog,
    line: &Line<'_>,
    command: &Command,
    block: &[u8],
    refusal: Refusal,
) -> Reason {
    if is_of_length(refusal) {
        return of_length(alloc, catalog, command, block, refusal);
    }
    match parse_or_stop(alloc, line) {
        Ok(again) => of_command(alloc, catalog, command, again, block, refusal),
        Err(stopped) => of_stop(alloc, line.as_str(), stopped, refusal),
    }
}

// Why a line that can be read is refused, with the block behind it.
fn of_text(
    alloc: Global,
    catalog: &Catalog,
    line: &Line<'_>,
    block: &[u8],
    refusal: Refusal,
) -> Reason {
    match parse_or_stop(alloc, line) {
        Ok(command) => {
            let told = of_spelled(alloc, catalog, line, &command, block, refusal);
            drop(command);
            told
        }
        Err(stopped) => of_stop(alloc, line.as_str(), stopped, refusal),
    }
}

/// Where a line is not UTF-8.
pub fn of_utf8(alloc: Global, line: &[u8]) -> Reason {
    let Err(error) = str::from_utf8(line) else {
        return Ok(None);
    };
    let byte = error.valid_up_to().saturating_add(1);
    tell(format!(in alloc; "at byte {byte} no character begins"))
}

/// That a line is too long.
pub fn of_too_long(alloc: Global) -> Reason {
    tell(format!(in alloc; "a line has at most {LONGEST_LINE} bytes"))
}

/// That no memory was found.
pub fn of_no_memory(alloc: Global) -> Reason {
    tell(format!(in alloc; "no memory was found for it, and all tables are as before"))
}

// The first of the requests in some bytes that has an answer: its line, and what stands behind its line feed, or the block
// where nothing does. Bytes without a line feed are one line.
fn first_request<'a>(bytes: &'a [u8], block: &'a [u8]) -> (&'a [u8], &'a [u8]) {
    let mut rest = bytes;
    for _ in 0..bytes.len() {
        let Some((line, behind)) = split_line(rest) else {
            return (rest, block);
        };
        if !matches!(judge_line(line), Some(Judged::Silent)) {
            return (line, if behind.is_empty() { block } else { behind });
        }
        rest = behind;
    }
    (rest, block)
}

// As many of the bytes as a line asks for, or all where there are fewer.
fn asked_of<'a>(line: &Judged<'_>, bytes: &'a [u8]) -> &'a [u8] {
    let asked = usize::try_from(line.asked().unwrap_or(0)).unwrap_or(usize::MAX);
    bytes.get(..asked).unwrap_or(bytes)
}

// Why a line is refused, with the block that the bytes begin with.
fn of_line(
    alloc: Global,
    catalog: &Catalog,
    line: &[u8],
    bytes: &[u8],
    refusal: Refusal,
) -> Reason {
    let Some(judged) = judge_line(line) else {
        return Ok(None);
    };
    let block = asked_of(&judged, bytes);
    match (&judged, refusal) {
        (Judged::TooLong, Refusal::LineTooLong) => of_too_long(alloc),
        (Judged::NotUtf8, Refusal::NotUtf8) => of_utf8(alloc, line),
        (Judged::Text(line), _) => of_text(alloc, catalog, line, block, refusal),
        _ => Ok(None),
    }
}

/// Why the request of a line and a block was refused so, in words, if that can be told. It is asked of the tables as they were
/// when the request was refused. Of a block that came in part the line is asked with that part, and of one past its limit with
/// none. Where the line has line feeds, as a piece of a stream has, it is asked of the first request in it that has an answer.
pub fn reason(
    alloc: Global,
    catalog: &Catalog,
    line: &[u8],
    block: &[u8],
    refusal: Refusal,
) -> Result<Option<String>, ReasonFault> {
    let told = if refusal == Refusal::NoMemory {
        of_no_memory(alloc)?
    } else {
        let (line, bytes) = first_request(line, block);
        of_line(alloc, catalog, line, bytes, refusal)?
    };
    match told {
        Some(told) => Ok(Some(told.words)),
        None => Ok(None),
    }
}
