//! From a line to what the statement that it spells means.
ghost use Rattle.std.specs.Prelude.{◌≡◌, ◌≢◌, IfErr, IfOk};
ghost use Rattle.std.specs.List.{Contains};
ghost use Rattle.plain_tables.specs.declared.refusal.Refusal.TheVariants as refusal;
ghost use Rattle.plain_streams.specs.Division.{IsUnbroken};
ghost use Rattle.plain_streams.specs.Requests.{IsReadable, without_return};
ghost use Rattle.plain_statements.specs.StatementSpelling.{marks};
ghost use Rattle.mm_catalog.specs.Seen.{database_of};
ghost use Rattle.mm_statements.specs.Querying.{IsUnread};
ghost use Rattle.mm_statements.specs.Resolving.{IsUnmeant, LineMeans};

use mm_catalog::Catalog;
use mm_lang::{Line, parse_statement};
use mm_session::{Judged, LONGEST_LINE, judge_line};
use plain_statements::Resolution;
use plain_tables::Refusal;
use std::alloc::Global;

// The line without one carriage return at its end.
fn trim_return(line: &[u8]) -> &[u8]
    ensures { result.now ≡ without_return line.now }
{
    match line.last() {
        Some(b'\r') => &line[..line.len() - 1],
        _ => line,
    }
}

// Why a line with a line feed in it is not read: 10 where it is too long, else 11 where it isn't UTF-8, and else 20.
fn why_broken(line: &[u8]) -> Refusal
    requires { ¬ (IsUnbroken line.now) }
    ensures { IsUnread (without_return line.now) result }
{
    let text = trim_return(line);
    if text.len() > LONGEST_LINE {
        return Refusal::LineTooLong;
    }
    match str::from_utf8(text) {
        Ok(_) => Refusal::NotACommand,
        Err(_) => Refusal::NotUtf8,
    }
}

/// The line as it is read, without a carriage return at its end: 10 where it is too long, else 11 where it isn't UTF-8, and else 20
/// where it has a line feed in it, or is blanks alone or a comment.
pub fn readable(line: &[u8]) -> Result<Line<'_>, Refusal>
    ensures text { IfOk result (λ text. text ≡ without_return line.now) }
    ensures readable { IfOk result (λ text. IsReadable text) }
    ensures unbroken { IfOk result (λ text. ¬ (Contains text 10)) }
    ensures unread { IfErr result (IsUnread (without_return line.now)) }
{
    match judge_line(line) {
        Some(Judged::Text(text)) => Ok(text),
        Some(Judged::TooLong) => Err(Refusal::LineTooLong),
        Some(Judged::NotUtf8) => Err(Refusal::NotUtf8),
        Some(Judged::Silent) => Err(Refusal::NotACommand),
        None => Err(why_broken(line)),
    }
}

/// What a line means of the tables whatever values come for its question marks: 20 where it spells no statement, or what the
/// statement is refused by. 90 may stand for any of it.
pub fn meaning(alloc: Global, catalog: &Catalog, line: &Line<'_>) -> Result<Resolution, Refusal>
    ensures means { IfOk result (LineMeans (database_of catalog.now) line.now) }
    ensures refused { IfErr result (λ e. e ≢ refusal.NoMemory → IsUnmeant (database_of catalog.now) line.now e) }
{
    let statement = parse_statement(alloc, line)?;
    catalog.resolve_statement(statement)
}

/// How many question marks stand in a line outside of its texts.
pub fn count_marks(line: &[u8]) -> usize
    ensures { result ≡ marks line.now }
{
    let mut quoted = false;
    let mut count = 0;
    for c in line {
        if *c == b'\'' {
            quoted = !quoted;
        } else if *c == b'?' && !quoted {
            count += 1;
        }
    }
    count
}
