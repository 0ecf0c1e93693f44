//! How a stream is cut into lines, and what a line is before it is read as a command.

ghost use Rattle.std.specs.Prelude.{◌≡◌, ◌++◌, ◌∷◌, MatchOption};
ghost use Rattle.plain_streams.specs.Division.{IsUnbroken, IsWhole};
ghost use Rattle.plain_streams.specs.Requests.{without_return, is_silent as is_silent_line};
ghost use Rattle.mm_session.specs.Judging.{IsJudged};

use memchr::memchr;
use mm_lang::{Line, block_length};

/// The greatest number of bytes that a line may have, without a carriage return at its end.
pub const LONGEST_LINE: usize = 8192;

/// What a line is that has ended, before it is read as a command.
#[derive(Drop)]
pub enum Judged<'a> {
    /// It has more than 8,192 bytes.
    TooLong,
    NotUtf8,
    /// It is blanks alone or a comment, and so has no answer.
    Silent,
    /// It can be read. The text is without the carriage return at the line's end.
    Text(Line<'a>),
}

impl Judged<'_> {
    ghost use Rattle.std.specs.Prelude.{ℕ, List, MatchOption};
    ghost use Rattle.plain_streams.specs.Requests.{Asks};
    ghost use Rattle.mm_session.specs.Judging.{IsJudged};

    /// How long a block the line asks for, if it asks for one.
    pub fn asked(&self) -> Option<u64>
        ensures { (line : List ℕ) → IsJudged line self.now → MatchOption result ((n : ℕ) → ¬ (Asks line n)) (λ n. Asks line n) }
    {
        match self {
            Judged::Text(text) => block_length(text),
            Judged::TooLong => None,
            Judged::NotUtf8 => None,
            Judged::Silent => None,
        }
    }
}

/// The bytes before the first line feed and those behind it, where there is one.
pub fn split_line(bytes: &[u8]) -> Option<(&[u8], &[u8])>
    ensures { MatchOption result (IsUnbroken bytes.now)
        (λ parts. IsUnbroken parts.0.now × (bytes.now ≡ parts.0.now ++ 10 ∷ parts.1.now)) }
{
    let at = memchr(b'\n', bytes)?;
    Some((&bytes[..at], &bytes[at + 1..]))
}

// The line without one carriage return at its end.
fn trim_return(line: &[u8]) -> &[u8]
    ensures { result.now ≡ without_return line.now }
{
    match line.last() {
        Some(b'\r') => &line[..line.len() - 1],
        _ => line,
    }
}

// Whether a line is blanks alone or a comment.
fn is_silent(line: &[u8]) -> bool
    ensures { result ≡ is_silent_line line.now }
{
    for c in line {
        if *c != b' ' && *c != b'\t' {
            return *c == b'#';
        }
    }
    true
}

/// Judges a line: its length, its UTF-8, and whether it is silent, each looked at once.
pub fn judge(line: &[u8]) -> Judged<'_>
    requires { IsUnbroken line.now }
    ensures { IsJudged line.now result }
{
    let line = trim_return(line);
    if line.len() > LONGEST_LINE {
        return Judged::TooLong;
    }
    let Ok(text) = std::str::from_utf8(line) else {
        return Judged::NotUtf8;
    };
    if is_silent(line) {
        return Judged::Silent;
    }
    Judged::Text(Line::new(text))
}

/// The line, judged, where no line feed is in it.
pub fn judge_line(line: &[u8]) -> Option<Judged<'_>>
    ensures { MatchOption result (¬ (IsUnbroken line.now)) (λ judged. IsUnbroken line.now × IsJudged line.now judged) }
{
    if split_line(line).is_some() {
        return None;
    }
    Some(judge(line))
}

/// The line, judged, where it and the block are one whole request.
pub fn judge_whole<'a>(line: &'a [u8], block: &[u8]) -> Option<Judged<'a>>
    ensures { MatchOption result (¬ (IsWhole (record { line = line.now; block = block.now })))
        (λ judged. IsWhole (record { line = line.now; block = block.now }) × IsJudged line.now judged) }
{
    let judged = judge_line(line)?;
    if judged.asked().unwrap_or(0) == block.len() as u64 {
        Some(judged)
    } else {
        None
    }
}
