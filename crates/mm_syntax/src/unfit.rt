//! The symbol at which a line stops, and those beside it.

use crate::columns::{column_behind, split_left};
use mm_lang::{LinePlace, Stop, split_lexeme};

/// What a symbol is, by its characters.
#[derive(Clone, Copy, PartialEq, Eq)]
pub enum Kind {
    Word,
    /// A digit or a `-`, then letters, digits and `_`.
    Number,
    /// A text with its quote marks.
    Text,
    /// A quote mark that no other closes, and all behind it.
    OpenText,
    /// An operator or any other character.
    Other,
    /// The end of the line.
    End,
}

/// A symbol at a place where it may not stand. Columns count characters from 1.
#[derive(Clone, Copy)]
pub struct Unfit<'a> {
    pub place: LinePlace,
    pub column: usize,
    pub kind: Kind,
    pub text: &'a str,
    /// The symbol before it, which is empty where there is none.
    pub before: &'a str,
    /// The symbol behind it, which is empty where there is none.
    pub behind: &'a str,
    /// All that stands behind it.
    pub rest: &'a [u8],
    /// Whether a quote mark stands directly before it.
    pub is_behind_text: bool,
}

// In a text each quote mark within is written twice, so that a text that is closed has an even number of them.
fn is_open(text: &str) -> bool {
    text.bytes().filter(|c| *c == b'\'').count() % 2 == 1
}

fn kind_of(text: &str) -> Kind {
    match text.bytes().next() {
        None => Kind::End,
        Some(b'a'..=b'z' | b'A'..=b'Z' | b'_') => Kind::Word,
        Some(b'0'..=b'9' | b'-') => Kind::Number,
        Some(b'\'') if is_open(text) => Kind::OpenText,
        Some(b'\'') => Kind::Text,
        Some(_) => Kind::Other,
    }
}

// The first character of a text.
fn first_character(text: &str) -> &str {
    let length = text.chars().next().map_or(0, |c| c.len_utf8());
    text.get(..length).unwrap_or(text)
}

// The last symbol of a text, which is empty where it has none.
fn last_symbol(text: &str) -> &str {
    let mut last: &[u8] = b"";
    let mut rest = text.as_bytes();
    for _ in 0..text.len() {
        let (symbol, behind) = split_lexeme(rest);
        if symbol.is_empty() {
            break;
        }
        last = symbol;
        rest = behind;
    }
    str::from_utf8(last).unwrap_or("")
}

// The first symbol of a text, which is empty where it has none.
fn first_symbol(text: &[u8]) -> &str {
    let (symbol, _) = split_lexeme(text);
    str::from_utf8(symbol).unwrap_or("")
}

/// Whether one of the symbols of a text is this word, in capitals or not.
pub fn has_word(text: &[u8], word: &str) -> bool {
    let mut rest = text;
    for _ in 0..text.len() {
        let (symbol, behind) = split_lexeme(rest);
        if symbol.eq_ignore_ascii_case(word.as_bytes()) {
            return true;
        }
        rest = behind;
    }
    false
}

/// Whether a symbol is a number by its form: digits, with a `-` before them or not.
pub fn is_numeral(text: &str) -> bool {
    let digits = text.strip_prefix('-').unwrap_or(text);
    !digits.is_empty() && digits.bytes().all(|c| c.is_ascii_digit())
}

/// The symbol where a line stops. Of a character that no symbol has the parser takes the first byte: here it is whole.
pub fn symbol_at(line: &str, stop: Stop) -> Unfit<'_> {
    let bytes = line.as_bytes();
    let left = bytes
        .get(bytes.len().saturating_sub(stop.left)..)
        .unwrap_or(b"");
    let (symbol, behind) = split_lexeme(left);
    let length = symbol.len().saturating_add(behind.len());
    let (front, rest) = split_left(line, length);
    let text = str::from_utf8(symbol).unwrap_or(first_character(rest));
    Unfit {
        place: stop.place,
        column: column_behind(front),
        kind: kind_of(text),
        text,
        before: last_symbol(front),
        behind: first_symbol(behind),
        rest: behind,
        is_behind_text: front.ends_with('\''),
    }
}
