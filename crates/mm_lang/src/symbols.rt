//! Symbols of one lexeme: keywords, signs, names, operators and kinds of indexes.

ghost use Rattle.std.specs.Prelude.{◌≡◌, ◌≢◌, IfOk, IsErrOf, MatchOption, MatchResult};
ghost use Rattle.std.specs.List.{list_any, list_all};
ghost use Rattle.std.specs.Str.{bytes_eq};
ghost use Rattle.plain_tables.specs.Names.{IsName, is_name, is_word, is_word_character, is_reserved};
ghost use Rattle.plain_tables.specs.Spelling.{operator_text, index_word};
ghost use Rattle.plain_tables.specs.Reading.{lexeme, after_lexeme};
ghost use Rattle.plain_tables.specs.declared.condition.Op.{Op};
ghost use Rattle.plain_tables.specs.declared.schema.IndexKind.{IndexKind};

use crate::ParseRefusal;
use crate::lexemes::{is_letter_byte, is_word_byte, split_lexeme};
use crate::places::LinePlace;
use crate::stops::Stopped;
use plain_tables::{IndexKind, Op, Text};
use std::alloc::Global;

/// The most bytes that a name may have.
pub const LONGEST_NAME: usize = 32;

// The words of so many letters that name no table and no column.
const OF_TWO: [&[u8]; 1] = [b"on"];

const OF_THREE: [&[u8]; 4] = [b"and", b"int", b"ref", b"set"];

const OF_FOUR: [&[u8]; 9] = [
    b"drop", b"dump", b"from", b"hash", b"join", b"load", b"null", b"text", b"tree",
];

const OF_FIVE: [&[u8]; 3] = [b"index", b"table", b"where"];

const OF_SIX: [&[u8]; 5] = [b"delete", b"insert", b"select", b"tables", b"update"];

const OF_EIGHT: [&[u8]; 1] = [b"distinct"];

// Whether a word is one of these.
fn is_one_of(word: &[u8], words: &[&[u8]]) -> bool
    ensures { result ≡ list_any (λ other. bytes_eq word.now other.now) words.now }
{
    words.iter().any(|other| word == *other)
}

/// Whether a word names no table and no column, since the language has it. It is compared with the words of as many letters.
pub fn is_reserved_word(word: &[u8]) -> bool
    ensures { result ≡ is_reserved word.now }
{
    match word.len() {
        2 => is_one_of(word, &OF_TWO),
        3 => is_one_of(word, &OF_THREE),
        4 => is_one_of(word, &OF_FOUR),
        5 => is_one_of(word, &OF_FIVE),
        6 => is_one_of(word, &OF_SIX),
        8 => is_one_of(word, &OF_EIGHT),
        _ => false,
    }
}

// Whether these are letters and digits.
fn are_word_bytes(characters: &[u8]) -> bool
    ensures { result ≡ list_all is_word_character characters.now }
{
    characters.iter().all(|c| is_word_byte(*c))
}

// Whether these characters are a word: a letter, and then letters and digits.
fn is_whole_word(characters: &[u8]) -> bool
    ensures { result ≡ is_word characters.now }
{
    match characters.split_first() {
        None => false,
        Some((first, others)) => is_letter_byte(*first) && are_word_bytes(others),
    }
}

/// Whether these characters are a name: a word of at most `LONGEST_NAME` that is not reserved.
pub fn is_whole_name(characters: &[u8]) -> bool
    ensures { result ≡ is_name characters.now }
{
    is_whole_word(characters) && characters.len() <= LONGEST_NAME && !is_reserved_word(characters)
}

/// What stands behind this keyword or sign, if the line begins with it.
pub fn after<'a>(line: &'a [u8], symbol: &[u8]) -> Option<&'a [u8]>
    ensures { MatchOption result (lexeme line.now ≢ symbol.now) (λ rest. (lexeme line.now ≡ symbol.now) × (rest.now ≡ after_lexeme line.now)) }
{
    let (characters, rest) = split_lexeme(line);
    if characters == symbol {
        Some(rest)
    } else {
        None
    }
}

/// What stands behind this keyword or sign. The error is `Syntax`, where the line begins with something else.
pub fn expect<'a>(line: &'a [u8], symbol: &[u8], place: LinePlace) -> Result<&'a [u8], Stopped>
    ensures { MatchResult result (λ rest. (lexeme line.now ≡ symbol.now) × (rest.now ≡ after_lexeme line.now)) (λ _. lexeme line.now ≢ symbol.now) }
{
    match after(line, symbol) {
        Some(rest) => Ok(rest),
        None => Err(Stopped::at(line, place)),
    }
}

/// The name at the front, and what stands behind it.
pub fn name(alloc: Global, line: &[u8], place: LinePlace) -> Result<(Text, &[u8]), Stopped>
    ensures name { IfOk result (λ r. IsName (lexeme line.now) × (r.0 ≡ lexeme line.now) × (r.1.now ≡ after_lexeme line.now)) }
    ensures syntax { IsErrOf result ParseRefusal.Syntax → IsName (lexeme line.now) → ⊥ }
{
    let (characters, rest) = split_lexeme(line);
    if !is_whole_name(characters) {
        return Err(Stopped::at(line, place));
    }
    let text = str::from_utf8(characters).unwrap();
    Ok((Text::from_str(alloc, text)?, rest))
}

/// What stands behind the name at the front, if a name stands there.
pub fn after_name(line: &[u8]) -> Option<&[u8]>
    ensures { MatchOption result (IsName (lexeme line.now) → ⊥) (λ rest. IsName (lexeme line.now) × (rest.now ≡ after_lexeme line.now)) }
{
    let (characters, rest) = split_lexeme(line);
    if is_whole_name(characters) {
        Some(rest)
    } else {
        None
    }
}

// The operator that these characters are.
fn operator_of(characters: &[u8]) -> Option<Op>
    ensures { MatchOption result ((op : Op) → characters.now ≢ operator_text op) (λ op. characters.now ≡ operator_text op) }
{
    match characters {
        b"=" => Some(Op::Eq),
        b"<>" => Some(Op::Ne),
        b"<" => Some(Op::Lt),
        b"<=" => Some(Op::Le),
        b">" => Some(Op::Gt),
        b">=" => Some(Op::Ge),
        _ => None,
    }
}

/// The operator at the front, and what stands behind it.
pub fn operator(line: &[u8], place: LinePlace) -> Result<(Op, &[u8]), Stopped>
    ensures { MatchResult result (λ r. (lexeme line.now ≡ operator_text r.0) × (r.1.now ≡ after_lexeme line.now)) (λ _. (op : Op) → lexeme line.now ≢ operator_text op) }
{
    let (characters, rest) = split_lexeme(line);
    match operator_of(characters) {
        Some(op) => Ok((op, rest)),
        None => Err(Stopped::at(line, place)),
    }
}

// The kind of an index that these characters are.
fn index_kind_of(characters: &[u8]) -> Option<IndexKind>
    ensures { MatchOption result ((k : IndexKind) → characters.now ≢ index_word k) (λ k. characters.now ≡ index_word k) }
{
    match characters {
        b"tree" => Some(IndexKind::Tree),
        b"hash" => Some(IndexKind::Hash),
        _ => None,
    }
}

/// The kind of an index at the front, and what stands behind it.
pub fn index_kind(line: &[u8]) -> Result<(IndexKind, &[u8]), Stopped>
    ensures { MatchResult result (λ r. (lexeme line.now ≡ index_word r.0) × (r.1.now ≡ after_lexeme line.now)) (λ _. (k : IndexKind) → lexeme line.now ≢ index_word k) }
{
    let (characters, rest) = split_lexeme(line);
    match index_kind_of(characters) {
        Some(kind) => Ok((kind, rest)),
        None => Err(Stopped::at(line, LinePlace::IndexKind)),
    }
}
