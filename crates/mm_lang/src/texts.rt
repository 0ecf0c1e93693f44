//! Texts between quote marks.

ghost use Rattle.std.specs.Prelude.{◌≡◌, ◌++◌, ◌∷◌, [], ℕ, List, MatchOption, IfOk, IsErrOf, OnOk};
ghost use Rattle.std.specs.List.{flat_map};
ghost use Rattle.std.specs.Str.{IsUtf8};
ghost use Rattle.plain_tables.specs.Spelling.{doubled, text_literal};

use crate::ParseRefusal;
use crate::sink::Sink;
use plain_tables::{NoMemory, Text};
use std::alloc::Global;

// What stands between two quote marks, if the characters begin and end with one.
fn between_marks(characters: &[u8]) -> Option<&str>
    ensures { MatchOption result (IsUtf8 characters.now → (inner : List ℕ) → characters.now ≡ 39 ∷ (inner ++ 39 ∷ []) → ⊥) (λ inner. characters.now ≡ 39 ∷ (inner.now ++ 39 ∷ [])) }
{
    let literal = str::from_utf8(characters).ok()?;
    let behind = literal.strip_prefix('\'')?;
    behind.strip_suffix('\'')
}

// The text in which each of these quote marks is doubled, put together of the parts between them. It takes one growth for
// the parts, of no more bytes than these.
fn joined(alloc: Global, marked: &str) -> Result<Text, ParseRefusal>
    ensures text { IfOk result (λ text. marked.now ≡ flat_map doubled text) }
    ensures syntax { IsErrOf result ParseRefusal.Syntax → (text : List ℕ) → marked.now ≡ flat_map doubled text → ⊥ }
{
    let mut text = String::with_capacity(alloc, marked.len())?;
    let mut rest = marked;
    while let Some((part, behind)) = rest.split_once('\'') {
        text.push_str(part)?;
        text.push_str("'")?;
        let Some(more) = behind.strip_prefix('\'') else {
            return Err(ParseRefusal::Syntax);
        };
        rest = more;
    }
    text.push_str(rest)?;
    Ok(Text::from_str(alloc, text.as_str())?)
}

// The text in which each of these quote marks is doubled. One without a quote mark is copied as it stands.
fn undoubled(alloc: Global, marked: &str) -> Result<Text, ParseRefusal>
    ensures text { IfOk result (λ text. marked.now ≡ flat_map doubled text) }
    ensures syntax { IsErrOf result ParseRefusal.Syntax → (text : List ℕ) → marked.now ≡ flat_map doubled text → ⊥ }
{
    if marked.contains('\'') {
        joined(alloc, marked)
    } else {
        Ok(Text::from_str(alloc, marked)?)
    }
}

/// The text that these characters spell. A short one without quote marks takes no memory.
pub fn text(alloc: Global, characters: &[u8]) -> Result<Text, ParseRefusal>
    ensures text { IfOk result (λ text. characters.now ≡ text_literal text) }
    ensures syntax { IsErrOf result ParseRefusal.Syntax → IsUtf8 characters.now → (text : List ℕ) → characters.now ≡ text_literal text → ⊥ }
{
    match between_marks(characters) {
        Some(marked) => undoubled(alloc, marked),
        None => Err(ParseRefusal::Syntax),
    }
}

// Writes a text with each quote mark doubled.
fn push_doubled<S: Sink>(line: &mut S, text: &str) -> Result<(), NoMemory>
    ensures { OnOk result (S.held line.new ≡ S.held line.old ++ flat_map doubled text.now) }
{
    let mut rest = text;
    while let Some((part, behind)) = rest.split_once('\'') {
        line.push_str(part)?;
        line.push_str("''")?;
        rest = behind;
    }
    line.push_str(rest)?;
    Ok(())
}

/// Writes a text between quote marks.
pub fn push_text<S: Sink>(line: &mut S, text: &str) -> Result<(), NoMemory>
    ensures { OnOk result (S.held line.new ≡ S.held line.old ++ text_literal text.now) }
{
    line.push_str("'")?;
    push_doubled(line, text)?;
    line.push_str("'")?;
    Ok(())
}
