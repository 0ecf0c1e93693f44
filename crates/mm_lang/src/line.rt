//! A line, and its first symbol.

ghost use Rattle.std.specs.Prelude.{◌≡◌};
ghost use Rattle.std.specs.List.{Contains};
ghost use Rattle.plain_tables.specs.Reading.{lexeme, after_lexeme};
ghost use Rattle.mm_lang.specs.Parsing.{IsOfText};

use crate::lexemes::split_lexeme;
use std::marker::Model;

/// A text without a line feed, of which the first symbol is cut off once.
#[derive(Drop)]
pub struct Line<'a> {
    text: &'a str,
    word: &'a [u8],
    rest: &'a [u8],
}

impl<'a> Model for Line<'a> {
    ghost use Rattle.std.specs.Prelude.{List, ℕ, ◌≡◌};
    ghost use Rattle.std.specs.List.{Contains};
    ghost use Rattle.std.specs.Str.{IsUtf8};
    ghost use Rattle.plain_tables.specs.Reading.{lexeme, after_lexeme};

    ghost Value = { List ℕ };

    ghost view = { λ l. l.text.now };

    ghost invariant = { λ l. IsUtf8 l.text.now × ¬ (Contains l.text.now 10) × (l.word.now ≡ lexeme l.text.now) × (l.rest.now ≡ after_lexeme l.text.now) };
}

impl<'a> Line<'a> {
    /// The text as a line.
    pub fn new(text: &'a str) -> Line<'a>
        requires { ¬ (Contains text.now 10) }
        ensures { result ≡ text.now }
    {
        let (word, rest) = split_lexeme(text.as_bytes());
        Line { text, word, rest }
    }

    /// The text.
    pub fn as_str(&self) -> &'a str
        ensures { result.now ≡ self.now }
    {
        self.text
    }

    /// The characters of the first symbol.
    pub(crate) fn word(&self) -> &'a [u8]
        ensures { result.now ≡ lexeme self.now }
    {
        self.word
    }

    /// What stands behind the first symbol.
    pub(crate) fn rest(&self) -> &'a [u8]
        ensures rest { result.now ≡ after_lexeme self.now }
        ensures of_text { IsOfText result.now }
        ensures unbroken { ¬ (Contains self.now 10) }
    {
        self.rest
    }
}
