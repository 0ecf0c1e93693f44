//! What may help where a symbol stands at a place where it may not.

use crate::beside::{beside, of_word};
use crate::hints::hint;
use crate::nearest::Nearest;
use crate::unfit::{Kind, Unfit};
use mm_lang::{LinePlace, Wanted};
use no_memory::NoMemory;
use std::alloc::Global;

/// What may help.
#[derive(Clone, Copy)]
pub enum Advice {
    /// What is to be known.
    Known(&'static str),
    /// The keyword, which is written otherwise.
    Small(&'static str),
    /// The keyword that may be meant.
    Near(&'static str),
}

impl Advice {
    /// Its words, which are to be joined.
    pub fn words(self) -> (&'static str, &'static str, &'static str) {
        match self {
            Advice::Known(words) => (words, "", ""),
            Advice::Small(keyword) => ("", keyword, " is written in small letters"),
            Advice::Near(keyword) => ("is ", keyword, " meant?"),
        }
    }
}

// The keyword that a symbol is but for its capitals, of those that may stand at a place.
fn keyword_in_capitals(place: LinePlace, symbol: &str) -> Option<&'static str> {
    for wanted in place.wanted() {
        let keyword = match wanted {
            Wanted::Keyword(keyword) => *keyword,
            Wanted::Value => "null",
            _ => "",
        };
        if !keyword.is_empty() && keyword.eq_ignore_ascii_case(symbol) {
            return Some(keyword);
        }
    }
    None
}

// The keyword that is wrong by its capitals, at the symbol or before it.
fn capitals(unfit: &Unfit<'_>) -> Option<&'static str> {
    let is_distinct = unfit.before.eq_ignore_ascii_case("distinct");
    if unfit.place == LinePlace::BehindItemName && is_distinct {
        return Some("distinct");
    }
    keyword_in_capitals(unfit.place, unfit.text)
}

// The keyword that is nearest to a word, of those that may stand at a place.
fn nearest_keyword(
    alloc: Global,
    place: LinePlace,
    word: &str,
) -> Result<Option<&'static str>, NoMemory> {
    let mut nearest = Nearest::of(word);
    for wanted in place.wanted() {
        if let Wanted::Keyword(keyword) = wanted {
            nearest.look_at(alloc, *keyword)?;
        }
    }
    Ok(nearest.found())
}

// How a command is written, by a place that it alone has.
fn usage(place: LinePlace) -> Option<&'static str> {
    match place {
        LinePlace::Columns => Some("a table is table T (id int, name text)"),
        LinePlace::ColumnType => Some("the types are int, text and ref T"),
        LinePlace::IndexedColumn | LinePlace::IndexKind => Some("an index is index T c tree"),
        LinePlace::Values => Some("an insert is insert T (1, 'x')"),
        LinePlace::Set => Some("an update is update T set c = 1 where id = 1"),
        LinePlace::DeletedTable | LinePlace::BehindDeletedTable => {
            Some("a delete is delete T where id = 1")
        }
        LinePlace::On => Some("a join is join U on T.a = U.b"),
        LinePlace::Dot => Some("a join names each column with its table"),
        LinePlace::Count => Some("a load is load T 20, with 20 bytes behind the line"),
        _ => None,
    }
}

// What is to be known of a symbol by its kind alone.
fn of_kind(unfit: &Unfit<'_>) -> Option<&'static str> {
    match (unfit.kind, unfit.place) {
        (Kind::Word, LinePlace::Value | LinePlace::ComparedValue) => Some(of_word(unfit)),
        (Kind::Word, LinePlace::BehindTable) => Some("there are no aliases"),
        (Kind::Word, LinePlace::BehindItemName | LinePlace::BehindItem) => {
            Some("a comma stands between columns, and there are no aliases")
        }
        (
            Kind::Text,
            LinePlace::Table | LinePlace::Column | LinePlace::Select | LinePlace::Distinct,
        ) => { Some("names have no quote marks") }
        (_, place) => usage(place),
    }
}

// What is known of a symbol, of more than its kind.
fn known(unfit: &Unfit<'_>) -> Option<&'static str> {
    if unfit.is_behind_text && unfit.kind == Kind::Word {
        return Some("a quote mark in a text is written twice");
    }
    match unfit.place {
        LinePlace::IndexedColumn | LinePlace::DeletedTable => usage(unfit.place),
        place => match beside(unfit) {
            Some(words) => Some(words),
            None => hint(place, unfit.text),
        },
    }
}

/// What may help at a symbol that may not stand where it stands.
pub fn what_helps(alloc: Global, unfit: &Unfit<'_>) -> Result<Option<Advice>, NoMemory> {
    if let Some(keyword) = capitals(unfit) {
        return Ok(Some(Advice::Small(keyword)));
    }
    if let Some(words) = known(unfit) {
        return Ok(Some(Advice::Known(words)));
    }
    if unfit.kind == Kind::Word {
        if let Some(keyword) = nearest_keyword(alloc, unfit.place, unfit.text)? {
            return Ok(Some(Advice::Near(keyword)));
        }
    }
    Ok(of_kind(unfit).map(Advice::Known))
}
