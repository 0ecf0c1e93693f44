//! What is to be known of a symbol by those beside it.

use crate::hints::is_one_of;
use crate::unfit::{Kind, Unfit, has_word, is_numeral};
use mm_lang::LinePlace;

// The symbols before one, those that it may be itself, and those behind it, each any where none is named; and what is to be known.
type Neighbours = (
    &'static [&'static str],
    &'static [&'static str],
    &'static [&'static str],
    &'static str,
);

const COMMENT: &str = "a comment is a line of its own, and begins with #";

const ALL_COLUMNS: &str = "* stands alone, for all columns";

static NEIGHBOURS: [Neighbours; 10] = [
    (&[], &["#"], &[], COMMENT),
    (&[], &["-"], &["-"], COMMENT),
    (&[], &["/"], &["/", "*"], COMMENT),
    (&[".", ","], &["*"], &[], ALL_COLUMNS),
    (&["*"], &[","], &[], ALL_COLUMNS),
    (
        &[")"],
        &[",", "("],
        &[],
        "an insert adds one row, and a load several",
    ),
    (&["int", "text"], &["("], &[], "a type has no length"),
    (
        &["int", "text"],
        &["null"],
        &[],
        "a column takes nulls only where ref T null says so",
    ),
    (
        &["not"],
        &[],
        &[],
        "there is no not: the operators are =, <>, <, <=, > and >=",
    ),
    (
        &["top"],
        &[],
        &[],
        "a command applies to all rows that meet its conditions",
    ),
];

// Whether a symbol may stand for an operation of arithmetic behind a value.
fn is_operation(symbol: &str) -> bool {
    is_one_of(symbol, &["+", "-", "*", "/", "%", "|"])
        || symbol.starts_with('-') && is_numeral(symbol)
}

/// What is to be known of a word that stands where only a value may.
pub fn of_word(unfit: &Unfit<'_>) -> &'static str {
    if unfit.behind == "(" {
        return "there are no functions";
    }
    if unfit.behind == "." {
        return "a column can't be used as a value";
    }
    if is_operation(unfit.behind) {
        return "there is no arithmetic";
    }
    if has_word(unfit.rest, "values") {
        return "an insert is insert T (1, 'x'), and names no columns";
    }
    if is_one_of(unfit.before, &["(", ","]) {
        return "a text stands between quote marks";
    }
    "a text stands between quote marks, and a column can't be used as a value"
}

// What is to be known of a symbol behind a number.
fn behind_number(text: &str) -> Option<&'static str> {
    if text.starts_with('.') {
        return Some("there are no fractions");
    }
    if text.starts_with('-') && is_numeral(text) {
        return Some("there is no arithmetic, and a date can be a text, as '2024-01-31'");
    }
    None
}

// What is to be known of a comma.
fn of_comma(place: LinePlace) -> Option<&'static str> {
    match place {
        LinePlace::BehindTable => Some("a join is join U on T.a = U.b"),
        LinePlace::BehindCondition => Some("conditions are joined by and"),
        _ => None,
    }
}

// Whether a symbol is a number with an exponent, as other languages have it.
fn has_exponent(text: &str) -> bool {
    let Some((front, behind)) = text.split_once('e').or(text.split_once('E')) else {
        return false;
    };
    is_numeral(front) && (behind.is_empty() || is_numeral(behind))
}

// What is to be known of a character that is not ASCII.
fn of_character(c: char) -> &'static str {
    match c {
        '\u{ab}' | '\u{b4}' | '\u{bb}' | '\u{2018}'..='\u{201f}' | '\u{2032}' | '\u{2033}' => {
            "a text is written between straight quote marks, as 'x'"
        }
        '\u{2010}'..='\u{2015}' | '\u{2212}' => "the sign before a number is -",
        '\u{2260}' | '\u{2264}' | '\u{2265}' => "the operators are =, <>, <, <=, > and >=",
        '\u{a0}' | '\u{2000}'..='\u{200b}' | '\u{3000}' => "a blank is a space or a tab",
        '\u{feff}' => "a byte order mark is allowed at the front of a block only",
        _ => "characters that are not ASCII are allowed in texts only",
    }
}

// Whether a symbol is one of these, in capitals or not, or any where these are none.
fn is_any_of(symbol: &str, symbols: &[&str]) -> bool {
    symbols.is_empty() || is_one_of(symbol, symbols)
}

// What is to be known of a symbol by those directly before it and behind it.
fn by_neighbours(unfit: &Unfit<'_>) -> Option<&'static str> {
    let found = NEIGHBOURS.iter().find(|known| {
        is_any_of(unfit.before, known.0)
            && is_any_of(unfit.text, known.1)
            && is_any_of(unfit.behind, known.2)
    })?;
    Some(found.3)
}

// What is to be known of a symbol by its form, or by the place of a comma.
fn by_form(unfit: &Unfit<'_>) -> Option<&'static str> {
    if has_exponent(unfit.text) {
        return Some("there are no exponents");
    }
    if unfit.text == "," {
        return of_comma(unfit.place);
    }
    if is_numeral(unfit.before) {
        return behind_number(unfit.text);
    }
    None
}

/// What is to be known of a symbol by its first character, or by those beside it.
pub fn beside(unfit: &Unfit<'_>) -> Option<&'static str> {
    let first = unfit.text.chars().next()?;
    if !first.is_ascii() && unfit.kind == Kind::Other {
        return Some(of_character(first));
    }
    match by_neighbours(unfit) {
        Some(words) => Some(words),
        None => by_form(unfit),
    }
}
