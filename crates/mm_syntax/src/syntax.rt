//! Why a line is no command, or no statement: what stands where the parser stops, and what may stand there.

use crate::advice::{Advice, what_helps};
use crate::shown::Cut;
use crate::unfit::{Kind, Unfit, is_numeral, symbol_at};
use mm_lang::{LONGEST_NAME, LinePlace, Stop, Wanted, is_reserved_word};
use no_memory::NoMemory;
use std::alloc::Global;

// What may stand at a place, in words.
fn words_of(wanted: Wanted) -> &'static str {
    match wanted {
        Wanted::Sign(",") => "a comma",
        Wanted::Sign(".") => "a dot",
        Wanted::Sign(symbol) | Wanted::Keyword(symbol) => symbol,
        Wanted::TableName => "a table's name",
        Wanted::ColumnName => "a column's name",
        Wanted::Value => "a value",
        Wanted::Operator => "an operator",
        Wanted::Count => "a number of bytes",
        Wanted::End => "the end of the line",
    }
}

// All that may stand at a place, in words.
fn wanted(alloc: Global, place: LinePlace) -> Result<String, NoMemory> {
    let mut words = String::new(alloc);
    let mut left = place.wanted().len();
    for wanted in place.wanted() {
        if !words.is_empty() {
            words.push_str(if left == 1 { " or " } else { ", " })?;
        }
        words.push_str(words_of(*wanted))?;
        left = left.saturating_sub(1);
    }
    Ok(words)
}

// What is wrong with a symbol wherever it stands.
fn misformed(alloc: Global, unfit: &Unfit<'_>) -> Result<Option<String>, NoMemory> {
    let text = Cut::of(unfit.text);
    match unfit.kind {
        Kind::OpenText => {
            Ok(Some(format!(in alloc; "the text {text} has no quote mark at its end")?))
        }
        Kind::Number if unfit.text != "-" && !is_numeral(unfit.text) => {
            Ok(Some(format!(in alloc; "{text} is no number, and a name begins with a letter")?))
        }
        _ => Ok(None),
    }
}

// Why a word is no name, where one may stand.
fn no_name(alloc: Global, place: LinePlace, word: &str) -> Result<String, NoMemory> {
    let (text, bytes) = (Cut::of(word), word.len());
    if is_reserved_word(word.as_bytes()) {
        let wanted = wanted(alloc, place)?;
        return Ok(format!(in alloc; "wanted {wanted}, and {text} is a reserved word")?);
    }
    Ok(format!(in alloc; "the name {text} has {bytes} bytes, and {LONGEST_NAME} are allowed")?)
}

// That a number has no room.
fn past_64_bits(alloc: Global, number: Cut<'_>) -> Result<String, NoMemory> {
    Ok(format!(in alloc; "{number} is past 64 bits")?)
}

// Why a symbol is not what may stand at its place, if there is more to be said of it.
fn unlike(alloc: Global, wanted: Wanted, unfit: &Unfit<'_>) -> Result<Option<String>, NoMemory> {
    let text = Cut::of(unfit.text);
    match (wanted, unfit.kind) {
        (Wanted::TableName | Wanted::ColumnName, Kind::Word) => {
            no_name(alloc, unfit.place, unfit.text).map(Some)
        }
        (Wanted::Value, Kind::Word) => Ok(Some(format!(in alloc; "{text} is no value")?)),
        (Wanted::Value, Kind::Number) if unfit.text != "-" => past_64_bits(alloc, text).map(Some),
        (Wanted::Count, Kind::Number) if !unfit.text.starts_with('-') => {
            past_64_bits(alloc, text).map(Some)
        }
        _ => Ok(None),
    }
}

// What was wanted at a place, and what stands there.
fn unwanted(alloc: Global, unfit: &Unfit<'_>) -> Result<String, NoMemory> {
    let wanted = wanted(alloc, unfit.place)?;
    if unfit.kind == Kind::End {
        return Ok(format!(in alloc; "wanted {wanted}, found the end of the line")?);
    }
    let sign = Cut::symbol(unfit.text);
    Ok(format!(in alloc; "wanted {wanted}, found {sign}")?)
}

// Why a line doesn't begin with what its first symbol was to be, where there is advice of it.
fn no_beginning(
    alloc: Global,
    unfit: &Unfit<'_>,
    advice: Option<Advice>,
) -> Result<Option<String>, NoMemory> {
    let what = match unfit.place {
        LinePlace::Command => "command",
        LinePlace::Statement => "statement",
        _ => return Ok(None),
    };
    if advice.is_none() {
        return Ok(None);
    }
    let sign = Cut::symbol(unfit.text);
    Ok(Some(format!(in alloc; "{sign} is no {what}")?))
}

// Why a symbol may not stand at its place, without what may help.
fn told(alloc: Global, unfit: &Unfit<'_>, advice: Option<Advice>) -> Result<String, NoMemory> {
    if let Some(words) = misformed(alloc, unfit)? {
        return Ok(words);
    }
    if let Some(words) = no_beginning(alloc, unfit, advice)? {
        return Ok(words);
    }
    for wanted in unfit.place.wanted() {
        if let Some(words) = unlike(alloc, *wanted, unfit)? {
            return Ok(words);
        }
    }
    unwanted(alloc, unfit)
}

/// Why a line stops to be a command or a statement, by where it stops.
pub fn why_stopped(alloc: Global, line: &str, stop: Stop) -> Result<String, NoMemory> {
    let unfit = symbol_at(line, stop);
    let column = unfit.column;
    let advice = what_helps(alloc, &unfit)?;
    let told = told(alloc, &unfit, advice)?;
    let Some(advice) = advice else {
        return Ok(format!(in alloc; "column {column}: {told}")?);
    };
    let (front, keyword, behind) = advice.words();
    Ok(format!(in alloc; "column {column}: {told}: {front}{keyword}{behind}")?)
}
