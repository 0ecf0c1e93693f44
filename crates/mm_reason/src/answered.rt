//! The refusal that an answer reports.

use mm_session::split_line;
use plain_tables::Refusal;

// All refusals, without a record. Add each new one here.
const REFUSALS: [Refusal; 26] = [
    Refusal::LineTooLong,
    Refusal::NotUtf8,
    Refusal::BlockTooLong,
    Refusal::BlockCutShort,
    Refusal::NotACommand,
    Refusal::NoSuchTable,
    Refusal::TableExists,
    Refusal::NoSuchColumn,
    Refusal::ColumnNamedTwice,
    Refusal::TableNamedTwice,
    Refusal::WrongType,
    Refusal::KeyCannotBeSet,
    Refusal::TooMany,
    Refusal::NoSuchIndex,
    Refusal::IndexExists,
    Refusal::TableIsReferenced,
    Refusal::KeyExists { record: None },
    Refusal::NoReferencedRow { record: None },
    Refusal::TableFull { record: None },
    Refusal::RowIsReferenced,
    Refusal::WrongNumberOfValues,
    Refusal::TextTooLong,
    Refusal::BadHeader,
    Refusal::BadRecord { record: 0 },
    Refusal::DumpTooLong,
    Refusal::NoMemory,
];

// The number of a record at the end of a refusal's words, in brackets or not, if there is one.
fn record_of(words: &str) -> Option<u64> {
    let last = words.split(' ').last()?;
    last.trim_matches(|c: char| c == '(' || c == ')')
        .parse()
        .ok()
}

/// The refusal that the first line of an answer reports, with the number of its record, if it has one.
pub fn refusal_of(answer: &[u8]) -> Option<Refusal> {
    let (line, _) = split_line(answer)?;
    let told = str::from_utf8(line).ok()?.strip_prefix("error ")?;
    let (number, words) = told.split_once(' ')?;
    let number: u8 = number.parse().ok()?;
    let refusal = REFUSALS.iter().find(|refusal| refusal.number() == number)?;
    let record = record_of(words);
    Some(match *refusal {
        Refusal::KeyExists { .. } => Refusal::KeyExists { record },
        Refusal::NoReferencedRow { .. } => Refusal::NoReferencedRow { record },
        Refusal::TableFull { .. } => Refusal::TableFull { record },
        Refusal::BadRecord { .. } => Refusal::BadRecord { record: record? },
        other => other,
    })
}
