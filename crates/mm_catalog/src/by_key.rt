//! The rows of a large load, in the order of their keys.
//!
//! Each row that comes into a table has its key sought there. Where keys rise from row to row, neighbours' searches go by the
//! same nodes and rows, which the caches then hold.
ghost use Rattle.std.specs.Prelude.{◌≡◌, IfSome, map, option_copied, slice_get};
ghost use Rattle.std.specs.List.Sorted.{IsPermutation};
ghost use Rattle.plain_tables.specs.Tables.{key_cmp};
ghost use Rattle.mm_catalog.specs.LoadOrder.{row_at};

use plain_tables::{RowList, Text, Value};
use std::alloc::Global;
use std::cmp::Ordering;

// A load of fewer rows goes in as it stands.
const LEAST_ROWS: usize = 1_000;

// So does one after which a table that had rows has fewer than these, which the caches hold. In one of no rows each rising key
// stands behind all that are there, so none is sought.
const LEAST_TABLE: u64 = 50_000;

// How many bytes of a text its number tells.
const LEADING: usize = 7;

/// A number that rises with the keys of rows, and the place of a row of a block. Rows of one number are told by their keys.
pub type KeyPlace = (i64, usize);

// What a text begins with, as a number.
fn beginning(text: &Text) -> i64 {
    let bytes = text.as_bytes();
    let mut number = 0;
    for place in 0..LEADING {
        let byte = bytes.get(place).copied().unwrap_or(0);
        number = number << 8 | i64::from(byte);
    }
    number
}

// The number of a row's key.
fn number_of(row: Option<&[Value]>) -> i64 {
    match row {
        Some([Value::Int(key), ..]) => *key,
        Some([Value::Text(key), ..]) => beginning(key),
        _ => 0,
    }
}

// The number and the place of each row, in the order of the block. None where no memory is found.
fn keys_of(alloc: Global, rows: &RowList) -> Option<Vec<KeyPlace>>
    ensures { IfSome result (λ keys. map (row_at rows.now) keys.items ≡ rows.now) }
{
    let mut keys = Vec::with_capacity(alloc, rows.len()).ok()?;
    for place in 0..rows.len() {
        keys.push_reserved((number_of(rows.get(place)), place));
    }
    Some(keys)
}

/// The row at a place, or one without values where there is none.
pub fn row_of<'a>(rows: &'a RowList, place: &KeyPlace) -> &'a [Value]
    ensures { result.now ≡ row_at rows.now place.now }
{
    match rows.get(place.1) {
        Some(row) => row,
        None => &[],
    }
}

// The key of the row at a place.
fn key_at<'a>(rows: &'a RowList, place: &KeyPlace) -> Option<&'a Value>
    ensures { option_copied result ≡ slice_get (row_at rows.now place.now) 0 }
{
    row_of(rows, place).first()
}

// How the keys of two rows stand to each other.
fn compare_keys(rows: &RowList, a: &KeyPlace, b: &KeyPlace) -> Ordering
    ensures { result ≡ key_cmp (row_at rows.now a.now) (row_at rows.now b.now) }
{
    match (key_at(rows, a), key_at(rows, b)) {
        (Some(key), Some(other)) => key.cmp(other),
        (Some(_), None) => Ordering::Greater,
        (None, Some(_)) => Ordering::Less,
        (None, None) => Ordering::Equal,
    }
}

// The same, by their numbers first.
fn compare(rows: &RowList, a: &KeyPlace, b: &KeyPlace) -> Ordering {
    match a.0.cmp(&b.0) {
        Ordering::Equal => compare_keys(rows, a, b),
        apart => apart,
    }
}

// Whether rows are so many that their order counts, and the table has none or is large with them.
fn counts(held: u64, rows: usize) -> bool {
    let all = held.saturating_add(rows as u64);
    rows >= LEAST_ROWS && (held == 0 || all >= LEAST_TABLE)
}

/// The places of the rows of a load, in the order of their keys, where they go in faster so than as they stand: they are many,
/// and the table, which holds so many rows, is empty or large with them. None where they stand so already, where a key stands
/// twice, or no memory is found.
pub fn rising_places(alloc: Global, held: u64, rows: &RowList) -> Option<Vec<KeyPlace>>
    ensures { IfSome result (λ keys. IsPermutation rows.now (map (row_at rows.now) keys.items)) }
{
    if !counts(held, rows.len()) {
        return None;
    }
    let mut keys = keys_of(alloc, rows)?;
    if keys.is_sorted_by(|a, b| compare(rows, a, b).is_lt()) {
        return None;
    }
    keys.sort_unstable_by(|a, b| compare(rows, a, b));
    if keys.is_sorted_by(|a, b| compare(rows, a, b).is_lt()) {
        Some(keys)
    } else {
        None
    }
}
