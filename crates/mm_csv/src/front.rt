//! Records without quotes, read where they lie.
//!
//! The fields of such a record are what stands between commas. One that isn't read here, since it has a quote mark, isn't ended
//! by a line feed alone, or is no row, is left to the library's reader.

ghost use Rattle.std.specs.Prelude.{◌≡◌, ◌≤◌, ◌<◌, ◌++◌, ◌∷◌, true, false, IfOk, IfSome, length, slice_index, take};
ghost use Rattle.plain_tables.specs.Csv.{calls_for_quotes, needs_quotes};
ghost use Rattle.mm_csv.specs.BlockReading.{columns_of};
ghost use Rattle.mm_csv.specs.FrontRecords as front;
ghost use Rattle.mm_csv.specs.FrontRecords.{BeginsWithHeader, BeginsWithRow, BeginsWithRows};

use crate::Field;
use crate::plain::is_special;
use crate::values::value_of;
use plain_tables::{NoMemory, RowList, Value};
use std::alloc::Global;

// What stands at the front of a text, and what is left behind it.
#[derive(Drop)]
struct FrontField<'a> {
    field: &'a [u8],
    left: &'a [u8],
}

/// The rows of records at the front of a text, and what is left behind these.
#[derive(Drop)]
pub struct FrontRows<'a> {
    pub rows: RowList,
    pub left: &'a [u8],
}

// How many bytes at the front of a text call for no quotes.
fn plain_length(text: &[u8]) -> usize
    ensures within { result ≤ length text.now }
    ensures plain { needs_quotes (take result text.now) ≡ false }
    ensures most { result < length text.now → calls_for_quotes (slice_index text.now result) ≡ true }
{
    for (place, byte) in text.iter().enumerate() {
        if is_special(*byte) {
            return place;
        }
    }
    text.len()
}

// The field at the front of a text, where it has no byte that calls for quotes and this one ends it.
fn front_field(text: &[u8], end: u8) -> Option<FrontField<'_>>
    ensures { IfSome result (λ front. (needs_quotes front.field.now ≡ false) × (text.now ≡ front.field.now ++ end ∷ front.left.now)) }
{
    let size = plain_length(text);
    if size < text.len() && text[size] == end {
        let field = &text[..size];
        let left = &text[size + 1..];
        Some(FrontField { field, left })
    } else {
        None
    }
}

// Whether no record begins with the first byte of a text, since it ends a line, or there is none.
fn begins_blank(text: &[u8]) -> bool
    ensures { result ≡ front.begins_blank text.now }
{
    match text.first() {
        Some(byte) => (*byte == b'\r') | (*byte == b'\n'),
        None => true,
    }
}

/// What is left of a text behind the record at its front, where that is read here. Its row is then put in place of these values.
pub fn front_row<'a>(
    alloc: Global,
    layout: &[Field],
    text: &'a [u8],
    row: &mut Vec<Value>,
) -> Result<Option<&'a [u8]>, NoMemory>
    ensures { IfOk result (λ front. IfSome front (λ left. BeginsWithRow (columns_of layout.now) text.now row.new.items left.now)) }
{
    let Some((last, others)) = layout.split_last() else {
        return Ok(None);
    };
    if begins_blank(text) {
        return Ok(None);
    }
    row.clear();
    let mut left = text;
    for column in others {
        let Some(front) = front_field(left, b',') else {
            return Ok(None);
        };
        let Some(value) = value_of(alloc, column, front.field)? else {
            return Ok(None);
        };
        row.push(value)?;
        left = front.left;
    }
    let Some(front) = front_field(left, b'\n') else {
        return Ok(None);
    };
    let Some(value) = value_of(alloc, last, front.field)? else {
        return Ok(None);
    };
    row.push(value)?;
    Ok(Some(front.left))
}

/// What is left of a text behind the header at its front, where that is read here.
pub fn behind_header<'a>(layout: &[Field], text: &'a [u8]) -> Option<&'a [u8]>
    ensures { IfSome result (λ left. BeginsWithHeader (columns_of layout.now) text.now left.now) }
{
    let (last, others) = layout.split_last()?;
    if begins_blank(text) {
        return None;
    }
    let mut left = text;
    for column in others {
        let front = front_field(left, b',')?;
        if front.field != column.name.as_bytes() {
            return None;
        }
        left = front.left;
    }
    let front = front_field(left, b'\n')?;
    if front.field != last.name.as_bytes() {
        return None;
    }
    Some(front.left)
}

/// The rows of the records at the front of a text, up to the first that isn't read here.
pub fn front_rows<'a>(
    alloc: Global,
    layout: &[Field],
    text: &'a [u8],
) -> Result<FrontRows<'a>, NoMemory>
    ensures { IfOk result (λ front. BeginsWithRows (columns_of layout.now) text.now front.rows front.left.now) }
{
    let mut rows = RowList::new(alloc);
    let mut row = Vec::new(alloc);
    let mut left = text;
    while let Some(behind) = front_row(alloc, layout, left, &mut row)? {
        rows.push(&mut row)?;
        left = behind;
    }
    Ok(FrontRows { rows, left })
}
