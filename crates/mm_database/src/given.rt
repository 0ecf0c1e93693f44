//! Rows of values that C hands in: cells, and the bytes of their texts.

ghost use Rattle.std.specs.Prelude.{◌≡◌, ◌<◌, IfOk, IsErrOf, OnOk, length, map, slice_set};
ghost use Rattle.std.specs.List.{All};
ghost use Rattle.mm_cells.specs.Reading.{cell_value as value_of_cell};
ghost use Rattle.mm_prepared.specs.Cells.{cell_value};
ghost use Rattle.mm_database.specs.Given.{AreNoRows, AreRows, IsCell, IsWritten, text_in};
ghost use Rattle.mm_database.specs.declared.given.Unread.TheVariants as unread;

use mm_cells::{INTEGER, NULL, ResultCell, TEXT};
use mm_statements::{Bound, Declined, LentValue};
use no_memory::NoMemory;
use std::alloc::Global;

/// Why cells are not taken as rows of values.
#[derive(Clone, Copy)]
pub enum Unread {
    /// A cell is of no kind, a text lies elsewhere, or a row ends early.
    NotRows,
    NotUtf8,
    NoMemory,
}

impl From<NoMemory> for Unread {
    ghost use Rattle.std.specs.Prelude.{◌≡◌};
    ghost use Rattle.mm_database.specs.declared.given.Unread.TheVariants as unread;

    ghost from_gives = { λ _ e. e ≡ unread.NoMemory };

    fn from(_: NoMemory) -> Unread {
        Unread::NoMemory
    }
}

// The text that stands at a cell's place among these bytes.
fn text_of<'a>(cell: &ResultCell, texts: &'a [u8]) -> Result<&'a str, Unread>
    requires { cell.now.kind ≡ 2 }
    ensures text { IfOk result (λ text. text.now ≡ text_in texts.now cell.now) }
    ensures cell { IfOk result (λ text. IsCell texts.now cell.now) }
    ensures elsewhere { IsErrOf result unread.NotRows → ¬ (IsCell texts.now cell.now) }
    ensures not_utf8 { IsErrOf result unread.NotUtf8 → ¬ (IsWritten texts.now cell.now) }
    ensures memory { ¬ (IsErrOf result unread.NoMemory) }
{
    let start = cell.at as usize;
    let Some(bytes) = texts.get(start..start + cell.length as usize) else {
        return Err(Unread::NotRows);
    };
    match str::from_utf8(bytes) {
        Ok(text) => Ok(text),
        Err(_) => Err(Unread::NotUtf8),
    }
}

// The value that a cell is, lent.
fn value_of<'a>(cell: &ResultCell, texts: &'a [u8]) -> Result<LentValue<'a>, Unread>
    ensures value { IfOk result (λ value. cell_value value ≡ value_of_cell texts.now cell.now) }
    ensures cell { IfOk result (λ value. IsCell texts.now cell.now) }
    ensures elsewhere { IsErrOf result unread.NotRows → ¬ (IsCell texts.now cell.now) }
    ensures not_utf8 { IsErrOf result unread.NotUtf8 → ¬ (IsWritten texts.now cell.now) }
    ensures memory { ¬ (IsErrOf result unread.NoMemory) }
{
    if cell.kind == NULL {
        return Ok(LentValue::Null);
    }
    if cell.kind == INTEGER {
        return Ok(LentValue::Integer(cell.integer));
    }
    if cell.kind == TEXT {
        return Ok(LentValue::Text(text_of(cell, texts)?));
    }
    Err(Unread::NotRows)
}

// Puts the value that a cell is at a place of a row.
fn bind(row: &mut Bound, place: usize, cell: &ResultCell, texts: &[u8]) -> Result<(), Unread>
    requires { place < length row.old }
    ensures bound { OnOk result (row.new ≡ slice_set row.old place (value_of_cell texts.now cell.now)) }
    ensures cell { OnOk result (IsCell texts.now cell.now) }
    ensures elsewhere { IsErrOf result unread.NotRows → ¬ (IsCell texts.now cell.now) }
    ensures not_utf8 { IsErrOf result unread.NotUtf8 → ¬ (IsWritten texts.now cell.now) }
{
    match row.bind(place, value_of(cell, texts)?) {
        Ok(()) => Ok(()),
        Err(Declined::NoMemory) => Err(Unread::NoMemory),
        Err(Declined::NoSuchPlace | Declined::NoSuchStatement) => unreachable!(),
    }
}

// The row of the values that cells are.
fn row_of(alloc: Global, cells: &[ResultCell], texts: &[u8]) -> Result<Bound, Unread>
    ensures row { IfOk result (λ row. row ≡ map (value_of_cell texts.now) cells.now) }
    ensures cells { IfOk result (λ row. All (IsCell texts.now) cells.now) }
    ensures elsewhere { IsErrOf result unread.NotRows → ¬ (All (IsCell texts.now) cells.now) }
    ensures not_utf8 { IsErrOf result unread.NotUtf8 → ¬ (All (IsWritten texts.now) cells.now) }
{
    let mut row = Bound::new(alloc, cells.len())?;
    for (place, cell) in cells.iter().enumerate() {
        bind(&mut row, place, cell, texts)?;
    }
    Ok(row)
}

/// The rows of the values that cells are, so many in each.
pub fn rows_of(
    alloc: Global,
    cells: &[ResultCell],
    texts: &[u8],
    places: usize,
) -> Result<Vec<Bound>, Unread>
    ensures rows { IfOk result (λ rows. AreRows places (map (value_of_cell texts.now) cells.now) rows.items) }
    ensures elsewhere { IsErrOf result unread.NotRows → AreNoRows places texts.now cells.now }
    ensures not_utf8 { IsErrOf result unread.NotUtf8 → ¬ (All (IsWritten texts.now) cells.now) }
{
    let mut rows = Vec::new(alloc);
    let mut rest = cells;
    while !rest.is_empty() {
        if places == 0 || rest.len() < places {
            return Err(Unread::NotRows);
        }
        let (row, others) = rest.split_at(places);
        if rows.push(row_of(alloc, row, texts)?).is_err() {
            return Err(Unread::NoMemory);
        }
        rest = others;
    }
    Ok(rows)
}
