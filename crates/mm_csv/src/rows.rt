//! A whole block, read into rows.

ghost use Rattle.std.specs.Prelude.{◌≡◌, ◌++◌, true, false, List, Some, IfErr, IfOk};
ghost use Rattle.csv.specs.Reading.{default_config, records};
ghost use Rattle.csv.specs.Records.{fields_of};
ghost use Rattle.plain_tables.specs.CsvReading as reading;
ghost use Rattle.mm_csv.specs.BlockReading.{IsReading, ReadsRecord, Tells, block_reading, columns_of, records_left};
ghost use Rattle.mm_csv.specs.FrontRecords.{AreRowsOf, BeginsWithHeader};

use crate::front::{behind_header, front_rows};
use crate::values::{is_header, read_row};
use crate::{CsvRefusal, Field};
use csv::{ByteRecord, Reader, ReaderBuilder};
use plain_tables::RowList;
use std::alloc::Global;

// The bytes that may mark a text as UTF-8 at its front.
const MARK: [u8; 3] = [0xEF, 0xBB, 0xBF];

// A block without the mark at its front, taken off once.
fn without_mark(block: &[u8]) -> &[u8]
    ensures { result.now ≡ reading.without_mark block.now }
{
    block.strip_prefix(&MARK).unwrap_or(block)
}

// A reader of the records of a text that begins with no mark.
fn reader_of(alloc: Global, text: &[u8]) -> Reader<&[u8]>
    requires { reading.begins_with_mark text.now ≡ false }
    ensures reading { IsReading result }
    ensures records { records_left result ≡ records default_config text.now }
{
    ReaderBuilder::new()
        .has_headers(false)
        .flexible(true)
        .from_reader(alloc, text)
}

// The library could not read on. The text is lent and its records may have any lengths, so only a growth can be refused to it; but no
// value of its error says so.
#[derive(Clone, Copy)]
struct Unread;

impl From<Unread> for CsvRefusal {
    ghost use Rattle.mm_csv.specs.declared.csv_refusal.CsvRefusal.TheVariants as refusal;

    ghost from_gives = { λ _ e. e ≡ refusal.NoMemory };

    fn from(_: Unread) -> CsvRefusal {
        CsvRefusal::NoMemory
    }
}

// Reads the next record, and tells whether there was one.
fn next_record(reader: &mut Reader<&[u8]>, fields: &mut ByteRecord) -> Result<bool, Unread>
    requires { IsReading reader.old }
    ensures reads { IfOk result (λ found. ReadsRecord found (records_left reader.old) (records_left reader.new) (fields_of fields.new)) }
    ensures reading { IfOk result (λ found. found ≡ true → IsReading reader.new) }
{
    match reader.read_byte_record(fields) {
        Ok(found) => Ok(found),
        Err(_) => Err(Unread),
    }
}

// The rows of the records that are left to read, behind rows that were read. What `fields` holds is not used.
fn rows_left(
    alloc: Global,
    layout: &[Field],
    reader: &mut Reader<&[u8]>,
    fields: &mut ByteRecord,
    mut rows: RowList,
) -> Result<RowList, CsvRefusal>
    requires { IsReading reader.old }
    ensures rows { IfOk result (λ all. (before : List reading.Record) → AreRowsOf (columns_of layout.now) before rows → reading.rows_reading (columns_of layout.now) (before ++ records_left reader.old) ≡ reading.Rows all) }
    ensures refused { IfErr result (λ e. (before : List reading.Record) → AreRowsOf (columns_of layout.now) before rows → Tells e (reading.rows_reading (columns_of layout.now) (before ++ records_left reader.old))) }
{
    let mut row = Vec::new(alloc);
    while next_record(reader, fields)? {
        if !read_row(alloc, layout, fields, &mut row)? {
            return Err(CsvRefusal::BadRow(rows.len() as u64 + 1));
        }
        rows.push(&mut row)?;
    }
    Ok(rows)
}

// The rows of a text that begins with no mark: behind the header, one for each record.
fn read_rows(alloc: Global, layout: &[Field], text: &[u8]) -> Result<RowList, CsvRefusal>
    requires { reading.begins_with_mark text.now ≡ false }
    ensures rows { IfOk result (λ rows. reading.records_reading (columns_of layout.now) (records default_config text.now) ≡ reading.Rows rows) }
    ensures refused { IfErr result (λ e. Tells e (reading.records_reading (columns_of layout.now) (records default_config text.now))) }
{
    let mut reader = reader_of(alloc, text);
    let mut fields = ByteRecord::new(alloc);
    if !next_record(&mut reader, &mut fields)? || !is_header(layout, &fields) {
        return Err(CsvRefusal::Header);
    }
    rows_left(alloc, layout, &mut reader, &mut fields, RowList::new(alloc))
}

// The rows of a text that begins with no mark and no quotes, from what is left of it behind its header.
fn rows_behind(
    alloc: Global,
    layout: &[Field],
    text: &[u8],
    left: &[u8],
) -> Result<RowList, CsvRefusal>
    requires plain { reading.begins_with_mark text.now ≡ false }
    requires header { BeginsWithHeader (columns_of layout.now) text.now left.now }
    ensures rows { IfOk result (λ rows. reading.records_reading (columns_of layout.now) (records default_config text.now) ≡ reading.Rows rows) }
    ensures refused { IfErr result (λ e. Tells e (reading.records_reading (columns_of layout.now) (records default_config text.now))) }
{
    let front = front_rows(alloc, layout, left)?;
    if front.left.is_empty() {
        return Ok(front.rows);
    }
    if front.left.starts_with(&MARK) {
        return read_rows(alloc, layout, text);
    }
    let mut reader = reader_of(alloc, front.left);
    let mut fields = ByteRecord::new(alloc);
    rows_left(alloc, layout, &mut reader, &mut fields, front.rows)
}

/// The rows of a block under a layout: behind the header, one for each record. The first of them are read where they lie, up to
/// one that is quoted or no row, and those from there on by the library.
pub fn rows_of(alloc: Global, layout: &[Field], block: &[u8]) -> Result<RowList, CsvRefusal>
    ensures rows { IfOk result (λ rows. block_reading (columns_of layout.now) block.now ≡ reading.Rows rows) }
    ensures refused { IfErr result (λ e. Tells e (block_reading (columns_of layout.now) block.now)) }
{
    let text = without_mark(block);
    if text.starts_with(&MARK) {
        return Err(CsvRefusal::Header);
    }
    match behind_header(layout, text) {
        Some(left) => rows_behind(alloc, layout, text, left),
        None => read_rows(alloc, layout, text),
    }
}
