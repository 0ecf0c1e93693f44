//! Blocks that are too long or too short, and those that are no rows of their table.

use crate::fault::ReasonFault;
use crate::tables::{Seen, table_named};
use crate::told::{Reason, tell};
use crate::values::takes_null;
use csv::{ByteRecord, ErrorKind, Reader, ReaderBuilder};
use mm_catalog::Catalog;
use mm_syntax::Cut;
use plain_tables::{BaseKind, Column, LONGEST_TEXT, Text};
use std::alloc::Global;

// The bytes that may mark a text as UTF-8 at its front.
const MARK: [u8; 3] = [0xEF, 0xBB, 0xBF];

// The records of a block.
fn reader_of(alloc: Global, block: &[u8]) -> Reader<&[u8]> {
    ReaderBuilder::new()
        .has_headers(false)
        .flexible(true)
        .from_reader(alloc, block.strip_prefix(&MARK).unwrap_or(block))
}

// Reads the next record, and tells whether there was one. None where the library can't tell.
fn next_record(
    reader: &mut Reader<&[u8]>,
    fields: &mut ByteRecord,
) -> Result<Option<bool>, ReasonFault> {
    match reader.read_byte_record(fields) {
        Ok(is_there) => Ok(Some(is_there)),
        Err(error) if matches!(error.kind(), ErrorKind::OutOfMemory) => Err(ReasonFault::NoMemory),
        Err(_) => Ok(None),
    }
}

// The text of a field, where it is one.
fn text_of(field: &[u8]) -> &str {
    str::from_utf8(field).unwrap_or("what is not UTF-8")
}

// The first field of a header that is not the name of its column.
fn misnamed_field(alloc: Global, columns: &[Column], fields: &ByteRecord) -> Reason {
    for (place, column) in columns.iter().enumerate() {
        let field = fields.get(place).unwrap_or(b"");
        if field != column.name.as_bytes() {
            let (field, name) = (Cut::field(text_of(field)), column.name.as_str());
            let number = place.saturating_add(1);
            return tell(format!(in alloc;
                "field {number} of the header is {field}, and column {number} is {name}"
            ));
        }
    }
    Ok(None)
}

// Reads the first record of a block, and tells whether there was one. None where the library can't tell.
fn first_record(
    alloc: Global,
    block: &[u8],
    fields: &mut ByteRecord,
) -> Result<Option<bool>, ReasonFault> {
    let mut reader = reader_of(alloc, block);
    let is_there = next_record(&mut reader, fields);
    drop(reader);
    is_there
}

// Why a record is not the header of a table, if it isn't.
fn why_not_header(alloc: Global, table: &Seen<'_>, fields: &ByteRecord) -> Reason {
    let (name, columns, count) = (table.name, table.columns.len(), fields.len());
    if count == columns {
        return misnamed_field(alloc, table.columns, fields);
    }
    tell(format!(in alloc;
        "the header has a field for each column of {name}: {columns}, not {count}"
    ))
}

/// Why the first record of a block is not the header of a table, if it isn't.
pub fn why_no_header(alloc: Global, table: &Seen<'_>, block: &[u8]) -> Reason {
    let name = table.name;
    let is_marked = matches!(block.strip_prefix(&MARK), Some(behind) if behind.starts_with(&MARK));
    if is_marked {
        return tell(format!(in alloc; "more than one mark stands before the header of {name}"));
    }
    let mut fields = ByteRecord::new(alloc);
    match first_record(alloc, block, &mut fields)? {
        Some(true) => why_not_header(alloc, table, &fields),
        Some(false) => {
            tell(format!(in alloc; "the block has no header of the columns of {name}"))
        }
        None => Ok(None),
    }
}

// Why a field can't stand in a column, if it can't.
fn why_no_value(alloc: Global, column: &Column, kind: BaseKind, field: &[u8]) -> Reason {
    if takes_null(column) && field.is_empty() {
        return Ok(None);
    }
    let (name, bytes) = (column.name.as_str(), field.len());
    let Ok(text) = str::from_utf8(field) else {
        return tell(format!(in alloc; "the field of {name} is not UTF-8"));
    };
    let shown = Cut::field(text);
    match kind {
        BaseKind::Int if text.starts_with('+') || text.parse::<i64>().is_err() => {
            tell(format!(in alloc;
                "the field of {name} is {shown}, and that is no integer of 64 bits"
            ))
        }
        BaseKind::Text if bytes > LONGEST_TEXT => {
            tell(format!(in alloc;
                "the field of {name} has {bytes} bytes, and {LONGEST_TEXT} are allowed"
            ))
        }
        _ => Ok(None),
    }
}

// Why a record is no row of a table, if it is none.
fn why_no_row(alloc: Global, catalog: &Catalog, table: &Seen<'_>, fields: &ByteRecord) -> Reason {
    let (count, name, columns) = (fields.len(), table.name, table.columns.len());
    if count != columns {
        return tell(format!(in alloc;
            "a row of {name} has a field for each column: {columns}, not {count}"
        ));
    }
    for (place, column) in table.columns.iter().enumerate() {
        if let Some(kind) = catalog.type_of(&column.kind) {
            let field = fields.get(place).unwrap_or(b"");
            if let Some(told) = why_no_value(alloc, column, kind, field)? {
                return Ok(Some(told));
            }
        }
    }
    Ok(None)
}

/// Why the record of that number behind the header of a block is no row of a table, if it is none.
pub fn why_no_row_at(
    alloc: Global,
    catalog: &Catalog,
    table: &Seen<'_>,
    block: &[u8],
    record: u64,
) -> Reason {
    let mut reader = reader_of(alloc, block);
    let mut fields = ByteRecord::new(alloc);
    for _ in 0..=record {
        if next_record(&mut reader, &mut fields)? != Some(true) {
            return Ok(None);
        }
    }
    why_no_row(alloc, catalog, table, &fields)
}

/// That a line asks for a block past the limit, if it does.
pub fn too_long(alloc: Global, catalog: &Catalog, bytes: u64) -> Reason {
    let most = u64::from(catalog.limits().block);
    if bytes <= most {
        return Ok(None);
    }
    tell(format!(in alloc; "the line asks for {bytes} bytes, and a block has at most {most}"))
}

/// That fewer bytes have come than the line asks for, if it is so.
pub fn cut_short(alloc: Global, bytes: u64, block: &[u8]) -> Reason {
    let come = block.len();
    if come as u64 >= bytes {
        return Ok(None);
    }
    tell(format!(in alloc; "the line asks for {bytes} bytes, and {come} have come"))
}

/// That the rows of a table are too many bytes for a block.
pub fn too_long_dump(alloc: Global, catalog: &Catalog, table: &Text) -> Reason {
    let Some(table) = table_named(catalog, table) else {
        return Ok(None);
    };
    let (name, most) = (table.name, catalog.limits().block);
    tell(format!(in alloc;
        "the rows of {name} have more bytes than a block, which has at most {most}"
    ))
}
