//! The values of fields, and the row of a record.

ghost use Rattle.std.specs.Prelude.{◌≡◌, true, false, None, Some, IfOk, option_map};
ghost use Rattle.csv.specs.Records.{fields_of};
ghost use Rattle.plain_tables.specs.CsvReading as reading;
ghost use Rattle.plain_tables.specs.declared.value.Value.TheVariants as value;
ghost use Rattle.mm_csv.specs.BlockReading.{column_of, columns_of};

use crate::Field;
use crate::numbers::integer_of;
use csv::ByteRecord;
use plain_tables::{BaseKind, LONGEST_TEXT, NoMemory, Text, Value};
use std::alloc::Global;

// The text that a field is, if it is one that a column may hold.
fn text_of(alloc: Global, field: &[u8]) -> Result<Option<Text>, NoMemory>
    ensures { IfOk result (λ text. option_map value.Text text ≡ reading.text_of field.now) }
{
    if field.len() > LONGEST_TEXT {
        return Ok(None);
    }
    match str::from_utf8(field) {
        Ok(text) => Ok(Some(Text::from_str(alloc, text)?)),
        Err(_) => Ok(None),
    }
}

/// What a field is in a column, if it may stand there.
pub fn value_of(alloc: Global, column: &Field, field: &[u8]) -> Result<Option<Value>, NoMemory>
    ensures { IfOk result (λ value. value ≡ reading.field_value (column_of column.now) field.now) }
{
    if column.null && field.is_empty() {
        return Ok(Some(Value::Null));
    }
    match column.kind {
        BaseKind::Int => Ok(integer_of(field).map(Value::Int)),
        BaseKind::Text => Ok(text_of(alloc, field)?.map(Value::Text)),
    }
}

/// Whether a record has one field for each column, and each field may stand in its column. Its row is then put in place of these values.
pub fn read_row(
    alloc: Global,
    layout: &[Field],
    fields: &ByteRecord,
    row: &mut Vec<Value>,
) -> Result<bool, NoMemory>
    ensures row { IfOk result (λ is. is ≡ true → reading.row_of (columns_of layout.now) (fields_of fields.now) ≡ Some row.new.items) }
    ensures none { IfOk result (λ is. is ≡ false → reading.row_of (columns_of layout.now) (fields_of fields.now) ≡ None) }
{
    row.clear();
    if fields.len() != layout.len() {
        return Ok(false);
    }
    for (i, column) in layout.iter().enumerate() {
        let Some(field) = fields.get(i) else {
            return Ok(false);
        };
        match value_of(alloc, column, field)? {
            Some(value) => row.push(value)?,
            None => return Ok(false),
        }
    }
    Ok(true)
}

/// Whether a record is the names of the columns in their order.
pub fn is_header(layout: &[Field], fields: &ByteRecord) -> bool
    ensures { result ≡ reading.is_header (columns_of layout.now) (fields_of fields.now) }
{
    if fields.len() != layout.len() {
        return false;
    }
    for (i, column) in layout.iter().enumerate() {
        let Some(name) = fields.get(i) else {
            return false;
        };
        if name != column.name.as_bytes() {
            return false;
        }
    }
    true
}
