//! Worked blocks: how a text is written in one, and that it is read again.

ghost use Rattle.std.specs.Prelude.{◌≡◌, length, IfOk};

use mm_csv::{CsvRefusal, Field, block_of, rows_of};
use plain_tables::{BaseKind, NoMemory, RowList, Sequence, Text, Value};
use std::alloc::Global;

// Texts, and the fields that they are.
const FIELDS: &[(&str, &str)] = &[
    ("a", "a"),
    ("a,\"b'", "\"a,\"\"b'\""),
    ("two\r\nlines", "\"two\r\nlines\""),
    ("é \t;'", "é \t;'"),
    ("\r", "\"\r\""),
    ("", ""),
];

// A row of the least integer and a text.
fn row_of(alloc: Global, word: &str) -> Result<Sequence<Value>, NoMemory>
    ensures { IfOk result (λ row. length row ≡ 2) }
{
    let word = Text::from_str(alloc, word)?;
    let row = vec![in alloc; Value::Int(i64::MIN), Value::Text(word)]?;
    Ok(Sequence::from_vec(row))
}

// The block of the row.
fn written(alloc: Global, word: &str) -> Result<Vec<u8>, NoMemory> {
    let names = [Text::from_str(alloc, "id")?, Text::from_str(alloc, "s")?];
    block_of(alloc, &names, &[row_of(alloc, word)?])
}

fn field(alloc: Global, name: &str, kind: BaseKind) -> Result<Field, NoMemory> {
    let name = Text::from_str(alloc, name)?;
    Ok(Field {
        name,
        kind,
        null: false,
    })
}

fn read(alloc: Global, block: &[u8]) -> Result<RowList, CsvRefusal> {
    let layout = [
        field(alloc, "id", BaseKind::Int)?,
        field(alloc, "s", BaseKind::Text)?,
    ];
    rows_of(alloc, &layout, block)
}

// The block of the row with a text as that field.
fn worked(alloc: Global, field: &str) -> Result<String, NoMemory> {
    Ok(format!(in alloc; "id,s\n-9223372036854775808,{field}\n")?)
}

// Whether a block with the text has that field, and is read as the row.
fn is_field_of(alloc: Global, word: &str, field: &str) -> Result<bool, CsvRefusal> {
    let block = written(alloc, word)?;
    let row = row_of(alloc, word)?;
    let rows = read(alloc, block.as_slice())?;
    let is_read = rows.len() == 1 && rows.get(0) == Some(row.as_slice());
    Ok(is_read && block.as_slice() == worked(alloc, field)?.as_bytes())
}

// The first text that is another field, or isn't read again.
fn first_miswritten(alloc: Global) -> Result<Option<&'static str>, CsvRefusal> {
    for (word, field) in FIELDS {
        if !is_field_of(alloc, *word, *field)? {
            return Ok(Some(*word));
        }
    }
    Ok(None)
}

#[test]
fn blocks_are_written_and_read(rt: HostRuntime) {
    assert_eq!(rt; first_miswritten(rt.alloc()), Ok(None));
}

#[test]
fn blocks_under_refusal(rt: HostRuntime) {
    let miswritten = first_miswritten(rt.alloc());
    assert!(rt; miswritten == Ok(None) || miswritten == Err(CsvRefusal::NoMemory));
}
