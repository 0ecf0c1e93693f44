//! A load: the rows of a block, whose fields are those of a table's columns.
ghost use Rattle.std.specs.Prelude.{◌≡◌, ◌≢◌, ◌<◌, ℕ, Ok, Err, Some, IsSome, IfOk, IfErr, length, slice_get};
ghost use Rattle.plain_tables.specs.Resolving.{block_column, block_columns, resolved_of};
ghost use Rattle.plain_tables.specs.Tables.{Table};
ghost use Rattle.plain_tables.specs.declared.command.Command.TheVariants as command;
ghost use Rattle.plain_tables.specs.declared.refusal.Refusal.TheVariants as refusal;
ghost use Rattle.mm_csv.specs.BlockReading.{block_records, column_of, columns_of};

use crate::culprit::Culprit;
use crate::schemas::Schemas;
use crate::types::type_of;
use mm_csv::{CsvRefusal, Field, rows_of};
use no_memory::NoMemory;
use plain_tables::{ColKind, Column, Refusal, Resolved, TableNumber, Text};

// A column as a block has it. In a reference column stand the keys that it names.
fn block_field<S: Schemas>(schemas: &S, column: &Column) -> Result<Field, NoMemory>
    requires { IsSome (block_column (S.database schemas.now) column.now) }
    ensures { IfOk result (λ field. block_column (S.database schemas.now) column.now ≡ Some (column_of field)) }
{
    let Some(kind) = type_of(schemas, &column.kind) else {
        unreachable!()
    };
    Ok(Field {
        name: Text::from_str(schemas.allocator(), column.name.as_str())?,
        kind,
        null: matches!(&column.kind, ColKind::RefOrNull(_)),
    })
}

// The columns of a table as a block has them.
fn layout<S: Schemas>(schemas: &S, table: TableNumber) -> Result<Vec<Field>, NoMemory>
    requires { table.0 < length (S.database schemas.now) }
    ensures { IfOk result (λ layout. (t : Table) → slice_get (S.database schemas.now) table.0 ≡ Some t → block_columns (S.database schemas.now) t ≡ Some (columns_of layout.items)) }
{
    schemas.are_sound();
    let columns = schemas.columns(table);
    let mut layout = Vec::with_capacity(schemas.allocator(), columns.len())?;
    for column in columns {
        layout.push(block_field(schemas, column)?)?;
    }
    Ok(layout)
}

/// What a load of a block into the table of that name means: its rows, by the number of the table.
pub fn resolve_load<S: Schemas>(schemas: &S, name: &Text, block: &[u8]) -> Result<Resolved, Refusal>
    ensures meant { IfOk result (λ r. (bytes : ℕ) → resolved_of (block_records block.now) (S.database schemas.now) (command.Load name.now bytes) ≡ Ok r) }
    ensures refused { IfErr result (λ e. e ≢ refusal.NoMemory → (bytes : ℕ) → resolved_of (block_records block.now) (S.database schemas.now) (command.Load name.now bytes) ≡ Err e) }
{
    let Some(table) = schemas.table_number(name) else {
        schemas.blame(Refusal::NoSuchTable, Culprit::Table);
        return Err(Refusal::NoSuchTable);
    };
    let layout = layout(schemas, table)?;
    match rows_of(schemas.allocator(), &layout, block) {
        Ok(rows) => Ok(Resolved::Load { table, rows }),
        Err(CsvRefusal::Header) => {
            schemas.blame(Refusal::BadHeader, Culprit::Block);
            Err(Refusal::BadHeader)
        }
        Err(CsvRefusal::BadRow(record)) => {
            schemas.blame(Refusal::BadRecord { record }, Culprit::Block);
            Err(Refusal::BadRecord { record })
        }
        Err(CsvRefusal::NoMemory) => Err(Refusal::NoMemory),
    }
}
