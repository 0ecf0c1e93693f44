//! What is known of tables before a row is looked at.
ghost use Rattle.std.specs.Prelude.{◌≡◌, ◌<◌, Some, None, IfOk, IfErr, length, position, slice_get};
ghost use Rattle.std.specs.List.{list_any};
ghost use Rattle.std.specs.Option.{option_map};
ghost use Rattle.plain_tables.specs.Databases.{Database, is_named, table_named};
ghost use Rattle.plain_tables.specs.References as plain;
ghost use Rattle.plain_tables.specs.declared.command.Limits.{Limits as PlainLimits};
ghost use Rattle.plain_tables.specs.declared.refusal.Refusal.TheVariants.{NoSuchTable};
ghost use Rattle.mm_resolver.specs.Naming.{IsNamedTableOf, table_number};

use crate::culprit::Culprit;
use crate::named_table::NamedTable;
use plain_tables::{Column, ColumnNumber, IndexKind, Refusal, TableNumber, Text};
use std::alloc::Global;

/// Tables by their numbers, as far as names mean anything of them: their names, their columns and their declared indexes.
pub trait Schemas {
    // the database of which these are the names, the columns and the indexes
    ghost database: { Self → Database };

    // the limits that it keeps to
    ghost limits: { Self → PlainLimits };

    /// The database is sound. It is the contract of a function that does nothing.
    fn are_sound(&self)
        ensures { plain.IsSound (limits self.now) (database self.now) };

    /// How many tables there are.
    fn table_count(&self) -> usize
        ensures { result ≡ length (database self.now) };

    /// The number of the table of that name.
    fn table_number(&self, name: &Text) -> Option<TableNumber>
        ensures { result ≡ option_map table_number (position (is_named name.now) (database self.now)) };

    /// The name of a table.
    fn table_name(&self, table: TableNumber) -> &str
        requires { table.0 < length (database self.now) }
        ensures { option_map (λ t. t.name) (slice_get (database self.now) table.0) ≡ Some result.now };

    /// The columns of a table.
    fn columns(&self, table: TableNumber) -> &[Column]
        requires { table.0 < length (database self.now) }
        ensures { option_map (λ t. t.columns) (slice_get (database self.now) table.0) ≡ Some result.now };

    /// Whether an index of this column and kind is declared.
    fn declares(&self, table: TableNumber, column: ColumnNumber, kind: IndexKind) -> bool
        requires { table.0 < length (database self.now) }
        ensures { option_map (λ t. list_any (plain.is_index column kind) t.indexes) (slice_get (database self.now) table.0) ≡ Some result };

    /// Whether a column of some table refers to the table of that name.
    fn is_table_referenced(&self, name: &str) -> bool
        ensures { result ≡ plain.is_table_referenced (database self.now) name.now };

    /// Where lists get their memory.
    fn allocator(&self) -> Global;

    /// Hears what of a command is to blame if it is refused so. It may be refused for something else in the end. Where more than
    /// one thing is to blame for one refusal, the first that it hears of is the culprit.
    fn blame(&self, refusal: Refusal, culprit: Culprit);
}

/// The table of that name, and what of it can be named. Where there is none, the culprit is to blame.
pub fn named_table<'a, S: Schemas>(
    schemas: &'a S,
    name: &Text,
    culprit: Culprit,
) -> Result<NamedTable<'a>, Refusal>
    ensures found { IfOk result (IsNamedTableOf (S.database schemas.now) name.now) }
    ensures refused { IfErr result (λ e. e ≡ NoSuchTable) }
    ensures missed { IfErr result (λ _. table_named name.now (S.database schemas.now) ≡ None) }
{
    schemas.are_sound();
    let Some(table) = schemas.table_number(name) else {
        schemas.blame(Refusal::NoSuchTable, culprit);
        return Err(Refusal::NoSuchTable);
    };
    Ok(NamedTable {
        table,
        name: schemas.table_name(table),
        columns: schemas.columns(table),
    })
}
