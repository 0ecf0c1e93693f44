//! Commands by the numbers of tables and columns.
ghost use Rattle.std.specs.Prelude.{◌≡◌, ◌≢◌, ◌<◌, [], Ok, Err, Some, IfOk, IfErr, length, slice_get};
ghost use Rattle.std.specs.List.{list_any};
ghost use Rattle.std.specs.Option.{option_map};
ghost use Rattle.plain_tables.specs.declared.refusal.Refusal.TheVariants as refusal;
ghost use Rattle.plain_tables.specs.declared.command.Command.TheVariants as command;
ghost use Rattle.plain_tables.specs.declared.schema.IndexKind.TheVariants as index;
ghost use Rattle.plain_tables.specs.References as plain;
ghost use Rattle.plain_tables.specs.Resolving.{resolved_of};
ghost use Rattle.mm_csv.specs.BlockReading.{block_records};

use crate::checks::check_table;
use crate::culprit::Culprit;
use crate::load::resolve_load;
use crate::rows::{find_deletion, find_insertion, find_update};
use crate::schemas::{Schemas, named_table};
use crate::selected::find_selection;
use plain_tables::{
    ColumnNumber, Command, Cond, IndexKind, Items, Join, Query, Refusal, Resolved, Schema,
    Sequence, Setting, TableNumber, Text, Value,
};

/// What a command means of these tables, with numbers in the place of names. It is refused where a check that needs no
/// row refuses it, by the first that does, or where there is no memory. The rows of a load are those of its block.
pub fn resolve<S: Schemas>(schemas: &S, command: Command, block: &[u8]) -> Result<Resolved, Refusal>
    ensures meant { IfOk result (λ r. resolved_of (block_records block.now) (S.database schemas.now) command ≡ Ok r) }
    ensures refused { IfErr result (λ e. e ≢ refusal.NoMemory → resolved_of (block_records block.now) (S.database schemas.now) command ≡ Err e) }
{
    match command {
        Command::Table { name, schema } => resolve_table(schemas, name, schema),
        Command::DropTable { table } => resolve_drop_table(schemas, table),
        Command::Index {
            table,
            column,
            kind,
        } => resolve_index(schemas, table, column, kind),
        Command::DropIndex {
            table,
            column,
            kind,
        } => resolve_drop_index(schemas, table, column, kind),
        Command::Insert { table, values } => resolve_insert(schemas, table, values),
        Command::Update {
            table,
            settings,
            conditions,
        } => resolve_update(schemas, table, settings, conditions),
        Command::Delete { table, conditions } => resolve_delete(schemas, table, conditions),
        Command::Select {
            distinct,
            items,
            table,
            joins,
            conditions,
        } => resolve_select(schemas, distinct, items, table, joins, conditions),
        Command::Load { table, .. } => resolve_load(schemas, &table, block),
        Command::Dump { table } => resolve_dump(schemas, table),
        Command::Tables => Ok(Resolved::Tables),
    }
}

fn resolve_table<S: Schemas>(schemas: &S, name: Text, schema: Schema) -> Result<Resolved, Refusal>
    ensures { result ≡ resolved_of [] (S.database schemas.now) (command.Table name schema) }
{
    check_table(schemas, &name, &schema)?;
    Ok(Resolved::Table { name, schema })
}

fn resolve_drop_table<S: Schemas>(schemas: &S, table: Text) -> Result<Resolved, Refusal>
    ensures { result ≡ resolved_of [] (S.database schemas.now) (command.DropTable table) }
{
    let named_table = named_table(schemas, &table, Culprit::Table)?;
    if schemas.is_table_referenced(named_table.name) {
        schemas.blame(Refusal::TableIsReferenced, Culprit::Table);
        return Err(Refusal::TableIsReferenced);
    }
    Ok(Resolved::DropTable {
        table: named_table.table,
    })
}

// Whether an index is the key's own tree, which each table has without a declaration.
fn is_key_tree(column: ColumnNumber, kind: IndexKind) -> bool
    ensures { result ≡ plain.is_index column kind (0, index.Tree) }
{
    column.0 == 0 && matches!(kind, IndexKind::Tree)
}

// Whether there is an index of this column and kind: a declared one, or the key's own tree.
fn has_index<S: Schemas>(
    schemas: &S,
    table: TableNumber,
    column: ColumnNumber,
    kind: IndexKind,
) -> bool
    requires { table.0 < length (S.database schemas.now) }
    ensures { option_map (λ t. list_any (plain.is_index column kind) (plain.all_indexes t)) (slice_get (S.database schemas.now) table.0) ≡ Some result }
{
    is_key_tree(column, kind) || schemas.declares(table, column, kind)
}

// What is there already of an index that exists.
fn existing(column: ColumnNumber, kind: IndexKind) -> Culprit {
    if is_key_tree(column, kind) {
        Culprit::KeyTree
    } else {
        Culprit::Index
    }
}

fn resolve_index<S: Schemas>(
    schemas: &S,
    table: Text,
    column: Text,
    kind: IndexKind,
) -> Result<Resolved, Refusal>
    ensures { result ≡ resolved_of [] (S.database schemas.now) (command.Index table column kind) }
{
    let named_table = named_table(schemas, &table, Culprit::Table)?;
    let column = named_table.own_column(schemas, &column)?;
    if has_index(schemas, named_table.table, column, kind) {
        schemas.blame(Refusal::IndexExists, existing(column, kind));
        return Err(Refusal::IndexExists);
    }
    Ok(Resolved::Index {
        table: named_table.table,
        column,
        kind,
    })
}

fn resolve_drop_index<S: Schemas>(
    schemas: &S,
    table: Text,
    column: Text,
    kind: IndexKind,
) -> Result<Resolved, Refusal>
    ensures { result ≡ resolved_of [] (S.database schemas.now) (command.DropIndex table column kind) }
{
    let named_table = named_table(schemas, &table, Culprit::Table)?;
    let column = named_table.own_column(schemas, &column)?;
    if !schemas.declares(named_table.table, column, kind) {
        schemas.blame(Refusal::NoSuchIndex, Culprit::Index);
        return Err(Refusal::NoSuchIndex);
    }
    Ok(Resolved::DropIndex {
        table: named_table.table,
        column,
        kind,
    })
}

fn resolve_insert<S: Schemas>(
    schemas: &S,
    table: Text,
    values: Sequence<Value>,
) -> Result<Resolved, Refusal>
    ensures meant { IfOk result (λ r. resolved_of [] (S.database schemas.now) (command.Insert table values) ≡ Ok r) }
    ensures refused { IfErr result (λ e. e ≢ refusal.NoMemory → resolved_of [] (S.database schemas.now) (command.Insert table values) ≡ Err e) }
{
    let found = find_insertion(schemas, &table, values)?;
    found.wanted.verdict(None)?;
    Ok(Resolved::Insert {
        table: found.table,
        values: found.row,
    })
}

fn resolve_update<S: Schemas>(
    schemas: &S,
    table: Text,
    settings: Sequence<Setting>,
    conditions: Sequence<Cond>,
) -> Result<Resolved, Refusal>
    ensures meant { IfOk result (λ r. resolved_of [] (S.database schemas.now) (command.Update table settings conditions) ≡ Ok r) }
    ensures refused { IfErr result (λ e. e ≢ refusal.NoMemory → resolved_of [] (S.database schemas.now) (command.Update table settings conditions) ≡ Err e) }
{
    let found = find_update(schemas, &table, settings, conditions)?;
    found.wanted.verdict(found.last)?;
    Ok(Resolved::Update {
        table: found.table,
        assignments: found.assignments,
        tests: found.tests,
    })
}

fn resolve_delete<S: Schemas>(
    schemas: &S,
    table: Text,
    conditions: Sequence<Cond>,
) -> Result<Resolved, Refusal>
    ensures meant { IfOk result (λ r. resolved_of [] (S.database schemas.now) (command.Delete table conditions) ≡ Ok r) }
    ensures refused { IfErr result (λ e. e ≢ refusal.NoMemory → resolved_of [] (S.database schemas.now) (command.Delete table conditions) ≡ Err e) }
{
    let found = find_deletion(schemas, &table, conditions)?;
    found.wanted.verdict(found.last)?;
    Ok(Resolved::Delete {
        table: found.table,
        tests: found.tests,
    })
}

fn resolve_select<S: Schemas>(
    schemas: &S,
    distinct: bool,
    items: Items,
    table: Text,
    joins: Sequence<Join>,
    conditions: Sequence<Cond>,
) -> Result<Resolved, Refusal>
    ensures meant { IfOk result (λ r. resolved_of [] (S.database schemas.now) (command.Select distinct items table joins conditions) ≡ Ok r) }
    ensures refused { IfErr result (λ e. e ≢ refusal.NoMemory → resolved_of [] (S.database schemas.now) (command.Select distinct items table joins conditions) ≡ Err e) }
{
    let found = find_selection(schemas, items, &table, joins.as_slice(), conditions)?;
    found.wanted.verdict(found.last)?;
    Ok(Resolved::Select(Query {
        distinct,
        shown: found.shown,
        source: found.source,
        joins: found.joins,
    }))
}

fn resolve_dump<S: Schemas>(schemas: &S, table: Text) -> Result<Resolved, Refusal>
    ensures { result ≡ resolved_of [] (S.database schemas.now) (command.Dump table) }
{
    let named_table = named_table(schemas, &table, Culprit::Table)?;
    Ok(Resolved::Dump {
        table: named_table.table,
    })
}
