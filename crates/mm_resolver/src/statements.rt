//! Statements by the numbers of tables and columns, for all values to come.
ghost use Rattle.std.specs.Prelude.{◌≢◌, IfOk, IfErr};
ghost use Rattle.plain_tables.specs.declared.refusal.Refusal.TheVariants as refusal;
ghost use Rattle.plain_statements.specs.declared.statement.Statement.TheVariants as statement;
ghost use Rattle.plain_statements.specs.Laws.{Refuses, Resolves};

use crate::rows::{find_deletion, find_insertion, find_update};
use crate::schemas::Schemas;
use crate::selected::find_selection;
use plain_statements::{Resolution, Slot, SlotCond, SlotQuery, SlotSetting, Statement, Template};
use plain_tables::{Items, Join, Refusal, Sequence, Text};

/// What a statement means of these tables, with numbers in the place of names, whatever values come for its holes. It is refused
/// where each of the commands that it can be is refused so before a row is looked at, or where there is no memory.
pub fn resolve_statement<S: Schemas>(
    schemas: &S,
    statement: Statement,
) -> Result<Resolution, Refusal>
    ensures meant { IfOk result (λ r. Resolves (S.database schemas.now) statement r) }
    ensures refused { IfErr result (λ e. e ≢ refusal.NoMemory → Refuses (S.database schemas.now) statement e) }
{
    match statement {
        Statement::Insert { table, slots } => resolve_slot_insert(schemas, table, slots),
        Statement::Update {
            table,
            settings,
            conditions,
        } => resolve_slot_update(schemas, table, settings, conditions),
        Statement::Delete { table, conditions } => resolve_slot_delete(schemas, table, conditions),
        Statement::Select {
            distinct,
            items,
            table,
            joins,
            conditions,
        } => resolve_slot_select(schemas, distinct, items, table, joins, conditions),
    }
}

fn resolve_slot_insert<S: Schemas>(
    schemas: &S,
    table: Text,
    slots: Sequence<Slot>,
) -> Result<Resolution, Refusal>
    ensures meant { IfOk result (λ r. Resolves (S.database schemas.now) (statement.Insert table slots) r) }
    ensures refused { IfErr result (λ e. e ≢ refusal.NoMemory → Refuses (S.database schemas.now) (statement.Insert table slots) e) }
{
    let found = find_insertion(schemas, &table, slots)?;
    let template = Template::Insert {
        table: found.table,
        slots: found.row,
    };
    found.wanted.resolution(None, template)
}

fn resolve_slot_update<S: Schemas>(
    schemas: &S,
    table: Text,
    settings: Sequence<SlotSetting>,
    conditions: Sequence<SlotCond>,
) -> Result<Resolution, Refusal>
    ensures meant { IfOk result (λ r. Resolves (S.database schemas.now) (statement.Update table settings conditions) r) }
    ensures refused { IfErr result (λ e. e ≢ refusal.NoMemory → Refuses (S.database schemas.now) (statement.Update table settings conditions) e) }
{
    let found = find_update(schemas, &table, settings, conditions)?;
    let template = Template::Update {
        table: found.table,
        assignments: found.assignments,
        tests: found.tests,
    };
    found.wanted.resolution(found.last, template)
}

fn resolve_slot_delete<S: Schemas>(
    schemas: &S,
    table: Text,
    conditions: Sequence<SlotCond>,
) -> Result<Resolution, Refusal>
    ensures meant { IfOk result (λ r. Resolves (S.database schemas.now) (statement.Delete table conditions) r) }
    ensures refused { IfErr result (λ e. e ≢ refusal.NoMemory → Refuses (S.database schemas.now) (statement.Delete table conditions) e) }
{
    let found = find_deletion(schemas, &table, conditions)?;
    let template = Template::Delete {
        table: found.table,
        tests: found.tests,
    };
    found.wanted.resolution(found.last, template)
}

fn resolve_slot_select<S: Schemas>(
    schemas: &S,
    distinct: bool,
    items: Items,
    table: Text,
    joins: Sequence<Join>,
    conditions: Sequence<SlotCond>,
) -> Result<Resolution, Refusal>
    ensures meant { IfOk result (λ r. Resolves (S.database schemas.now) (statement.Select distinct items table joins conditions) r) }
    ensures refused { IfErr result (λ e. e ≢ refusal.NoMemory → Refuses (S.database schemas.now) (statement.Select distinct items table joins conditions) e) }
{
    let found = find_selection(schemas, items, &table, joins.as_slice(), conditions)?;
    let template = Template::Select(SlotQuery {
        distinct,
        shown: found.shown,
        source: found.source,
        joins: found.joins,
    });
    found.wanted.resolution(found.last, template)
}
