//! Commands and statements on rows, whose names are found by one code: inserts, updates and deletes.
ghost use Rattle.std.specs.Prelude.{◌≢◌, IfOk, IfErr, None, map};
ghost use Rattle.plain_tables.specs.declared.refusal.Refusal.TheVariants as refusal;
ghost use Rattle.plain_statements.specs.Laws.{Refuses};
ghost use Rattle.plain_statements.specs.declared.resolution.Template.TheVariants as template;
ghost use Rattle.plain_statements.specs.declared.statement.Statement.TheVariants as statement;
ghost use Rattle.mm_resolver.specs.Wanted.{IsFound};

use crate::culprit::Culprit;
use crate::late::{delete_late, update_late};
use crate::repeats::repeats_name;
use crate::schemas::{Schemas, named_table};
use crate::slots::{assignments, row_wanted, tests};
use crate::slotted::{AsCondition, AsSetting, AsSlot};
use crate::wanted::Wanted;
use plain_tables::{Refusal, Sequence, TableNumber, Text};
use std::slice::from_ref;

/// An insert whose names are found: its table and its row, and what is asked of the row.
#[derive(Drop)]
pub struct Insertion<V> {
    pub table: TableNumber,
    pub row: Sequence<V>,
    pub wanted: Wanted,
}

/// An update whose names are found: its table, its assignments and its tests, what is asked of their values, and why it is refused
/// once these are right.
#[derive(Drop)]
pub struct Update<A, T> {
    pub table: TableNumber,
    pub assignments: Sequence<A>,
    pub tests: Sequence<T>,
    pub wanted: Wanted,
    pub last: Option<Refusal>,
}

/// The same of a delete.
#[derive(Drop)]
pub struct Deletion<T> {
    pub table: TableNumber,
    pub tests: Sequence<T>,
    pub wanted: Wanted,
    pub last: Option<Refusal>,
}

/// The insert of a row into the table of that name.
pub fn find_insertion<S: Schemas, V: AsSlot>(
    schemas: &S,
    table: &Text,
    row: Sequence<V>,
) -> Result<Insertion<V>, Refusal>
    ensures found { IfOk result (λ f. IsFound (S.database schemas.now) (statement.Insert table.now (map V.as_slot row)) f.wanted None (template.Insert f.table (map V.as_slot f.row))) }
    ensures refused { IfErr result (λ e. e ≢ refusal.NoMemory → Refuses (S.database schemas.now) (statement.Insert table.now (map V.as_slot row)) e) }
{
    let named_table = named_table(schemas, table, Culprit::Table)?;
    if row.len() != named_table.columns.len() {
        schemas.blame(Refusal::WrongNumberOfValues, Culprit::Row);
        return Err(Refusal::WrongNumberOfValues);
    }
    let wanted = row_wanted(schemas, named_table.columns, row.as_slice())?;
    Ok(Insertion {
        table: named_table.table,
        row,
        wanted,
    })
}

/// The update of the table of that name by these settings under these conditions.
pub fn find_update<S: Schemas, A: AsSetting, C: AsCondition>(
    schemas: &S,
    table: &Text,
    settings: Sequence<A>,
    conditions: Sequence<C>,
) -> Result<Update<A::Assignment, C::Test>, Refusal>
    ensures found { IfOk result (λ f. IsFound (S.database schemas.now) (statement.Update table.now (map A.as_setting settings) (map C.as_condition conditions)) f.wanted f.last (template.Update f.table (map A.as_assignment f.assignments) (map C.as_test f.tests))) }
    ensures refused { IfErr result (λ e. e ≢ refusal.NoMemory → Refuses (S.database schemas.now) (statement.Update table.now (map A.as_setting settings) (map C.as_condition conditions)) e) }
{
    let named_table = named_table(schemas, table, Culprit::Table)?;
    let repeated = repeats_name(schemas, settings.as_slice());
    let mut wanted = Wanted::new(schemas.allocator());
    let assignments = assignments(schemas, from_ref(&named_table), settings, &mut wanted)?;
    let tests = tests(schemas, from_ref(&named_table), conditions, &mut wanted)?;
    if repeated {
        return Err(Refusal::ColumnNamedTwice);
    }
    let last = update_late::<S, A>(schemas, assignments.as_slice(), tests.len());
    Ok(Update {
        table: named_table.table,
        assignments,
        tests,
        wanted,
        last,
    })
}

/// The delete from the table of that name under these conditions.
pub fn find_deletion<S: Schemas, C: AsCondition>(
    schemas: &S,
    table: &Text,
    conditions: Sequence<C>,
) -> Result<Deletion<C::Test>, Refusal>
    ensures found { IfOk result (λ f. IsFound (S.database schemas.now) (statement.Delete table.now (map C.as_condition conditions)) f.wanted f.last (template.Delete f.table (map C.as_test f.tests))) }
    ensures refused { IfErr result (λ e. e ≢ refusal.NoMemory → Refuses (S.database schemas.now) (statement.Delete table.now (map C.as_condition conditions)) e) }
{
    let named_table = named_table(schemas, table, Culprit::Table)?;
    let mut wanted = Wanted::new(schemas.allocator());
    let tests = tests(schemas, from_ref(&named_table), conditions, &mut wanted)?;
    let last = delete_late(schemas, tests.len());
    Ok(Deletion {
        table: named_table.table,
        tests,
        wanted,
        last,
    })
}
