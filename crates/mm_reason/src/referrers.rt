//! Rows that others name, and so stay.

ghost use Rattle.std.specs.Prelude.{IsSome};
ghost use Rattle.std.specs.FinMap as finite;
ghost use Rattle.std.specs.List.{All};
ghost use Rattle.plain_tables.specs.ResolvedLaws.{OfTable, AreTests, IsMeant};
ghost use Rattle.mm_catalog.specs.Seen.{database_of};

use crate::fault::ReasonFault;
use crate::tables::{Seen, table_at};
use crate::told::{Reason, tell};
use mm_catalog::Catalog;
use mm_catalog::laws::a_catalog_is_consistent;
use mm_relation::laws::a_relation_is_kept;
use mm_relation::{ColumnNumber, Relation, Relations, TupleRef};
use mm_resolver::referred;
use mm_session::rows_passing;
use mm_syntax::Shown;
use no_memory::NoMemory;
use plain_tables::{
    Command, Cond, Refusal, Resolved, Sequence, StoredValue, TableNumber, Test, Text,
};
use plan_chooser::Policy;
use std::alloc::Global;

// The first of these rows that others name.
fn first_named(relation: &Relation, rows: &[TupleRef]) -> Option<TupleRef>
    requires { All (λ r. IsSome (finite.get relation.now.rows r)) rows.now }
{
    for r in rows {
        if relation.row(*r).referrers() > 0 {
            return Some(*r);
        }
    }
    None
}

// The key of a row that names this one in a column.
fn naming_key(relation: &Relation, column: ColumnNumber, named: TupleRef) -> Option<&StoredValue> {
    a_relation_is_kept(relation);
    for r in relation.walk() {
        if relation.row(r).link(column) == Some(named) {
            return relation.key_if_held(r);
        }
    }
    None
}

// The row of one table that names this one of another, in words.
fn why_named_by(alloc: Global, table: &Seen<'_>, named: &str, r: TupleRef) -> Reason {
    for (place, column) in table.columns.iter().enumerate() {
        let refers = match referred(column) {
            Some(other) => other.as_str() == named,
            None => false,
        };
        if refers {
            if let Some(key) = naming_key(table.relation, ColumnNumber(place), r) {
                let (name, column, key) = (table.name, column.name.as_str(), Shown(key.seen()));
                return tell(format!(in alloc;
                    "column {column} of the row of {name} with the key {key}"
                ));
            }
        }
    }
    Ok(None)
}

// The row that names this one, in words.
fn why_named(
    alloc: Global,
    catalog: &Catalog,
    named: &str,
    r: TupleRef,
) -> Result<String, ReasonFault> {
    for number in 0..catalog.table_count() {
        if let Some(table) = table_at(catalog, TableNumber(number)) {
            if let Some(told) = why_named_by(alloc, &table, named, r)? {
                return Ok(told.words);
            }
        }
    }
    let words = format!(in alloc; "a row of another table");
    Ok(words.map_err(NoMemory::from)?)
}

// That this row of a table stays, since another names it.
fn stays(alloc: Global, catalog: &Catalog, table: &Seen<'_>, r: TupleRef) -> Reason {
    let Some(key) = table.relation.key_if_held(r) else {
        return Ok(None);
    };
    let why = why_named(alloc, catalog, table.name, r)?;
    let (name, key) = (table.name, Shown(key.seen()));
    tell(format!(in alloc; "the row of {name} with the key {key} is named in {why}"))
}

// The first row that passes the tests and that others name.
fn passing_named(
    alloc: Global,
    catalog: &Catalog,
    table: TableNumber,
    tests: &[Test],
) -> Result<Option<TupleRef>, NoMemory>
    requires { OfTable table (database_of catalog.now) (λ t. AreTests (database_of catalog.now) t tests.now) }
{
    a_catalog_is_consistent(catalog);
    let rows = rows_passing(alloc, Policy::Auto, catalog, table, tests)?;
    Ok(first_named(catalog.at(table), &rows))
}

// Why the rows of a table that pass these tests are not taken out: the first of them that others name.
fn why_kept(alloc: Global, catalog: &Catalog, table: TableNumber, tests: &[Test]) -> Reason
    requires { OfTable table (database_of catalog.now) (λ t. AreTests (database_of catalog.now) t tests.now) }
{
    let Some(r) = passing_named(alloc, catalog, table, tests)? else {
        return Ok(None);
    };
    match table_at(catalog, table) {
        Some(seen) => stays(alloc, catalog, &seen, r),
        None => Ok(None),
    }
}

// Why a deletion takes out no rows.
fn why_not_deleted(alloc: Global, catalog: &Catalog, deletion: &Resolved) -> Reason
    requires { IsMeant catalog.now.limits (database_of catalog.now) deletion.now }
{
    match deletion {
        Resolved::Delete { table, tests } => why_kept(alloc, catalog, *table, tests.as_slice()),
        _ => Ok(None),
    }
}

/// Why the rows of the table of that name that meet these conditions are not taken out, where nothing is wrong but the rows.
pub fn named_rows(
    alloc: Global,
    catalog: &Catalog,
    table: Text,
    conditions: Sequence<Cond>,
) -> Reason {
    match catalog.resolve(Command::Delete { table, conditions }, &[]) {
        Ok(deletion) => {
            let told = why_not_deleted(alloc, catalog, &deletion);
            drop(deletion);
            told
        }
        Err(Refusal::NoMemory) => Err(ReasonFault::NoMemory),
        Err(_) => Ok(None),
    }
}
