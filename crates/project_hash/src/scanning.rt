//! What some columns of a table show of the rows that pass tests, each list of values once.
ghost use Rattle.std.specs.Prelude.{◌≡◌, ◌∷◌, [], ◌<◌, All, IsSome, IfOk, length};
ghost use Rattle.std.specs.FinMap as finite;
ghost use Rattle.temp_list.specs.Lists.{IsOver, HasPlace};
ghost use Rattle.temp_list.specs.Reading.{AreSound, HasColumns, OfRelation, passing};
ghost use Rattle.project_hash.specs.Distinct.{IsDistinctOf};
ghost use Rattle.project_hash.specs.Known.{AreEnough, AreInOrder};
ghost use Rattle.project_hash.specs.Shown.{references_of};
ghost use Rattle.project_hash.specs.Table.{CanRead, list_of_table};

use crate::known::Known;
use crate::table::{ShownTable, TableRow};
use crate::values::ShowsValues;
use mm_relation::Relations;
use mm_relation::laws::a_relation_is_kept;
use no_memory::NoMemory;
use part_raw::TupleRef;
use plain_tables::{Place, TableNumber, Test};
use std::alloc::Global;
use temp_list::TempList;
use temp_list::search::{held_up_to, holds_slot, numbered, passes_all};

// Of the rows that pass the tests one of those that are shown alike, found by a look at each slot.
fn known_rows<'a, R: Relations>(
    alloc: Global,
    table: &'a ShownTable<'a, R>,
    tests: &[Test],
) -> Result<Vec<TupleRef>, NoMemory>
    requires can_read { CanRead table.now }
    requires tests { HasColumns table.now.relation tests.now }
    ensures { IfOk result (λ rows. AreEnough table.now (passing table.now.relations table.now.relation tests.now) rows.items) }
{
    let relation = table.relation;
    a_relation_is_kept(relation);
    let mut known = Known::new(alloc);
    let mut held_end = 0;
    for number in 0..relation.slots() {
        let r = numbered(number);
        held_end = held_up_to(relation, r, held_end);
        if !holds_slot(relation, r, held_end) || !passes_all(table.tables, relation, r, tests) {
            continue;
        }
        known.keep(table, r)?;
    }
    Ok(known.into_rows())
}

// Rows of the table in the order of what is shown of them.
fn in_order<'a, R: Relations>(
    alloc: Global,
    table: &'a ShownTable<'a, R>,
    known: &[TupleRef],
) -> Result<Vec<TableRow<'a, R>>, NoMemory>
    requires can_read { CanRead table.now }
    requires held { All (λ r. IsSome (finite.get table.now.relation.rows r)) known.now }
    ensures { IfOk result (λ rows. AreInOrder table.now known.now rows.items) }
{
    let mut rows = Vec::with_capacity(alloc, known.len())?;
    for r in known {
        rows.push(TableRow::new(table, *r))?;
    }
    rows.sort_by(|row, other| row.compare(other))?;
    Ok(rows)
}

// The list of these rows, which shows no columns yet.
fn list_of<R: Relations>(
    alloc: Global,
    table: TableNumber,
    rows: &[TableRow<'_, R>],
) -> Result<TempList, NoMemory>
    ensures { IfOk result (λ l. l ≡ record { sources = table.0 ∷ []; rows = references_of rows.now; columns = [] }) }
{
    let mut list = TempList::new(alloc, &[table])?;
    for row in rows {
        list.push(&[row.reference()])?;
    }
    Ok(list)
}

/// The list of the rows of a table that pass tests, with one of those that these columns show alike, in the order of what is shown.
/// Each row is tested and shown where it lies, and no list is made of all that pass.
pub fn distinct_of_table<R: Relations>(
    alloc: Global,
    tables: &R,
    table: TableNumber,
    tests: &[Test],
    columns: Vec<Place>,
) -> Result<TempList, NoMemory>
    requires sound { AreSound (R.tables tables.now) }
    requires there { table.0 < length (R.tables tables.now) }
    requires tests { OfRelation (R.tables tables.now) table.0 (λ s. HasColumns s tests.now) }
    requires columns { All (HasPlace (R.tables tables.now) (table.0 ∷ [])) columns.items }
    ensures distinct { IfOk result (λ list. OfRelation (R.tables tables.now) table.0 (λ s. IsDistinctOf (R.tables tables.now) (list_of_table table.0 (passing (R.tables tables.now) s tests.now) columns.items) list)) }
    ensures over { IfOk result (IsOver (R.tables tables.now)) }
{
    let mut list = {
        let shown = ShownTable {
            tables,
            table,
            relation: tables.at(table),
            places: columns.as_slice(),
        };
        let known = known_rows(alloc, &shown, tests)?;
        let rows = in_order(alloc, &shown, known.as_slice())?;
        list_of(alloc, table, rows.as_slice())?
    };
    list.describe(columns);
    Ok(list)
}
