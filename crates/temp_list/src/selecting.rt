//! The rows of one table that pass tests, found by a plan.
ghost use Rattle.std.specs.Prelude.{◌<◌, IfOk, IfSome, OnOk, length};
ghost use Rattle.plan_chooser.specs.Plans.{Fits};
ghost use Rattle.plan_chooser.specs.declared.plans.SelectPlan.TheVariants as plans;
ghost use Rattle.temp_list.specs.Reading.{AreSound, OfRelation, HasColumns};
ghost use Rattle.temp_list.specs.Selecting.{AreSelected, IsSelected};

use crate::list::TempList;
use crate::search::{
    keep_passing_others, keep_passing_unbounded, passing, passing_in_slots, rows_between,
    rows_by_hash, rows_by_tree,
};
use mm_relation::laws::a_relation_is_kept;
use mm_relation::{Relation, Relations};
use no_memory::NoMemory;
use part_raw::TupleRef;
use plain_tables::{Op, TableNumber, Test};
use plan_chooser::SelectPlan;
use std::alloc::Global;

/// How many rows a look at each slot may find, so that to put these into the order of their keys costs less than to walk the tree
/// of the key: an eighth of the table, or a sixteenth where its keys are no integers, since integers are sorted beside their rows. With
/// no test all rows are found, so the tree is walked at once.
pub fn most_sorted(relation: &Relation, tests: &[Test]) -> u64 {
    if tests.is_empty() {
        0
    } else if relation.has_integer_keys() {
        relation.len() / 8
    } else {
        relation.len() / 16
    }
}

// By a look at each row.
fn find_by_scan<R: Relations>(
    alloc: Global,
    tables: &R,
    table: TableNumber,
    tests: &[Test],
) -> Result<Vec<TupleRef>, NoMemory>
    requires sound { AreSound (R.tables tables.now) }
    requires there { table.0 < length (R.tables tables.now) }
    requires columns { OfRelation (R.tables tables.now) table.0 (λ s. HasColumns s tests.now) }
    ensures { IfOk result (λ rows. OfRelation (R.tables tables.now) table.0 (λ s. AreSelected (R.tables tables.now) s tests.now rows.items)) }
{
    let relation = tables.at(table);
    match passing_in_slots(alloc, tables, relation, tests, relation.len())? {
        Some(rows) => Ok(rows),
        None => passing(alloc, tables, relation, tests),
    }
}

/// The rows of a table that pass the tests, each once, in any order, found by a look at each slot. None where they are more than so
/// many.
pub fn find_few_rows<R: Relations>(
    alloc: Global,
    tables: &R,
    table: TableNumber,
    tests: &[Test],
    most: u64,
) -> Result<Option<Vec<TupleRef>>, NoMemory>
    requires sound { AreSound (R.tables tables.now) }
    requires there { table.0 < length (R.tables tables.now) }
    requires columns { OfRelation (R.tables tables.now) table.0 (λ s. HasColumns s tests.now) }
    ensures { IfOk result (λ found. IfSome found (λ rows. OfRelation (R.tables tables.now) table.0 (λ s. AreSelected (R.tables tables.now) s tests.now rows.items))) }
{
    let relation = tables.at(table);
    passing_in_slots(alloc, tables, relation, tests, most)
}

// By the hash on the column of a test.
fn find_by_hash<R: Relations>(
    tables: &R,
    table: TableNumber,
    tests: &[Test],
    n: usize,
    found: &mut Vec<TupleRef>,
) -> Result<(), NoMemory>
    requires sound { AreSound (R.tables tables.now) }
    requires there { table.0 < length (R.tables tables.now) }
    requires columns { OfRelation (R.tables tables.now) table.0 (λ s. HasColumns s tests.now) }
    requires fits { OfRelation (R.tables tables.now) table.0 (λ s. Fits s tests.now (plans.Hash n)) }
    ensures { OnOk result (OfRelation (R.tables tables.now) table.0 (λ s. AreSelected (R.tables tables.now) s tests.now found.new.items)) }
{
    let relation = tables.at(table);
    a_relation_is_kept(relation);
    let test = &tests[n];
    found.clear();
    rows_by_hash(tables, relation, test.column, &test.value.sought(), found)?;
    keep_passing_others(tables, relation, tests, n, found);
    Ok(())
}

// By the tree on the column of a test: the rows that pass this test.
fn find_by_one_test<R: Relations>(
    tables: &R,
    table: TableNumber,
    tests: &[Test],
    n: usize,
    found: &mut Vec<TupleRef>,
) -> Result<(), NoMemory>
    requires sound { AreSound (R.tables tables.now) }
    requires there { table.0 < length (R.tables tables.now) }
    requires columns { OfRelation (R.tables tables.now) table.0 (λ s. HasColumns s tests.now) }
    requires fits { OfRelation (R.tables tables.now) table.0 (λ s. Fits s tests.now (plans.Tree n)) }
    ensures { OnOk result (OfRelation (R.tables tables.now) table.0 (λ s. AreSelected (R.tables tables.now) s tests.now found.new.items)) }
{
    let relation = tables.at(table);
    a_relation_is_kept(relation);
    let test = &tests[n];
    found.clear();
    rows_by_tree(
        tables,
        relation,
        test.column,
        test.op,
        &test.value.sought(),
        found,
    )?;
    keep_passing_others(tables, relation, tests, n, found);
    Ok(())
}

// By the tree on the column of a test: the rows between all bounds on that column.
fn find_between<R: Relations>(
    tables: &R,
    table: TableNumber,
    tests: &[Test],
    n: usize,
    found: &mut Vec<TupleRef>,
) -> Result<(), NoMemory>
    requires sound { AreSound (R.tables tables.now) }
    requires there { table.0 < length (R.tables tables.now) }
    requires columns { OfRelation (R.tables tables.now) table.0 (λ s. HasColumns s tests.now) }
    requires fits { OfRelation (R.tables tables.now) table.0 (λ s. Fits s tests.now (plans.Tree n)) }
    ensures { OnOk result (OfRelation (R.tables tables.now) table.0 (λ s. AreSelected (R.tables tables.now) s tests.now found.new.items)) }
{
    let relation = tables.at(table);
    a_relation_is_kept(relation);
    let test = &tests[n];
    found.clear();
    rows_between(tables, relation, test.column, tests, found)?;
    keep_passing_unbounded(tables, relation, test.column, tests, found);
    Ok(())
}

// By the tree on the column of a test. One that asks for one value is served by one search; others by the bounds of all tests on
// the column.
fn find_by_tree<R: Relations>(
    tables: &R,
    table: TableNumber,
    tests: &[Test],
    n: usize,
    found: &mut Vec<TupleRef>,
) -> Result<(), NoMemory>
    requires sound { AreSound (R.tables tables.now) }
    requires there { table.0 < length (R.tables tables.now) }
    requires columns { OfRelation (R.tables tables.now) table.0 (λ s. HasColumns s tests.now) }
    requires fits { OfRelation (R.tables tables.now) table.0 (λ s. Fits s tests.now (plans.Tree n)) }
    ensures { OnOk result (OfRelation (R.tables tables.now) table.0 (λ s. AreSelected (R.tables tables.now) s tests.now found.new.items)) }
{
    match tests.get(n) {
        Some(test) if matches!(test.op, Op::Eq) => {
            find_by_one_test(tables, table, tests, n, found)
        }
        _ => find_between(tables, table, tests, n, found),
    }
}

/// Makes the vector the rows of a table that pass the tests, each once, in any order, found by a plan that fits. What the vector had is
/// let go, and its room is kept. A failure may leave any rows there.
pub fn find_rows_into<R: Relations>(
    tables: &R,
    table: TableNumber,
    plan: SelectPlan,
    tests: &[Test],
    found: &mut Vec<TupleRef>,
) -> Result<(), NoMemory>
    requires sound { AreSound (R.tables tables.now) }
    requires there { table.0 < length (R.tables tables.now) }
    requires columns { OfRelation (R.tables tables.now) table.0 (λ s. HasColumns s tests.now) }
    requires fits { OfRelation (R.tables tables.now) table.0 (λ s. Fits s tests.now plan) }
    ensures { OnOk result (OfRelation (R.tables tables.now) table.0 (λ s. AreSelected (R.tables tables.now) s tests.now found.new.items)) }
{
    match plan {
        SelectPlan::Scan => {
            *found = find_by_scan(*found.allocator(), tables, table, tests)?;
            Ok(())
        }
        SelectPlan::Hash(n) => find_by_hash(tables, table, tests, n, found),
        SelectPlan::Tree(n) => find_by_tree(tables, table, tests, n, found),
    }
}

/// The rows of a table that pass the tests, each once, in any order, found by a plan that fits.
pub fn find_rows<R: Relations>(
    alloc: Global,
    tables: &R,
    table: TableNumber,
    plan: SelectPlan,
    tests: &[Test],
) -> Result<Vec<TupleRef>, NoMemory>
    requires sound { AreSound (R.tables tables.now) }
    requires there { table.0 < length (R.tables tables.now) }
    requires columns { OfRelation (R.tables tables.now) table.0 (λ s. HasColumns s tests.now) }
    requires fits { OfRelation (R.tables tables.now) table.0 (λ s. Fits s tests.now plan) }
    ensures { IfOk result (λ rows. OfRelation (R.tables tables.now) table.0 (λ s. AreSelected (R.tables tables.now) s tests.now rows.items)) }
{
    let mut rows = Vec::new(alloc);
    find_rows_into(tables, table, plan, tests, &mut rows)?;
    Ok(rows)
}

/// A list of the rows of a table that pass the tests, each once, in any order, found by a plan that fits. It shows no columns.
pub fn select<R: Relations>(
    alloc: Global,
    tables: &R,
    table: TableNumber,
    plan: SelectPlan,
    tests: &[Test],
) -> Result<TempList, NoMemory>
    requires sound { AreSound (R.tables tables.now) }
    requires there { table.0 < length (R.tables tables.now) }
    requires columns { OfRelation (R.tables tables.now) table.0 (λ s. HasColumns s tests.now) }
    requires fits { OfRelation (R.tables tables.now) table.0 (λ s. Fits s tests.now plan) }
    ensures { IfOk result (λ l. OfRelation (R.tables tables.now) table.0 (λ s. IsSelected (R.tables tables.now) table.0 s tests.now l)) }
{
    let rows = find_rows(alloc, tables, table, plan, tests)?;
    TempList::of_rows(alloc, table, rows.as_slice())
}
