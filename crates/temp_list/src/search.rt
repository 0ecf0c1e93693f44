//! The rows of one relation that a test asks for.
ghost use Rattle.std.specs.Prelude.{◌≡◌, ◌≢◌, ◌<◌, IsTrue, IsSome, IfNone, IfOk, IfSome, OnOk, OnErr, All, Some, filter, length};
ghost use Rattle.std.specs.FinMap as finite;
ghost use Rattle.mm_relation.specs.State.{IsCurrent, linked_keys};
ghost use Rattle.mm_relation.specs.Changes.{HasTree, HasHash, tree_on};
ghost use Rattle.mm_relation.specs.Reading.{key_at};
ghost use Rattle.part_raw.specs.declared.tuple_ref.TupleRef.{TupleRef};
ghost use Rattle.ttree.specs.Warming.{IsWay};
ghost use Rattle.mm_index.specs.Bag.{AppendsBag, IsSameBag};
ghost use Rattle.plan_chooser.specs.Plans.{is_range};
ghost use Rattle.plain_tables.specs.Queries.{stands as stands_so};
ghost use Rattle.plain_tables.specs.declared.condition.Op.TheVariants as operator;
ghost use Rattle.temp_list.specs.Reading.{standing, between, HasColumns, value_in, row_passes as row_passes_so, passing as passing_so, all_but, unbounded};
ghost use Rattle.temp_list.specs.Slots.{AreHeldFrom};

use crate::bounds_probe::{BoundsProbe, bounds};
use crate::range::append_range;
use crate::range_probe::RangeProbe;
use crate::standing::{passes, stands};
use mm_relation::laws::a_relation_is_kept;
use mm_relation::{Relation, Relations, Way};
use no_memory::NoMemory;
use part_raw::{MAX_TUPLES, SLOTS, TupleRef};
use plain_tables::{ColumnNumber, Op, SoughtValue, StoredValue, Test, hash_of_sought, low_bits};
use std::alloc::Global;

/// The value in a column of a row that is lent.
pub fn read<'a, R: Relations>(
    tables: &'a R,
    relation: &'a Relation,
    r: TupleRef,
    column: ColumnNumber,
) -> &'a StoredValue
    requires held { IsSome (finite.get relation.now.rows r) }
    requires current { IsCurrent (linked_keys relation.now.targets (R.tables tables.now)) relation.now }
    requires within { column.0 < length relation.now.schema.columns }
    ensures { result.now ≡ value_in (R.tables tables.now) relation.now column.0 r }
{
    a_relation_is_kept(relation);
    relation.row(r).value(column, tables)
}

// Whether the row under a reference passes each of the tests.
fn passes_each<R: Relations>(tables: &R, relation: &Relation, r: TupleRef, tests: &[Test]) -> bool
    requires held { IsSome (finite.get relation.now.rows r) }
    requires current { IsCurrent (linked_keys relation.now.targets (R.tables tables.now)) relation.now }
    requires columns { HasColumns relation.now tests.now }
    ensures { result ≡ row_passes_so (R.tables tables.now) relation.now tests.now r }
{
    a_relation_is_kept(relation);
    let row = relation.row(r);
    for test in tests {
        if !passes(row.value(test.column, tables), test) {
            return false;
        }
    }
    true
}

/// Whether the row under a reference passes each of the tests. Where none is made it does, and isn't read.
#[inline]
pub fn passes_all<R: Relations>(
    tables: &R,
    relation: &Relation,
    r: TupleRef,
    tests: &[Test],
) -> bool
    requires held { IsSome (finite.get relation.now.rows r) }
    requires current { IsCurrent (linked_keys relation.now.targets (R.tables tables.now)) relation.now }
    requires columns { HasColumns relation.now tests.now }
    ensures { result ≡ row_passes_so (R.tables tables.now) relation.now tests.now r }
{
    if tests.is_empty() {
        return true;
    }
    passes_each(tables, relation, r, tests)
}

/// The rows that pass the tests, in the order of their keys.
pub fn passing<R: Relations>(
    alloc: Global,
    tables: &R,
    relation: &Relation,
    tests: &[Test],
) -> Result<Vec<TupleRef>, NoMemory>
    requires current { IsCurrent (linked_keys relation.now.targets (R.tables tables.now)) relation.now }
    requires columns { HasColumns relation.now tests.now }
    ensures { IfOk result (λ rows. rows.items ≡ passing_so (R.tables tables.now) relation.now tests.now) }
{
    a_relation_is_kept(relation);
    let mut rows = Vec::new(alloc);
    for r in relation.walk() {
        if passes_all(tables, relation, r, tests) {
            rows.push(r)?;
        }
    }
    Ok(rows)
}

/// The reference with this number.
pub fn numbered(number: u64) -> TupleRef
    requires { number < MAX_TUPLES }
    ensures { result.number ≡ number }
{
    TupleRef {
        number: number as u32,
    }
}

/// Up to which number each slot from this one on has a row, where it was so up to `known`. A look at the first slot of a partition tells it
/// of all slots there.
#[inline]
pub fn held_up_to(relation: &Relation, r: TupleRef, known: u64) -> u64
    requires { AreHeldFrom relation.now.rows r.number known }
    ensures { AreHeldFrom relation.now.rows r.number result }
{
    if r.slot() == 0 && relation.fills(r.part()) {
        u64::from(r.number) + u64::from(SLOTS)
    } else {
        known
    }
}

/// Whether a slot has a row, where each one up to `held_end` has.
#[inline]
pub fn holds_slot(relation: &Relation, r: TupleRef, held_end: u64) -> bool
    requires { AreHeldFrom relation.now.rows r.number held_end }
    ensures { result ≡ finite.contains_key relation.now.rows r }
{
    u64::from(r.number) < held_end || relation.holds(r)
}

/// The rows that pass the tests, in the order in which they lie in memory, which is by far the fastest for a table that is large.
/// None where they are more than `most`.
pub fn passing_in_slots<R: Relations>(
    alloc: Global,
    tables: &R,
    relation: &Relation,
    tests: &[Test],
    most: u64,
) -> Result<Option<Vec<TupleRef>>, NoMemory>
    requires current { IsCurrent (linked_keys relation.now.targets (R.tables tables.now)) relation.now }
    requires columns { HasColumns relation.now tests.now }
    ensures { IfOk result (λ found. IfSome found (λ rows. IsSameBag rows.items (passing_so (R.tables tables.now) relation.now tests.now))) }
{
    a_relation_is_kept(relation);
    let mut rows = Vec::new(alloc);
    let mut held_end = 0;
    for number in 0..relation.slots() {
        let r = numbered(number);
        held_end = held_up_to(relation, r, held_end);
        if !holds_slot(relation, r, held_end) || !passes_all(tables, relation, r, tests) {
            continue;
        }
        if rows.len() as u64 >= most {
            return Ok(None);
        }
        rows.push(r)?;
    }
    Ok(Some(rows))
}

// Keeps those of the rows that pass a test, in their order. It is a short loop, in which the reads of rows that lie far apart go side
// by side.
fn keep_standing<R: Relations>(
    tables: &R,
    relation: &Relation,
    test: &Test,
    rows: &mut Vec<TupleRef>,
)
    requires held { All (λ r. IsSome (finite.get relation.now.rows r)) rows.old.items }
    requires current { IsCurrent (linked_keys relation.now.targets (R.tables tables.now)) relation.now }
    requires within { test.now.column.0 < length relation.now.schema.columns }
    ensures { rows.new.items ≡ filter (λ r. stands_so test.now.op (value_in (R.tables tables.now) relation.now test.now.column.0 r) test.now.value) rows.old.items }
{
    let mut kept = 0;
    for i in 0..rows.len() {
        let r = rows[i];
        if passes(read(tables, relation, r, test.column), test) {
            rows[kept] = r;
            kept += 1;
        }
    }
    rows.truncate(kept);
}

/// Keeps those of the rows that pass the tests, in their order.
pub fn keep_passing<R: Relations>(
    tables: &R,
    relation: &Relation,
    tests: &[Test],
    rows: &mut Vec<TupleRef>,
)
    requires held { All (λ r. IsSome (finite.get relation.now.rows r)) rows.old.items }
    requires current { IsCurrent (linked_keys relation.now.targets (R.tables tables.now)) relation.now }
    requires columns { HasColumns relation.now tests.now }
    ensures { rows.new.items ≡ filter (row_passes_so (R.tables tables.now) relation.now tests.now) rows.old.items }
{
    for test in tests {
        keep_standing(tables, relation, test, rows);
    }
}

/// Keeps those of the rows that pass the tests but one, in their order.
pub fn keep_passing_others<R: Relations>(
    tables: &R,
    relation: &Relation,
    tests: &[Test],
    n: usize,
    rows: &mut Vec<TupleRef>,
)
    requires held { All (λ r. IsSome (finite.get relation.now.rows r)) rows.old.items }
    requires current { IsCurrent (linked_keys relation.now.targets (R.tables tables.now)) relation.now }
    requires columns { HasColumns relation.now tests.now }
    requires there { n < length tests.now }
    ensures { rows.new.items ≡ filter (row_passes_so (R.tables tables.now) relation.now (all_but n tests.now)) rows.old.items }
{
    keep_passing(tables, relation, &tests[..n], rows);
    keep_passing(tables, relation, &tests[n + 1..], rows);
}

/// Keeps those of the rows that pass the tests which don't bound a column, in their order.
pub fn keep_passing_unbounded<R: Relations>(
    tables: &R,
    relation: &Relation,
    column: ColumnNumber,
    tests: &[Test],
    rows: &mut Vec<TupleRef>,
)
    requires held { All (λ r. IsSome (finite.get relation.now.rows r)) rows.old.items }
    requires current { IsCurrent (linked_keys relation.now.targets (R.tables tables.now)) relation.now }
    requires columns { HasColumns relation.now tests.now }
    ensures { rows.new.items ≡ filter (row_passes_so (R.tables tables.now) relation.now (unbounded column.0 tests.now)) rows.old.items }
{
    for test in tests {
        if bounds(column, test) {
            continue;
        }
        keep_standing(tables, relation, test, rows);
    }
}

// The row that has this key. A search of the tree of the keys may have gone side by side with others.
fn find_key(relation: &Relation, way: Option<&Way<'_>>, key: &SoughtValue<'_>) -> Option<TupleRef>
    requires { IfSome way (λ w. IsWay relation.now.by_key w.now) }
    ensures found { IfSome result (λ r. key_at relation.now.rows r ≡ Some key.now) }
    ensures none { IfNone result ((r : TupleRef) → key_at relation.now.rows r ≢ Some key.now) }
{
    match way {
        Some(way) => relation.find_key_by_way(way, key),
        None => relation.find_key(key),
    }
}

/// Appends the row that has this key, where there is one. A search of the tree of the keys may have gone side by side with others. At an
/// error nothing is appended.
pub fn row_by_key<R: Relations>(
    tables: &R,
    relation: &Relation,
    way: Option<&Way<'_>>,
    key: &SoughtValue<'_>,
    out: &mut Vec<TupleRef>,
) -> Result<(), NoMemory>
    requires { IfSome way (λ w. IsWay relation.now.by_key w.now) }
    ensures ok { OnOk result (AppendsBag out.old.items out.new.items (standing (R.tables tables.now) relation.now 0 operator.Eq key.now)) }
    ensures err { OnErr result (out.new.items ≡ out.old.items) }
{
    a_relation_is_kept(relation);
    if let Some(r) = find_key(relation, way, key) {
        out.push(r)?;
    }
    Ok(())
}

/// Appends the rows whose value in a column with a tree stands so to this value, each once. At an error nothing is appended.
pub fn rows_by_tree<R: Relations>(
    tables: &R,
    relation: &Relation,
    column: ColumnNumber,
    op: Op,
    value: &SoughtValue<'_>,
    out: &mut Vec<TupleRef>,
) -> Result<(), NoMemory>
    requires current { IsCurrent (linked_keys relation.now.targets (R.tables tables.now)) relation.now }
    requires within { column.0 < length relation.now.schema.columns }
    requires has_tree { HasTree relation.now column.0 }
    requires range { IsTrue (is_range op) }
    ensures ok { OnOk result (AppendsBag out.old.items out.new.items (standing (R.tables tables.now) relation.now column.0 op value.now)) }
    ensures err { OnErr result (out.new.items ≡ out.old.items) }
{
    a_relation_is_kept(relation);
    if let (0, Op::Eq) = (column.0, op) {
        return row_by_key(tables, relation, None, value, out);
    }
    let mut probe = RangeProbe {
        tables,
        relation,
        column,
        op,
        sought: value,
        asked: 0,
    };
    append_range(relation, column, None, &mut probe, out)
}

/// Appends the rows whose value in a column with a tree equals this value, each once. A search of the tree may have gone side by side
/// with others. At an error nothing is appended.
pub fn rows_by_way<R: Relations>(
    tables: &R,
    relation: &Relation,
    column: ColumnNumber,
    way: Option<&Way<'_>>,
    value: &SoughtValue<'_>,
    out: &mut Vec<TupleRef>,
) -> Result<(), NoMemory>
    requires current { IsCurrent (linked_keys relation.now.targets (R.tables tables.now)) relation.now }
    requires within { column.0 < length relation.now.schema.columns }
    requires has_tree { HasTree relation.now column.0 }
    requires way { IfSome way (λ w. IsWay (tree_on relation.now column.0) w.now) }
    ensures ok { OnOk result (AppendsBag out.old.items out.new.items (standing (R.tables tables.now) relation.now column.0 operator.Eq value.now)) }
    ensures err { OnErr result (out.new.items ≡ out.old.items) }
{
    a_relation_is_kept(relation);
    if column.0 == 0 {
        return row_by_key(tables, relation, way, value, out);
    }
    let mut probe = RangeProbe {
        tables,
        relation,
        column,
        op: Op::Eq,
        sought: value,
        asked: 0,
    };
    append_range(relation, column, way, &mut probe, out)
}

/// Appends the rows whose value in a column with a tree passes each test on it, those by `<>` aside, each once. At an error
/// nothing is appended.
pub fn rows_between<R: Relations>(
    tables: &R,
    relation: &Relation,
    column: ColumnNumber,
    tests: &[Test],
    out: &mut Vec<TupleRef>,
) -> Result<(), NoMemory>
    requires current { IsCurrent (linked_keys relation.now.targets (R.tables tables.now)) relation.now }
    requires within { column.0 < length relation.now.schema.columns }
    requires has_tree { HasTree relation.now column.0 }
    ensures ok { OnOk result (AppendsBag out.old.items out.new.items (between (R.tables tables.now) relation.now column.0 tests.now)) }
    ensures err { OnErr result (out.new.items ≡ out.old.items) }
{
    a_relation_is_kept(relation);
    let mut probe = BoundsProbe {
        tables,
        relation,
        column,
        tests,
        asked: 0,
    };
    append_range(relation, column, None, &mut probe, out)
}

/// Appends the rows whose value in a column with a hash equals this value, each once. At an error nothing is appended.
pub fn rows_by_hash<R: Relations>(
    tables: &R,
    relation: &Relation,
    column: ColumnNumber,
    value: &SoughtValue<'_>,
    out: &mut Vec<TupleRef>,
) -> Result<(), NoMemory>
    requires current { IsCurrent (linked_keys relation.now.targets (R.tables tables.now)) relation.now }
    requires within { column.0 < length relation.now.schema.columns }
    requires has_hash { HasHash relation.now column.0 }
    ensures ok { OnOk result (AppendsBag out.old.items out.new.items (standing (R.tables tables.now) relation.now column.0 operator.Eq value.now)) }
    ensures err { OnErr result (out.new.items ≡ out.old.items) }
{
    a_relation_is_kept(relation);
    let before = out.len();
    for r in relation.chain_of(column, low_bits(hash_of_sought(value))) {
        if !stands(Op::Eq, read(tables, relation, r, column), value) {
            continue;
        }
        if let Err(refused) = out.push(r) {
            out.truncate(before);
            return Err(NoMemory::from(refused));
        }
    }
    Ok(())
}
