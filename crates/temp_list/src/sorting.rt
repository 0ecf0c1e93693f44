//! Rows in the order of their keys.
ghost use Rattle.std.specs.Prelude.{◌≡◌, ◌↔◌, ◌<◌, IsTrue, IfSome, OnOk, OnErr, map};
ghost use Rattle.std.specs.List.Sorted.{IsPermutation, IsSorted};
ghost use Rattle.std.specs.Option.{option_cmp};
ghost use Rattle.plain_tables.specs.Values.{value_cmp};
ghost use Rattle.mm_relation.specs.Reading.{key_at};
ghost use Rattle.temp_list.specs.Leading.{LeadsWith, AreLedByRising};
ghost use Rattle.temp_list.specs.Lists.{keys_cmp};
ghost use Rattle.temp_list.specs.Seen.{AreTables, listed_cmp, lists};

use crate::paired::{paired_rows, sort_paired};
use crate::row::ListedRow;
use mm_relation::{Relation, Relations};
use no_memory::NoMemory;
use part_raw::TupleRef;
use plain_tables::TableNumber;
use std::cmp::Ordering;

/// Compares the keys of two rows of a relation. A row is not read to be compared with itself.
#[inline]
pub fn compare_keys(relation: &Relation, q: TupleRef, r: TupleRef) -> Ordering
    ensures { result ≡ option_cmp value_cmp (key_at relation.now.rows q) (key_at relation.now.rows r) }
{
    if q.number == r.number {
        return Ordering::Equal;
    }
    relation.key_if_held(q).cmp(&relation.key_if_held(r))
}

// Compares two rows by their keys, the first source's first.
pub fn compare_rows<R: Relations>(
    tables: &R,
    sources: &[TableNumber],
    a: &[TupleRef],
    b: &[TupleRef],
) -> Ordering
    requires { AreTables (R.tables tables.now) sources.now }
    ensures { result ≡ keys_cmp (R.tables tables.now) (map (λ t. t.0) sources.now) a.now b.now }
{
    let Some((table, sources)) = sources.split_first() else {
        return Ordering::Equal;
    };
    match (a.split_first(), b.split_first()) {
        (Some((q, a)), Some((r, b))) => {
            match compare_keys(tables.at(*table), *q, *r) {
                Ordering::Equal => compare_rows(tables, sources, a, b),
                first => first,
            }
        }
        (None, None) => Ordering::Equal,
        (None, Some(_)) => Ordering::Less,
        (Some(_), None) => Ordering::Greater,
    }
}

// The key of a row's first source, where it is an integer.
#[inline]
fn leading_key(relation: &Relation, row: &[TupleRef]) -> Option<i64>
    ensures { IfSome result (LeadsWith relation.now row.now) }
{
    let r = row.first()?;
    relation.integer_key(*r)
}

// Whether the key of each row's first source stands above that of the row before, and all of them are integers. Each is read
// once, in a short loop, so that the reads of rows that lie far apart go side by side.
fn leading_keys_rise(relation: &Relation, rows: &[ListedRow]) -> bool
    ensures { IsTrue result → AreLedByRising relation.now rows.now }
{
    let mut last = None;
    for row in rows {
        let Some(key) = leading_key(relation, row.as_slice()) else {
            return false;
        };
        if let Some(before) = last {
            if key <= before {
                return false;
            }
        }
        last = Some(key);
    }
    true
}

// Whether no row stands below the one before it, by the keys of all sources.
fn all_keys_rise<R: Relations>(tables: &R, sources: &[TableNumber], rows: &[ListedRow]) -> bool
    requires { AreTables (R.tables tables.now) sources.now }
    ensures { IsTrue result ↔ IsSorted (listed_cmp (R.tables tables.now) sources.now) rows.now }
{
    rows.is_sorted_by(
        |a, b| -> bool
            requires { AreTables (R.tables tables.now) sources.now }
        { compare_rows(tables, sources, b.as_slice(), a.as_slice()).is_ge() },
    )
}

// Whether no row stands below the one before it. Mostly the first source tells.
fn rises<R: Relations>(tables: &R, sources: &[TableNumber], rows: &[ListedRow]) -> bool
    requires { AreTables (R.tables tables.now) sources.now }
    ensures { IsTrue result ↔ IsSorted (listed_cmp (R.tables tables.now) sources.now) rows.now }
{
    if let Some(table) = sources.first() {
        if leading_keys_rise(tables.at(*table), rows) {
            return true;
        }
    }
    all_keys_rise(tables, sources, rows)
}

// Puts rows into the order of their keys, which each comparison reads.
fn sort_by_reading<R: Relations>(
    tables: &R,
    sources: &[TableNumber],
    rows: &mut Vec<ListedRow>,
) -> Result<(), NoMemory>
    requires { AreTables (R.tables tables.now) sources.now }
    ensures sorted { OnOk result (IsSorted (listed_cmp (R.tables tables.now) sources.now) rows.new.items) }
    ensures moved { IsPermutation (lists rows.old.items) (lists rows.new.items) }
    ensures unchanged { OnErr result (rows.new.items ≡ rows.old.items) }
{
    rows.sort_by(
        |a, b| -> Ordering
            requires { AreTables (R.tables tables.now) sources.now }
        { compare_rows(tables, sources, a.as_slice(), b.as_slice()) },
    )?;
    Ok(())
}

/// Puts rows into the order of their keys. Those that rise already, and all at an error, stay where they were.
pub fn sort_rows<R: Relations>(
    tables: &R,
    sources: &[TableNumber],
    rows: &mut Vec<ListedRow>,
) -> Result<(), NoMemory>
    requires { AreTables (R.tables tables.now) sources.now }
    ensures sorted { OnOk result (IsSorted (listed_cmp (R.tables tables.now) sources.now) rows.new.items) }
    ensures moved { IsPermutation (lists rows.old.items) (lists rows.new.items) }
    ensures risen { IsSorted (listed_cmp (R.tables tables.now) sources.now) rows.old.items → rows.new.items ≡ rows.old.items }
    ensures unchanged { OnErr result (rows.new.items ≡ rows.old.items) }
{
    if rises(tables, sources, rows.as_slice()) {
        return Ok(());
    }
    let alloc = *rows.allocator();
    if let Some(paired) = paired_rows(alloc, tables, sources, rows.as_slice())? {
        sort_paired(tables, sources, paired, rows);
        return Ok(());
    }
    sort_by_reading(tables, sources, rows)
}
