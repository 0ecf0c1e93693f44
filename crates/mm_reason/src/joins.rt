//! Joins that join nothing.

use crate::parts::Name;
use crate::tables::{Seen, column_at, table_named, tables_of, unnamed_table, why_no_column};
use crate::told::{Reason, Told, tell};
use mm_catalog::Catalog;
use plain_tables::{BaseKind, Column, Join, JoinSide, Place, Text};
use std::alloc::Global;
use std::slice::from_ref;

// What a side of a join names that isn't there, if its table is one of these.
fn missing_side(alloc: Global, tables: &[Seen<'_>], side: &JoinSide) -> Reason {
    for table in tables {
        if table.name == side.table.as_str() && table.column(&side.column).is_none() {
            let words = why_no_column(alloc, from_ref(table), Name::bare(&side.column))?;
            return Ok(Some(Told::of(words)));
        }
    }
    Ok(None)
}

// The side of a join that names none of the tables of its command, if one does.
fn unnamed_side(alloc: Global, tables: &[Seen<'_>], join: &Join) -> Reason {
    for side in [&join.left, &join.right] {
        let (table, column) = (side.table.as_str(), side.column.as_str());
        if !tables.iter().any(|seen| seen.name == table) {
            return Ok(Some(Told::of(unnamed_table(alloc, tables, table, column)?)));
        }
    }
    Ok(None)
}

// Why a join of a table with these before it joins nothing.
fn why_unjoined(alloc: Global, before: &[Seen<'_>], own: &Seen<'_>, join: &Join) -> Reason {
    for side in [&join.left, &join.right] {
        if let Some(told) = missing_side(alloc, before, side)? {
            return Ok(Some(told));
        }
        if let Some(told) = missing_side(alloc, from_ref(own), side)? {
            return Ok(Some(told));
        }
    }
    let name = own.name;
    tell(format!(in alloc;
        "of the join of {name}, one side has to be a column of {name} and the other of a table before it"
    ))
}

/// The joins before that of a number, and the join of that number.
pub fn at(joins: &[Join], number: usize) -> Option<(&[Join], &Join)> {
    let (before, rest) = joins.split_at_checked(number)?;
    Some((before, rest.first()?))
}

/// Why a join behind these of a table names no two columns, in a command with all of these tables.
pub fn unjoined(
    alloc: Global,
    catalog: &Catalog,
    all: &[Seen<'_>],
    table: &Text,
    before: &[Join],
    join: &Join,
) -> Reason {
    let Some(own) = table_named(catalog, &join.table) else {
        return Ok(None);
    };
    if let Some(told) = unnamed_side(alloc, all, join)? {
        return Ok(Some(told));
    }
    let tables = tables_of(alloc, catalog, table, before)?;
    why_unjoined(alloc, &tables, &own, join)
}

/// That the table of a join is named before.
pub fn repeated(alloc: Global, join: &Join) -> Reason {
    let name = join.table.as_str();
    tell(format!(in alloc; "{name} is named twice, and no table is joined with itself"))
}

// What a column has.
fn kind_words(catalog: &Catalog, column: &Column) -> &'static str {
    match catalog.type_of(&column.kind) {
        Some(BaseKind::Int) => "integers",
        Some(BaseKind::Text) => "texts",
        None => "nothing",
    }
}

/// That the two columns of a join are of different types.
pub fn mistyped(
    alloc: Global,
    catalog: &Catalog,
    tables: &[Seen<'_>],
    outer: Place,
    inner: Place,
) -> Reason {
    let (Some((table, column)), Some((own, own_column))) = (
        column_at(tables, outer),
        column_at(tables, inner),
    ) else {
        return Ok(None);
    };
    let (left, right) = (kind_words(catalog, column), kind_words(catalog, own_column));
    let (table, column) = (table.name, column.name.as_str());
    let (own, own_column) = (own.name, own_column.name.as_str());
    tell(format!(in alloc; "{table}.{column} has {left}, and {own}.{own_column} has {right}"))
}
