//! Commands whose names and values are right, and which rows refuse.

use crate::fault::unless_refused;
use crate::referrers::named_rows;
use crate::tables::{Seen, table_at};
use crate::told::{Reason, about, tell};
use crate::values::why_unheld;
use mm_catalog::Catalog;
use mm_syntax::Shown;
use plain_tables::{Assignment, Command, Refusal, Resolved, RowList, Value};
use std::alloc::Global;

// That a row with a key is there, if one is.
fn held_key(alloc: Global, table: &Seen<'_>, key: &Value) -> Reason {
    if table.relation.find_key(&key.sought()).is_none() {
        return Ok(None);
    }
    let (name, key) = (table.name, Shown(key.sought().seen()));
    tell(format!(in alloc; "{name} has a row with the key {key}"))
}

/// The rows of a load that come before one of them.
#[derive(Clone, Copy)]
struct Before<'a> {
    rows: Option<&'a RowList>,
    count: usize,
}

// The place of the first of these rows that has a key, if one has.
fn place_of_key(before: Before<'_>, key: &Value) -> Option<usize> {
    let rows = before.rows?;
    (0..before.count).find(|place| { rows.get(*place).is_some_and(|row| row.first() == Some(key)) })
}

// That one of these rows has a key too, if one has.
fn repeated_key(alloc: Global, before: Before<'_>, key: &Value) -> Reason {
    let Some(place) = place_of_key(before, key) else {
        return Ok(None);
    };
    let (record, key) = (place.saturating_add(1), Shown(key.sought().seen()));
    tell(format!(in alloc; "record {record} has the key {key} too"))
}

// That a row behind these has a key that is held, if it has.
fn why_no_key(alloc: Global, table: &Seen<'_>, before: Before<'_>, values: &[Value]) -> Reason {
    let Some(key) = values.first() else {
        return Ok(None);
    };
    match held_key(alloc, table, key)? {
        Some(told) => Ok(Some(told)),
        None => repeated_key(alloc, before, key),
    }
}

// The first value of a row that is a reference and names no row.
fn unheld(alloc: Global, catalog: &Catalog, table: &Seen<'_>, values: &[Value]) -> Reason {
    for (number, (column, value)) in table.columns.iter().zip(values).enumerate() {
        if let Some(told) = why_unheld(alloc, catalog, column, value)? {
            return Ok(Some(told.about(number)));
        }
    }
    Ok(None)
}

// The first value that is set that is a reference and names no row.
fn unheld_setting(
    alloc: Global,
    catalog: &Catalog,
    table: &Seen<'_>,
    assignments: &[Assignment],
) -> Reason {
    for (number, assignment) in assignments.iter().enumerate() {
        if let Some(column) = table.columns.get(assignment.column.0) {
            if let Some(told) = why_unheld(alloc, catalog, column, &assignment.value)? {
                return Ok(Some(told.about(number)));
            }
        }
    }
    Ok(None)
}

// That a table takes no row behind so many others, if it takes none.
fn full(alloc: Global, catalog: &Catalog, table: &Seen<'_>, before: usize) -> Reason {
    let most = u64::from(catalog.limits().rows);
    let rows = table.relation.len().saturating_add(before as u64);
    if rows < most {
        return Ok(None);
    }
    let (name, held) = (table.name, table.relation.len());
    if before == 0 {
        return tell(format!(in alloc; "{name} has {held} rows, and there can be no more"));
    }
    tell(format!(in alloc;
        "{name} has {held} rows, {before} records come before this one, and a table has at most {most} rows"
    ))
}

// Why a row is not put into a table behind these.
fn kept_out(
    alloc: Global,
    catalog: &Catalog,
    table: &Seen<'_>,
    before: Before<'_>,
    values: &[Value],
    refusal: Refusal,
) -> Reason {
    match refusal {
        Refusal::KeyExists { .. } => about(why_no_key(alloc, table, before, values), 0),
        Refusal::NoReferencedRow { .. } => unheld(alloc, catalog, table, values),
        Refusal::TableFull { .. } => full(alloc, catalog, table, before.count),
        _ => Ok(None),
    }
}

// The row of the record that a refusal tells, and those before it.
fn told_row(rows: &RowList, refusal: Refusal) -> Option<(Before<'_>, &[Value])> {
    let place = refusal.record_no()?.checked_sub(1)?;
    let count = usize::try_from(place).ok()?;
    let row = rows.get(count)?;
    let rows = Some(rows);
    Some((Before { rows, count }, row))
}

// Why a command that is resolved is refused so by the rows that are there, if it puts rows in or sets values.
fn of_resolved(alloc: Global, catalog: &Catalog, resolved: &Resolved, refusal: Refusal) -> Reason {
    match resolved {
        Resolved::Insert { table, values } => match table_at(catalog, *table) {
            Some(seen) => {
                let before = Before {
                    rows: None,
                    count: 0,
                };
                kept_out(alloc, catalog, &seen, before, values.as_slice(), refusal)
            }
            None => Ok(None),
        },
        Resolved::Load { table, rows } => {
            match (table_at(catalog, *table), told_row(rows, refusal)) {
                (Some(seen), Some((before, row))) => {
                    kept_out(alloc, catalog, &seen, before, row, refusal)
                }
                _ => Ok(None),
            }
        }
        Resolved::Update {
            table,
            assignments,
            ..
        } if matches!(refusal, Refusal::NoReferencedRow { .. }) => {
            match table_at(catalog, *table) {
                Some(seen) => unheld_setting(alloc, catalog, &seen, assignments.as_slice()),
                None => Ok(None),
            }
        }
        _ => Ok(None),
    }
}

// Why a command with a block is refused so, if it puts rows in or sets values.
fn of_change(
    alloc: Global,
    catalog: &Catalog,
    command: Command,
    block: &[u8],
    refusal: Refusal,
) -> Reason {
    match unless_refused(catalog.resolve(command, block))? {
        Some(resolved) => {
            let told = of_resolved(alloc, catalog, &resolved, refusal);
            drop(resolved);
            told
        }
        None => Ok(None),
    }
}

/// Why a command with a block is refused so by the rows that are there.
pub fn refused_by_rows(
    alloc: Global,
    catalog: &Catalog,
    command: Command,
    block: &[u8],
    refusal: Refusal,
) -> Reason {
    match (command, refusal) {
        (Command::Delete { table, conditions }, Refusal::RowIsReferenced) => {
            named_rows(alloc, catalog, table, conditions)
        }
        (command, _) => of_change(alloc, catalog, command, block, refusal),
    }
}
