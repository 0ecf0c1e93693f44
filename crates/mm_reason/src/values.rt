//! Values that can't stand where a command puts them.

use crate::tables::{Seen, table_named};
use crate::told::{Reason, tell};
use mm_catalog::Catalog;
use mm_resolver::referred;
use mm_syntax::Shown;
use plain_tables::{ColKind, Column, LONGEST_TEXT, Value};
use std::alloc::Global;

/// Whether nulls may stand in a column.
pub fn takes_null(column: &Column) -> bool {
    matches!(&column.kind, ColKind::RefOrNull(_))
}

// That a null can't stand in a column, or not behind the operator before it.
fn unfit_null(alloc: Global, table: &Seen<'_>, column: &Column) -> Reason {
    let (table, name) = (table.name, column.name.as_str());
    if takes_null(column) {
        return tell(format!(in alloc;
            "null has no order, and stands behind = and <> alone: {name}"
        ));
    }
    tell(format!(in alloc; "column {name} of {table} takes no null"))
}

/// Why a value is of another type than a column.
pub fn why_mistyped(alloc: Global, table: &Seen<'_>, column: &Column, value: &Value) -> Reason {
    let (name, held) = (table.name, column.name.as_str());
    let shown = Shown(value.sought().seen());
    match value {
        Value::Null => unfit_null(alloc, table, column),
        Value::Int(_) => {
            tell(format!(in alloc; "column {held} of {name} has texts, and {shown} is an integer"))
        }
        Value::Text(_) => {
            tell(format!(in alloc; "column {held} of {name} has integers, and {shown} is a text"))
        }
    }
}

/// Why a text is too long for a column.
pub fn why_long(alloc: Global, column: &Column, value: &Value) -> Reason {
    let Value::Text(text) = value else {
        return Ok(None);
    };
    let (name, bytes) = (column.name.as_str(), text.as_bytes().len());
    tell(format!(in alloc;
        "the text for column {name} has {bytes} bytes, and {LONGEST_TEXT} are allowed"
    ))
}

/// Why a value of a column names no row, if it is a reference that names none.
pub fn why_unheld(alloc: Global, catalog: &Catalog, column: &Column, value: &Value) -> Reason {
    let Some(name) = referred(column) else {
        return Ok(None);
    };
    let Some(table) = table_named(catalog, name) else {
        return Ok(None);
    };
    if matches!(value, Value::Null) || table.relation.find_key(&value.sought()).is_some() {
        return Ok(None);
    }
    let (table, column) = (table.name, column.name.as_str());
    let shown = Shown(value.sought().seen());
    tell(format!(in alloc; "{table} has no row with the key {shown}, which column {column} names"))
}
