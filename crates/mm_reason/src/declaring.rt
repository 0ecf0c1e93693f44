//! Tables and indexes that are not declared, and not dropped.

use crate::parts::IndexPart;
use crate::tables::{Seen, nearest_table, table_at};
use crate::told::{Reason, tell};
use mm_catalog::{Catalog, MOST_COLUMNS, MOST_TABLES};
use mm_resolver::referred;
use plain_tables::{Column, IndexKind, Refusal, TableNumber, Text};
use std::alloc::Global;

/// Why a column is not declared: it refers to no table, or its name stands twice.
pub fn column(alloc: Global, catalog: &Catalog, column: &Column, refusal: Refusal) -> Reason {
    let name = column.name.as_str();
    match (refusal, referred(column)) {
        (Refusal::ColumnNamedTwice, _) => tell(format!(in alloc; "two columns are called {name}")),
        (_, Some(table)) => unreferred(alloc, catalog, name, table.as_str()),
        (_, None) => Ok(None),
    }
}

// That a column refers to what is no table.
fn unreferred(alloc: Global, catalog: &Catalog, name: &str, table: &str) -> Reason {
    match nearest_table(alloc, catalog, table)? {
        Some(near) => tell(format!(in alloc;
            "{table}, which column {name} refers to, is no table: is {near} meant?"
        )),
        None => { tell(format!(in alloc; "{table}, which column {name} refers to, is no table")) }
    }
}

/// That the first of the columns that are declared refers to a table.
pub fn referring_key(alloc: Global, columns: &[Column]) -> Reason {
    let Some(key) = columns.first() else {
        return Ok(None);
    };
    let key = key.name.as_str();
    tell(format!(in alloc;
        "column {key} is the first, so it is the key, and a key refers to no table"
    ))
}

/// That a table is declared with too many columns.
pub fn too_many_columns(alloc: Global, count: usize) -> Reason {
    tell(format!(in alloc; "{count} columns are declared, and a table has at most {MOST_COLUMNS}"))
}

/// That there are as many tables as there may be.
pub fn too_many_tables(alloc: Global) -> Reason {
    tell(format!(in alloc; "there are {MOST_TABLES} tables, and there can be no more"))
}

// A column of a table that refers to the table of that name.
fn referrer<'a>(table: &Seen<'a>, name: &str) -> Option<&'a Column> {
    table.columns.iter().find(|column| match referred(column) {
        Some(other) => other.as_str() == name,
        None => false,
    })
}

/// Why a table is not dropped: the first column that refers to it.
pub fn referenced(alloc: Global, catalog: &Catalog, name: &Text) -> Reason {
    let name = name.as_str();
    for number in 0..catalog.table_count() {
        if let Some(table) = table_at(catalog, TableNumber(number)) {
            if let Some(column) = referrer(&table, name) {
                let (table, column) = (table.name, column.name.as_str());
                return tell(format!(in alloc; "column {column} of {table} refers to {name}"));
            }
        }
    }
    Ok(None)
}

fn kind_word(kind: IndexKind) -> &'static str {
    match kind {
        IndexKind::Tree => "tree",
        IndexKind::Hash => "hash",
    }
}

/// That an index of a table is declared, or that it isn't.
pub fn index(alloc: Global, table: &Text, index: IndexPart<'_>, refusal: Refusal) -> Reason {
    let (table, column) = (table.as_str(), index.column.as_str());
    let kind = kind_word(index.kind);
    if refusal == Refusal::IndexExists {
        return tell(format!(in alloc; "a {kind} on {column} of {table} is declared"));
    }
    tell(format!(in alloc; "no {kind} on {column} of {table} is declared"))
}

/// That the key of a table has a tree.
pub fn key_tree(alloc: Global, table: &Text, index: IndexPart<'_>) -> Reason {
    let (table, column) = (table.as_str(), index.column.as_str());
    tell(format!(in alloc; "{column} is the key of {table}, which has a tree of its own"))
}
