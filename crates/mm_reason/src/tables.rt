//! The tables that a command names, and why names mean none of them and no column of theirs.

use crate::parts::Name;
use crate::told::{Reason, tell, words};
use mm_catalog::Catalog;
use mm_catalog::laws::a_catalog_is_consistent;
use mm_relation::{Relation, Relations};
use mm_syntax::Nearest;
use no_memory::NoMemory;
use plain_tables::{Column, Join, Place, TableNumber, Text};
use std::alloc::Global;
use std::slice::from_ref;

/// A table that is there.
#[derive(Clone, Copy)]
pub struct Seen<'a> {
    pub number: TableNumber,
    pub name: &'a str,
    pub columns: &'a [Column],
    pub relation: &'a Relation,
}

/// The table of that number, if there is one.
pub fn table_at(catalog: &Catalog, number: TableNumber) -> Option<Seen<'_>> {
    a_catalog_is_consistent(catalog);
    if number.0 >= catalog.table_count() {
        return None;
    }
    Some(Seen {
        number,
        name: catalog.table_name(number),
        columns: catalog.columns(number),
        relation: catalog.at(number),
    })
}

/// The table of that name, if there is one.
pub fn table_named<'a>(catalog: &'a Catalog, name: &Text) -> Option<Seen<'a>> {
    table_at(catalog, catalog.table_number(name)?)
}

impl<'a> Seen<'a> {
    /// The column of that name, if there is one.
    pub fn column(&self, name: &Text) -> Option<&'a Column> {
        self.columns
            .iter()
            .find(|column| column.name.as_str() == name.as_str())
    }
}

/// The table of that name and those that are joined with it, each once, as far as they are there.
pub fn tables_of<'a>(
    alloc: Global,
    catalog: &'a Catalog,
    table: &Text,
    joins: &[Join],
) -> Result<Vec<Seen<'a>>, NoMemory> {
    let mut tables: Vec<Seen<'a>> = Vec::new(alloc);
    if let Some(first) = table_named(catalog, table) {
        tables.push(first)?;
    }
    for join in joins {
        if let Some(own) = table_named(catalog, &join.table) {
            if !tables.iter().any(|table| table.name == own.name) {
                tables.push(own)?;
            }
        }
    }
    Ok(tables)
}

/// The column at a place, and its table.
pub fn column_at<'a, 'b>(
    tables: &'b [Seen<'a>],
    place: Place,
) -> Option<(&'b Seen<'a>, &'a Column)> {
    let table = tables.get(place.source)?;
    Some((table, table.columns.get(place.column.0)?))
}

// The names of tables, with a word between each two.
fn names(alloc: Global, tables: &[Seen<'_>], between: &str) -> Result<String, NoMemory> {
    let mut names = String::new(alloc);
    for table in tables {
        if !names.is_empty() {
            names.push_str(between)?;
        }
        names.push_str(table.name)?;
    }
    Ok(names)
}

// The tables that have a column of that name.
fn having<'a>(
    alloc: Global,
    tables: &[Seen<'a>],
    column: &Text,
) -> Result<Vec<Seen<'a>>, NoMemory> {
    let mut having = Vec::new(alloc);
    for table in tables {
        if table.column(column).is_some() {
            having.push(*table)?;
        }
    }
    Ok(having)
}

/// The name of a table that is near to a word, if one is.
pub fn nearest_table<'a>(
    alloc: Global,
    catalog: &'a Catalog,
    word: &str,
) -> Result<Option<&'a str>, NoMemory> {
    let mut nearest = Nearest::of(word);
    for number in 0..catalog.table_count() {
        if let Some(table) = table_at(catalog, TableNumber(number)) {
            nearest.look_at(alloc, table.name)?;
        }
    }
    Ok(nearest.found())
}

// The name of a column of these tables that is near to a word, if one is.
fn nearest_column<'a>(
    alloc: Global,
    tables: &[Seen<'a>],
    word: &str,
) -> Result<Option<&'a str>, NoMemory> {
    let mut nearest = Nearest::of(word);
    for table in tables {
        for column in table.columns {
            nearest.look_at(alloc, column.name.as_str())?;
        }
    }
    Ok(nearest.found())
}

// That none of these tables has a column of that name.
fn missing_everywhere(
    alloc: Global,
    tables: &[Seen<'_>],
    column: &str,
) -> Result<String, NoMemory> {
    let names = names(alloc, tables, " or ")?;
    match nearest_column(alloc, tables, column)? {
        Some(near) => words(format!(in alloc;
            "{column} is no column of {names}: is {near} meant?"
        )),
        None => words(format!(in alloc; "{column} is no column of {names}")),
    }
}

// Why a bare name means no column of these tables.
fn why_no_bare(alloc: Global, tables: &[Seen<'_>], column: &Text) -> Result<String, NoMemory> {
    let having = having(alloc, tables, column)?;
    let column = column.as_str();
    if having.is_empty() {
        return missing_everywhere(alloc, tables, column);
    }
    let names = names(alloc, &having, " and of ")?;
    words(format!(in alloc; "{column} is a column of {names}: name its table before it"))
}

/// Why a name means no column of these tables.
pub fn why_no_column(
    alloc: Global,
    tables: &[Seen<'_>],
    name: Name<'_>,
) -> Result<String, NoMemory> {
    let Some(table) = name.table else {
        return why_no_bare(alloc, tables, name.column);
    };
    if let Some(seen) = tables.iter().find(|seen| seen.name == table.as_str()) {
        return missing_everywhere(alloc, from_ref(seen), name.column.as_str());
    }
    unnamed_table(alloc, tables, table.as_str(), name.column.as_str())
}

/// That the table before the name of a column is none of these.
pub fn unnamed_table(
    alloc: Global,
    tables: &[Seen<'_>],
    table: &str,
    column: &str,
) -> Result<String, NoMemory> {
    let mut nearest = Nearest::of(table);
    for seen in tables {
        nearest.look_at(alloc, seen.name)?;
    }
    match nearest.found() {
        Some(near) => words(format!(in alloc;
            "{table} of {table}.{column} is no table of this command: is {near} meant?"
        )),
        None => words(format!(in alloc; "{table} of {table}.{column} is no table of this command")),
    }
}

/// That there is no table of that name.
pub fn no_table(alloc: Global, catalog: &Catalog, name: &Text) -> Reason {
    let name = name.as_str();
    match nearest_table(alloc, catalog, name)? {
        Some(near) => tell(format!(in alloc; "{name} is no table: is {near} meant?")),
        None => tell(format!(in alloc; "{name} is no table")),
    }
}
