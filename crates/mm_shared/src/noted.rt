//! The names and columns of tables, noted beside the tables as they are.

ghost use Rattle.std.specs.Prelude.{◌≡◌, ◌↔◌, ◌<◌, [], Ok, Some, false, length, map, slice_get, true, IfOk, IsTrue, OnErr, OnOk};
ghost use Rattle.plain_tables.specs.ResolvedLaws.{emptied};
ghost use Rattle.mm_catalog.specs.Seen.{database_of};
ghost use Rattle.mm_shared.specs.Noted.{noted_table, noted_tables};

use mm_catalog::{Catalog, copy_columns};
use no_memory::NoMemory;
use plain_tables::{ColKind, Column, Sequence, TableNumber, Text};
use std::alloc::Global;

// Whether two texts are the same.
fn is_same_text(a: &str, b: &str) -> bool
    ensures { IsTrue result ↔ (a.now ≡ b.now) }
{
    a.as_bytes() == b.as_bytes()
}

// Whether two kinds are the same.
fn is_same_kind(a: &ColKind, b: &ColKind) -> bool
    ensures { IsTrue result ↔ (a.now ≡ b.now) }
{
    match (a, b) {
        (ColKind::Int, ColKind::Int) | (ColKind::Text, ColKind::Text) => true,
        (ColKind::Ref(a), ColKind::Ref(b)) => is_same_text(a.as_str(), b.as_str()),
        (ColKind::RefOrNull(a), ColKind::RefOrNull(b)) => is_same_text(a.as_str(), b.as_str()),
        _ => false,
    }
}

// Whether two columns are the same.
fn is_same_column(a: &Column, b: &Column) -> bool
    ensures { IsTrue result ↔ (a.now ≡ b.now) }
{
    is_same_text(a.name.as_str(), b.name.as_str()) && is_same_kind(&a.kind, &b.kind)
}

// Whether two lists of columns are the same.
fn are_same_columns(a: &[Column], b: &[Column]) -> bool
    ensures { IsTrue result ↔ (a.now ≡ b.now) }
{
    if a.len() != b.len() {
        return false;
    }
    for (place, column) in a.iter().enumerate() {
        if !is_same_column(column, &b[place]) {
            return false;
        }
    }
    true
}

/// The name and the columns of a table.
#[derive(Drop)]
pub struct NotedTable {
    pub name: Text,
    pub columns: Sequence<Column>,
}

impl NotedTable {
    // Whether this is the name and these are the columns of a table.
    fn is_of(&self, catalog: &Catalog, table: TableNumber) -> bool
        requires { table.0 < length (database_of catalog.now) }
        ensures { IsTrue result ↔ (slice_get (map emptied (database_of catalog.now)) table.0 ≡ Some (noted_table self.now)) }
    {
        is_same_text(self.name.as_str(), catalog.table_name(table))
            && are_same_columns(self.columns.as_slice(), catalog.columns(table))
    }

    // The name and the columns of a table.
    fn of(alloc: Global, catalog: &Catalog, table: TableNumber) -> Result<NotedTable, NoMemory>
        requires { table.0 < length (database_of catalog.now) }
        ensures { IfOk result (λ noted. slice_get (map emptied (database_of catalog.now)) table.0 ≡ Some (noted_table noted)) }
    {
        Ok(NotedTable {
            name: Text::from_str(alloc, catalog.table_name(table))?,
            columns: copy_columns(alloc, catalog.columns(table))?,
        })
    }
}

// The names and columns of the tables of a catalog.
fn note_tables(alloc: Global, catalog: &Catalog) -> Result<Vec<NotedTable>, NoMemory>
    ensures { IfOk result (λ noted. map noted_table noted.items ≡ map emptied (database_of catalog.now)) }
{
    let count = catalog.table_count();
    let mut tables = Vec::new(alloc);
    tables.reserve(count)?;
    for number in 0..count {
        tables.push(NotedTable::of(alloc, catalog, TableNumber(number))?)?;
    }
    Ok(tables)
}

/// The names and columns of tables, in the order of the tables. They are current, or in doubt: those of the tables may be others by now.
pub struct NotedTables {
    pub tables: Vec<NotedTable>,
    pub current: bool,
}

// It is written out, as that of a session is.
impl Drop for NotedTables {
    fn drop(self) {
        let NotedTables {
            tables: _,
            current: _,
        } = self;
    }
}

impl NotedTables {
    /// No table is noted.
    pub fn new(alloc: Global) -> NotedTables
        ensures none { noted_tables result ≡ [] }
        ensures doubted { result.current ≡ false }
    {
        NotedTables {
            tables: Vec::new(alloc),
            current: false,
        }
    }

    // Whether these are the names and columns of the tables of a catalog.
    fn are_of(&self, catalog: &Catalog) -> bool
        ensures { IsTrue result ↔ (noted_tables self.now ≡ map emptied (database_of catalog.now)) }
    {
        if self.tables.len() != catalog.table_count() {
            return false;
        }
        for (number, noted) in self.tables.iter().enumerate() {
            if !noted.is_of(catalog, TableNumber(number)) {
                return false;
            }
        }
        true
    }

    /// Whether they are current.
    #[inline]
    pub fn are_current(&self) -> bool
        ensures { result ≡ self.now.current }
    {
        self.current
    }

    /// Puts them in doubt.
    pub fn doubt(&mut self)
        ensures { self.new ≡ record self.old { current = false } }
    {
        self.current = false;
    }

    /// Notes the names and columns of the tables of a catalog, and says whether others were noted before. Only then it takes memory.
    pub fn renew(&mut self, catalog: &Catalog) -> Result<bool, NoMemory>
        ensures noted { OnOk result (noted_tables self.new ≡ map emptied (database_of catalog.now)) }
        ensures current { OnOk result (self.new.current ≡ true) }
        ensures same { noted_tables self.old ≡ map emptied (database_of catalog.now) → result ≡ Ok false }
        ensures others { result ≡ Ok false → noted_tables self.new ≡ noted_tables self.old }
        ensures unchanged { OnErr result (self.new ≡ self.old) }
    {
        let others = !self.are_of(catalog);
        if others {
            let alloc = *self.tables.allocator();
            self.tables = note_tables(alloc, catalog)?;
        }
        self.current = true;
        Ok(others)
    }
}
