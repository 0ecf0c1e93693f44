//! Rows that come in together, and go out again where one of them cannot.
ghost use Rattle.std.specs.Prelude.{◌≡◌, ◌<◌, ◌≤◌, ◌+◌, List, IfErr, IfOk, OnOk, drop, length, map, vec_capacity};
ghost use Rattle.plain_tables.specs.Doing as doing;
ghost use Rattle.plain_tables.specs.Doing.{done};
ghost use Rattle.plain_tables.specs.ResolvedLaws.{IsMeant};
ghost use Rattle.plain_tables.specs.Tables.{Row};
ghost use Rattle.plain_tables.specs.declared.resolved.Resolved.TheVariants as resolved;
ghost use Rattle.mm_catalog.specs.Changes.{HasEffect, IsRefusedFor};
ghost use Rattle.mm_catalog.specs.LoadOrder.{first_row, row_at};
ghost use Rattle.mm_catalog.specs.Loaded.{HasCome};
ghost use Rattle.mm_catalog.specs.Seen.{database_of};

use crate::by_key::{KeyPlace, row_of};
use crate::catalog::Catalog;
use crate::guesses::Guesses;
use crate::row_values::{Guided, LentValues, TakenValues};
use no_memory::NoMemory;
use part_raw::TupleRef;
use plain_tables::{Refusal, RowList, RowParts, TableNumber, Value};
use std::marker::Model;

/// The rows of a load, which come into a table one after the other.
pub trait LoadedRows: Drop {
    // the rows that are left
    ghost left: { Self → List Row };

    /// How many are left.
    fn len(&self) -> usize
        ensures { result ≡ length (left self.now) };

    /// The integer that a row has in a column, so many rows behind the next one. It is the least of all if there is no such row or no
    /// integer.
    fn number(&self, ahead: usize, column: usize) -> i64;

    /// Puts the next row into a table as `Catalog::put` does. The guesses tell which rows it may name.
    fn put_next(
        &mut self,
        catalog: &mut Catalog,
        table: TableNumber,
        guesses: &Guesses,
    ) -> Result<TupleRef, Refusal>
        requires some { 0 < length (left self.old) }
        requires meant { IsMeant catalog.old.limits (database_of catalog.old) (resolved.Insert table (first_row (left self.old))) }
        ensures inserted { OnOk result (HasEffect catalog.old catalog.new (done catalog.old.limits (database_of catalog.old) (resolved.Insert table (first_row (left self.old)))) 1) }
        ensures came { IfOk result (HasCome catalog.old catalog.new table.0 (first_row (left self.old))) }
        ensures refused { IfErr result (IsRefusedFor catalog.old catalog.new (done catalog.old.limits (database_of catalog.old) (resolved.Insert table (first_row (left self.old))))) }
        ensures rest { left self.new ≡ drop 1 (left self.old) };
}

// The integer that a row has in a column, and the least of all if there is none.
fn number_in(row: Option<&[Value]>, column: usize) -> i64 {
    match row.and_then(|values| values.get(column)) {
        Some(Value::Int(number)) => *number,
        _ => i64::MIN,
    }
}

/// The rows at these places, which are lent. A place at which there is none has a row without values.
#[derive(Drop)]
pub struct PlacedRows<'a> {
    pub rows: &'a RowList,
    pub places: &'a [KeyPlace],
}

impl<'a> LoadedRows for PlacedRows<'a> {
    ghost left = { λ p. map (row_at p.rows.now) p.places.now };

    fn len(&self) -> usize {
        self.places.len()
    }

    fn number(&self, ahead: usize, column: usize) -> i64 {
        let row = self
            .places
            .get(ahead)
            .and_then(|place| self.rows.get(place.1));
        number_in(row, column)
    }

    fn put_next(
        &mut self,
        catalog: &mut Catalog,
        table: TableNumber,
        guesses: &Guesses,
    ) -> Result<TupleRef, Refusal> {
        let Some((place, rest)) = self.places.split_first() else {
            unreachable!()
        };
        self.places = rest;
        let values = LentValues {
            values: row_of(self.rows, place),
        };
        catalog.put(table, Guided { values, guesses })
    }
}

// Puts a row into a table. Its values are moved.
fn put_moved(
    catalog: &mut Catalog,
    table: TableNumber,
    values: &mut [Value],
    guesses: &Guesses,
) -> Result<TupleRef, Refusal>
    requires { IsMeant catalog.old.limits (database_of catalog.old) (resolved.Insert table values.old) }
    ensures inserted { OnOk result (HasEffect catalog.old catalog.new (done catalog.old.limits (database_of catalog.old) (resolved.Insert table values.old)) 1) }
    ensures came { IfOk result (HasCome catalog.old catalog.new table.0 values.old) }
    ensures refused { IfErr result (IsRefusedFor catalog.old catalog.new (done catalog.old.limits (database_of catalog.old) (resolved.Insert table values.old))) }
{
    let values = TakenValues { values, place: 0 };
    catalog.put(table, Guided { values, guesses })
}

/// Rows that are moved, as they stand.
#[derive(Drop)]
pub struct MovedRows {
    values: Vec<Value>,
    // how many values there are up to the end of each row
    ends: Vec<usize>,
    // the next row, and where its values begin; those before them may have gone
    place: usize,
    start: usize,
}

impl Model for MovedRows {
    ghost use Rattle.std.specs.Prelude.{List, drop, length};
    ghost use Rattle.plain_tables.specs.Tables.{Row};
    ghost use Rattle.plain_tables.specs.RowLists.{RiseTo, rows_between};

    ghost Value = { List Row };

    ghost view = { λ r. rows_between r.start (drop r.place r.ends.items) r.values.items };

    ghost invariant = { λ r. RiseTo r.start (drop r.place r.ends.items) (length r.values.items) };
}

impl MovedRows {
    /// All of these rows.
    pub fn new(rows: RowList) -> MovedRows
        ensures { result ≡ rows }
    {
        let RowParts { values, ends } = rows.into_parts();
        MovedRows {
            values,
            ends,
            place: 0,
            start: 0,
        }
    }

    // The values of the row at a place, if there is one.
    fn row(&self, place: usize) -> Option<&[Value]> {
        let end = *self.ends.get(place)?;
        let before = place
            .checked_sub(1)
            .and_then(|before| self.ends.get(before));
        self.values
            .as_slice()
            .get(before.copied().unwrap_or(0)..end)
    }
}

impl LoadedRows for MovedRows {
    ghost left = { λ r. r };

    fn len(&self) -> usize {
        self.ends.len().saturating_sub(self.place)
    }

    fn number(&self, ahead: usize, column: usize) -> i64 {
        number_in(self.row(self.place.saturating_add(ahead)), column)
    }

    fn put_next(
        &mut self,
        catalog: &mut Catalog,
        table: TableNumber,
        guesses: &Guesses,
    ) -> Result<TupleRef, Refusal> {
        let start = self.start;
        let end = self.ends[self.place];
        self.start = end;
        self.place += 1;
        put_moved(catalog, table, &mut self.values[start..end], guesses)
    }
}

/// The refusal of a row, with the number of the record that it is of.
pub fn in_record(refusal: Refusal, number: u64) -> Refusal
    ensures { result ≡ doing.in_record number refusal }
{
    let record = Some(number);
    match refusal {
        Refusal::KeyExists { .. } => Refusal::KeyExists { record },
        Refusal::NoReferencedRow { .. } => Refusal::NoReferencedRow { record },
        Refusal::TableFull { .. } => Refusal::TableFull { record },
        other => other,
    }
}

/// Makes sure of room in a list for so many references more.
pub fn make_room(refs: &mut Vec<TupleRef>, count: usize) -> Result<(), NoMemory>
    ensures same { refs.new.items ≡ refs.old.items }
    ensures room { OnOk result (length refs.new.items + count ≤ vec_capacity refs.new) }
{
    refs.reserve(count)?;
    Ok(())
}
