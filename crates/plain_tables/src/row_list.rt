//! Rows in one buffer, seen by contracts as just the list of these rows.

ghost use Rattle.std.specs.Prelude.{◌≡◌, ◌≤◌, ◌<◌, ◌-◌, ◌^◌, ◌∷◌, ◌++◌, [], drop, get_or, length, option_copied, slice_get, take, OnOk, OnErr};
ghost use Rattle.plain_tables.specs.RowLists.{RiseTo, rows_between};

use crate::Value;
use no_memory::NoMemory;
use std::alloc::Global;
use std::marker::Model;

/// Rows, whose values stand one behind the other in one buffer.
#[derive(Drop)]
pub struct RowList {
    values: Vec<Value>,
    // how many values there are up to the end of each row
    ends: Vec<usize>,
}

impl Model for RowList {
    ghost use Rattle.std.specs.Prelude.{List, length};
    ghost use Rattle.plain_tables.specs.Tables.{Row};
    ghost use Rattle.plain_tables.specs.RowLists.{RiseTo, rows_between};

    ghost Value = { List Row };

    ghost view = { λ r. rows_between 0 r.ends.items r.values.items };

    ghost invariant = { λ r. RiseTo 0 r.ends.items (length r.values.items) };
}

/// The values of rows, one row behind the other, and how many there are up to the end of each.
#[derive(Drop)]
pub struct RowParts {
    pub values: Vec<Value>,
    pub ends: Vec<usize>,
}

// Where the row at a place begins, if rows end at these places.
fn start_of(ends: &[usize], place: usize) -> usize
    requires { place ≤ length ends.now }
    ensures { result ≡ get_or (0 ∷ ends.now) place 0 }
{
    match place.checked_sub(1) {
        Some(before) => ends[before],
        None => 0,
    }
}

// The values from one place up to another.
fn between(values: &[Value], start: usize, end: usize) -> &[Value]
    requires { (start ≤ end) × (end ≤ length values.now) }
    ensures { result.now ≡ take (end - start) (drop start values.now) }
{
    &values[start..end]
}

impl RowList {
    /// No rows. It takes no memory.
    pub fn new(alloc: Global) -> RowList
        ensures { result ≡ [] }
    {
        RowList {
            values: Vec::new(alloc),
            ends: Vec::new(alloc),
        }
    }

    /// How many rows there are.
    pub fn len(&self) -> usize
        ensures count { result ≡ length self.now }
        ensures bounded { result < 2 ^ 63 }
    {
        self.ends.len()
    }

    /// The row at a place, if there is one.
    pub fn get(&self, place: usize) -> Option<&[Value]>
        ensures { option_copied result ≡ slice_get self.now place }
    {
        let end = *self.ends.get(place)?;
        let start = start_of(&self.ends, place);
        Some(between(&self.values, start, end))
    }

    /// Puts a row behind the others. Its values are moved.
    pub fn push(&mut self, row: &mut Vec<Value>) -> Result<(), NoMemory>
        ensures pushed { OnOk result (self.new ≡ self.old ++ row.old.items ∷ []) }
        ensures moved { OnOk result (row.new.items ≡ []) }
        ensures unchanged { OnErr result (self.new ≡ self.old) }
        ensures kept { OnErr result (row.new.items ≡ row.old.items) }
    {
        self.ends.reserve(1)?;
        self.values.append(row)?;
        self.ends.push_reserved(self.values.len());
        Ok(())
    }

    /// The values and the ends of the rows.
    pub fn into_parts(self) -> RowParts
        ensures rows { rows_between 0 result.ends.items result.values.items ≡ self }
        ensures within { RiseTo 0 result.ends.items (length result.values.items) }
    {
        let RowList { values, ends } = self;
        RowParts { values, ends }
    }
}
