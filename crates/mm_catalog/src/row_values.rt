//! The values of rows on their way into cells: those that are lent are copied, and the others moved.
ghost use Rattle.std.specs.Prelude.{◌≡◌, ◌++◌, ◌∷◌, ◌<◌, [], List, Some, OnOk, drop, length, slice_get, vec_capacity, vec_len};
ghost use Rattle.plain_tables.specs.declared.value.Value.{Value as PlainValue};
ghost use Rattle.mm_catalog.specs.Cells.{cell_for};

use crate::guesses::Guesses;
use crate::references::cells::{moved_cell, push_lent};
use mm_relation::StoredCell;
use no_memory::NoMemory;
use part_raw::TupleRef;
use plain_tables::Value;
use std::alloc::Global;
use std::mem;

/// The values of a row, which go into its cells one after the other, the key the first.
pub trait RowValues: Drop {
    // the values that are left
    ghost left: { Self → List PlainValue };

    /// How many are left.
    fn len(&self) -> usize
        ensures { result ≡ length (left self.now) };

    /// The next value.
    fn next(&self) -> &Value
        requires { 0 < length (left self.now) }
        ensures { slice_get (left self.now) 0 ≡ Some result.now };

    /// The row that the next value, of this column, may name. It is only a guess.
    #[inline]
    fn guess(&self, _column: usize) -> Option<TupleRef> {
        None
    }

    /// Appends the cell of the next value, which names this row or else holds the value.
    fn put(
        &mut self,
        alloc: Global,
        named: Option<TupleRef>,
        cells: &mut Vec<StoredCell>,
    ) -> Result<(), NoMemory>
        requires some { 0 < length (left self.old) }
        requires room { vec_len cells.old < vec_capacity cells.old }
        ensures put { OnOk result ((value : PlainValue) → slice_get (left self.old) 0 ≡ Some value → cells.new.items ≡ cells.old.items ++ cell_for value named ∷ []) }
        ensures rest { OnOk result (left self.new ≡ drop 1 (left self.old)) }
        ensures capacity { vec_capacity cells.new ≡ vec_capacity cells.old };
}

/// Values that are lent, of which each is copied. One of at most 14 bytes takes no memory.
#[derive(Drop)]
pub struct LentValues<'a> {
    pub values: &'a [Value],
}

impl<'a> RowValues for LentValues<'a> {
    ghost left = { λ v. v.values.now };

    #[inline]
    fn len(&self) -> usize {
        self.values.len()
    }

    #[inline]
    fn next(&self) -> &Value {
        &self.values[0]
    }

    #[inline]
    fn put(
        &mut self,
        alloc: Global,
        named: Option<TupleRef>,
        cells: &mut Vec<StoredCell>,
    ) -> Result<(), NoMemory> {
        let Some((value, rest)) = self.values.split_first() else {
            unreachable!()
        };
        self.values = rest;
        push_lent(cells, alloc, named, value)
    }
}

/// Values that are moved, each out of its place, in which null stands then. It takes no memory.
#[derive(Drop)]
pub struct TakenValues<'a> {
    pub values: &'a mut [Value],
    pub place: usize,
}

impl<'a> RowValues for TakenValues<'a> {
    ghost left = { λ v. drop v.place v.values.now };

    #[inline]
    fn len(&self) -> usize {
        self.values.len().saturating_sub(self.place)
    }

    #[inline]
    fn next(&self) -> &Value {
        let values = &*self.values;
        &values[self.place]
    }

    #[inline]
    fn put(
        &mut self,
        _alloc: Global,
        named: Option<TupleRef>,
        cells: &mut Vec<StoredCell>,
    ) -> Result<(), NoMemory> {
        let value = mem::replace(&mut self.values[self.place], Value::Null);
        self.place += 1;
        cells.push_reserved(moved_cell(named, value));
        Ok(())
    }
}

/// The values of a row of a load, with the rows that they may name.
#[derive(Drop)]
pub struct Guided<'a, V> {
    pub values: V,
    pub guesses: &'a Guesses,
}

impl<'a, V: RowValues> RowValues for Guided<'a, V> {
    ghost left = { λ g. V.left g.values };

    #[inline]
    fn len(&self) -> usize {
        self.values.len()
    }

    #[inline]
    fn next(&self) -> &Value {
        self.values.next()
    }

    #[inline]
    fn guess(&self, column: usize) -> Option<TupleRef> {
        self.guesses.of_next(column)
    }

    #[inline]
    fn put(
        &mut self,
        alloc: Global,
        named: Option<TupleRef>,
        cells: &mut Vec<StoredCell>,
    ) -> Result<(), NoMemory> {
        self.values.put(alloc, named, cells)
    }
}
