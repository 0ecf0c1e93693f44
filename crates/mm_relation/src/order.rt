//! The order of a tree on a column: by the column's value, then by the key.
//!
//! A search asks how each row that it meets stands to the same other row. So what an order needs of that row is read once,
//! when the order is made, and a question reads the row that is met and no other.
ghost use Rattle.std.specs.Prelude.{◌≡◌, Some, IsSome};
ghost use Rattle.std.specs.FinMap as finite;
ghost use Rattle.mm_relation.specs.Reading.{value_at, key_at};
ghost use Rattle.mm_relation.specs.Order.{KeysDiffer, IsRead, column_cmp};
ghost use Rattle.mm_relation.specs.State.{no_keys};

use crate::linked_keys::LinkedKeys;
use crate::rows::Rows;
use crate::stored_cell::SeenCell;
use mm_index::TupleOrder;
use part_raw::TupleRef;
use plain_tables::{ColumnNumber, SoughtValue, StoredValue};
use std::cmp::Ordering;

// The value in a column, read through a link where there is one.
pub fn value_in<'a, R: LinkedKeys>(
    rows: &'a Rows,
    others: &'a R,
    column: ColumnNumber,
    r: TupleRef,
) -> &'a StoredValue
    requires { IsSome (value_at (R.keys others.now) column.0 rows.now.tuples r) }
    ensures { value_at (R.keys others.now) column.0 rows.now.tuples r ≡ Some result.now }
{
    match rows.cells(r)[column.0].seen() {
        SeenCell::Held(value) => value,
        SeenCell::Link { to } => others.key_of(column, to),
    }
}

/// Rows by a column's value, then by their keys. Of one row both were read.
#[derive(Drop)]
pub struct ColumnOrder<'a, R> {
    rows: &'a Rows,
    others: &'a R,
    column: ColumnNumber,
    known: TupleRef,
    value: SoughtValue<'a>,
    key: SoughtValue<'a>,
}

impl<'a, R: LinkedKeys> ColumnOrder<'a, R> {
    // The order, with this row read.
    pub fn beside(
        rows: &'a Rows,
        others: &'a R,
        column: ColumnNumber,
        r: TupleRef,
    ) -> ColumnOrder<'a, R>
        requires { IsSome (value_at (R.keys others.now) column.0 rows.now.tuples r) }
        ensures rows { result.rows.now ≡ rows.now }
        ensures others { result.others.now ≡ others.now }
        ensures column { result.column ≡ column }
        ensures known { result.known ≡ r }
        ensures read { IsRead (R.keys others.now) column.0 rows.now.tuples r result.value result.key }
    {
        ColumnOrder {
            rows,
            others,
            column,
            known: r,
            value: value_in(rows, others, column, r).sought(),
            key: rows.key(r).sought(),
        }
    }

    // How a row stands to the one that was read.
    #[inline]
    fn to_known(&self, r: TupleRef) -> Ordering
        requires read { IsRead (R.keys self.now.others.now) self.now.column.0 self.now.rows.now.tuples self.now.known self.now.value self.now.key }
        requires covered { IsSome (value_at (R.keys self.now.others.now) self.now.column.0 self.now.rows.now.tuples r) }
        ensures { result ≡ column_cmp (R.keys self.now.others.now) self.now.column.0 self.now.rows.now.tuples r self.now.known }
    {
        let first = value_in(self.rows, self.others, self.column, r).compare(&self.value);
        match first {
            Ordering::Equal => self.rows.key(r).compare(&self.key),
            _ => first,
        }
    }

    // How a row stands to one that was not read, about which no search asks.
    #[cold]
    fn to_other(&self, a: TupleRef, b: TupleRef) -> Ordering
        requires a_covered { IsSome (value_at (R.keys self.now.others.now) self.now.column.0 self.now.rows.now.tuples a) }
        requires b_covered { IsSome (value_at (R.keys self.now.others.now) self.now.column.0 self.now.rows.now.tuples b) }
        ensures { result ≡ column_cmp (R.keys self.now.others.now) self.now.column.0 self.now.rows.now.tuples a b }
    {
        ColumnOrder::beside(self.rows, self.others, self.column, b).to_known(a)
    }
}

impl<'a, R: LinkedKeys> TupleOrder for ColumnOrder<'a, R> {
    ghost use Rattle.mm_relation.specs.Order.{column_cmp_strict};

    ghost is_sound = { λ o. KeysDiffer o.rows.now.tuples × IsRead (R.keys o.others.now) o.column.0 o.rows.now.tuples o.known o.value o.key };

    ghost covers = { λ o r. IsSome (value_at (R.keys o.others.now) o.column.0 o.rows.now.tuples r) };

    ghost cmp = { λ o. column_cmp (R.keys o.others.now) o.column.0 o.rows.now.tuples };

    ghost is_strict = { λ o sound. column_cmp_strict (R.keys o.others.now) o.column.0 o.rows.now.tuples sound.0 };

    #[inline]
    fn cmp(&self, a: TupleRef, b: TupleRef) -> Ordering {
        if b == self.known {
            self.to_known(a)
        } else {
            self.to_other(a, b)
        }
    }
}

/// Rows by their keys. Of one row the key was read. It reads no link.
#[derive(Drop)]
pub struct KeyOrder<'a> {
    rows: &'a Rows,
    known: TupleRef,
    key: SoughtValue<'a>,
}

impl<'a> KeyOrder<'a> {
    // The order, with this row read.
    pub fn beside(rows: &'a Rows, r: TupleRef) -> KeyOrder<'a>
        requires { IsSome (finite.get rows.now.tuples r) }
        ensures rows { result.rows.now ≡ rows.now }
        ensures known { result.known ≡ r }
        ensures read { key_at rows.now.tuples r ≡ Some result.key }
    {
        KeyOrder {
            rows,
            known: r,
            key: rows.key(r).sought(),
        }
    }

    // How a row stands to one that was not read, about which no search asks.
    #[cold]
    fn to_other(&self, a: TupleRef, b: TupleRef) -> Ordering
        requires a_covered { IsSome (value_at no_keys 0 self.now.rows.now.tuples a) }
        requires b_covered { IsSome (value_at no_keys 0 self.now.rows.now.tuples b) }
        ensures { result ≡ column_cmp no_keys 0 self.now.rows.now.tuples a b }
    {
        self.rows.key(a).cmp(self.rows.key(b))
    }
}

impl<'a> TupleOrder for KeyOrder<'a> {
    ghost use Rattle.mm_relation.specs.Order.{column_cmp_strict};

    ghost is_sound = { λ o. KeysDiffer o.rows.now.tuples × (key_at o.rows.now.tuples o.known ≡ Some o.key) };

    ghost covers = { λ o r. IsSome (value_at no_keys 0 o.rows.now.tuples r) };

    ghost cmp = { λ o. column_cmp no_keys 0 o.rows.now.tuples };

    ghost is_strict = { λ o sound. column_cmp_strict no_keys 0 o.rows.now.tuples sound.0 };

    #[tactic(auto, using(crate::proofs::Same::then_same))]
    #[inline]
    fn cmp(&self, a: TupleRef, b: TupleRef) -> Ordering {
        if b == self.known {
            self.rows.key(a).compare(&self.key)
        } else {
            self.to_other(a, b)
        }
    }
}
