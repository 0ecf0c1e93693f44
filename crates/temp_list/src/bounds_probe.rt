//! The rows whose values lie between all bounds that tests set, as the range of a probe.
ghost use Rattle.std.specs.Prelude.{◌≡◌, ◌<◌, IsSome, length};
ghost use Rattle.std.specs.FinMap as finite;
ghost use Rattle.mm_relation.specs.State.{IsCurrent, linked_keys};
ghost use Rattle.temp_list.specs.Reading.{bounds as bounds_so, value_in};
ghost use Rattle.temp_list.specs.Ranges.{place_beside as place_beside_so, place_between as place_between_so};

use crate::range_probe::place_of;
use crate::search::read;
use mm_index::Probe;
use mm_relation::{Relation, Relations};
use part_raw::TupleRef;
use plain_tables::{ColumnNumber, Op, StoredValue, Test};
use std::cmp::Ordering;

/// Whether a test bounds the values of a column.
pub fn bounds(column: ColumnNumber, test: &Test) -> bool
    ensures { result ≡ bounds_so column.0 test.now }
{
    !matches!(test.op, Op::Ne) && test.column.0 == column.0
}

// Where a value of a column stands beside those that pass a test, if the test bounds the column.
fn place_beside(column: ColumnNumber, test: &Test, value: &StoredValue) -> Ordering
    ensures { result ≡ place_beside_so column.0 test.now value.now }
{
    if bounds(column, test) {
        place_of(test.op, value, &test.value.sought())
    } else {
        Ordering::Equal
    }
}

/// Where a value of a column stands beside those that pass each test that bounds it.
pub(crate) fn place_between(column: ColumnNumber, tests: &[Test], value: &StoredValue) -> Ordering
    ensures { result ≡ place_between_so column.0 tests.now value.now }
{
    for test in tests {
        let place = place_beside(column, test, value);
        if place.is_ne() {
            return place;
        }
    }
    Ordering::Equal
}

/// The rows of a relation whose values in a column pass each of the tests that bounds it.
#[derive(Drop)]
pub struct BoundsProbe<'a, R> {
    pub tables: &'a R,
    pub relation: &'a Relation,
    pub column: ColumnNumber,
    pub tests: &'a [Test],
    pub asked: u64,
}

impl<'a, R: Relations> Probe for BoundsProbe<'a, R> {
    ghost is_sound = { λ p. IsCurrent (linked_keys p.relation.now.targets (R.tables p.tables.now)) p.relation.now × (p.column.0 < length p.relation.now.schema.columns) };

    ghost can_place = { λ p r. IsSome (finite.get p.relation.now.rows r) };

    ghost place = { λ p r. place_between_so p.column.0 p.tests.now (value_in (R.tables p.tables.now) p.relation.now p.column.0 r) };

    ghost asked = { λ p. p.asked };

    fn place(&mut self, r: TupleRef) -> Ordering {
        self.asked = self.asked.saturating_add(1);
        place_between(
            self.column,
            self.tests,
            read(self.tables, self.relation, r, self.column),
        )
    }

    fn asked(&self) -> u64 {
        self.asked
    }
}
