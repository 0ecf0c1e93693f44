//! The rows whose values stand so to one value, as the range of a probe.
ghost use Rattle.std.specs.Prelude.{◌≡◌, ◌<◌, IsSome, length};
ghost use Rattle.std.specs.FinMap as finite;
ghost use Rattle.mm_relation.specs.State.{IsCurrent, linked_keys};
ghost use Rattle.temp_list.specs.Reading.{value_in};
ghost use Rattle.temp_list.specs.Ranges.{place_of as place_of_so};

use crate::search::read;
use crate::standing::stands;
use mm_index::Probe;
use mm_relation::{Relation, Relations};
use part_raw::TupleRef;
use plain_tables::{ColumnNumber, Op, SoughtValue, StoredValue};
use std::cmp::Ordering;

// Where a value stands beside those that stand so to the value that is sought.
pub(crate) fn place_of(op: Op, value: &StoredValue, sought: &SoughtValue<'_>) -> Ordering
    ensures { result ≡ place_of_so op value.now sought.now }
{
    match op {
        Op::Eq | Op::Ne => value.compare(sought),
        _ if stands(op, value, sought) => Ordering::Equal,
        Op::Lt | Op::Le if !value.is_null() => Ordering::Greater,
        _ => Ordering::Less,
    }
}

/// The rows of a relation whose values in a column stand so to one value.
#[derive(Drop)]
pub struct RangeProbe<'a, R> {
    pub tables: &'a R,
    pub relation: &'a Relation,
    pub column: ColumnNumber,
    pub op: Op,
    pub sought: &'a SoughtValue<'a>,
    pub asked: u64,
}

impl<'a, R: Relations> Probe for RangeProbe<'a, R> {
    ghost is_sound = { λ p. IsCurrent (linked_keys p.relation.now.targets (R.tables p.tables.now)) p.relation.now × (p.column.0 < length p.relation.now.schema.columns) };

    ghost can_place = { λ p r. IsSome (finite.get p.relation.now.rows r) };

    ghost place = { λ p r. place_of_so p.op (value_in (R.tables p.tables.now) p.relation.now p.column.0 r) p.sought.now };

    ghost asked = { λ p. p.asked };

    fn place(&mut self, r: TupleRef) -> Ordering {
        self.asked = self.asked.saturating_add(1);
        place_of(
            self.op,
            read(self.tables, self.relation, r, self.column),
            self.sought,
        )
    }

    fn asked(&self) -> u64 {
        self.asked
    }
}
