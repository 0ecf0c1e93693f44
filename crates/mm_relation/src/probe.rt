//! The row with one key, as a probe that counts how often it is asked, and as one that doesn't.
ghost use Rattle.std.specs.Prelude.{Some, IsSome};
ghost use Rattle.std.specs.Option.{option_cmp};
ghost use Rattle.plain_tables.specs.Values.{value_cmp};
ghost use Rattle.mm_relation.specs.Reading.{value_at};
ghost use Rattle.mm_relation.specs.State.{no_keys};

use crate::rows::Rows;
use mm_index::Probe;
use part_raw::TupleRef;
use plain_tables::SoughtValue;
use std::cmp::Ordering;

/// The row with this key. It reads no link, and counts the rows whose keys it compared (`asked`).
#[derive(Drop)]
pub struct KeyProbe<'a> {
    pub(crate) rows: &'a Rows,
    pub(crate) sought: &'a SoughtValue<'a>,
    pub(crate) asked: u64,
}

impl<'a> Probe for KeyProbe<'a> {
    ghost can_place = { λ p r. IsSome (value_at no_keys 0 p.rows.now.tuples r) };

    ghost place = { λ p r. option_cmp value_cmp (value_at no_keys 0 p.rows.now.tuples r) (Some p.sought.now) };

    ghost asked = { λ p. p.asked };

    #[inline]
    fn place(&mut self, r: TupleRef) -> Ordering {
        self.asked = self.asked.saturating_add(1);
        self.rows.key(r).compare(self.sought)
    }

    fn asked(&self) -> u64 {
        self.asked
    }
}

/// The row with this key. It reads no link, and doesn't count the rows whose keys it compares: its count is at the greatest value from
/// the start, and stays there.
#[derive(Drop)]
pub struct KeySearch<'a> {
    pub(crate) rows: &'a Rows,
    pub(crate) sought: &'a SoughtValue<'a>,
}

impl<'a> Probe for KeySearch<'a> {
    ghost can_place = { λ p r. IsSome (value_at no_keys 0 p.rows.now.tuples r) };

    ghost place = { λ p r. option_cmp value_cmp (value_at no_keys 0 p.rows.now.tuples r) (Some p.sought.now) };

    ghost asked = { λ _. 18446744073709551615 };

    #[inline]
    fn place(&mut self, r: TupleRef) -> Ordering {
        self.rows.key(r).compare(self.sought)
    }

    fn asked(&self) -> u64 {
        u64::MAX
    }
}
