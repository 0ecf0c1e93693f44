//! What a search asks about each reference that it meets. A probe knows its range and no index, and an index knows what the
//! probe answers and no range.
ghost use Rattle.std.specs.Prelude.{◌≡◌, ℕ};
ghost use Rattle.std.specs.declared.cmp.Ordering.{Ordering};
ghost use Rattle.part_raw.specs.declared.tuple_ref.TupleRef.{TupleRef};
ghost use Rattle.mm_index.specs.Asking.{counted};

use part_raw::TupleRef;
use std::cmp::Ordering;

/// A sought range of tuples. An index hands it the references that a search meets.
pub trait Probe {
    // whether the probe may be asked at all over what it now reads
    ghost is_sound: { Self → Type 0 } = { λ _. Unit {0} };

    // the references that the probe may be asked about
    ghost can_place: { Self → TupleRef → Type 0 };

    // where the tuple of a reference stands to the range
    ghost place: { Self → TupleRef → Ordering };

    // how often the probe has been asked
    ghost asked: { Self → ℕ };

    /// Where the tuple of `r` stands: `Less` below the range, `Equal` in it, `Greater` above it.
    fn place(&mut self, r: TupleRef) -> Ordering
        requires sound { is_sound self.old }
        requires may_ask { can_place self.old r }
        ensures value { result ≡ place self.old r }

        // Asking changes no answer, and is counted.
        ensures sound { is_sound self.new }
        ensures answers { place self.new ≡ place self.old }
        ensures may_ask { (q : TupleRef) → can_place self.old q → can_place self.new q }
        ensures count { asked self.new ≡ counted (asked self.old) };

    /// How often `place` was called. The count stays at its greatest value.
    fn asked(&self) -> u64
        ensures { result ≡ asked self.now };
}
