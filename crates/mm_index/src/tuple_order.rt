//! The order in which an index lists references. It compares tuples, and an index only hands it the references.
ghost use Rattle.std.specs.Prelude.{◌≡◌};
ghost use Rattle.std.specs.declared.cmp.Ordering.{Ordering};
ghost use Rattle.part_raw.specs.declared.tuple_ref.TupleRef.{TupleRef};
ghost use Rattle.mm_index.specs.Order.{IsStrictOver};

use part_raw::TupleRef;
use std::cmp::Ordering;

/// An order of tuples, asked through their references. No two tuples that it covers are equal.
pub trait TupleOrder {
    // whether the order is one over what it now reads: a premise of its law, and asked by each call
    ghost is_sound: { Self → Type 0 };

    // the references that the order may be asked about
    ghost covers: { Self → TupleRef → Type 0 };

    // how the tuple of one reference stands to that of another
    ghost cmp: { Self → TupleRef → TupleRef → Ordering };

    /// How the tuple of `a` stands to that of `b`.
    fn cmp(&self, a: TupleRef, b: TupleRef) -> Ordering
        requires sound { is_sound self.now }
        requires a_covered { covers self.now a }
        requires b_covered { covers self.now b }
        ensures { result ≡ cmp self.now a b };

    // Over what it covers a sound order is total and strict.
    ghost is_strict: { (order : Self) → is_sound order → IsStrictOver (covers order) (cmp order) };
}
