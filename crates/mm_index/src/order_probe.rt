//! An order as a probe for one reference, so that one search serves both.
ghost use Rattle.std.specs.Prelude.{◌≡◌};

use crate::probe::Probe;
use crate::tuple_order::TupleOrder;
use part_raw::TupleRef;
use std::cmp::Ordering;

/// Places references beside the sought one by an order: only the sought one is `Equal`. Who is handed it can ask the order
/// through it alone, so it counts each comparison.
#[derive(Drop)]
pub struct OrderProbe<'a, O> {
    // The order by which it places.
    order: &'a O,
    // The reference that alone is in the range.
    sought: TupleRef,
    // How often it was asked.
    asked: u64,
}

impl<'a, O: TupleOrder> OrderProbe<'a, O> {
    /// A probe for that reference, which was not asked yet.
    pub fn new(order: &'a O, sought: TupleRef) -> OrderProbe<'a, O>
        ensures order { result.order.now ≡ order.now }
        ensures sought { result.sought ≡ sought }
        ensures asked { result.asked ≡ 0 }
    {
        OrderProbe {
            order,
            sought,
            asked: 0,
        }
    }

    /// The reference that it seeks.
    pub fn sought(&self) -> TupleRef
        ensures { result ≡ self.now.sought }
    {
        self.sought
    }
}

impl<'a, O: TupleOrder> Probe for OrderProbe<'a, O> {
    ghost is_sound = { λ p. O.is_sound p.order.now × O.covers p.order.now p.sought };

    ghost can_place = { λ p r. O.covers p.order.now r };

    ghost place = { λ p r. O.cmp p.order.now r p.sought };

    ghost asked = { λ p. p.asked };

    #[inline]
    fn place(&mut self, r: TupleRef) -> Ordering {
        self.asked = self.asked.saturating_add(1);
        self.order.cmp(r, self.sought)
    }

    fn asked(&self) -> u64 {
        self.asked
    }
}
