//! The binary search of a list along which a probe's places never fall.
ghost use Rattle.std.specs.Prelude.{◌≡◌, ◌≢◌, ◌<◌, ◌≤◌, length, IfOk, IfErr, All, Contains};
ghost use Rattle.std.specs.List.{AllWithin};
ghost use Rattle.mm_index.specs.Asking.{IsOnlyAsked, counted};
ghost use Rattle.mm_index.specs.Order.{IsRising};
ghost use Rattle.mm_index.specs.Range.{NeverFalls};

use crate::order_probe::OrderProbe;
use crate::probe::Probe;
use crate::tuple_order::TupleOrder;
use part_raw::TupleRef;
use std::cmp::Ordering;

// The place of the first reference that does not stand below the range, or the length.
pub(crate) fn first_not_below<P: Probe>(items: &[TupleRef], probe: &mut P) -> usize
    requires sound { P.is_sound probe.old }
    requires placed { All (P.can_place probe.old) items.now }
    requires in_order { NeverFalls (P.place probe.old) items.now }
    ensures bound { result ≤ length items.now }
    ensures below { AllWithin (λ r. P.place probe.old r ≡ Ordering.Less) items.now 0 result }
    ensures not_below { AllWithin (λ r. P.place probe.old r ≢ Ordering.Less) items.now result (length items.now) }
    ensures probe { IsOnlyAsked P.is_sound P.can_place P.place P.asked probe.old probe.new }
    ensures asks { 0 < length items.now → counted (P.asked probe.old) ≤ P.asked probe.new }
{
    let mut low = 0;
    let mut high = items.len();
    while low < high {
        let middle = low + (high - low) / 2;
        if probe.place(items[middle]).is_lt() {
            low = middle + 1;
        } else {
            high = middle;
        }
    }
    low
}

// The first reference in the range, or else the place of the first that stands above it, or the length.
pub(crate) fn find_or_place<P: Probe>(items: &[TupleRef], probe: &mut P) -> Result<TupleRef, usize>
    requires sound { P.is_sound probe.old }
    requires placed { All (P.can_place probe.old) items.now }
    requires in_order { NeverFalls (P.place probe.old) items.now }
    ensures held { IfOk result (Contains items.now) }
    ensures found { IfOk result (λ r. P.place probe.old r ≡ Ordering.Equal) }
    ensures bound { IfErr result (λ n. n ≤ length items.now) }
    ensures below { IfErr result (AllWithin (λ r. P.place probe.old r ≡ Ordering.Less) items.now 0) }
    ensures above { IfErr result (λ n. AllWithin (λ r. P.place probe.old r ≡ Ordering.Greater) items.now n (length items.now)) }
    ensures probe { IsOnlyAsked P.is_sound P.can_place P.place P.asked probe.old probe.new }
    ensures asks { 0 < length items.now → counted (P.asked probe.old) ≤ P.asked probe.new }
{
    let first = first_not_below(items, probe);
    match items.get(first) {
        Some(r) if probe.place(*r).is_eq() => Ok(*r),
        _ => Err(first),
    }
}

// The place of the first reference that does not stand below the one that is sought, or the length.
pub(crate) fn place_by_order<O: TupleOrder>(
    items: &[TupleRef],
    probe: &mut OrderProbe<'_, O>,
) -> usize
    requires sound { O.is_sound probe.old.order.now }
    requires covered { All (O.covers probe.old.order.now) items.now }
    requires sought_covered { O.covers probe.old.order.now probe.old.sought }
    requires rising { IsRising (O.cmp probe.old.order.now) items.now }
    ensures bound { result ≤ length items.now }
    ensures below { AllWithin (λ q. O.cmp probe.old.order.now q probe.old.sought ≡ Ordering.Less) items.now 0 result }
    ensures not_below { AllWithin (λ q. O.cmp probe.old.order.now q probe.old.sought ≢ Ordering.Less) items.now result (length items.now) }
{
    first_not_below(items, probe)
}

// The place of the first reference from `first` on that stands above the range, or the length.
pub(crate) fn first_not_equal<P: Probe>(items: &[TupleRef], first: usize, probe: &mut P) -> usize
    requires within { first ≤ length items.now }
    requires sound { P.is_sound probe.old }
    requires placed { All (P.can_place probe.old) items.now }
    requires in_order { NeverFalls (P.place probe.old) items.now }
    requires not_below { AllWithin (λ r. P.place probe.old r ≢ Ordering.Less) items.now first (length items.now) }
    ensures from_first { first ≤ result }
    ensures bound { result ≤ length items.now }
    ensures equal { AllWithin (λ r. P.place probe.old r ≡ Ordering.Equal) items.now first result }
    ensures above { AllWithin (λ r. P.place probe.old r ≡ Ordering.Greater) items.now result (length items.now) }
    ensures probe { IsOnlyAsked P.is_sound P.can_place P.place P.asked probe.old probe.new }
{
    let mut end = first;
    while end < items.len() && probe.place(items[end]).is_eq() {
        end += 1;
    }
    end
}
