//! What a search asks: about one item, and among the items of a node.
ghost use Rattle.std.specs.Prelude.{◌≡◌, ◌-◌, ◌<◌, ◌≤◌, All, Some, IfOk, IfErr, IfSome, length, slice_get};
ghost use Rattle.std.specs.declared.cmp.Ordering.TheVariants.{Equal};
ghost use Rattle.mm_index.specs.Asking.{counted};
ghost use Rattle.mm_index.specs.Range.{NeverFalls};
ghost use Rattle.ttree.specs.Shape.{binary_digits};
ghost use Rattle.ttree.specs.Searching.{taken, IsAskedAtMost, IsCut, IsHitIn};

use mm_index::Probe;
use part_raw::TupleRef;
use std::cmp::Ordering;

// Whether a search ends at any reference in the range, or where the first of them would be.
#[derive(Clone, Copy)]
pub(crate) enum Seek {
    Any,
    First,
}

// One answer of the probe, as the search takes it.
#[inline]
pub(crate) fn ask<P: Probe>(probe: &mut P, r: TupleRef, seek: Seek) -> Ordering
    requires sound { P.is_sound probe.old }
    requires may_ask { P.can_place probe.old r }
    ensures value { result ≡ taken seek (P.place probe.old r) }
    ensures probe { IsAskedAtMost 1 P.is_sound P.can_place P.place P.asked probe.old probe.new }
    ensures asks { counted (P.asked probe.old) ≤ P.asked probe.new }
{
    match (probe.place(r), seek) {
        (Ordering::Equal, Seek::First) => Ordering::Greater,
        (place, _) => place,
    }
}

// Where an item is in the range, or where it would be, from `from` on and before `to`.
pub(crate) fn search_between<P: Probe>(
    items: &[TupleRef],
    from: usize,
    to: usize,
    probe: &mut P,
    seek: Seek,
) -> Result<usize, usize>
    requires sound { P.is_sound probe.old }
    requires placed { All (P.can_place probe.old) items.now }
    requires in_order { NeverFalls (λ r. taken seek (P.place probe.old r)) items.now }
    requires cut { IsCut (λ r. taken seek (P.place probe.old r)) items.now from to }
    ensures hit { IfOk result (IsHitIn (λ r. taken seek (P.place probe.old r)) items.now) }
    ensures gap { IfErr result (λ i. IsCut (λ r. taken seek (P.place probe.old r)) items.now i i) }
    ensures from { IfErr result (λ i. from ≤ i) }
    ensures to { IfErr result (λ i. i ≤ to) }
    ensures probe { IsAskedAtMost (binary_digits (to - from)) P.is_sound P.can_place P.place P.asked probe.old probe.new }
    ensures asks { from < to → counted (P.asked probe.old) ≤ P.asked probe.new }
{
    let mut low = from;
    let mut high = to;
    while low < high {
        let middle = low + (high - low) / 2;
        match ask(probe, items[middle], seek) {
            Ordering::Less => low = middle + 1,
            Ordering::Equal => return Ok(middle),
            Ordering::Greater => high = middle,
        }
    }
    Err(low)
}

// Where a reference stands among items. It is found by itself: nothing is asked, and no row is read.
fn place_of(items: &[TupleRef], sought: TupleRef) -> Option<usize>
    ensures { IfSome result (λ i. slice_get items.now i ≡ Some sought) }
{
    items.iter().position(|item| *item == sought)
}

// As `search_between`, where a reference may be known to be in the range.
pub(crate) fn search_items<P: Probe>(
    items: &[TupleRef],
    from: usize,
    probe: &mut P,
    seek: Seek,
    known: Option<TupleRef>,
) -> Result<usize, usize>
    requires sound { P.is_sound probe.old }
    requires placed { All (P.can_place probe.old) items.now }
    requires in_order { NeverFalls (λ r. taken seek (P.place probe.old r)) items.now }
    requires cut { IsCut (λ r. taken seek (P.place probe.old r)) items.now from (length items.now) }
    requires known { IfSome known (λ r. taken seek (P.place probe.old r) ≡ Equal) }
    ensures hit { IfOk result (IsHitIn (λ r. taken seek (P.place probe.old r)) items.now) }
    ensures gap { IfErr result (λ i. IsCut (λ r. taken seek (P.place probe.old r)) items.now i i) }
    ensures from { IfErr result (λ i. from ≤ i) }
    ensures probe { IsAskedAtMost (binary_digits (length items.now - from)) P.is_sound P.can_place P.place P.asked probe.old probe.new }
{
    if let Some(sought) = known {
        if let Some(index) = place_of(items, sought) {
            return Ok(index);
        }
    }
    search_between(items, from, items.len(), probe, seek)
}
