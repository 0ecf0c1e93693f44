//! What an ordered index is: a list of references that rises by an order. It keeps no order from one call to the next, and
//! asks the one that is handed in.
ghost use Rattle.std.specs.Prelude.{◌≡◌, ◌≢◌, ℕ, ◌+◌, ◌<◌, ◌≤◌, List, ◌++◌, length, Option, None, IfSome, IfNone, OnOk, OnErr, All, Contains};
ghost use Rattle.std.specs.declared.cmp.Ordering.{Ordering};
ghost use Rattle.part_raw.specs.declared.tuple_ref.TupleRef.{TupleRef};
ghost use Rattle.mm_index.specs.Asking.{IsOnlyAsked, counted};
ghost use Rattle.mm_index.specs.Order.{IsRising, insert_by, insert_placed, remove_by};
ghost use Rattle.mm_index.specs.Range.{NeverFalls, in_range};

use crate::MAX_LEN;
use crate::order_probe::OrderProbe;
use crate::probe::Probe;
use crate::tuple_order::TupleOrder;
use no_memory::NoMemory;
use part_raw::TupleRef;

/// A list of references that rises by an order. The order is handed in with each call that needs it, and may change
/// between calls as long as the list rises by the one that is handed in.
pub trait OrderedIndex {
    // the references in order
    ghost items: { Self → List TupleRef };

    // how many inserts are sure of their memory
    ghost room: { Self → ℕ };

    // at most how often one search asks its probe, where the index says so
    ghost most_asked: { Self → Option ℕ } = { λ _. None };

    /// Makes sure of memory for `n` inserts, until `release_spares`.
    fn reserve(&mut self, n: usize) -> Result<(), NoMemory>
        requires { n ≤ MAX_LEN }
        ensures items { items self.new ≡ items self.old }
        ensures reserved { OnOk result (n ≤ room self.new) }
        ensures room { room self.old ≤ room self.new };

    /// Puts the reference that the probe seeks at its place. It searches once, and takes no memory.
    fn insert<O: TupleOrder>(&mut self, probe: &mut OrderProbe<'_, O>)
        // There is room for one more, and the reference is not held.
        requires reserved { 0 < room self.old }
        requires short { length (items self.old) < MAX_LEN }
        requires absent { ¬ (Contains (items self.old) probe.old.sought) }

        // The list rises by the order, which covers it and the reference.
        requires sound { O.is_sound probe.old.order.now }
        requires covered { All (O.covers probe.old.order.now) (items self.old) }
        requires r_covered { O.covers probe.old.order.now probe.old.sought }
        requires rising { IsRising (O.cmp probe.old.order.now) (items self.old) }

        ensures items { items self.new ≡ insert_by (O.cmp probe.old.order.now) probe.old.sought (items self.old) }
        ensures rising { IsRising (O.cmp probe.old.order.now) (items self.new) }
        ensures room { room self.old ≤ room self.new + 1 }
        ensures most_asked { IfSome (most_asked self.old) (λ n. probe.new.asked ≤ probe.old.asked + n) };

    /// Takes the reference that the probe seeks out. It searches once, and takes no memory.
    fn remove<O: TupleOrder>(&mut self, probe: &mut OrderProbe<'_, O>)
        requires held { Contains (items self.old) probe.old.sought }

        // The list rises by the order, which covers it.
        requires sound { O.is_sound probe.old.order.now }
        requires covered { All (O.covers probe.old.order.now) (items self.old) }
        requires rising { IsRising (O.cmp probe.old.order.now) (items self.old) }

        ensures items { items self.new ≡ remove_by (O.cmp probe.old.order.now) probe.old.sought (items self.old) }
        ensures rising { IsRising (O.cmp probe.old.order.now) (items self.new) }
        ensures room { room self.old ≤ room self.new }
        ensures most_asked { IfSome (most_asked self.old) (λ n. probe.new.asked ≤ probe.old.asked + n) };

    /// A reference in the range of the probe.
    fn find<P: Probe>(&self, probe: &mut P) -> Option<TupleRef>
        requires sound { P.is_sound probe.old }
        requires placed { All (P.can_place probe.old) (items self.now) }
        requires in_order { NeverFalls (P.place probe.old) (items self.now) }
        ensures held { IfSome result (Contains (items self.now)) }
        ensures found { IfSome result (λ r. P.place probe.old r ≡ Ordering.Equal) }
        ensures none { IfNone result (All (λ r. P.place probe.old r ≢ Ordering.Equal) (items self.now)) }
        ensures probe { IsOnlyAsked P.is_sound P.can_place P.place P.asked probe.old probe.new }
        ensures asks { 0 < length (items self.now) → counted (P.asked probe.old) ≤ P.asked probe.new }
        ensures most_asked { IfSome (most_asked self.now) (λ n. P.asked probe.new ≤ P.asked probe.old + n) };

    /// Puts `r` where the probe's range would stand and gives None, or gives a reference that stands in the range and
    /// changes nothing. It searches once, and takes no memory.
    fn insert_unless_found<P: Probe>(&mut self, probe: &mut P, r: TupleRef) -> Option<TupleRef>
        requires reserved { 0 < room self.old }
        requires short { length (items self.old) < MAX_LEN }
        requires sound { P.is_sound probe.old }
        requires placed { All (P.can_place probe.old) (items self.old) }
        requires in_order { NeverFalls (P.place probe.old) (items self.old) }
        ensures held { IfSome result (Contains (items self.old)) }
        ensures found { IfSome result (λ q. P.place probe.old q ≡ Ordering.Equal) }
        ensures kept { IfSome result (λ _. items self.new ≡ items self.old) }
        ensures none { IfNone result (All (λ q. P.place probe.old q ≢ Ordering.Equal) (items self.old)) }
        ensures inserted { IfNone result (items self.new ≡ insert_placed (P.place probe.old) r (items self.old)) }
        ensures room { room self.old ≤ room self.new + 1 }
        ensures kept_room { IfSome result (λ _. room self.new ≡ room self.old) }
        ensures probe { IsOnlyAsked P.is_sound P.can_place P.place P.asked probe.old probe.new }
        ensures asks { 0 < length (items self.old) → counted (P.asked probe.old) ≤ P.asked probe.new }
        ensures most_asked { IfSome (most_asked self.old) (λ n. P.asked probe.new ≤ P.asked probe.old + n) };

    /// Appends the references in the range of the probe, in order.
    fn range<P: Probe>(&self, probe: &mut P, out: &mut Vec<TupleRef>) -> Result<(), NoMemory>
        requires sound { P.is_sound probe.old }
        requires placed { All (P.can_place probe.old) (items self.now) }
        requires in_order { NeverFalls (P.place probe.old) (items self.now) }
        ensures ok { OnOk result (out.new.items ≡ out.old.items ++ in_range (P.place probe.old) (items self.now)) }
        ensures err { OnErr result (out.new.items ≡ out.old.items) }
        ensures probe { IsOnlyAsked P.is_sound P.can_place P.place P.asked probe.old probe.new }

        // Beyond the search it asks once for each reference that it appends, and once more.
        ensures most_asked { IfSome (most_asked self.now) (λ n. OnOk result (P.asked probe.new ≤ P.asked probe.old + n + length (in_range (P.place probe.old) (items self.now)) + 1)) };

    /// How many references there are.
    fn len(&self) -> usize
        ensures { result ≡ length (items self.now) };

    /// Gives back the memory that was reserved and not used. Takes no memory.
    fn release_spares(&mut self)
        ensures { items self.new ≡ items self.old };
}
