//! Many searches side by side, so that their waits for memory overlap.
//!
//! A search can't go on before the row that it met has come, since only then is the next one known. Of many searches the next rows are
//! known together: so all read first, and then all take a step. Where one ends need not be right. Two questions tell whether it is, and
//! where it isn't, a search by itself follows, which finds in the processor's caches what this one has read.
ghost use Rattle.std.specs.Prelude.{◌≡◌, ◌≢◌, ◌≤◌, true, All, Contains, IfNone, IfSome, length};
ghost use Rattle.std.specs.declared.cmp.Ordering.{Ordering};
ghost use Rattle.mm_index.specs.Asking.{IsOnlyAsked};
ghost use Rattle.mm_index.specs.Range.{NeverFalls, from_range};
ghost use Rattle.part_raw.specs.declared.tuple_ref.TupleRef.{TupleRef};
ghost use Rattle.ttree_node.specs.Tree.{whole, list};
ghost use Rattle.ttree_node.specs.Look.{position};
ghost use Rattle.ttree_node.specs.Walk.{rest_of};
ghost use Rattle.ttree.specs.Held.{items_of_tree};
ghost use Rattle.ttree.specs.Shape.{HasItemsInEach};
ghost use Rattle.ttree.specs.Searching.{taken, IsGap};
ghost use Rattle.ttree.specs.declared.asking.Seek.TheVariants.{First};
ghost use Rattle.ttree.specs.Warming.{AreWays, IsWay};

use crate::asking::{Seek, ask};
use crate::tree::TTree;
use mm_index::Probe;
use part_raw::TupleRef;
use std::cmp::Ordering;
use ttree_node::{Look, Walk};

/// So many searches go side by side.
pub const ABREAST: usize = 16;

// So many questions tell one place among the 32 items of a node from the others.
const QUESTIONS: usize = 5;

// So far below the root searches are compared. Sixteen that go apart are at some ten nodes there.
const LEVELS: u32 = 4;

/// What tuples begin with, as numbers that rise by the order of a tree. Where two have the same number, it doesn't tell their order.
pub trait Leading {
    // the references whose tuples may be read
    ghost can_read: { Self → TupleRef → Type 0 };

    /// What the tuple of `r` begins with.
    fn number(&self, r: TupleRef) -> i64
        requires { can_read self.now r };
}

/// One of these searches: of the first tuple that doesn't begin with less than a number. Where it ends need not be right.
#[derive(Clone, Copy)]
pub struct Way<'a, const MAX: usize> {
    // What its tuple begins with, and what the tuple begins with that it read last.
    sought: i64,
    read: i64,
    // The node where it is.
    look: Look<'a, MAX>,
    // The last node that it met whose least item stands below what is sought, and between which of the items there that is.
    last: Look<'a, MAX>,
    low: usize,
    high: usize,
}

impl<'a, const MAX: usize> Way<'a, MAX> {
    // A search that is at this node.
    fn at(look: Look<'a, MAX>) -> Way<'a, MAX>
        ensures look { result.look ≡ look.entry }
        ensures last { result.last ≡ look.entry }
    {
        Way {
            sought: 0,
            read: 0,
            look,
            last: look,
            low: 0,
            high: look.items().len(),
        }
    }

    // Reads the least item of its node.
    fn read_least<L: Leading>(&mut self, leading: &L, root: Look<'_, MAX>)
        requires some { HasItemsInEach MAX (whole (position root)) }
        requires readable { All (L.can_read leading.now) (list (whole (position root))) }
        requires way { IsWay (whole (position root)) self.old }
        ensures { IsWay (whole (position root.entry)) self.new }
    {
        self.read = leading.number(self.look.items()[0]);
    }

    // Goes on to the child where what is sought would be, or stays where there is none.
    fn step(&mut self, root: Look<'_, MAX>)
        requires { IsWay (whole (position root)) self.old }
        ensures { IsWay (whole (position root.entry)) self.new }
    {
        if self.read >= self.sought {
            if self.look.has_left() {
                self.look.down_left();
            }
            return;
        }
        self.last = self.look;
        self.high = self.look.items().len();
        if self.look.has_right() {
            self.look.down_right();
        }
    }

    // Which item of the last node is asked about next.
    fn middle(&self) -> usize {
        self.low + self.high.saturating_sub(self.low) / 2
    }

    // Reads the item of the last node that is asked about next.
    fn read_middle<L: Leading>(&mut self, leading: &L, root: Look<'_, MAX>)
        requires readable { All (L.can_read leading.now) (list (whole (position root))) }
        requires way { IsWay (whole (position root)) self.old }
        ensures { IsWay (whole (position root.entry)) self.new }
    {
        if let Some(item) = self.last.items().get(self.middle()) {
            self.read = leading.number(*item);
        }
    }

    // Halves the items among which what is sought would be.
    fn narrow(&mut self, root: Look<'_, MAX>)
        requires { IsWay (whole (position root)) self.old }
        ensures { IsWay (whole (position root.entry)) self.new }
    {
        let middle = self.middle();
        if self.read >= self.sought {
            self.high = middle;
        } else {
            self.low = middle;
        }
    }

    // Whether the item where it ended begins with what is sought.
    fn has_found<L: Leading>(&self, leading: &L, root: Look<'_, MAX>) -> bool
        requires readable { All (L.can_read leading.now) (list (whole (position root))) }
        requires way { IsWay (whole (position root)) self.now }
    {
        match self.last.items().get(self.high) {
            Some(item) => leading.number(*item) == self.sought,
            None => false,
        }
    }

    // Whether it ended before the first item that isn't below the probe's range. It asks about that item and the one before.
    fn ends_right<P: Probe>(&self, probe: &mut P) -> bool
        requires sound { P.is_sound probe.old }
        requires placed { All (P.can_place probe.old) (list (whole (position self.now.last))) }
        requires in_order { NeverFalls (λ r. taken First (P.place probe.old r)) (list (whole (position self.now.last))) }
        ensures gap { result ≡ true → IsGap (λ r. taken First (P.place probe.old r)) (position self.now.last) self.now.high }
        ensures probe { IsOnlyAsked P.is_sound P.can_place P.place P.asked probe.old probe.new }
    {
        let items = self.last.items();
        let Some(before) = self.high.checked_sub(1) else {
            return false;
        };
        let (Some(below), Some(first)) = (items.get(before), items.get(self.high)) else {
            return false;
        };
        let Ordering::Less = ask(probe, *below, Seek::First) else {
            return false;
        };
        let Ordering::Greater = ask(probe, *first, Seek::First) else {
            return false;
        };
        true
    }
}

/// Sixteen of them.
#[derive(Clone, Copy)]
pub struct Ways<'a, const MAX: usize> {
    each: [Way<'a, MAX>; ABREAST],
}

impl<'a, const MAX: usize> Ways<'a, MAX> {
    /// The search for the number at this place, if there is one.
    #[inline]
    pub fn get(&self, place: usize) -> Option<&Way<'a, MAX>>
        ensures { IfSome result (λ way. Contains self.now.each way.now) }
    {
        self.each.get(place)
    }
}

// Tells each search what it seeks.
fn seek_each<const MAX: usize>(ways: &mut [Way<'_, MAX>], sought: &[i64], root: Look<'_, MAX>)
    requires { All (IsWay (whole (position root))) ways.old }
    ensures { All (IsWay (whole (position root.entry))) ways.new }
{
    let mut numbers = sought.iter();
    for way in ways.iter_mut() {
        if let Some(number) = numbers.next() {
            way.sought = *number;
        }
    }
}

// Lets each read the least item of its node.
fn read_least_of_each<L: Leading, const MAX: usize>(
    ways: &mut [Way<'_, MAX>],
    leading: &L,
    root: Look<'_, MAX>,
)
    requires some { HasItemsInEach MAX (whole (position root)) }
    requires readable { All (L.can_read leading.now) (list (whole (position root))) }
    requires ways { All (IsWay (whole (position root))) ways.old }
    ensures { All (IsWay (whole (position root.entry))) ways.new }
{
    for way in ways.iter_mut() {
        way.read_least(leading, root);
    }
}

// Lets each take its step.
fn step_each<const MAX: usize>(ways: &mut [Way<'_, MAX>], root: Look<'_, MAX>)
    requires ways { All (IsWay (whole (position root))) ways.old }
    ensures { All (IsWay (whole (position root.entry))) ways.new }
{
    for way in ways.iter_mut() {
        way.step(root);
    }
}

// Lets each read the item that it asks about next.
fn read_middle_of_each<L: Leading, const MAX: usize>(
    ways: &mut [Way<'_, MAX>],
    leading: &L,
    root: Look<'_, MAX>,
)
    requires readable { All (L.can_read leading.now) (list (whole (position root))) }
    requires ways { All (IsWay (whole (position root))) ways.old }
    ensures { All (IsWay (whole (position root.entry))) ways.new }
{
    for way in ways.iter_mut() {
        way.read_middle(leading, root);
    }
}

// Lets each halve what is left.
fn narrow_each<const MAX: usize>(ways: &mut [Way<'_, MAX>], root: Look<'_, MAX>)
    requires ways { All (IsWay (whole (position root))) ways.old }
    ensures { All (IsWay (whole (position root.entry))) ways.new }
{
    for way in ways.iter_mut() {
        way.narrow(root);
    }
}

// Goes down so many levels, or until none can go on.
fn descend_each<L: Leading, const MAX: usize>(
    ways: &mut [Way<'_, MAX>],
    leading: &L,
    root: Look<'_, MAX>,
    levels: u32,
)
    requires some { HasItemsInEach MAX (whole (position root)) }
    requires readable { All (L.can_read leading.now) (list (whole (position root))) }
    requires ways { All (IsWay (whole (position root))) ways.old }
    ensures { All (IsWay (whole (position root.entry))) ways.new }
{
    for _ in 0..levels {
        read_least_of_each(ways, leading, root);
        step_each(ways, root);
    }
}

// Comes to one place among the items of the last node.
fn end_each<L: Leading, const MAX: usize>(
    ways: &mut [Way<'_, MAX>],
    leading: &L,
    root: Look<'_, MAX>,
)
    requires readable { All (L.can_read leading.now) (list (whole (position root))) }
    requires ways { All (IsWay (whole (position root))) ways.old }
    ensures { All (IsWay (whole (position root.entry))) ways.new }
{
    for _ in 0..QUESTIONS {
        read_middle_of_each(ways, leading, root);
        narrow_each(ways, root);
    }
}

// Whether most of them are at one node. They go on alike then, and each finds in the caches what the one before it has read.
fn are_together<const MAX: usize>(ways: &[Way<'_, MAX>]) -> bool {
    let mut last = None;
    let mut count = 0;
    for way in ways {
        let least = way.look.items().first().copied();
        if least == last {
            count += 1;
        }
        last = least;
    }
    count > ABREAST / 2
}

// How many of them have found what they seek.
fn count_found<L: Leading, const MAX: usize>(
    ways: &[Way<'_, MAX>],
    leading: &L,
    root: Look<'_, MAX>,
) -> usize
    requires readable { All (L.can_read leading.now) (list (whole (position root))) }
    requires ways { All (IsWay (whole (position root))) ways.now }
    ensures { result ≤ length ways.now }
{
    let mut count = 0;
    for way in ways {
        if way.has_found(leading, root) {
            count += 1;
        }
    }
    count
}

impl<const MIN: usize, const MAX: usize> TTree<MIN, MAX> {
    /// Searches for tuples that begin with the first sixteen of these numbers, side by side. There are no such searches if the tree is
    /// empty, or if most of them would read the same. If fewer numbers are sought, the other searches seek 0.
    #[inline(never)]
    pub fn search_many<L: Leading>(&self, leading: &L, sought: &[i64]) -> Option<Ways<'_, MAX>>
        requires { All (L.can_read leading.now) (items_of_tree self.now) }
        ensures { IfSome result (AreWays self.now.tree) }
    {
        let root = self.tree.look();
        if !root.has_node() {
            return None;
        }
        let mut each = [Way::at(root); ABREAST];
        seek_each(&mut each, sought, root);
        descend_each(&mut each, leading, root, LEVELS);
        if are_together(&each) {
            return None;
        }
        descend_each(
            &mut each,
            leading,
            root,
            root.height().saturating_sub(LEVELS),
        );
        end_each(&mut each, leading, root);
        Some(Ways { each })
    }

    /// Reads what searches for tuples that begin with the first sixteen of these numbers read, side by side. It tells how many found
    /// one, and changes nothing.
    #[inline(never)]
    pub fn warm<L: Leading>(&self, leading: &L, sought: &[i64]) -> usize
        requires { All (L.can_read leading.now) (items_of_tree self.now) }
        ensures { result ≤ ABREAST }
    {
        match self.search_many(leading, sought) {
            Some(ways) => count_found(&ways.each, leading, self.tree.look()),
            None => 0,
        }
    }

    /// The references in order, from the first that does not stand below the probe's range. It's looked for where a search ended that
    /// went side by side with others, and found by another search if it isn't there.
    pub fn walk_from_way<'a, P: Probe>(&'a self, way: &Way<'a, MAX>, probe: &mut P) -> Walk<'a, MAX>
        requires way { IsWay self.now.tree way.now }
        requires sound { P.is_sound probe.old }
        requires placed { All (P.can_place probe.old) (items_of_tree self.now) }
        requires in_order { NeverFalls (P.place probe.old) (items_of_tree self.now) }
        ensures rest { rest_of result ≡ from_range (P.place probe.old) (items_of_tree self.now) }
        ensures probe { IsOnlyAsked P.is_sound P.can_place P.place P.asked probe.old probe.new }
    {
        if way.ends_right(probe) {
            return way.last.walk_from(way.high);
        }
        self.walk_from(probe)
    }

    /// A reference in the range of the probe. It's looked for where a search ended that went side by side with others, and found by
    /// another search if it isn't there.
    pub fn find_by_way<P: Probe>(&self, way: &Way<'_, MAX>, probe: &mut P) -> Option<TupleRef>
        requires way { IsWay self.now.tree way.now }
        requires sound { P.is_sound probe.old }
        requires placed { All (P.can_place probe.old) (items_of_tree self.now) }
        requires in_order { NeverFalls (P.place probe.old) (items_of_tree self.now) }
        ensures held { IfSome result (Contains (items_of_tree self.now)) }
        ensures found { IfSome result (λ r. P.place probe.old r ≡ Ordering.Equal) }
        ensures none { IfNone result (All (λ r. P.place probe.old r ≢ Ordering.Equal) (items_of_tree self.now)) }
        ensures probe { IsOnlyAsked P.is_sound P.can_place P.place P.asked probe.old probe.new }
    {
        if let Some(item) = way.last.items().get(way.high) {
            if probe.place(*item).is_eq() {
                return Some(*item);
            }
        }
        self.find(probe)
    }
}
