//! The T-tree as its callers see it: a list of references that rises, and the inserts that are sure of their memory.
//! Each call hands on to the search or to an editor of the nodes, and keeps the two counts.
ghost use Rattle.std.specs.Prelude.{[], true, false, ◌≡◌, ◌≢◌, ◌++◌, ◌+◌, ◌*◌, ◌^◌, ◌<◌, ◌≤◌, max, length, IfSome, IfNone, IfOk, IfErr, OnOk, OnErr, All, Contains};
ghost use Rattle.std.specs.declared.cmp.Ordering.{Ordering};
ghost use Rattle.mm_index.specs.Asking.{IsOnlyAsked, counted};
ghost use Rattle.mm_index.specs.Order.{IsRising, insert_by, insert_placed, remove_by};
ghost use Rattle.mm_index.specs.Range.{NeverFalls, in_range, from_range};

use crate::asking::Seek;
use crate::build::build;
use crate::copying::copy;
use crate::insert::{insert_last, insert_unless_found};
use crate::removal::remove;
use crate::search::locate;
use mm_index::{OrderProbe, Probe, TupleOrder};
use no_memory::NoMemory;
use part_raw::TupleRef;
use std::alloc::Global;
use std::marker::Model;
use ttree_node::{LinkedTree, Look, Walk};

// So many inserts are made by a search once one was tried at the end in vain.
const SEARCHES: u8 = 15;

/// References in order, in nodes of at most `MAX`. A node with two children holds at least `MIN`.
pub struct TTree<const MIN: usize, const MAX: usize> {
    pub(crate) tree: LinkedTree<MAX>,
    // How many references it holds.
    pub(crate) len: usize,
    // How many nodes it has, the spare ones too.
    pub(crate) nodes: usize,
    // How many inserts are made by a search before the next one is tried at the end.
    searches: u8,
}

impl<const MIN: usize, const MAX: usize> Drop for TTree<MIN, MAX> {
    fn drop(self) {
        let TTree {
            tree: _,
            len: _,
            nodes: _,
            searches: _,
        } = self;
    }
}

impl<const MIN: usize, const MAX: usize> Model for TTree<MIN, MAX> {
    ghost use Rattle.ttree_node.specs.TreeWithSpares.{TreeWithSpares, tree_with_spares_code};
    ghost use Rattle.ttree.specs.Held.{IsSound};

    ghost Value = { TreeWithSpares };

    ghost coded = { tree_with_spares_code };

    ghost view = { λ t. t.tree };

    ghost invariant = { λ t. IsSound MIN MAX t.tree t.len t.nodes };
}

impl<const MIN: usize, const MAX: usize> TTree<MIN, MAX> {
    ghost use Rattle.ttree_node.specs.Tree.{at, empty, height, size, whole, items_of};
    ghost use Rattle.ttree_node.specs.Look.{position};
    ghost use Rattle.ttree_node.specs.Walk.{rest_of};
    ghost use Rattle.ttree.specs.Searching.{taken, IsAskedAtMost, IsHitIn, IsGap};
    ghost use Rattle.ttree.specs.Held.{items_of_tree};
    ghost use Rattle.ttree.specs.Packing.{IsPacked};
    ghost use Rattle.ttree.specs.Room.{nodes_of, room_of, nodes_for};
    ghost use Rattle.ttree.specs.Shape.{IsBalanced, HasTrueHeights, HasItemsInEach, IsOccupiedThroughout, ParentsAreFull, fib, binary_digits};

    /// An empty tree, which has taken no memory.
    pub fn new(alloc: Global) -> TTree<MIN, MAX>
        requires some { 1 ≤ MIN }
        requires ordered { MIN ≤ MAX }
        requires two { 2 ≤ MAX }
        ensures tree { result.tree ≡ empty }
        ensures spares { result.spares ≡ 0 }
        ensures room { room_of MIN result ≡ 0 }
    {
        TTree {
            tree: LinkedTree::new(alloc),
            len: 0,
            nodes: 0,
            searches: 0,
        }
    }

    /// A tree of these references, in the order in which they come, with no search. It takes its nodes' memory and no more:
    /// the fewest nodes that hold the references, each full but the last. No order is asked for here. What is later handed
    /// in with a call has to be one by which they rise.
    pub fn from_slice(alloc: Global, refs: &[TupleRef]) -> Result<TTree<MIN, MAX>, NoMemory>
        requires some { 1 ≤ MIN }
        requires ordered { MIN ≤ MAX }
        requires two { 2 ≤ MAX }
        requires short { length refs.now ≤ 2 ^ 32 }
        ensures items { IfOk result (λ t. items_of_tree t ≡ refs.now) }
        ensures packed { IfOk result (λ t. IsPacked MAX t.tree) }
        ensures spares { IfOk result (λ t. t.spares ≡ 0) }
    {
        let nodes = refs.len().div_ceil(MAX);
        let mut tree = LinkedTree::new(alloc);
        tree.reserve(nodes)?;
        build::<MIN, MAX>(tree.nodes_mut(), refs);
        Ok(TTree {
            tree,
            len: refs.len(),
            nodes,
            searches: 0,
        })
    }

    /// The same tree again: each node with its references, and as many spare nodes. It takes memory for these and no more, which
    /// it gives back if that runs out. It asks about no reference.
    pub fn try_clone(&self) -> Result<TTree<MIN, MAX>, NoMemory>
        ensures { IfOk result (λ copy. copy ≡ self.now) }
    {
        let mut tree = self.tree.room_for_copy(self.nodes)?;
        copy(tree.nodes_mut(), &self.tree.look());
        Ok(TTree {
            tree,
            len: self.len,
            nodes: self.nodes,
            searches: self.searches,
        })
    }

    /// A reference in the range of the probe.
    pub fn find<P: Probe>(&self, probe: &mut P) -> Option<TupleRef>
        requires sound { P.is_sound probe.old }
        requires placed { All (P.can_place probe.old) (items_of_tree self.now) }
        requires in_order { NeverFalls (P.place probe.old) (items_of_tree self.now) }
        ensures held { IfSome result (Contains (items_of_tree self.now)) }
        ensures found { IfSome result (λ r. P.place probe.old r ≡ Ordering.Equal) }
        ensures none { IfNone result (All (λ r. P.place probe.old r ≢ Ordering.Equal) (items_of_tree self.now)) }
        ensures probe { IsOnlyAsked P.is_sound P.can_place P.place P.asked probe.old probe.new }
        ensures asks { 0 < length (items_of_tree self.now) → counted (P.asked probe.old) ≤ P.asked probe.new }
        // Each level asks once at most, and one of them once more for each binary digit of the number of its items.
        ensures most_asked { P.asked probe.new ≤ P.asked probe.old + (height self.now.tree + binary_digits MAX) }
        ensures bound { fib (height self.now.tree + 2) ≤ 1 + length (items_of_tree self.now) }
    {
        let (look, found) = self.search(probe, Seek::Any);
        match found {
            Ok(index) => Some(look.items()[index]),
            Err(_) => None,
        }
    }

    /// Appends the references in the range of the probe, in order.
    pub fn range<P: Probe>(&self, probe: &mut P, out: &mut Vec<TupleRef>) -> Result<(), NoMemory>
        requires sound { P.is_sound probe.old }
        requires placed { All (P.can_place probe.old) (items_of_tree self.now) }
        requires in_order { NeverFalls (P.place probe.old) (items_of_tree self.now) }
        ensures ok { OnOk result (out.new.items ≡ out.old.items ++ in_range (P.place probe.old) (items_of_tree self.now)) }
        ensures err { OnErr result (out.new.items ≡ out.old.items) }
        ensures probe { IsOnlyAsked P.is_sound P.can_place P.place P.asked probe.old probe.new }
        // Beyond the search it asks once for each reference that it appends, and once more.
        ensures most_asked { OnOk result (P.asked probe.new ≤ P.asked probe.old + (height self.now.tree + binary_digits MAX) + length (in_range (P.place probe.old) (items_of_tree self.now)) + 1) }
        ensures bound { fib (height self.now.tree + 2) ≤ 1 + length (items_of_tree self.now) }
    {
        let before = out.len();
        for r in self.walk_from(probe) {
            if !probe.place(r).is_eq() {
                break;
            }
            if let Err(refused) = out.push(r) {
                out.truncate(before);
                return Err(NoMemory::from(refused));
            }
        }
        Ok(())
    }

    /// The references in order.
    pub fn walk(&self) -> Walk<'_, MAX>
        ensures { rest_of result ≡ items_of_tree self.now }
    {
        self.tree.walk()
    }

    /// The root of the tree, to read its nodes.
    pub fn look(&self) -> Look<'_, MAX>
        ensures { position result ≡ at [] self.now.tree }
    {
        self.tree.look()
    }

    /// The references in order, from the first that does not stand below the probe's range.
    pub fn walk_from<P: Probe>(&self, probe: &mut P) -> Walk<'_, MAX>
        requires sound { P.is_sound probe.old }
        requires placed { All (P.can_place probe.old) (items_of_tree self.now) }
        requires in_order { NeverFalls (P.place probe.old) (items_of_tree self.now) }
        ensures rest { rest_of result ≡ from_range (P.place probe.old) (items_of_tree self.now) }
        ensures probe { IsOnlyAsked P.is_sound P.can_place P.place P.asked probe.old probe.new }
        ensures asks { 0 < length (items_of_tree self.now) → counted (P.asked probe.old) ≤ P.asked probe.new }
        ensures most_asked { P.asked probe.new ≤ P.asked probe.old + (height self.now.tree + binary_digits MAX) }
        ensures bound { fib (height self.now.tree + 2) ≤ 1 + length (items_of_tree self.now) }
    {
        let (look, found) = self.search(probe, Seek::First);
        match found {
            // It goes on at what is in the range.
            Ok(_) => unreachable!(),
            Err(index) => look.walk_from(index),
        }
    }

    // Searches from the root: the place where the search ends, and there the index of an item in the range, or of where it would be.
    fn search<P: Probe>(&self, probe: &mut P, seek: Seek) -> (Look<'_, MAX>, Result<usize, usize>)
        requires sound { P.is_sound probe.old }
        requires placed { All (P.can_place probe.old) (items_of_tree self.now) }
        requires in_order { NeverFalls (P.place probe.old) (items_of_tree self.now) }
        ensures whole { whole (position result.0) ≡ self.now.tree }
        ensures hit { IfOk result.1 (IsHitIn (λ r. taken seek (P.place probe.old r)) (items_of (position result.0).here)) }
        ensures gap { IfErr result.1 (IsGap (λ r. taken seek (P.place probe.old r)) (position result.0)) }
        ensures probe { IsAskedAtMost (height self.now.tree + binary_digits MAX) P.is_sound P.can_place P.place P.asked probe.old probe.new }
        ensures asks { 0 < length (items_of_tree self.now) → counted (P.asked probe.old) ≤ P.asked probe.new }
        ensures bound { fib (height self.now.tree + 2) ≤ 1 + length (items_of_tree self.now) }
    {
        let mut look = self.tree.look();
        if !look.has_node() {
            return (look, Err(0));
        }
        let found = locate(&mut look, probe, seek, None);
        (look, found)
    }

    /// The height of the tree: 0 where it is empty, 1 for a leaf, and one more than the higher child's for another node.
    pub fn height(&self) -> usize
        ensures height { result ≡ height self.now.tree }
        // The children's heights differ by at most one at each node, and the stated heights are true.
        ensures balanced { IsBalanced self.now.tree }
        ensures true_heights { HasTrueHeights self.now.tree }
        ensures no_empty_node { HasItemsInEach MAX self.now.tree }
        // A node with two children holds at least `MIN`, and one with a leaf alone at least one more together with it.
        ensures occupied { IsOccupiedThroughout MIN self.now.tree }
        // So the nodes are at most these, and the height is at most logarithmic.
        ensures few_nodes { MIN * size self.now.tree ≤ 2 * length (items_of_tree self.now) + MIN }
        ensures bound { fib (height self.now.tree + 2) ≤ 1 + length (items_of_tree self.now) }
    {
        let root = self.tree.look();
        if !root.has_node() {
            return 0;
        }
        let (left, right) = root.heights();
        1 + left.max(right) as usize
    }

    /// Makes sure of memory for `n` inserts, until `release_spares`. After an `Err` nothing has changed.
    pub fn reserve(&mut self, n: usize) -> Result<(), NoMemory>
        requires { n ≤ 2 ^ 32 }
        ensures tree { self.new.tree ≡ self.old.tree }
        ensures items { items_of_tree self.new ≡ items_of_tree self.old }
        ensures reserved { OnOk result (n ≤ room_of MIN self.new) }
        ensures room { room_of MIN self.old ≤ room_of MIN self.new }
        // It makes no spare nodes beyond a spare one for each insert, and none beyond the nodes that suffice for all references.
        ensures spares { self.new.spares ≤ max self.old.spares n }
        ensures nodes { nodes_of self.new ≤ max (nodes_of self.old) (nodes_for MIN (length (items_of_tree self.old) + n)) }
        ensures err { OnErr result (self.new ≡ self.old) }
    {
        let spares = self.tree.spares();
        let enough = 1 + (2 * (self.len + n)).div_ceil(MIN);
        let more = n
            .saturating_sub(spares)
            .min(enough.saturating_sub(self.nodes));
        if more > 0 {
            self.tree.reserve(spares + more)?;
            self.nodes += more;
        }
        Ok(())
    }

    /// Makes sure of memory for one insert, until `release_spares`: of one node at most, and of none where the nodes suffice.
    /// After an `Err` nothing has changed.
    pub fn reserve_one(&mut self) -> Result<(), NoMemory>
        ensures tree { self.new.tree ≡ self.old.tree }
        ensures reserved { OnOk result (0 < room_of MIN self.new) }
        ensures spares { self.new.spares ≤ max self.old.spares 1 }
        ensures nodes { nodes_of self.new ≤ max (nodes_of self.old) (nodes_for MIN (length (items_of_tree self.old) + 1)) }
        ensures err { OnErr result (self.new ≡ self.old) }
    {
        self.reserve(1)
    }

    /// Puts the reference that the probe seeks at its place. It searches once, and takes no memory.
    pub fn insert<O: TupleOrder>(&mut self, probe: &mut OrderProbe<'_, O>)
        // There is room for one more, and the reference is not held.
        requires reserved { 0 < room_of MIN self.old }
        requires short { length (items_of_tree self.old) < 2 ^ 32 }
        requires absent { ¬ (Contains (items_of_tree self.old) probe.old.sought) }

        // The list rises by the order, which covers it and the reference.
        requires sound { O.is_sound probe.old.order.now }
        requires covered { All (O.covers probe.old.order.now) (items_of_tree self.old) }
        requires r_covered { O.covers probe.old.order.now probe.old.sought }
        requires rising { IsRising (O.cmp probe.old.order.now) (items_of_tree self.old) }

        ensures items { items_of_tree self.new ≡ insert_by (O.cmp probe.old.order.now) probe.old.sought (items_of_tree self.old) }
        ensures rising { IsRising (O.cmp probe.old.order.now) (items_of_tree self.new) }
        // A node that this adds was a spare one, and it adds one at most.
        ensures nodes { nodes_of self.new ≡ nodes_of self.old }
        ensures spares { self.old.spares ≤ self.new.spares + 1 }
        ensures room { room_of MIN self.old ≤ room_of MIN self.new + 1 }
        // Where each node that has a child is full, it stays so: hence it is so after inserts alone into a new tree.
        ensures full { 2 ≤ MIN → ParentsAreFull MAX self.old.tree → ParentsAreFull MAX self.new.tree }
        ensures most_asked { probe.new.asked ≤ probe.old.asked + (height self.old.tree + binary_digits MAX) }
    {
        let r = probe.sought();
        let found = self.insert_unless_found(probe, r);
        prove!(found.is_none());
    }

    /// Puts `r` where the probe's range would stand and gives None, or gives a reference that stands in the range and
    /// changes nothing. It searches once, and takes no memory.
    pub fn insert_unless_found<P: Probe>(&mut self, probe: &mut P, r: TupleRef) -> Option<TupleRef>
        requires reserved { 0 < room_of MIN self.old }
        requires short { length (items_of_tree self.old) < 2 ^ 32 }
        requires sound { P.is_sound probe.old }
        requires placed { All (P.can_place probe.old) (items_of_tree self.old) }
        requires in_order { NeverFalls (P.place probe.old) (items_of_tree self.old) }
        ensures held { IfSome result (Contains (items_of_tree self.old)) }
        ensures found { IfSome result (λ q. P.place probe.old q ≡ Ordering.Equal) }
        ensures kept { IfSome result (λ _. self.new ≡ self.old) }
        ensures none { IfNone result (All (λ q. P.place probe.old q ≢ Ordering.Equal) (items_of_tree self.old)) }
        ensures inserted { IfNone result (items_of_tree self.new ≡ insert_placed (P.place probe.old) r (items_of_tree self.old)) }
        ensures one { IfNone result (length (items_of_tree self.new) ≡ length (items_of_tree self.old) + 1) }
        // A node that this adds was a spare one, and it adds one at most.
        ensures nodes { nodes_of self.new ≡ nodes_of self.old }
        ensures spares { self.old.spares ≤ self.new.spares + 1 }
        ensures room { room_of MIN self.old ≤ room_of MIN self.new + 1 }
        // Where each node that has a child is full, it stays so.
        ensures full { 2 ≤ MIN → ParentsAreFull MAX self.old.tree → ParentsAreFull MAX self.new.tree }
        ensures probe { IsOnlyAsked P.is_sound P.can_place P.place P.asked probe.old probe.new }
        ensures asks { 0 < length (items_of_tree self.old) → counted (P.asked probe.old) ≤ P.asked probe.new }
        ensures most_asked { P.asked probe.new ≤ P.asked probe.old + (height self.old.tree + binary_digits MAX) }
        ensures bound { fib (height self.old.tree + 2) ≤ 1 + length (items_of_tree self.old) }
    {
        let found = insert_unless_found::<P, MIN, MAX>(self.tree.nodes_mut(), probe, r);
        if found.is_none() {
            self.len += 1;
        }
        found
    }

    // Puts `r` behind all references and gives true, where the probe's range is seen to stand behind them, or changes nothing. It
    // asks about the last reference alone. Where that was in vain, it asks none in so many calls behind.
    fn insert_last<P: Probe>(&mut self, probe: &mut P, r: TupleRef) -> bool
        requires reserved { 0 < room_of MIN self.old }
        requires short { length (items_of_tree self.old) < 2 ^ 32 }
        requires sound { P.is_sound probe.old }
        requires placed { All (P.can_place probe.old) (items_of_tree self.old) }
        requires in_order { NeverFalls (P.place probe.old) (items_of_tree self.old) }
        ensures kept { result ≡ false → self.new ≡ self.old }
        ensures none { result ≡ true → All (λ q. P.place probe.old q ≢ Ordering.Equal) (items_of_tree self.old) }
        ensures inserted { result ≡ true → items_of_tree self.new ≡ insert_placed (P.place probe.old) r (items_of_tree self.old) }
        ensures one { result ≡ true → length (items_of_tree self.new) ≡ length (items_of_tree self.old) + 1 }
        ensures nodes { nodes_of self.new ≡ nodes_of self.old }
        ensures spares { self.old.spares ≤ self.new.spares + 1 }
        ensures room { room_of MIN self.old ≤ room_of MIN self.new + 1 }
        ensures full { 2 ≤ MIN → ParentsAreFull MAX self.old.tree → ParentsAreFull MAX self.new.tree }
        ensures probe { IsAskedAtMost 1 P.is_sound P.can_place P.place P.asked probe.old probe.new }
    {
        if self.searches > 0 {
            self.searches -= 1;
            return false;
        }
        let is_last = insert_last::<P, MIN, MAX>(self.tree.nodes_mut(), probe, r);
        if is_last {
            self.len += 1;
        } else {
            self.searches = SEARCHES;
        }
        is_last
    }

    /// Puts `r` where the probe's range would stand and gives None, or gives a reference that stands in the range and
    /// changes nothing. Where what was put in before stood last, it asks whether `r` does, and searches only where it does
    /// not. It takes no memory.
    pub fn insert_from_end<P: Probe>(&mut self, probe: &mut P, r: TupleRef) -> Option<TupleRef>
        requires reserved { 0 < room_of MIN self.old }
        requires short { length (items_of_tree self.old) < 2 ^ 32 }
        requires sound { P.is_sound probe.old }
        requires placed { All (P.can_place probe.old) (items_of_tree self.old) }
        requires in_order { NeverFalls (P.place probe.old) (items_of_tree self.old) }
        ensures held { IfSome result (Contains (items_of_tree self.old)) }
        ensures found { IfSome result (λ q. P.place probe.old q ≡ Ordering.Equal) }
        ensures kept { IfSome result (λ _. self.new ≡ self.old) }
        ensures none { IfNone result (All (λ q. P.place probe.old q ≢ Ordering.Equal) (items_of_tree self.old)) }
        ensures inserted { IfNone result (items_of_tree self.new ≡ insert_placed (P.place probe.old) r (items_of_tree self.old)) }
        ensures one { IfNone result (length (items_of_tree self.new) ≡ length (items_of_tree self.old) + 1) }
        // A node that this adds was a spare one, and it adds one at most.
        ensures nodes { nodes_of self.new ≡ nodes_of self.old }
        ensures spares { self.old.spares ≤ self.new.spares + 1 }
        ensures room { room_of MIN self.old ≤ room_of MIN self.new + 1 }
        // Where each node that has a child is full, it stays so.
        ensures full { 2 ≤ MIN → ParentsAreFull MAX self.old.tree → ParentsAreFull MAX self.new.tree }
        ensures probe { IsOnlyAsked P.is_sound P.can_place P.place P.asked probe.old probe.new }
        ensures most_asked { P.asked probe.new ≤ P.asked probe.old + (1 + height self.old.tree + binary_digits MAX) }
    {
        if self.insert_last(probe, r) {
            return None;
        }
        self.insert_unless_found(probe, r)
    }

    /// Takes the reference that the probe seeks out. Each node that this frees is kept as a spare one. It searches once, and
    /// takes no memory.
    pub fn remove<O: TupleOrder>(&mut self, probe: &mut OrderProbe<'_, O>)
        requires held { Contains (items_of_tree self.old) probe.old.sought }

        // The list rises by the order, which covers it.
        requires sound { O.is_sound probe.old.order.now }
        requires covered { All (O.covers probe.old.order.now) (items_of_tree self.old) }
        requires rising { IsRising (O.cmp probe.old.order.now) (items_of_tree self.old) }

        ensures items { items_of_tree self.new ≡ remove_by (O.cmp probe.old.order.now) probe.old.sought (items_of_tree self.old) }
        ensures rising { IsRising (O.cmp probe.old.order.now) (items_of_tree self.new) }
        ensures nodes { nodes_of self.new ≡ nodes_of self.old }
        ensures spares { self.old.spares ≤ self.new.spares }
        ensures room { room_of MIN self.old ≤ room_of MIN self.new }
        ensures most_asked { probe.new.asked ≤ probe.old.asked + (height self.old.tree + binary_digits MAX) }
    {
        remove::<O, MIN, MAX>(self.tree.nodes_mut(), probe);
        self.len -= 1;
    }

    /// How many references there are.
    pub fn len(&self) -> usize
        ensures { result ≡ length (items_of_tree self.now) }
    {
        self.len
    }

    /// How many nodes are in use.
    pub fn nodes(&self) -> usize
        ensures { result ≡ size self.now.tree }
    {
        self.nodes - self.tree.spares()
    }

    /// How many nodes are spare.
    pub fn spares(&self) -> usize
        ensures { result ≡ self.now.spares }
    {
        self.tree.spares()
    }

    /// Gives back the memory that was reserved and not used. Takes no memory.
    pub fn release_spares(&mut self)
        ensures tree { self.new.tree ≡ self.old.tree }
        ensures spares { self.new.spares ≡ 0 }
        ensures room { room_of MIN self.new ≡ 0 }
    {
        self.nodes -= self.tree.spares();
        self.tree.release_spares();
    }
}
