//! The search of a tree from its root, to read it or to edit it there. It asks about the least item of each node alone, and
//! then among the items of one.
ghost use Rattle.std.specs.Prelude.{◌≡◌, ◌+◌, ◌<◌, ◌≤◌, true, All, Some, IfSome, IfOk, IfErr, length, slice_get};
ghost use Rattle.std.specs.declared.cmp.Ordering.TheVariants.{Equal};
ghost use Rattle.mm_index.specs.Asking.{counted};
ghost use Rattle.mm_index.specs.Range.{NeverFalls};
ghost use Rattle.ttree_node.specs.Tree.{whole, list, items_of, is_node, is_root, left_of, right_of, height};
ghost use Rattle.ttree_node.specs.Look.{position};
ghost use Rattle.ttree_node.specs.Editor.{position as edited, tree_at, spares_at};
ghost use Rattle.ttree.specs.Shape.{HasItemsInEach, binary_digits};
ghost use Rattle.ttree.specs.Searching.{taken, IsAskedAtMost, IsHitIn, IsGap, IsDescent};

use crate::asking::{Seek, ask, search_items};
use mm_index::Probe;
use part_raw::TupleRef;
use std::cmp::Ordering;
use ttree_node::{Editor, Look};

// How a way down ends that asks about the least item of each node alone.
pub(crate) enum Descent<'a, const MAX: usize> {
    // At a node whose least item is in the range.
    Hit,
    // Where no child hangs on the side it would go. The last node on it whose least item stands below the range goes with
    // it, if there is one.
    End(Option<Look<'a, MAX>>),
}

// How high a tree is whose nodes and rows lie outside the caches, so that it pays to read both children of a node before the answer
// about it is known. A tree of 50,000 rows is about so high.
const TALL: u32 = 12;

// The least items of the children, as far as they were read.
#[derive(Clone, Copy)]
struct Below {
    left: Option<TupleRef>,
    right: Option<TupleRef>,
}

// Reads the least items of both children in a tall tree, and else nothing.
#[inline]
fn read_below<const MAX: usize, const IS_TALL: bool>(look: &Look<'_, MAX>) -> Below
    ensures left { IfSome result.left (λ r. slice_get (items_of (left_of (position look.now).here)) 0 ≡ Some r) }
    ensures right { IfSome result.right (λ r. slice_get (items_of (right_of (position look.now).here)) 0 ≡ Some r) }
{
    if !IS_TALL {
        return Below {
            left: None,
            right: None,
        };
    }
    let (left, right) = look.least_below();
    Below { left, right }
}

// The least item of the node, which may have been read before.
#[inline]
fn least_here<const MAX: usize>(look: &Look<'_, MAX>, read: Option<TupleRef>) -> TupleRef
    requires some { 0 < length (items_of (position look.now).here) }
    requires read { IfSome read (λ r. slice_get (items_of (position look.now).here) 0 ≡ Some r) }
    ensures { slice_get (items_of (position look.now).here) 0 ≡ Some result }
{
    match read {
        Some(item) => item,
        None => look.items()[0],
    }
}

// Goes down from the root: to the left where the least item stands above the range, and to the right where it stands below.
fn descend_in<'a, P: Probe, const MAX: usize, const IS_TALL: bool>(
    look: &mut Look<'a, MAX>,
    probe: &mut P,
    seek: Seek,
) -> Descent<'a, MAX>
    requires root { is_root (position look.old).above ≡ true }
    requires node { is_node (position look.old).here ≡ true }
    requires some { HasItemsInEach MAX (whole (position look.old)) }
    requires sound { P.is_sound probe.old }
    requires placed { All (P.can_place probe.old) (list (whole (position look.old))) }
    requires in_order { NeverFalls (λ r. taken seek (P.place probe.old r)) (list (whole (position look.old))) }
    ensures nodes { look.new.nodes ≡ look.old.nodes }
    ensures node { is_node (position look.new).here ≡ true }
    ensures whole { whole (position look.new) ≡ whole (position look.old) }
    ensures end { IsDescent (λ r. taken seek (P.place probe.old r)) look.new result }
    ensures probe { IsAskedAtMost (height (whole (position look.old))) P.is_sound P.can_place P.place P.asked probe.old probe.new }
    ensures asks { counted (P.asked probe.old) ≤ P.asked probe.new }
{
    let mut here = *look;
    let mut last = None;
    let mut known = None;
    loop {
        let item = least_here(&here, known);
        let below = read_below::<MAX, IS_TALL>(&here);
        match ask(probe, item, seek) {
            Ordering::Equal => {
                *look = here;
                return Descent::Hit;
            }
            Ordering::Greater => {
                if !here.has_left() {
                    *look = here;
                    return Descent::End(last);
                }
                here.down_left();
                known = below.left;
            }
            Ordering::Less => {
                last = Some(here);
                if !here.has_right() {
                    *look = here;
                    return Descent::End(last);
                }
                here.down_right();
                known = below.right;
            }
        }
    }
}

// The same, as is best for a tree of its height.
fn descend<'a, P: Probe, const MAX: usize>(
    look: &mut Look<'a, MAX>,
    probe: &mut P,
    seek: Seek,
) -> Descent<'a, MAX>
    requires root { is_root (position look.old).above ≡ true }
    requires node { is_node (position look.old).here ≡ true }
    requires some { HasItemsInEach MAX (whole (position look.old)) }
    requires sound { P.is_sound probe.old }
    requires placed { All (P.can_place probe.old) (list (whole (position look.old))) }
    requires in_order { NeverFalls (λ r. taken seek (P.place probe.old r)) (list (whole (position look.old))) }
    ensures nodes { look.new.nodes ≡ look.old.nodes }
    ensures node { is_node (position look.new).here ≡ true }
    ensures whole { whole (position look.new) ≡ whole (position look.old) }
    ensures end { IsDescent (λ r. taken seek (P.place probe.old r)) look.new result }
    ensures probe { IsAskedAtMost (height (whole (position look.old))) P.is_sound P.can_place P.place P.asked probe.old probe.new }
    ensures asks { counted (P.asked probe.old) ≤ P.asked probe.new }
{
    if look.height() >= TALL {
        descend_in::<P, MAX, true>(look, probe, seek)
    } else {
        descend_in::<P, MAX, false>(look, probe, seek)
    }
}

// Goes to the node of an item in the range, and answers its index, or to where it would be. It asks once at each level, and
// then among the items of the last node whose least item stands below the range, unless one there is known to be in it.
pub(crate) fn locate<P: Probe, const MAX: usize>(
    look: &mut Look<'_, MAX>,
    probe: &mut P,
    seek: Seek,
    known: Option<TupleRef>,
) -> Result<usize, usize>
    requires root { is_root (position look.old).above ≡ true }
    requires node { is_node (position look.old).here ≡ true }
    requires some { HasItemsInEach MAX (whole (position look.old)) }
    requires sound { P.is_sound probe.old }
    requires placed { All (P.can_place probe.old) (list (whole (position look.old))) }
    requires in_order { NeverFalls (λ r. taken seek (P.place probe.old r)) (list (whole (position look.old))) }
    requires known { IfSome known (λ r. taken seek (P.place probe.old r) ≡ Equal) }
    ensures nodes { look.new.nodes ≡ look.old.nodes }
    ensures node { is_node (position look.new).here ≡ true }
    ensures whole { whole (position look.new) ≡ whole (position look.old) }
    ensures hit { IfOk result (IsHitIn (λ r. taken seek (P.place probe.old r)) (items_of (position look.new).here)) }
    ensures gap { IfErr result (IsGap (λ r. taken seek (P.place probe.old r)) (position look.new)) }
    ensures probe { IsAskedAtMost (height (whole (position look.old)) + binary_digits MAX) P.is_sound P.can_place P.place P.asked probe.old probe.new }
    ensures asks { counted (P.asked probe.old) ≤ P.asked probe.new }
{
    match descend(look, probe, seek) {
        Descent::Hit => Ok(0),
        Descent::End(None) => Err(0),
        Descent::End(Some(last)) => {
            let count = last.items().len();
            match search_items(last.items(), 1, probe, seek, known) {
                // Behind its items, and so before those of the node at the end, where a right child hangs there.
                Err(index) if index == count && last.has_right() => Err(0),
                found => {
                    *look = last;
                    found
                }
            }
        }
    }
}

// The same to edit the tree there. Where nothing is in the range, the node is the one that would hold it, or the last node of the path.
pub(crate) fn locate_to_edit<P: Probe, const MAX: usize>(
    editor: &mut Editor<'_, MAX>,
    probe: &mut P,
    known: Option<TupleRef>,
) -> Result<usize, usize>
    requires root { is_root (edited editor.old).above ≡ true }
    requires node { is_node (edited editor.old).here ≡ true }
    requires some { HasItemsInEach MAX (whole (edited editor.old)) }
    requires sound { P.is_sound probe.old }
    requires placed { All (P.can_place probe.old) (list (whole (edited editor.old))) }
    requires in_order { NeverFalls (P.place probe.old) (list (whole (edited editor.old))) }
    requires known { IfSome known (λ r. P.place probe.old r ≡ Equal) }
    ensures same_reference { editor.new.nodes.ghost_name ≡ editor.old.nodes.ghost_name }
    ensures node { is_node (edited editor.new).here ≡ true }
    ensures whole { whole (edited editor.new) ≡ whole (edited editor.old) }
    ensures tree { tree_at editor.new ≡ tree_at editor.old }
    ensures spares { spares_at editor.new ≡ spares_at editor.old }
    ensures hit { IfOk result (IsHitIn (P.place probe.old) (items_of (edited editor.new).here)) }
    ensures gap { IfErr result (IsGap (P.place probe.old) (edited editor.new)) }
    ensures probe { IsAskedAtMost (height (whole (edited editor.old)) + binary_digits MAX) P.is_sound P.can_place P.place P.asked probe.old probe.new }
    ensures asks { counted (P.asked probe.old) ≤ P.asked probe.new }
{
    let mut look = editor.look();
    let found = locate(&mut look, probe, Seek::Any, known);
    let place = look.place();
    editor.go_to(place);
    found
}
