//! The steps of an insert. The search ends at an item in the range, and nothing changes, or in a gap, where the new item
//! goes in. It goes into the node, or becomes a leaf below it, or takes the place of the node's least item, which goes before it.
ghost use Rattle.std.specs.Prelude.{◌≡◌, ◌≢◌, ◌+◌, ◌++◌, ◌^◌, ◌<◌, ◌≤◌, true, false, length, IfSome, IfNone, All, Contains};
ghost use Rattle.std.specs.declared.cmp.Ordering.{Ordering};
ghost use Rattle.mm_index.specs.Asking.{counted};
ghost use Rattle.mm_index.specs.Order.{insert_placed};
ghost use Rattle.mm_index.specs.Range.{NeverFalls};
ghost use Rattle.ttree_node.specs.Tree.{whole, list, height, items_of, is_node, has_left, has_right, with_leaf, list_before, list_after};
ghost use Rattle.ttree_node.specs.Seen.{tree_of, spares_of, shown, on_side, child, hangs_on_node};
ghost use Rattle.ttree_node.specs.Editor.{position, tree_at, spares_at};
ghost use Rattle.ttree.specs.Room.{nodes_of, nodes_at};
ghost use Rattle.ttree.specs.Shape.{IsTTree, ParentsAreFull, binary_digits};
ghost use Rattle.ttree.specs.Searching.{with_item, IsAskedAtMost};

use crate::balance::rebalance;
use crate::search::locate_to_edit;
use mm_index::Probe;
use part_raw::TupleRef;
use ttree_node::{Editor, LinkedNodes, Side};

// Puts `r` where the probe's range would stand, or gives a reference that stands in it and changes nothing.
pub(crate) fn insert_unless_found<P: Probe, const MIN: usize, const MAX: usize>(
    nodes: &mut LinkedNodes<MAX>,
    probe: &mut P,
    r: TupleRef,
) -> Option<TupleRef>
    requires some { 1 ≤ MIN }
    requires ordered { MIN ≤ MAX }
    requires two { 2 ≤ MAX }
    requires fit { IsTTree MIN MAX (tree_of nodes.old) }
    requires short { length (list (tree_of nodes.old)) < 2 ^ 32 }
    requires spare { 0 < spares_of nodes.old }
    requires sound { P.is_sound probe.old }
    requires placed { All (P.can_place probe.old) (list (tree_of nodes.old)) }
    requires in_order { NeverFalls (P.place probe.old) (list (tree_of nodes.old)) }
    ensures fit { IsTTree MIN MAX (tree_of nodes.new) }
    ensures parents { 2 ≤ MIN → ParentsAreFull MAX (tree_of nodes.old) → ParentsAreFull MAX (tree_of nodes.new) }
    ensures held { IfSome result (Contains (list (tree_of nodes.old))) }
    ensures found { IfSome result (λ q. P.place probe.old q ≡ Ordering.Equal) }
    ensures kept { IfSome result (λ _. shown nodes.new ≡ shown nodes.old) }
    ensures none { IfNone result (All (λ q. P.place probe.old q ≢ Ordering.Equal) (list (tree_of nodes.old))) }
    ensures list { IfNone result (list (tree_of nodes.new) ≡ insert_placed (P.place probe.old) r (list (tree_of nodes.old))) }
    ensures one { IfNone result (length (list (tree_of nodes.new)) ≡ length (list (tree_of nodes.old)) + 1) }
    ensures nodes { nodes_of (shown nodes.new) ≡ nodes_of (shown nodes.old) }
    ensures spares { spares_of nodes.old ≤ spares_of nodes.new + 1 }
    ensures probe { IsAskedAtMost (height (tree_of nodes.old) + binary_digits MAX) P.is_sound P.can_place P.place P.asked probe.old probe.new }
    ensures asks { 0 < length (list (tree_of nodes.old)) → counted (P.asked probe.old) ≤ P.asked probe.new }
{
    let mut editor = nodes.edit();
    if !editor.has_node() {
        editor.new_leaf(Side::Root, r);
        return None;
    }
    match locate_to_edit(&mut editor, probe, None) {
        Ok(index) => Some(editor.items()[index]),
        Err(index) => {
            put_at::<MIN, MAX>(&mut editor, index, r);
            None
        }
    }
}

// Puts `r` at the end of the tree where the last item stands below the probe's range, and so all do. It asks about that item
// alone. Where the tree is empty it asks about none, and puts nothing in.
pub(crate) fn insert_last<P: Probe, const MIN: usize, const MAX: usize>(
    nodes: &mut LinkedNodes<MAX>,
    probe: &mut P,
    r: TupleRef,
) -> bool
    requires some { 1 ≤ MIN }
    requires ordered { MIN ≤ MAX }
    requires two { 2 ≤ MAX }
    requires fit { IsTTree MIN MAX (tree_of nodes.old) }
    requires short { length (list (tree_of nodes.old)) < 2 ^ 32 }
    requires spare { 0 < spares_of nodes.old }
    requires sound { P.is_sound probe.old }
    requires placed { All (P.can_place probe.old) (list (tree_of nodes.old)) }
    requires in_order { NeverFalls (P.place probe.old) (list (tree_of nodes.old)) }
    ensures fit { IsTTree MIN MAX (tree_of nodes.new) }
    ensures parents { 2 ≤ MIN → ParentsAreFull MAX (tree_of nodes.old) → ParentsAreFull MAX (tree_of nodes.new) }
    ensures kept { result ≡ false → shown nodes.new ≡ shown nodes.old }
    ensures none { result ≡ true → All (λ q. P.place probe.old q ≢ Ordering.Equal) (list (tree_of nodes.old)) }
    ensures list { result ≡ true → list (tree_of nodes.new) ≡ insert_placed (P.place probe.old) r (list (tree_of nodes.old)) }
    ensures one { result ≡ true → length (list (tree_of nodes.new)) ≡ length (list (tree_of nodes.old)) + 1 }
    ensures nodes { nodes_of (shown nodes.new) ≡ nodes_of (shown nodes.old) }
    ensures spares { spares_of nodes.old ≤ spares_of nodes.new + 1 }
    ensures probe { IsAskedAtMost 1 P.is_sound P.can_place P.place P.asked probe.old probe.new }
{
    let mut editor = nodes.edit();
    if !editor.has_node() {
        return false;
    }
    to_rightmost(&mut editor);
    let count = editor.items().len();
    let last = editor.items()[count - 1];
    if !probe.place(last).is_lt() {
        return false;
    }
    put_at::<MIN, MAX>(&mut editor, count, r);
    true
}

// Puts `r` before item `index` of the node, or at the end, where the search for it ended.
fn put_at<const MIN: usize, const MAX: usize>(
    editor: &mut Editor<'_, MAX>,
    index: usize,
    r: TupleRef,
)
    requires some { 1 ≤ MIN }
    requires ordered { MIN ≤ MAX }
    requires two { 2 ≤ MAX }
    requires node { is_node (position editor.old).here ≡ true }
    requires index { index ≤ length (items_of (position editor.old).here) }
    requires left_open { index ≡ 0 → has_left (position editor.old).here ≡ false }
    requires right_open { index ≡ length (items_of (position editor.old).here) → has_right (position editor.old).here ≡ false }
    requires tree { tree_at editor.old ≡ whole (position editor.old) }
    requires fit { IsTTree MIN MAX (tree_at editor.old) }
    requires short { length (list (tree_at editor.old)) < 2 ^ 32 }
    requires spare { 0 < spares_at editor.old }
    ensures same_reference { editor.new.nodes.ghost_name ≡ editor.old.nodes.ghost_name }
    ensures fit { IsTTree MIN MAX (tree_at editor.new) }
    ensures parents { 2 ≤ MIN → ParentsAreFull MAX (tree_at editor.old) → ParentsAreFull MAX (tree_at editor.new) }
    ensures list { list (tree_at editor.new) ≡ with_item index r (position editor.old) }
    ensures nodes { nodes_at editor.new ≡ nodes_at editor.old }
    ensures spares { spares_at editor.old ≤ spares_at editor.new + 1 }
{
    let count = editor.items().len();
    if count < MAX {
        put_with_room::<MIN, MAX>(editor, index, r);
    } else if index == 0 {
        grow::<MIN, MAX>(editor, Side::Left, r);
    } else if index == count {
        grow::<MIN, MAX>(editor, Side::Right, r);
    } else {
        spill::<MIN, MAX>(editor, index, r);
    }
}

// Puts `r` into a node with room.
fn put_with_room<const MIN: usize, const MAX: usize>(
    editor: &mut Editor<'_, MAX>,
    index: usize,
    r: TupleRef,
)
    requires node { is_node (position editor.old).here ≡ true }
    requires index { index ≤ length (items_of (position editor.old).here) }
    requires free { length (items_of (position editor.old).here) < MAX }
    requires tree { tree_at editor.old ≡ whole (position editor.old) }
    requires fit { IsTTree MIN MAX (tree_at editor.old) }
    ensures same_reference { editor.new.nodes.ghost_name ≡ editor.old.nodes.ghost_name }
    ensures fit { IsTTree MIN MAX (tree_at editor.new) }
    ensures parents { ParentsAreFull MAX (tree_at editor.old) → ParentsAreFull MAX (tree_at editor.new) }
    ensures list { list (tree_at editor.new) ≡ with_item index r (position editor.old) }
    ensures nodes { nodes_at editor.new ≡ nodes_at editor.old }
    ensures spares { spares_at editor.new ≡ spares_at editor.old }
{
    editor.put(index, r);
}

// Hangs a leaf with `r` on a side of a full node that is open, and balances the tree.
fn grow<const MIN: usize, const MAX: usize>(editor: &mut Editor<'_, MAX>, side: Side, r: TupleRef)
    requires some { 1 ≤ MIN }
    requires ordered { MIN ≤ MAX }
    requires two { 2 ≤ MAX }
    requires node { is_node (position editor.old).here ≡ true }
    requires side { hangs_on_node side ≡ true }
    requires open { is_node (child side (position editor.old).here) ≡ false }
    requires full { MAX ≤ length (items_of (position editor.old).here) }
    requires tree { tree_at editor.old ≡ whole (position editor.old) }
    requires fit { IsTTree MIN MAX (tree_at editor.old) }
    requires short { length (list (tree_at editor.old)) < 2 ^ 32 }
    requires spare { 0 < spares_at editor.old }
    ensures same_reference { editor.new.nodes.ghost_name ≡ editor.old.nodes.ghost_name }
    ensures fit { IsTTree MIN MAX (tree_at editor.new) }
    ensures parents { 2 ≤ MIN → ParentsAreFull MAX (tree_at editor.old) → ParentsAreFull MAX (tree_at editor.new) }
    ensures list { list (tree_at editor.new) ≡ list (whole (with_leaf r (on_side side (position editor.old)))) }
    ensures nodes { nodes_at editor.new ≡ nodes_at editor.old }
    ensures spares { spares_at editor.new + 1 ≡ spares_at editor.old }
{
    editor.new_leaf(side, r);
    editor.up();
    rebalance::<MIN, MAX>(editor);
}

// Puts `r` between the items of a full node, and its least item before the node.
fn spill<const MIN: usize, const MAX: usize>(
    editor: &mut Editor<'_, MAX>,
    index: usize,
    r: TupleRef,
)
    requires some { 1 ≤ MIN }
    requires ordered { MIN ≤ MAX }
    requires two { 2 ≤ MAX }
    requires node { is_node (position editor.old).here ≡ true }
    requires inside { 0 < index }
    requires within { index ≤ length (items_of (position editor.old).here) }
    requires full { MAX ≤ length (items_of (position editor.old).here) }
    requires tree { tree_at editor.old ≡ whole (position editor.old) }
    requires fit { IsTTree MIN MAX (tree_at editor.old) }
    requires short { length (list (tree_at editor.old)) < 2 ^ 32 }
    requires spare { 0 < spares_at editor.old }
    ensures same_reference { editor.new.nodes.ghost_name ≡ editor.old.nodes.ghost_name }
    ensures fit { IsTTree MIN MAX (tree_at editor.new) }
    ensures parents { 2 ≤ MIN → ParentsAreFull MAX (tree_at editor.old) → ParentsAreFull MAX (tree_at editor.new) }
    ensures list { list (tree_at editor.new) ≡ with_item index r (position editor.old) }
    ensures nodes { nodes_at editor.new ≡ nodes_at editor.old }
    ensures spares { spares_at editor.old ≤ spares_at editor.new + 1 }
{
    let least = editor.cut(0);
    editor.put(index - 1, r);
    put_before::<MIN, MAX>(editor, least);
}

// Puts the item before those of a full node: at the end of its left subtree.
fn put_before<const MIN: usize, const MAX: usize>(editor: &mut Editor<'_, MAX>, item: TupleRef)
    requires some { 1 ≤ MIN }
    requires ordered { MIN ≤ MAX }
    requires two { 2 ≤ MAX }
    requires node { is_node (position editor.old).here ≡ true }
    requires full { MAX ≤ length (items_of (position editor.old).here) }
    requires tree { tree_at editor.old ≡ whole (position editor.old) }
    requires fit { IsTTree MIN MAX (tree_at editor.old) }
    requires short { length (list (tree_at editor.old)) < 2 ^ 32 }
    requires spare { 0 < spares_at editor.old }
    ensures same_reference { editor.new.nodes.ghost_name ≡ editor.old.nodes.ghost_name }
    ensures fit { IsTTree MIN MAX (tree_at editor.new) }
    ensures parents { 2 ≤ MIN → ParentsAreFull MAX (tree_at editor.old) → ParentsAreFull MAX (tree_at editor.new) }
    ensures list { list (tree_at editor.new) ≡ with_item 0 item (position editor.old) }
    ensures nodes { nodes_at editor.new ≡ nodes_at editor.old }
    ensures spares { spares_at editor.old ≤ spares_at editor.new + 1 }
{
    if !editor.has_left() {
        return grow::<MIN, MAX>(editor, Side::Left, item);
    }
    editor.down_left();
    to_rightmost(editor);
    let end = editor.items().len();
    if end < MAX {
        put_with_room::<MIN, MAX>(editor, end, item);
    } else {
        grow::<MIN, MAX>(editor, Side::Right, item);
    }
}

// Goes to the rightmost node of the tree that is here.
pub(crate) fn to_rightmost<const MAX: usize>(editor: &mut Editor<'_, MAX>)
    requires node { is_node (position editor.old).here ≡ true }
    ensures same_reference { editor.new.nodes.ghost_name ≡ editor.old.nodes.ghost_name }
    ensures node { is_node (position editor.new).here ≡ true }
    ensures open { has_right (position editor.new).here ≡ false }
    ensures whole { whole (position editor.new) ≡ whole (position editor.old) }
    // What stands before and in this tree does so before and in the node, and nothing of it stands behind.
    ensures ahead { list_before (position editor.new).above ++ list (position editor.new).here ≡ list_before (position editor.old).above ++ list (position editor.old).here }
    ensures behind { list_after (position editor.new).above ≡ list_after (position editor.old).above }
    ensures tree { tree_at editor.new ≡ tree_at editor.old }
    ensures spares { spares_at editor.new ≡ spares_at editor.old }
{
    while editor.has_right() {
        editor.down_right();
    }
}
