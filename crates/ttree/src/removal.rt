//! The steps of a removal: the item goes out, and where an internal node then holds too few, the greatest item of its left
//! subtree comes up. What is left to do is at the node that lost an item last.
ghost use Rattle.std.specs.Prelude.{◌≡◌, ◌+◌, ◌<◌, ◌≤◌, ◌^◌, ◌++◌, ◌∷◌, [], true, false, length, remove as removed, All, Contains};
ghost use Rattle.mm_index.specs.Order.{IsRising, remove_by};
ghost use Rattle.ttree_node.specs.Tree.{list, size, height, whole, is_node, has_left, has_right, left_of, items_of, down_left, with_items, with_tree};
ghost use Rattle.ttree_node.specs.Editor.{position, tree_at, spares_at};
ghost use Rattle.ttree.specs.Shape.{IsTTree, binary_digits};
ghost use Rattle.ttree.specs.Room.{nodes_of, nodes_at};
ghost use Rattle.ttree_node.specs.Seen.{tree_of, spares_of, shown};
ghost use Rattle.ttree.specs.Removing.{HasLost, rightmost, without_greatest, without_left_greatest};

use crate::search::locate_to_edit;
use crate::settle::settle;
use mm_index::{OrderProbe, TupleOrder};
use part_raw::TupleRef;
use ttree_node::{Editor, LinkedNodes};

// Takes the last item out of the rightmost node of the tree that is here.
fn take_greatest<const MIN: usize, const MAX: usize>(editor: &mut Editor<'_, MAX>) -> TupleRef
    requires node { is_node (position editor.old).here ≡ true }
    requires fit { IsTTree MIN MAX (position editor.old).here }
    requires tree { tree_at editor.old ≡ whole (position editor.old) }
    ensures same_reference { editor.new.nodes.ghost_name ≡ editor.old.nodes.ghost_name }
    ensures taken { position editor.new ≡ with_tree without_greatest (position editor.old) }
    ensures greatest { list (position editor.new).here ++ result ∷ [] ≡ list (position editor.old).here }
    ensures tree { tree_at editor.new ≡ whole (position editor.new) }
    ensures spares { spares_at editor.new ≡ spares_at editor.old }
{
    if editor.has_right() {
        editor.down_right();
        let greatest = take_greatest::<MIN, MAX>(editor);
        editor.up();
        greatest
    } else {
        let last = editor.items().len() - 1;
        editor.cut(last)
    }
}

// Goes to the rightmost node of the tree that is here.
fn to_greatest<const MAX: usize>(editor: &mut Editor<'_, MAX>)
    requires node { is_node (position editor.old).here ≡ true }
    ensures same_reference { editor.new.nodes.ghost_name ≡ editor.old.nodes.ghost_name }
    ensures moved { position editor.new ≡ rightmost (position editor.old) }
    ensures tree { tree_at editor.new ≡ tree_at editor.old }
    ensures spares { spares_at editor.new ≡ spares_at editor.old }
{
    while editor.has_right() {
        editor.down_right();
    }
}

// Takes the greatest item out of the left subtree.
fn take_from_left<const MIN: usize, const MAX: usize>(editor: &mut Editor<'_, MAX>) -> TupleRef
    requires left { has_left (position editor.old).here ≡ true }
    requires fit { IsTTree MIN MAX (left_of (position editor.old).here) }
    requires tree { tree_at editor.old ≡ whole (position editor.old) }
    ensures same_reference { editor.new.nodes.ghost_name ≡ editor.old.nodes.ghost_name }
    ensures taken { position editor.new ≡ with_tree without_left_greatest (position editor.old) }
    ensures greatest { list (without_greatest (left_of (position editor.old).here)) ++ result ∷ [] ≡ list (left_of (position editor.old).here) }
    ensures tree { tree_at editor.new ≡ whole (position editor.new) }
    ensures spares { spares_at editor.new ≡ spares_at editor.old }
{
    editor.down_left();
    let greatest = take_greatest::<MIN, MAX>(editor);
    editor.up();
    greatest
}

// Goes to the rightmost node of the left subtree.
fn to_left_greatest<const MAX: usize>(editor: &mut Editor<'_, MAX>)
    requires left { has_left (position editor.old).here ≡ true }
    ensures same_reference { editor.new.nodes.ghost_name ≡ editor.old.nodes.ghost_name }
    ensures moved { position editor.new ≡ rightmost (down_left (position editor.old)) }
    ensures tree { tree_at editor.new ≡ tree_at editor.old }
    ensures spares { spares_at editor.new ≡ spares_at editor.old }
{
    editor.down_left();
    to_greatest(editor);
}

// Moves the greatest item of the left subtree to the front of the node, and goes to the node that held it.
fn borrow_greatest<const MIN: usize, const MAX: usize>(editor: &mut Editor<'_, MAX>)
    requires ordered { MIN ≤ MAX }
    requires lost { HasLost MIN MAX (position editor.old) }
    requires left { has_left (position editor.old).here ≡ true }
    requires few { length (items_of (position editor.old).here) < MIN }
    requires tree { tree_at editor.old ≡ whole (position editor.old) }
    ensures same_reference { editor.new.nodes.ghost_name ≡ editor.old.nodes.ghost_name }
    ensures lost { HasLost MIN MAX (position editor.new) }
    ensures open { has_right (position editor.new).here ≡ false }
    ensures tree { tree_at editor.new ≡ whole (position editor.new) }
    ensures list { list (tree_at editor.new) ≡ list (tree_at editor.old) }
    ensures size { size (tree_at editor.new) ≡ size (tree_at editor.old) }
    ensures spares { spares_at editor.new ≡ spares_at editor.old }
{
    let greatest = take_from_left::<MIN, MAX>(editor);
    editor.put(0, greatest);
    to_left_greatest(editor);
}

// Brings the shape of the tree back after the node lost an item.
fn recover<const MIN: usize, const MAX: usize>(editor: &mut Editor<'_, MAX>)
    requires some { 1 ≤ MIN }
    requires ordered { MIN ≤ MAX }
    requires two { 2 ≤ MAX }
    requires lost { HasLost MIN MAX (position editor.old) }
    requires tree { tree_at editor.old ≡ whole (position editor.old) }
    requires short { length (list (tree_at editor.old)) ≤ 2 ^ 32 }
    ensures same_reference { editor.new.nodes.ghost_name ≡ editor.old.nodes.ghost_name }
    ensures fit { IsTTree MIN MAX (tree_at editor.new) }
    ensures list { list (tree_at editor.new) ≡ list (tree_at editor.old) }
    ensures nodes { nodes_at editor.new ≡ nodes_at editor.old }
    ensures spares { spares_at editor.old ≤ spares_at editor.new }
{
    if editor.has_left() && editor.has_right() {
        if editor.items().len() < MIN {
            borrow_greatest::<MIN, MAX>(editor);
            settle::<MIN, MAX>(editor);
        }
    } else {
        settle::<MIN, MAX>(editor);
    }
}

// Takes the item at `index` out of the node.
pub(crate) fn take_out<const MIN: usize, const MAX: usize>(
    editor: &mut Editor<'_, MAX>,
    index: usize,
)
    requires some { 1 ≤ MIN }
    requires ordered { MIN ≤ MAX }
    requires two { 2 ≤ MAX }
    requires index { index < length (items_of (position editor.old).here) }
    requires fit { IsTTree MIN MAX (tree_at editor.old) }
    requires tree { tree_at editor.old ≡ whole (position editor.old) }
    requires short { length (list (tree_at editor.old)) ≤ 2 ^ 32 }
    ensures same_reference { editor.new.nodes.ghost_name ≡ editor.old.nodes.ghost_name }
    ensures fit { IsTTree MIN MAX (tree_at editor.new) }
    ensures list { list (tree_at editor.new) ≡ list (whole (with_items (removed (items_of (position editor.old).here) index) (position editor.old))) }
    ensures nodes { nodes_at editor.new ≡ nodes_at editor.old }
    ensures spares { spares_at editor.old ≤ spares_at editor.new }
{
    editor.cut(index);
    recover::<MIN, MAX>(editor);
}

// Takes the reference that the probe seeks out of the tree. Among the items of its node it is found by itself.
pub(crate) fn remove<O: TupleOrder, const MIN: usize, const MAX: usize>(
    nodes: &mut LinkedNodes<MAX>,
    probe: &mut OrderProbe<'_, O>,
)
    requires some { 1 ≤ MIN }
    requires ordered { MIN ≤ MAX }
    requires two { 2 ≤ MAX }
    requires fit { IsTTree MIN MAX (tree_of nodes.old) }
    requires short { length (list (tree_of nodes.old)) ≤ 2 ^ 32 }
    requires held { Contains (list (tree_of nodes.old)) probe.old.sought }
    requires sound { O.is_sound probe.old.order.now }
    requires covered { All (O.covers probe.old.order.now) (list (tree_of nodes.old)) }
    requires rising { IsRising (O.cmp probe.old.order.now) (list (tree_of nodes.old)) }
    ensures fit { IsTTree MIN MAX (tree_of nodes.new) }
    ensures list { list (tree_of nodes.new) ≡ remove_by (O.cmp probe.old.order.now) probe.old.sought (list (tree_of nodes.old)) }
    ensures one { length (list (tree_of nodes.new)) + 1 ≡ length (list (tree_of nodes.old)) }
    ensures nodes { nodes_of (shown nodes.new) ≡ nodes_of (shown nodes.old) }
    ensures spares { spares_of nodes.old ≤ spares_of nodes.new }
    ensures most_asked { probe.new.asked ≤ probe.old.asked + (height (tree_of nodes.old) + binary_digits MAX) }
{
    let mut editor = nodes.edit();
    let sought = probe.sought();
    match locate_to_edit(&mut editor, probe, Some(sought)) {
        Ok(index) => take_out::<MIN, MAX>(&mut editor, index),
        Err(_) => unreachable!(),
    }
}
