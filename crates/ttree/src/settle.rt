//! What follows the loss of an item: a half-leaf takes in its leaf where both fit one node, and an empty leaf is freed.
//! No item is lost by it, and each freed node is a spare one.
ghost use Rattle.std.specs.Prelude.{◌≡◌, ◌≤◌, ◌^◌, true, false, length};
ghost use Rattle.ttree_node.specs.Tree.{list, whole, is_node, has_left, has_right, is_leaf, items_of};
ghost use Rattle.ttree_node.specs.Editor.{position, tree_at, spares_at};
ghost use Rattle.ttree_node.specs.Seen.{child, opposite};
ghost use Rattle.ttree.specs.Shape.{IsTTree};
ghost use Rattle.ttree.specs.Room.{nodes_at};
ghost use Rattle.ttree.specs.Removing.{HasLost, HasLostBelow};

use crate::balance::rebalance;
use crate::steps::child_len;
use ttree_node::{Editor, Side};

// Where the half-leaf and its leaf on that side hold `MAX` or fewer together, the half-leaf takes all
// items and the leaf is freed.
fn merge_child<const MIN: usize, const MAX: usize>(editor: &mut Editor<'_, MAX>, side: Side)
    requires some { 1 ≤ MIN }
    requires ordered { MIN ≤ MAX }
    requires two { 2 ≤ MAX }
    requires lost { HasLostBelow MIN MAX (position editor.old) }
    requires child { is_node (child side (position editor.old).here) ≡ true }
    requires other { is_node (child (opposite side) (position editor.old).here) ≡ false }
    requires tree { tree_at editor.old ≡ whole (position editor.old) }
    requires short { length (list (tree_at editor.old)) ≤ 2 ^ 32 }
    ensures same_reference { editor.new.nodes.ghost_name ≡ editor.old.nodes.ghost_name }
    ensures fit { IsTTree MIN MAX (tree_at editor.new) }
    ensures list { list (tree_at editor.new) ≡ list (tree_at editor.old) }
    ensures nodes { nodes_at editor.new ≡ nodes_at editor.old }
    ensures spares { spares_at editor.old ≤ spares_at editor.new }
{
    let free = MAX - editor.items().len();
    if child_len(editor, side) <= free {
        editor.merge(side);
        rebalance::<MIN, MAX>(editor);
    }
}

// Merges the node with its leaf if it is a half-leaf.
fn merge_half<const MIN: usize, const MAX: usize>(editor: &mut Editor<'_, MAX>)
    requires some { 1 ≤ MIN }
    requires ordered { MIN ≤ MAX }
    requires two { 2 ≤ MAX }
    requires lost { HasLostBelow MIN MAX (position editor.old) }
    requires tree { tree_at editor.old ≡ whole (position editor.old) }
    requires short { length (list (tree_at editor.old)) ≤ 2 ^ 32 }
    ensures same_reference { editor.new.nodes.ghost_name ≡ editor.old.nodes.ghost_name }
    ensures fit { IsTTree MIN MAX (tree_at editor.new) }
    ensures list { list (tree_at editor.new) ≡ list (tree_at editor.old) }
    ensures nodes { nodes_at editor.new ≡ nodes_at editor.old }
    ensures spares { spares_at editor.old ≤ spares_at editor.new }
{
    if !editor.has_right() {
        merge_child::<MIN, MAX>(editor, Side::Left);
    } else if !editor.has_left() {
        merge_child::<MIN, MAX>(editor, Side::Right);
    }
}

// Merges or frees what is to be merged or freed where the node lost an item, and balances the tree.
pub(crate) fn settle<const MIN: usize, const MAX: usize>(editor: &mut Editor<'_, MAX>)
    requires some { 1 ≤ MIN }
    requires ordered { MIN ≤ MAX }
    requires two { 2 ≤ MAX }
    requires lost { HasLost MIN MAX (position editor.old) }
    requires internal { has_left (position editor.old).here ≡ true → has_right (position editor.old).here ≡ true → MIN ≤ length (items_of (position editor.old).here) }
    requires tree { tree_at editor.old ≡ whole (position editor.old) }
    requires short { length (list (tree_at editor.old)) ≤ 2 ^ 32 }
    ensures same_reference { editor.new.nodes.ghost_name ≡ editor.old.nodes.ghost_name }
    ensures fit { IsTTree MIN MAX (tree_at editor.new) }
    ensures list { list (tree_at editor.new) ≡ list (tree_at editor.old) }
    ensures nodes { nodes_at editor.new ≡ nodes_at editor.old }
    ensures spares { spares_at editor.old ≤ spares_at editor.new }
{
    if editor.has_left() || editor.has_right() {
        merge_half::<MIN, MAX>(editor);
    } else if editor.items().is_empty() {
        free_leaf::<MIN, MAX>(editor);
    } else if !editor.at_root() {
        editor.up();
        merge_half::<MIN, MAX>(editor);
    }
}

// Frees the leaf, which holds no item any more, and balances the tree.
fn free_leaf<const MIN: usize, const MAX: usize>(editor: &mut Editor<'_, MAX>)
    requires some { 1 ≤ MIN }
    requires ordered { MIN ≤ MAX }
    requires two { 2 ≤ MAX }
    requires lost { HasLost MIN MAX (position editor.old) }
    requires leaf { is_leaf (position editor.old).here }
    requires no_items { length (items_of (position editor.old).here) ≡ 0 }
    requires tree { tree_at editor.old ≡ whole (position editor.old) }
    requires short { length (list (tree_at editor.old)) ≤ 2 ^ 32 }
    ensures same_reference { editor.new.nodes.ghost_name ≡ editor.old.nodes.ghost_name }
    ensures fit { IsTTree MIN MAX (tree_at editor.new) }
    ensures list { list (tree_at editor.new) ≡ list (tree_at editor.old) }
    ensures nodes { nodes_at editor.new ≡ nodes_at editor.old }
    ensures spares { spares_at editor.old ≤ spares_at editor.new }
{
    editor.drop_leaf();
    if editor.has_node() {
        rebalance::<MIN, MAX>(editor);
    }
}
