//! One node that is rotated. At A the child B is two higher than the other. Where B leans out, or to no side, it rises
//! above A (LL); where it leans in, its inner child C rises above both (LR). RR and RL are the mirror images.
//!
//! ```text
//!     LL:      A                 B           LR:     A                   C
//!            /   \             /   \               /   \               /   \
//!           B     z    ->     x     A             B     z    ->      B       A
//!          / \                     / \           / \                / \     / \
//!         x   y                   y   z         x   C              x   u   v   z
//!                                                  / \
//!                                                 u   v
//! ```
//!
//! The node that rises gets two children, and must hold `MIN` items. So items slide into it first where it holds fewer:
//! from its only child, or where it is a leaf (LR and RL alone) from B, its parent.
ghost use Rattle.std.specs.Prelude.{◌≡◌, ◌<◌, ◌≤◌, ◌↔◌, IsTrue, true, false};
ghost use Rattle.ttree_node.specs.Tree.{list, whole, is_node, has_left, has_right, height, stated, with_tree};
ghost use Rattle.ttree_node.specs.Editor.{position, tree_at, spares_at};
ghost use Rattle.ttree_node.specs.Seen.{child, opposite};
ghost use Rattle.ttree.specs.Shape.{IsTTree, greatest_height};
ghost use Rattle.ttree.specs.Rising.{IsFilled, IsInnerFilled, Leans, IsMendedTo, with_child, outer_turned, inner_raised, inner_turned, all_restated};
ghost use Rattle.ttree.specs.Fullness.{IsGrown, IsGrowing};

use crate::steps::{child_len, enter, fill, raise, restate, restate_child};
use ttree_node::{Editor, Side, Way};

// Fills the node that is to rise from its only child, where it holds fewer than `MIN`.
fn fill_riser<const MIN: usize, const MAX: usize>(editor: &mut Editor<'_, MAX>)
    requires ordered { MIN ≤ MAX }
    requires fit { IsTTree MIN MAX (position editor.old).here }
    requires tree { tree_at editor.old ≡ whole (position editor.old) }
    ensures same_reference { editor.new.nodes.ghost_name ≡ editor.old.nodes.ghost_name }
    ensures above { (position editor.new).above ≡ (position editor.old).above }
    ensures filled { IsFilled MIN MAX (position editor.old).here (position editor.new).here }
    ensures tree { tree_at editor.new ≡ whole (position editor.new) }
    ensures list { list (tree_at editor.new) ≡ list (tree_at editor.old) }
    ensures spares { spares_at editor.new ≡ spares_at editor.old }
{
    if editor.items().len() < MIN {
        match (editor.has_left(), editor.has_right()) {
            (true, false) => fill(editor, Side::Left, Way::Up),
            (false, true) => fill(editor, Side::Right, Way::Up),
            _ => {}
        }
    }
}

// Fills the child on that side, which is to rise, from its own only child.
fn fill_below<const MIN: usize, const MAX: usize>(editor: &mut Editor<'_, MAX>, side: Side)
    requires ordered { MIN ≤ MAX }
    requires child { is_node (child side (position editor.old).here) ≡ true }
    requires fit { IsTTree MIN MAX (child side (position editor.old).here) }
    requires tree { tree_at editor.old ≡ whole (position editor.old) }
    ensures same_reference { editor.new.nodes.ghost_name ≡ editor.old.nodes.ghost_name }
    ensures above { (position editor.new).above ≡ (position editor.old).above }
    ensures rest { (position editor.new).here ≡ with_child side (child side (position editor.new).here) (position editor.old).here }
    ensures filled { IsFilled MIN MAX (child side (position editor.old).here) (child side (position editor.new).here) }
    ensures tree { tree_at editor.new ≡ whole (position editor.new) }
    ensures list { list (tree_at editor.new) ≡ list (tree_at editor.old) }
    ensures spares { spares_at editor.new ≡ spares_at editor.old }
{
    enter(editor, side);
    fill_riser::<MIN, MAX>(editor);
    editor.up();
}

// Whether the child on that side is a leaf.
fn has_leaf<const MAX: usize>(editor: &mut Editor<'_, MAX>, side: Side) -> bool
    requires child { is_node (child side (position editor.old).here) ≡ true }
    requires tree { tree_at editor.old ≡ whole (position editor.old) }
    ensures same_reference { editor.new.nodes.ghost_name ≡ editor.old.nodes.ghost_name }
    ensures leaf { IsTrue result ↔ ((has_left (child side (position editor.old).here) ≡ false) × (has_right (child side (position editor.old).here) ≡ false)) }
    ensures same_place { position editor.new ≡ position editor.old }
    ensures tree { tree_at editor.new ≡ tree_at editor.old }
    ensures spares { spares_at editor.new ≡ spares_at editor.old }
{
    enter(editor, side);
    let is_leaf = !editor.has_left() && !editor.has_right();
    editor.up();
    is_leaf
}

// Fills the child on that side, the inner one of a node that is about to be rotated, where it holds
// fewer than `MIN`: a leaf from the node, a half-leaf from its own child.
fn fill_inner<const MIN: usize, const MAX: usize>(editor: &mut Editor<'_, MAX>, side: Side)
    requires ordered { MIN ≤ MAX }
    requires fit { IsTTree MIN MAX (position editor.old).here }
    requires high { height (child (opposite side) (position editor.old).here) < height (child side (position editor.old).here) }
    requires tree { tree_at editor.old ≡ whole (position editor.old) }
    ensures same_reference { editor.new.nodes.ghost_name ≡ editor.old.nodes.ghost_name }
    ensures above { (position editor.new).above ≡ (position editor.old).above }
    ensures filled { IsInnerFilled side MIN MAX (position editor.old).here (position editor.new).here }
    ensures tree { tree_at editor.new ≡ whole (position editor.new) }
    ensures list { list (tree_at editor.new) ≡ list (tree_at editor.old) }
    ensures spares { spares_at editor.new ≡ spares_at editor.old }
{
    if !has_leaf(editor, side) {
        fill_below::<MIN, MAX>(editor, side);
    } else if child_len(editor, side) < MIN {
        fill(editor, side, Way::Down);
    }
}

// The same below the child on that side, whose inner child is on its other side.
fn fill_inner_below<const MIN: usize, const MAX: usize>(editor: &mut Editor<'_, MAX>, side: Side)
    requires ordered { MIN ≤ MAX }
    requires child { is_node (child side (position editor.old).here) ≡ true }
    requires fit { IsTTree MIN MAX (child side (position editor.old).here) }
    requires high { height (child side (child side (position editor.old).here)) < height (child (opposite side) (child side (position editor.old).here)) }
    requires tree { tree_at editor.old ≡ whole (position editor.old) }
    ensures same_reference { editor.new.nodes.ghost_name ≡ editor.old.nodes.ghost_name }
    ensures above { (position editor.new).above ≡ (position editor.old).above }
    ensures rest { (position editor.new).here ≡ with_child side (child side (position editor.new).here) (position editor.old).here }
    ensures filled { IsInnerFilled (opposite side) MIN MAX (child side (position editor.old).here) (child side (position editor.new).here) }
    ensures tree { tree_at editor.new ≡ whole (position editor.new) }
    ensures list { list (tree_at editor.new) ≡ list (tree_at editor.old) }
    ensures spares { spares_at editor.new ≡ spares_at editor.old }
{
    enter(editor, side);
    fill_inner::<MIN, MAX>(editor, side.opposite());
    editor.up();
}

// Whether the child on that side leans no less to that side than to the other, by the stated heights.
fn leans_out<const MAX: usize>(editor: &mut Editor<'_, MAX>, side: Side) -> bool
    requires child { is_node (child side (position editor.old).here) ≡ true }
    requires tree { tree_at editor.old ≡ whole (position editor.old) }
    ensures same_reference { editor.new.nodes.ghost_name ≡ editor.old.nodes.ghost_name }
    ensures leans { IsTrue result ↔ (stated (child (opposite side) (child side (position editor.old).here)) ≤ stated (child side (child side (position editor.old).here))) }
    ensures same_place { position editor.new ≡ position editor.old }
    ensures tree { tree_at editor.new ≡ tree_at editor.old }
    ensures spares { spares_at editor.new ≡ spares_at editor.old }
{
    enter(editor, side);
    let (left, right) = editor.heights();
    editor.up();
    match side {
        Side::Right => left <= right,
        _ => right <= left,
    }
}

// The child on that side rises above the node.
fn turn_outer<const MAX: usize>(editor: &mut Editor<'_, MAX>, side: Side)
    requires child { is_node (child side (position editor.old).here) ≡ true }
    requires tree { tree_at editor.old ≡ whole (position editor.old) }
    ensures same_reference { editor.new.nodes.ghost_name ≡ editor.old.nodes.ghost_name }
    ensures turned { position editor.new ≡ with_tree (outer_turned side) (position editor.old) }
    ensures tree { tree_at editor.new ≡ whole (position editor.new) }
    ensures list { list (tree_at editor.new) ≡ list (tree_at editor.old) }
    ensures spares { spares_at editor.new ≡ spares_at editor.old }
{
    raise(editor, side);
    restate_child(editor, side.opposite());
    restate(editor);
}

// The inner child of the child on that side takes that child's place.
fn raise_inner<const MAX: usize>(editor: &mut Editor<'_, MAX>, side: Side)
    requires child { is_node (child side (position editor.old).here) ≡ true }
    requires inner { is_node (child (opposite side) (child side (position editor.old).here)) ≡ true }
    requires tree { tree_at editor.old ≡ whole (position editor.old) }
    ensures same_reference { editor.new.nodes.ghost_name ≡ editor.old.nodes.ghost_name }
    ensures turned { position editor.new ≡ with_tree (inner_raised side) (position editor.old) }
    ensures tree { tree_at editor.new ≡ whole (position editor.new) }
    ensures list { list (tree_at editor.new) ≡ list (tree_at editor.old) }
    ensures spares { spares_at editor.new ≡ spares_at editor.old }
{
    enter(editor, side);
    raise(editor, side.opposite());
    editor.up();
}

// States the heights of both children and of the node anew.
fn restate_all<const MAX: usize>(editor: &mut Editor<'_, MAX>)
    requires left { has_left (position editor.old).here ≡ true }
    requires right { has_right (position editor.old).here ≡ true }
    requires tree { tree_at editor.old ≡ whole (position editor.old) }
    ensures same_reference { editor.new.nodes.ghost_name ≡ editor.old.nodes.ghost_name }
    ensures height { position editor.new ≡ with_tree all_restated (position editor.old) }
    ensures tree { tree_at editor.new ≡ whole (position editor.new) }
    ensures list { list (tree_at editor.new) ≡ list (tree_at editor.old) }
    ensures spares { spares_at editor.new ≡ spares_at editor.old }
{
    restate_child(editor, Side::Left);
    restate_child(editor, Side::Right);
    restate(editor);
}

// The inner child of the child on that side rises above both.
fn turn_inner<const MAX: usize>(editor: &mut Editor<'_, MAX>, side: Side)
    requires child { is_node (child side (position editor.old).here) ≡ true }
    requires inner { is_node (child (opposite side) (child side (position editor.old).here)) ≡ true }
    requires tree { tree_at editor.old ≡ whole (position editor.old) }
    ensures same_reference { editor.new.nodes.ghost_name ≡ editor.old.nodes.ghost_name }
    ensures turned { position editor.new ≡ with_tree (inner_turned side) (position editor.old) }
    ensures tree { tree_at editor.new ≡ whole (position editor.new) }
    ensures list { list (tree_at editor.new) ≡ list (tree_at editor.old) }
    ensures spares { spares_at editor.new ≡ spares_at editor.old }
{
    raise_inner(editor, side);
    raise(editor, side);
    restate_all(editor);
}

// Rotates the node, whose child on that side is too high, and sets the heights of the nodes that changed.
pub(crate) fn rotate<const MIN: usize, const MAX: usize>(editor: &mut Editor<'_, MAX>, side: Side)
    requires ordered { MIN ≤ MAX }
    requires leans { Leans side MIN MAX (position editor.old).here }
    requires low { height (position editor.old).here < greatest_height }
    requires tree { tree_at editor.old ≡ whole (position editor.old) }
    ensures same_reference { editor.new.nodes.ghost_name ≡ editor.old.nodes.ghost_name }
    ensures above { (position editor.new).above ≡ (position editor.old).above }
    ensures mended { IsMendedTo MIN MAX (position editor.old).here (position editor.new).here }
    ensures full { 2 ≤ MIN → IsGrowing MAX (position editor.old).here → IsGrown MAX (position editor.new).here }
    ensures tree { tree_at editor.new ≡ whole (position editor.new) }
    ensures list { list (tree_at editor.new) ≡ list (tree_at editor.old) }
    ensures spares { spares_at editor.new ≡ spares_at editor.old }
{
    if leans_out(editor, side) {
        fill_below::<MIN, MAX>(editor, side);
        turn_outer(editor, side);
    } else {
        fill_inner_below::<MIN, MAX>(editor, side);
        turn_inner(editor, side);
    }
}
