//! A tree that is built from below, of references that are in order already: no search, and each node is filled at once.
//! A node takes what is in the middle, and the halves on its two sides are trees that are built alike.
ghost use Rattle.std.specs.Prelude.{◌≡◌, ◌+◌, ◌^◌, ◌<◌, ◌≤◌, true, false, length};
ghost use Rattle.std.specs.Int.{div_ceil};
ghost use Rattle.ttree_node.specs.Tree.{at, empty, node, whole, is_node, items_of, left_of, right_of};
ghost use Rattle.ttree_node.specs.Seen.{tree_of, spares_of, child, opposite, on_side, hangs_on_node};
ghost use Rattle.ttree_node.specs.Editor.{position, tree_at, spares_at};
ghost use Rattle.ttree.specs.Packing.{HoldsPacked, IsMiddle};
ghost use Rattle.ttree.specs.Rising.{with_child};

use part_raw::TupleRef;
use ttree_node::{Editor, LinkedNodes, Side};

// Makes the empty tree one of these references.
pub(crate) fn build<const MIN: usize, const MAX: usize>(
    nodes: &mut LinkedNodes<MAX>,
    refs: &[TupleRef],
)
    requires ordered { MIN ≤ MAX }
    requires two { 2 ≤ MAX }
    requires empty { tree_of nodes.old ≡ empty }
    requires short { length refs.now ≤ 2 ^ 32 }
    requires spare { div_ceil (length refs.now) MAX ≤ spares_of nodes.old }
    ensures built { HoldsPacked MIN MAX refs.now (tree_of nodes.new) }
    ensures spares { spares_of nodes.new + div_ceil (length refs.now) MAX ≡ spares_of nodes.old }
{
    if refs.is_empty() {
        return;
    }
    let mut editor = nodes.edit();
    let (left, right) = hang_middle(&mut editor, Side::Root, refs);
    build_child::<MIN, MAX>(&mut editor, Side::Left, left);
    build_child::<MIN, MAX>(&mut editor, Side::Right, right);
    editor.reheight();
}

// What the root of a tree of these references takes, with what goes to its left and to its right.
fn around_middle<const MAX: usize>(refs: &[TupleRef]) -> (&[TupleRef], &[TupleRef], &[TupleRef])
    requires some { 0 < length refs.now }
    requires two { 2 ≤ MAX }
    ensures { IsMiddle MAX refs.now result.0.now result.1.now result.2.now }
{
    let nodes = refs.len().div_ceil(MAX);
    let (left, rest) = refs.split_at((nodes - 1) / 2 * MAX);
    let (own, right) = rest.split_at(MAX.min(rest.len()));
    (left, own, right)
}

// Hangs a leaf with these references on an open side of the place, or makes it the root, and goes there.
pub(crate) fn hang_leaf<const MAX: usize>(
    editor: &mut Editor<'_, MAX>,
    side: Side,
    refs: &[TupleRef],
)
    requires fits { is_node (position editor.old).here ≡ hangs_on_node side }
    requires open { is_node (child side (position editor.old).here) ≡ false }
    requires some { 0 < length refs.now }
    requires room { length refs.now ≤ MAX }
    requires spare { 0 < spares_at editor.old }
    ensures same_reference { editor.new.nodes.ghost_name ≡ editor.old.nodes.ghost_name }
    ensures leaf { position editor.new ≡ at (on_side side (position editor.old)).above (node empty (record { items = refs.now; height = 1 }) empty) }
    ensures tree { tree_at editor.new ≡ whole (position editor.new) }
    ensures spares { spares_at editor.new + 1 ≡ spares_at editor.old }
{
    editor.new_leaf(side, refs[0]);
    editor.put_behind(&refs[1..]);
}

// Hangs a leaf with the middle of these references on an open side of the place, or makes it the root, and goes there.
// It answers what is to go to the leaf's left and to its right.
fn hang_middle<'a, const MAX: usize>(
    editor: &mut Editor<'_, MAX>,
    side: Side,
    refs: &'a [TupleRef],
) -> (&'a [TupleRef], &'a [TupleRef])
    requires two { 2 ≤ MAX }
    requires fits { is_node (position editor.old).here ≡ hangs_on_node side }
    requires open { is_node (child side (position editor.old).here) ≡ false }
    requires some { 0 < length refs.now }
    requires spare { div_ceil (length refs.now) MAX ≤ spares_at editor.old }
    ensures same_reference { editor.new.nodes.ghost_name ≡ editor.old.nodes.ghost_name }
    ensures middle { IsMiddle MAX refs.now result.0.now (items_of (position editor.new).here) result.1.now }
    ensures leaf { position editor.new ≡ at (on_side side (position editor.old)).above (node empty (record { items = items_of (position editor.new).here; height = 1 }) empty) }
    ensures node { is_node (position editor.new).here ≡ true }
    ensures left_open { is_node (left_of (position editor.new).here) ≡ false }
    ensures right_open { is_node (right_of (position editor.new).here) ≡ false }
    ensures left_shorter { length result.0.now < length refs.now }
    ensures right_shorter { length result.1.now < length refs.now }
    ensures tree { tree_at editor.new ≡ whole (position editor.new) }
    // A spare node is there for each that is still to be made.
    ensures spares { spares_at editor.new + 1 ≡ spares_at editor.old }
    ensures enough { div_ceil (length result.0.now) MAX + div_ceil (length result.1.now) MAX ≤ spares_at editor.new }
{
    let (left, own, right) = around_middle::<MAX>(refs);
    hang_leaf(editor, side, own);
    (left, right)
}

// Hangs a tree of these references on an open side of the node, and stays at the node.
fn build_child<const MIN: usize, const MAX: usize>(
    editor: &mut Editor<'_, MAX>,
    side: Side,
    refs: &[TupleRef],
)
    requires ordered { MIN ≤ MAX }
    requires two { 2 ≤ MAX }
    requires node { is_node (position editor.old).here ≡ true }
    requires side { hangs_on_node side ≡ true }
    requires open { is_node (child side (position editor.old).here) ≡ false }
    requires tree { tree_at editor.old ≡ whole (position editor.old) }
    requires short { length refs.now ≤ 2 ^ 32 }
    requires spare { div_ceil (length refs.now) MAX ≤ spares_at editor.old }
    ensures same_reference { editor.new.nodes.ghost_name ≡ editor.old.nodes.ghost_name }
    ensures above { (position editor.new).above ≡ (position editor.old).above }
    ensures rest { (position editor.new).here ≡ with_child side (child side (position editor.new).here) (position editor.old).here }
    ensures built { HoldsPacked MIN MAX refs.now (child side (position editor.new).here) }
    ensures tree { tree_at editor.new ≡ whole (position editor.new) }
    ensures node { is_node (position editor.new).here ≡ true }
    ensures other { is_node (child (opposite side) (position editor.new).here) ≡ is_node (child (opposite side) (position editor.old).here) }
    ensures spares { spares_at editor.new + div_ceil (length refs.now) MAX ≡ spares_at editor.old }
{
    if refs.is_empty() {
        return;
    }
    let (left, right) = hang_middle(editor, side, refs);
    build_child::<MIN, MAX>(editor, Side::Left, left);
    build_child::<MIN, MAX>(editor, Side::Right, right);
    editor.reheight();
    editor.up();
}
