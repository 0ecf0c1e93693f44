//! A tree that is copied node by node, from the root down: each node is filled at once, and states its height when its sides are
//! copied. Nothing is asked about the references.
ghost use Rattle.std.specs.Prelude.{◌≡◌, ◌+◌, ◌≤◌, true, false, IfSome, IfNone};
ghost use Rattle.ttree_node.specs.Tree.{empty, whole, size, height, is_node, with_tree};
ghost use Rattle.ttree_node.specs.Seen.{tree_of, spares_of, child, hangs_on_node};
ghost use Rattle.ttree_node.specs.Look.{position};
ghost use Rattle.ttree_node.specs.Editor.{position as edited, tree_at, spares_at};
ghost use Rattle.ttree.specs.Shape.{HasTrueHeights, HasItemsInEach, greatest_height};
ghost use Rattle.ttree.specs.Rising.{with_child};

use crate::build::hang_leaf;
use ttree_node::{Editor, LinkedNodes, Look, Side};

// Makes the empty tree a copy of the one that is looked at.
pub(crate) fn copy<const MAX: usize>(nodes: &mut LinkedNodes<MAX>, from: &Look<'_, MAX>)
    requires empty { tree_of nodes.old ≡ empty }
    requires true_heights { HasTrueHeights (position from.now).here }
    requires items { HasItemsInEach MAX (position from.now).here }
    requires low { height (position from.now).here ≤ greatest_height }
    requires spare { size (position from.now).here ≤ spares_of nodes.old }
    ensures copied { tree_of nodes.new ≡ (position from.now).here }
    ensures spares { spares_of nodes.new + size (position from.now).here ≡ spares_of nodes.old }
{
    if !from.has_node() {
        return;
    }
    let mut editor = nodes.edit();
    hang_leaf(&mut editor, Side::Root, from.items());
    copy_child(&mut editor, Side::Left, from);
    copy_child(&mut editor, Side::Right, from);
    editor.reheight();
}

// Hangs a copy of what hangs on that side of the other tree's node on that open side of this one, and stays at the node.
fn copy_child<const MAX: usize>(editor: &mut Editor<'_, MAX>, side: Side, from: &Look<'_, MAX>)
    requires node { is_node (edited editor.old).here ≡ true }
    requires side { hangs_on_node side ≡ true }
    requires open { is_node (child side (edited editor.old).here) ≡ false }
    requires tree { tree_at editor.old ≡ whole (edited editor.old) }
    requires true_heights { HasTrueHeights (child side (position from.now).here) }
    requires items { HasItemsInEach MAX (child side (position from.now).here) }
    requires low { height (child side (position from.now).here) ≤ greatest_height }
    requires spare { size (child side (position from.now).here) ≤ spares_at editor.old }
    ensures same_reference { editor.new.nodes.ghost_name ≡ editor.old.nodes.ghost_name }
    ensures copied { edited editor.new ≡ with_tree (with_child side (child side (position from.now).here)) (edited editor.old) }
    ensures tree { tree_at editor.new ≡ whole (edited editor.new) }
    ensures spares { spares_at editor.new + size (child side (position from.now).here) ≡ spares_at editor.old }
{
    let Some(below) = child_of(from, side) else {
        return;
    };
    hang_leaf(editor, side, below.items());
    copy_child(editor, Side::Left, &below);
    copy_child(editor, Side::Right, &below);
    editor.reheight();
    editor.up();
}

// The child on that side, if one is there.
fn child_of<'a, const MAX: usize>(parent: &Look<'a, MAX>, side: Side) -> Option<Look<'a, MAX>>
    ensures some { IfSome result (λ below. is_node (position below).here ≡ true) }
    ensures here { IfSome result (λ below. (position below).here ≡ child side (position parent.now).here) }
    ensures none { IfNone result (is_node (child side (position parent.now).here) ≡ false) }
{
    match side {
        Side::Left if parent.has_left() => {
            let mut below = *parent;
            below.down_left();
            Some(below)
        }
        Side::Right if parent.has_right() => {
            let mut below = *parent;
            below.down_right();
            Some(below)
        }
        _ => None,
    }
}
