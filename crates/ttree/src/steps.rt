//! Small steps of an editor that are the same on either side of a node, with the side as an argument.
ghost use Rattle.std.specs.Prelude.{◌≡◌, ◌<◌, ◌≤◌, true, false, length};
ghost use Rattle.ttree_node.specs.Tree.{list, whole, is_node, items_of, with_tree};
ghost use Rattle.ttree_node.specs.Editor.{position, tree_at, spares_at};
ghost use Rattle.ttree_node.specs.Seen.{child, opposite, on_side, raised, giver, taker};
ghost use Rattle.ttree.specs.Rising.{restated, restated_child, filled};

use ttree_node::{Editor, Side, Way};

// Goes down to the child on that side.
pub(crate) fn enter<const MAX: usize>(editor: &mut Editor<'_, MAX>, side: Side)
    requires child { is_node (child side (position editor.old).here) ≡ true }
    ensures same_reference { editor.new.nodes.ghost_name ≡ editor.old.nodes.ghost_name }
    ensures moved { position editor.new ≡ on_side side (position editor.old) }
    ensures tree { tree_at editor.new ≡ tree_at editor.old }
    ensures spares { spares_at editor.new ≡ spares_at editor.old }
{
    match side {
        Side::Root => unreachable!(),
        Side::Left => editor.down_left(),
        Side::Right => editor.down_right(),
    }
}

// The child on that side takes the node's place.
pub(crate) fn raise<const MAX: usize>(editor: &mut Editor<'_, MAX>, side: Side)
    requires child { is_node (child side (position editor.old).here) ≡ true }
    requires tree { tree_at editor.old ≡ whole (position editor.old) }
    ensures same_reference { editor.new.nodes.ghost_name ≡ editor.old.nodes.ghost_name }
    ensures turned { position editor.new ≡ with_tree (raised side) (position editor.old) }
    ensures tree { tree_at editor.new ≡ whole (position editor.new) }
    ensures list { list (tree_at editor.new) ≡ list (tree_at editor.old) }
    ensures spares { spares_at editor.new ≡ spares_at editor.old }
{
    editor.raise(side);
}

// States the node's height anew.
pub(crate) fn restate<const MAX: usize>(editor: &mut Editor<'_, MAX>)
    requires node { is_node (position editor.old).here ≡ true }
    requires tree { tree_at editor.old ≡ whole (position editor.old) }
    ensures same_reference { editor.new.nodes.ghost_name ≡ editor.old.nodes.ghost_name }
    ensures height { position editor.new ≡ with_tree restated (position editor.old) }
    ensures tree { tree_at editor.new ≡ whole (position editor.new) }
    ensures list { list (tree_at editor.new) ≡ list (tree_at editor.old) }
    ensures spares { spares_at editor.new ≡ spares_at editor.old }
{
    editor.reheight();
}

// States the height of the child on that side anew.
pub(crate) fn restate_child<const MAX: usize>(editor: &mut Editor<'_, MAX>, side: Side)
    requires child { is_node (child side (position editor.old).here) ≡ true }
    requires tree { tree_at editor.old ≡ whole (position editor.old) }
    ensures same_reference { editor.new.nodes.ghost_name ≡ editor.old.nodes.ghost_name }
    ensures height { position editor.new ≡ with_tree (restated_child side) (position editor.old) }
    ensures tree { tree_at editor.new ≡ whole (position editor.new) }
    ensures list { list (tree_at editor.new) ≡ list (tree_at editor.old) }
    ensures spares { spares_at editor.new ≡ spares_at editor.old }
{
    enter(editor, side);
    restate(editor);
    editor.up();
}

// How many items the child on that side holds.
pub(crate) fn child_len<const MAX: usize>(editor: &mut Editor<'_, MAX>, side: Side) -> usize
    requires child { is_node (child side (position editor.old).here) ≡ true }
    requires tree { tree_at editor.old ≡ whole (position editor.old) }
    ensures same_reference { editor.new.nodes.ghost_name ≡ editor.old.nodes.ghost_name }
    ensures len { result ≡ length (items_of (child side (position editor.old).here)) }
    ensures same_place { position editor.new ≡ position editor.old }
    ensures tree { tree_at editor.new ≡ tree_at editor.old }
    ensures spares { spares_at editor.new ≡ spares_at editor.old }
{
    enter(editor, side);
    let len = editor.items().len();
    editor.up();
    len
}

// Moves items that way between the node and its child on that side, nearest first, until the one that takes them is full or the other holds one.
pub(crate) fn fill<const MAX: usize>(editor: &mut Editor<'_, MAX>, side: Side, way: Way)
    requires child { is_node (child side (position editor.old).here) ≡ true }
    requires open { is_node (child (opposite side) (child side (position editor.old).here)) ≡ false }
    requires some { 0 < length (items_of (giver way side (position editor.old).here)) }
    requires room { length (items_of (taker way side (position editor.old).here)) ≤ MAX }
    requires tree { tree_at editor.old ≡ whole (position editor.old) }
    ensures same_reference { editor.new.nodes.ghost_name ≡ editor.old.nodes.ghost_name }
    ensures filled { position editor.new ≡ with_tree (filled MAX side way) (position editor.old) }
    ensures tree { tree_at editor.new ≡ whole (position editor.new) }
    ensures list { list (tree_at editor.new) ≡ list (tree_at editor.old) }
    ensures spares { spares_at editor.new ≡ spares_at editor.old }
{
    let own = editor.items().len();
    let below = child_len(editor, side);
    let count = match way {
        Way::Up => (MAX - own).min(below - 1),
        Way::Down => (MAX - below).min(own - 1),
    };
    editor.slide(side, way, count);
}
