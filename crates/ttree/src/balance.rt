//! How balance comes back after an edit: from a place up heights are set, and nodes rotated. Each node on the way states the
//! height of the tree that stood there before, so the way ends where a height is as it was.
ghost use Rattle.std.specs.Prelude.{◌≡◌, ◌≤◌, ◌^◌, length};
ghost use Rattle.ttree_node.specs.Tree.{list, size, whole};
ghost use Rattle.ttree_node.specs.Editor.{position, tree_at, spares_at};
ghost use Rattle.ttree.specs.Shape.{IsTTree, ParentsAreFull};
ghost use Rattle.ttree.specs.Mending.{CanRise};
ghost use Rattle.ttree.specs.Rising.{IsMendableHere, IsMendedTo};
ghost use Rattle.ttree.specs.Fullness.{IsGrown, IsGrowing, CanRiseFull};

use crate::rotate::rotate;
use crate::steps::restate;
use ttree_node::{Editor, Side};

// Sets the node's height where its children's heights differ by at most one, else rotates it.
fn mend<const MIN: usize, const MAX: usize>(editor: &mut Editor<'_, MAX>)
    requires ordered { MIN ≤ MAX }
    requires mendable { IsMendableHere MIN MAX (position editor.old).here }
    requires tree { tree_at editor.old ≡ whole (position editor.old) }
    requires short { length (list (tree_at editor.old)) ≤ 2 ^ 32 }
    ensures same_reference { editor.new.nodes.ghost_name ≡ editor.old.nodes.ghost_name }
    ensures above { (position editor.new).above ≡ (position editor.old).above }
    ensures mended { IsMendedTo MIN MAX (position editor.old).here (position editor.new).here }
    ensures full { 2 ≤ MIN → IsGrowing MAX (position editor.old).here → IsGrown MAX (position editor.new).here }
    ensures tree { tree_at editor.new ≡ whole (position editor.new) }
    ensures list { list (tree_at editor.new) ≡ list (tree_at editor.old) }
    ensures size { size (tree_at editor.new) ≡ size (tree_at editor.old) }
    ensures spares { spares_at editor.new ≡ spares_at editor.old }
{
    let (left, right) = editor.heights();
    if left.saturating_sub(right) > 1 {
        rotate::<MIN, MAX>(editor, Side::Left);
    } else if right.saturating_sub(left) > 1 {
        rotate::<MIN, MAX>(editor, Side::Right);
    } else {
        restate(editor);
    }
}

// Sets heights from the place up, and rotates each node that isn't balanced, as far as a height changes.
pub(crate) fn rebalance<const MIN: usize, const MAX: usize>(editor: &mut Editor<'_, MAX>)
    requires some { 1 ≤ MIN }
    requires ordered { MIN ≤ MAX }
    requires two { 2 ≤ MAX }
    requires can_rise { CanRise MIN MAX (position editor.old) }
    requires tree { tree_at editor.old ≡ whole (position editor.old) }
    requires short { length (list (tree_at editor.old)) ≤ 2 ^ 32 }
    ensures same_reference { editor.new.nodes.ghost_name ≡ editor.old.nodes.ghost_name }
    ensures fit { IsTTree MIN MAX (tree_at editor.new) }
    ensures full { 2 ≤ MIN → CanRiseFull MIN MAX (position editor.old) → ParentsAreFull MAX (tree_at editor.new) }
    ensures list { list (tree_at editor.new) ≡ list (tree_at editor.old) }
    ensures size { size (tree_at editor.new) ≡ size (tree_at editor.old) }
    ensures spares { spares_at editor.new ≡ spares_at editor.old }
{
    loop {
        let before = editor.height();
        mend::<MIN, MAX>(editor);
        if editor.height() == before {
            return;
        }
        if editor.at_root() {
            return;
        }
        editor.up();
    }
}
