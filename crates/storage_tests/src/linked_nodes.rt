//! A walk over a tree that no T-tree would be: one of its nodes has no items.
ghost use Rattle.std.specs.Prelude.{◌≡◌};

use part_raw::TupleRef;
use std::process::Abort;
use ttree_node::{Editor, LinkedTree, Side};

fn item(key: u32) -> TupleRef {
    TupleRef { number: key }
}

// A leaf with that key on the right of the node, where the editor then stands.
fn grow_right<R: Abort>(rt: &R, edit: &mut Editor<'_, 3>, key: u32)
    ensures same_reference { edit.new.nodes.ghost_name ≡ edit.old.nodes.ghost_name }
{
    assert!(rt; edit.has_node() && !edit.has_right() && edit.spares() > 0);
    edit.new_leaf(Side::Right, item(key));
}

// The root [10], on its right a node with no items, and on the right of that the leaf [30].
fn plant<R: Abort>(rt: &R, edit: &mut Editor<'_, 3>)
    ensures same_reference { edit.new.nodes.ghost_name ≡ edit.old.nodes.ghost_name }
{
    assert!(rt; !edit.has_node() && edit.spares() > 0);
    edit.new_leaf(Side::Root, item(10));
    grow_right(rt, edit, 20);
    assert!(rt; edit.items().len() == 1);
    edit.cut(0);
    grow_right(rt, edit, 30);
}

#[test]
fn a_walk_passes_a_node_with_no_items(rt: HostRuntime) {
    let mut links: LinkedTree<3> = LinkedTree::new(rt.alloc());
    assert!(rt; links.reserve(3).is_ok());
    plant(&rt, &mut links.nodes_mut().edit());
    assert!(rt; links.walk().eq([item(10), item(30)]));
}
