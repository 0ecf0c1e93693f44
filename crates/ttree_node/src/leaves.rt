//! A leaf that comes, and one that goes.
ghost use Rattle.std.specs.Prelude.{◌≡◌, ◌+◌, ◌<◌, false};

use crate::linked_nodes::LinkedNodes;
use crate::node::Side;
use crate::nodes::NodePlace;
use part_raw::TupleRef;

impl<const MAX: usize> LinkedNodes<MAX> {
    ghost use Rattle.ttree_node.specs.Tree.{whole, is_node, is_leaf, with_leaf, without_leaf};
    ghost use Rattle.ttree_node.specs.Linked.{located, IsPlaceIn};
    ghost use Rattle.ttree_node.specs.Seen.{tree_of, position_at, spares_of, on_side, child, hangs_on_node};

    pub(crate) fn new_leaf(
        &mut self,
        place: Option<NodePlace>,
        side: Side,
        item: TupleRef,
    ) -> Option<NodePlace>
        requires placed { IsPlaceIn (located self.old) place }
        requires fits { is_node (position_at self.old place).here ≡ hangs_on_node side }
        requires open { is_node (child side (position_at self.old place).here) ≡ false }
        requires spare { 0 < spares_of self.old }
        requires room { 0 < MAX }
        ensures placed { IsPlaceIn (located self.new) result }
        ensures tree { tree_of self.new ≡ whole (position_at self.new result) }
        ensures leaf { position_at self.new result ≡ with_leaf item (on_side side (position_at self.old place)) }
        ensures spares { spares_of self.new + 1 ≡ spares_of self.old }
    {
        let leaf = self.parts.take_spare(place, side, item);
        self.parts.set_child(place, side, Some(leaf));
        Some(leaf)
    }

    // The place above, if the leaf was not the root.
    pub(crate) fn drop_leaf(&mut self, place: Option<NodePlace>) -> Option<NodePlace>
        requires placed { IsPlaceIn (located self.old) place }
        requires leaf { is_leaf (position_at self.old place).here }
        ensures placed { IsPlaceIn (located self.new) result }
        ensures tree { tree_of self.new ≡ whole (position_at self.new result) }
        ensures gone { position_at self.new result ≡ without_leaf (position_at self.old place) }
        ensures spares { spares_of self.new ≡ spares_of self.old + 1 }
    {
        let leaf = place.unwrap();
        let node = self.parts.nodes.get(leaf);
        let head = node.head.read();
        self.parts.retire(leaf);
        self.parts.set_child(head.parent, head.side, None);
        head.parent
    }
}
