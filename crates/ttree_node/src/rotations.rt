//! Rotations.
ghost use Rattle.std.specs.Prelude.{◌≡◌, true};

use crate::linked_nodes::LinkedNodes;
use crate::node::Side;
use crate::nodes::NodePlace;

impl<const MAX: usize> LinkedNodes<MAX> {
    ghost use Rattle.ttree_node.specs.Tree.{whole, is_node, with_tree};
    ghost use Rattle.ttree_node.specs.Linked.{located, IsPlaceIn};
    ghost use Rattle.ttree_node.specs.Seen.{tree_of, position_at, spares_of, child, raised};

    // The child on that side takes the node's place.
    pub(crate) fn raise(&mut self, place: Option<NodePlace>, side: Side) -> Option<NodePlace>
        requires placed { IsPlaceIn (located self.old) place }
        requires child { is_node (child side (position_at self.old place).here) ≡ true }
        ensures placed { IsPlaceIn (located self.new) result }
        ensures tree { tree_of self.new ≡ whole (position_at self.new result) }
        ensures turned { position_at self.new result ≡ with_tree (raised side) (position_at self.old place) }
        ensures spares { spares_of self.new ≡ spares_of self.old }
    {
        let inner = side.opposite();
        let node = self.parts.nodes.get(place.unwrap());
        let own = node.head.read();
        let riser = own.child(side);
        let child = self.parts.nodes.get(riser.unwrap());
        let below = child.head.read();
        self.parts.hang(below.child(inner), place, side);
        self.parts.hang(place, riser, inner);
        self.parts.hang(riser, own.parent, own.side);
        riser
    }
}
