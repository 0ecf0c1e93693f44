//! From node to node in list order, by the links alone.
ghost use Rattle.std.specs.Prelude.{◌≡◌, ◌<◌, length, IfSome};

use crate::linked_nodes::LinkedNodes;
use crate::node::Side;
use crate::nodes::NodePlace;

impl<const MAX: usize> LinkedNodes<MAX> {
    ghost use Rattle.ttree_node.specs.Tree.{list_after, list_behind, list_from, items_of};
    ghost use Rattle.ttree_node.specs.Order.{list_onward, last_side, nodes_after, nodes_behind, nodes_onward, nodes_from};
    ghost use Rattle.ttree_node.specs.Linked.{located, IsPlaceIn, there};
    ghost use Rattle.ttree_node.specs.Seen.{position_at};

    // On which side of its parent the node hangs.
    fn side_at(&self, place: Option<NodePlace>) -> Side
        requires { IsPlaceIn (located self.now) place }
        ensures { result ≡ last_side (position_at self.now place).above }
    {
        match place {
            Some(found) => self.parts.nodes.get(found).head.side(),
            None => Side::Root,
        }
    }

    // The first node of the subtree.
    pub(crate) fn first_below(&self, place: Option<NodePlace>) -> Option<NodePlace>
        requires { IsPlaceIn (located self.now) place }
        ensures placed { IsPlaceIn (located self.now) result }
        ensures list { list_from 0 (position_at self.now result) ≡ list_onward (position_at self.now place) }
        ensures count { nodes_from (position_at self.now result) ≡ nodes_onward (position_at self.now place) }
    {
        let mut first = place;
        while self.has_left(first) {
            first = self.left_of(first);
        }
        first
    }

    // The first node behind the subtree.
    fn first_above(&self, place: Option<NodePlace>) -> Option<NodePlace>
        requires { IsPlaceIn (located self.now) place }
        ensures placed { IfSome result (λ found. IsPlaceIn (located self.now) (there found.at)) }
        ensures list { list_from 0 (position_at self.now result) ≡ list_after (position_at self.now place).above }
        ensures count { nodes_from (position_at self.now result) ≡ nodes_after (position_at self.now place).above }
    {
        let mut below = place;
        loop {
            match self.side_at(below) {
                Side::Root => return None,
                Side::Left => return self.parent_of(below),
                Side::Right => below = self.parent_of(below),
            }
        }
    }

    // The node behind this one.
    fn next_node(&self, place: Option<NodePlace>) -> Option<NodePlace>
        requires { IsPlaceIn (located self.now) place }
        ensures placed { IfSome result (λ found. IsPlaceIn (located self.now) (there found.at)) }
        ensures list { list_from 0 (position_at self.now result) ≡ list_behind (position_at self.now place) }
        ensures count { nodes_from (position_at self.now result) ≡ nodes_behind (position_at self.now place) }
    {
        if self.has_right(place) {
            self.first_below(self.right_of(place))
        } else {
            self.first_above(place)
        }
    }

    // The next node behind this one that has items.
    pub(crate) fn next_with_items(&self, place: Option<NodePlace>) -> Option<NodePlace>
        requires { IsPlaceIn (located self.now) place }
        ensures placed { IfSome result (λ found. IsPlaceIn (located self.now) (there found.at)) }
        ensures occupied { IfSome result (λ found. 0 < length (items_of (position_at self.now (there found.at)).here)) }
        ensures list { list_from 0 (position_at self.now result) ≡ list_behind (position_at self.now place) }
    {
        let mut next = self.next_node(place);
        while let Some(_) = next {
            if !self.items(next).is_empty() {
                return next;
            }
            next = self.next_node(next);
        }
        None
    }
}
