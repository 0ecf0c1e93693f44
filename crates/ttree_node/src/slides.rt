//! Items that go between a node and its child, either way.
ghost use Rattle.std.specs.Prelude.{◌≡◌, ◌+◌, ◌≤◌, true, length};
ghost use Rattle.ttree_node.specs.Seen.{end_of, without_end};

use crate::linked_nodes::LinkedNodes;
use crate::merges::joined_beside;
use crate::node::{Side, Way};
use crate::nodes::NodePlace;
use arrayvec::ArrayVec;
use part_raw::TupleRef;

// The last `count` items on that side of the list, and the others.
fn split_end(side: Side, items: &[TupleRef], count: usize) -> (&[TupleRef], &[TupleRef])
    requires { count ≤ length items.now }
    ensures end { result.0.now ≡ end_of side count items.now }
    ensures others { result.1.now ≡ without_end side count items.now }
{
    match side {
        Side::Root | Side::Left => (&items[..count], &items[count..]),
        Side::Right => {
            let stay = items.len() - count;
            (&items[stay..], &items[..stay])
        }
    }
}

impl<const MAX: usize> LinkedNodes<MAX> {
    ghost use Rattle.ttree_node.specs.Tree.{whole, is_node, items_of, with_tree};
    ghost use Rattle.ttree_node.specs.Linked.{located, IsPlaceIn};
    ghost use Rattle.ttree_node.specs.Seen.{tree_of, position_at, spares_of, child, giver, taker, dealt, slid};
    ghost use Rattle.ttree_node.specs.declared.node.Way.TheVariants.{Up, Down};

    fn deal(
        &mut self,
        place: Option<NodePlace>,
        side: Side,
        upper: ArrayVec<TupleRef, MAX>,
        lower: ArrayVec<TupleRef, MAX>,
    ) -> Option<NodePlace>
        requires placed { IsPlaceIn (located self.old) place }
        requires child { is_node (child side (position_at self.old place).here) ≡ true }
        ensures placed { IsPlaceIn (located self.new) result }
        ensures tree { tree_of self.new ≡ whole (position_at self.new result) }
        ensures dealt { position_at self.new result ≡ with_tree (dealt side upper.entry.items lower.entry.items) (position_at self.old place) }
        ensures spares { spares_of self.new ≡ spares_of self.old }
    {
        self.set_items(place, upper);
        let below = self.child_of(place, side);
        self.set_items(below, lower);
        self.parent_of(below)
    }

    fn slide_up(&mut self, place: Option<NodePlace>, side: Side, count: usize) -> Option<NodePlace>
        requires placed { IsPlaceIn (located self.old) place }
        requires child { is_node (child side (position_at self.old place).here) ≡ true }
        requires items { count ≤ length (items_of (child side (position_at self.old place).here)) }
        requires room { length (items_of (position_at self.old place).here) + count ≤ MAX }
        ensures placed { IsPlaceIn (located self.new) result }
        ensures tree { tree_of self.new ≡ whole (position_at self.new result) }
        ensures slid { position_at self.new result ≡ with_tree (slid side Up count) (position_at self.old place) }
        ensures spares { spares_of self.new ≡ spares_of self.old }
    {
        let own = self.items(place);
        let below = self.items(self.child_of(place, side));
        let (moved, rest) = split_end(side.opposite(), below, count);
        let upper = joined_beside(side, moved, own);
        let lower = joined_beside(side, rest, &[]);
        self.deal(place, side, upper, lower)
    }

    fn slide_down(
        &mut self,
        place: Option<NodePlace>,
        side: Side,
        count: usize,
    ) -> Option<NodePlace>
        requires placed { IsPlaceIn (located self.old) place }
        requires child { is_node (child side (position_at self.old place).here) ≡ true }
        requires items { count ≤ length (items_of (position_at self.old place).here) }
        requires room { length (items_of (child side (position_at self.old place).here)) + count ≤ MAX }
        ensures placed { IsPlaceIn (located self.new) result }
        ensures tree { tree_of self.new ≡ whole (position_at self.new result) }
        ensures slid { position_at self.new result ≡ with_tree (slid side Down count) (position_at self.old place) }
        ensures spares { spares_of self.new ≡ spares_of self.old }
    {
        let own = self.items(place);
        let below = self.items(self.child_of(place, side));
        let (moved, rest) = split_end(side, own, count);
        let upper = joined_beside(side, rest, &[]);
        let lower = joined_beside(side.opposite(), moved, below);
        self.deal(place, side, upper, lower)
    }

    pub(crate) fn slide(
        &mut self,
        place: Option<NodePlace>,
        side: Side,
        way: Way,
        count: usize,
    ) -> Option<NodePlace>
        requires placed { IsPlaceIn (located self.old) place }
        requires child { is_node (child side (position_at self.old place).here) ≡ true }
        requires items { count ≤ length (items_of (giver way side (position_at self.old place).here)) }
        requires room { length (items_of (taker way side (position_at self.old place).here)) + count ≤ MAX }
        ensures placed { IsPlaceIn (located self.new) result }
        ensures tree { tree_of self.new ≡ whole (position_at self.new result) }
        ensures slid { position_at self.new result ≡ with_tree (slid side way count) (position_at self.old place) }
        ensures spares { spares_of self.new ≡ spares_of self.old }
    {
        match way {
            Way::Up => self.slide_up(place, side, count),
            Way::Down => self.slide_down(place, side, count),
        }
    }
}
