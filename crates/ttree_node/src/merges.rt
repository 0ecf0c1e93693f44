//! Items that go from a child into its node.
ghost use Rattle.std.specs.Prelude.{◌≡◌, ◌+◌, ◌≤◌, ◌++◌, true, false, length};
ghost use Rattle.ttree_node.specs.Seen.{beside};

use crate::linked_nodes::LinkedNodes;
use crate::node::Side;
use crate::nodes::NodePlace;
use crate::parts::MOST_ITEMS;
use arrayvec::ArrayVec;
use part_raw::TupleRef;

// Both lists, one after the other.
fn joined<const MAX: usize>(first: &[TupleRef], second: &[TupleRef]) -> ArrayVec<TupleRef, MAX>
    requires narrow { MAX ≤ MOST_ITEMS }
    requires room { length first.now + length second.now ≤ MAX }
    ensures { result.items ≡ first.now ++ second.now }
{
    let mut items = ArrayVec::new();
    items.try_extend_from_slice(first).unwrap();
    items.try_extend_from_slice(second).unwrap();
    items
}

// Both lists, the first on that side of the second.
pub(crate) fn joined_beside<const MAX: usize>(
    side: Side,
    first: &[TupleRef],
    second: &[TupleRef],
) -> ArrayVec<TupleRef, MAX>
    requires narrow { MAX ≤ MOST_ITEMS }
    requires room { length first.now + length second.now ≤ MAX }
    ensures { result.items ≡ beside side first.now second.now }
{
    match side {
        Side::Root | Side::Left => joined(first, second),
        Side::Right => joined(second, first),
    }
}

impl<const MAX: usize> LinkedNodes<MAX> {
    ghost use Rattle.ttree_node.specs.Tree.{whole, is_node, is_leaf, items_of, with_items, with_tree};
    ghost use Rattle.ttree_node.specs.Linked.{located, IsPlaceIn};
    ghost use Rattle.ttree_node.specs.Seen.{tree_of, position_at, spares_of, child, opposite, merged};

    pub(crate) fn set_items(&mut self, place: Option<NodePlace>, items: ArrayVec<TupleRef, MAX>)
        requires placed { IsPlaceIn (located self.old) place }
        requires node { is_node (position_at self.old place).here ≡ true }
        ensures placed { IsPlaceIn (located self.new) place }
        ensures tree { tree_of self.new ≡ whole (position_at self.new place) }
        ensures items { position_at self.new place ≡ with_items items.entry.items (position_at self.old place) }
        ensures spares { spares_of self.new ≡ spares_of self.old }
    {
        let node = self.parts.nodes.get_mut(place.unwrap());
        node.items = items;
    }

    // The child on that side, a leaf, gives the node all its items and becomes a spare node.
    pub(crate) fn merge(&mut self, place: Option<NodePlace>, side: Side) -> Option<NodePlace>
        requires placed { IsPlaceIn (located self.old) place }
        requires leaf { is_leaf (child side (position_at self.old place).here) }
        requires other { is_node (child (opposite side) (position_at self.old place).here) ≡ false }
        requires room { length (items_of (position_at self.old place).here) + length (items_of (child side (position_at self.old place).here)) ≤ MAX }
        ensures placed { IsPlaceIn (located self.new) result }
        ensures tree { tree_of self.new ≡ whole (position_at self.new result) }
        ensures merged { position_at self.new result ≡ with_tree (merged side) (position_at self.old place) }
        ensures spares { spares_of self.new ≡ spares_of self.old + 1 }
    {
        let items = joined_beside(
            side,
            self.items(self.child_of(place, side)),
            self.items(place),
        );
        self.set_items(place, items);
        self.drop_leaf(self.child_of(place, side))
    }
}
