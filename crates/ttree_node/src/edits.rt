//! Edits of one node.
ghost use Rattle.std.specs.Prelude.{◌≡◌, ◌+◌, ◌++◌, ◌<◌, ◌≤◌, true, length, insert, remove, slice_index_or};

use crate::linked_nodes::LinkedNodes;
use crate::nodes::NodePlace;
use part_raw::TupleRef;

impl<const MAX: usize> LinkedNodes<MAX> {
    ghost use Rattle.ttree_node.specs.Tree.{whole, is_node, items_of, with_items, with_height, height_over};
    ghost use Rattle.ttree_node.specs.Linked.{located, IsPlaceIn};
    ghost use Rattle.ttree_node.specs.Seen.{tree_of, position_at, spares_of};

    pub(crate) fn put(&mut self, place: Option<NodePlace>, index: usize, item: TupleRef)
        requires placed { IsPlaceIn (located self.old) place }
        requires node { is_node (position_at self.old place).here ≡ true }
        requires index { index ≤ length (items_of (position_at self.old place).here) }
        requires room { length (items_of (position_at self.old place).here) < MAX }
        ensures placed { IsPlaceIn (located self.new) place }
        ensures tree { tree_of self.new ≡ whole (position_at self.new place) }
        ensures items { position_at self.new place ≡ with_items (insert (items_of (position_at self.old place).here) index item) (position_at self.old place) }
        ensures spares { spares_of self.new ≡ spares_of self.old }
    {
        let node = self.parts.nodes.get_mut(place.unwrap());
        node.items.insert(index, item);
    }

    pub(crate) fn put_behind(&mut self, place: Option<NodePlace>, items: &[TupleRef])
        requires placed { IsPlaceIn (located self.old) place }
        requires node { is_node (position_at self.old place).here ≡ true }
        requires room { length (items_of (position_at self.old place).here) + length items.now ≤ MAX }
        ensures placed { IsPlaceIn (located self.new) place }
        ensures tree { tree_of self.new ≡ whole (position_at self.new place) }
        ensures items { position_at self.new place ≡ with_items (items_of (position_at self.old place).here ++ items.now) (position_at self.old place) }
        ensures spares { spares_of self.new ≡ spares_of self.old }
    {
        let node = self.parts.nodes.get_mut(place.unwrap());
        let _fits = node.items.try_extend_from_slice(items);
    }

    pub(crate) fn cut(&mut self, place: Option<NodePlace>, index: usize) -> TupleRef
        requires placed { IsPlaceIn (located self.old) place }
        requires index { index < length (items_of (position_at self.old place).here) }
        ensures placed { IsPlaceIn (located self.new) place }
        ensures tree { tree_of self.new ≡ whole (position_at self.new place) }
        ensures item { result ≡ slice_index_or (items_of (position_at self.old place).here) index result }
        ensures items { position_at self.new place ≡ with_items (remove (items_of (position_at self.old place).here) index) (position_at self.old place) }
        ensures spares { spares_of self.new ≡ spares_of self.old }
    {
        let node = self.parts.nodes.get_mut(place.unwrap());
        node.items.remove(index)
    }

    pub(crate) fn reheight(&mut self, place: Option<NodePlace>)
        requires placed { IsPlaceIn (located self.old) place }
        requires node { is_node (position_at self.old place).here ≡ true }
        ensures placed { IsPlaceIn (located self.new) place }
        ensures tree { tree_of self.new ≡ whole (position_at self.new place) }
        ensures height { position_at self.new place ≡ with_height (height_over (position_at self.old place).here) (position_at self.old place) }
        ensures spares { spares_of self.new ≡ spares_of self.old }
    {
        let (left, right) = self.heights(place);
        let higher = left.max(right);
        let node = self.parts.nodes.get_mut(place.unwrap());
        node.head.set_height(higher.saturating_add(1));
    }
}
