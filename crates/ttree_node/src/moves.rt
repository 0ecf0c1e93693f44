//! The steps from node to node, and what is read at a node. Each is a read of one link or two.
ghost use Rattle.std.specs.Prelude.{◌≡◌, ◌≤◌, true, false, length, slice_get, []};

use crate::linked_nodes::LinkedNodes;
use crate::node::Side;
use crate::nodes::NodePlace;
use crate::parts::MOST_ITEMS;
use part_raw::TupleRef;

impl<const MAX: usize> LinkedNodes<MAX> {
    ghost use Rattle.ttree_node.specs.Tree.{at, whole, is_root, has_left, has_right, left_of, right_of, down_left, down_right, up, items_of, stated, is_node};
    ghost use Rattle.ttree_node.specs.Linked.{located, IsPlaceIn};
    ghost use Rattle.ttree_node.specs.Seen.{tree_of, position_at, child, on_side};
    ghost use Rattle.std.specs.Prelude.{Option};
    ghost use Rattle.std.specs.Option.{is_some};
    ghost use Rattle.ttree_node.specs.declared.nodes.NodePlace.{NodePlace};

    pub(crate) fn root(&self) -> Option<NodePlace>
        ensures placed { IsPlaceIn (located self.now) result }
        ensures moved { position_at self.now result ≡ at [] (tree_of self.now) }
        ensures whole { (place : Option NodePlace) → IsPlaceIn (located self.now) place → whole (position_at self.now place) ≡ tree_of self.now }
    {
        self.parts.root
    }

    pub(crate) fn is_node(&self, place: Option<NodePlace>) -> bool
        requires { IsPlaceIn (located self.now) place }
        ensures node { result ≡ is_node (position_at self.now place).here }
        ensures some { result ≡ is_some place }
    {
        let _parts = &self.parts;
        place.is_some()
    }

    pub(crate) fn left_of(&self, place: Option<NodePlace>) -> Option<NodePlace>
        requires placed { IsPlaceIn (located self.now) place }
        requires child { has_left (position_at self.now place).here ≡ true }
        ensures placed { IsPlaceIn (located self.now) result }
        ensures moved { position_at self.now result ≡ down_left (position_at self.now place) }
    {
        self.parts.nodes.get(place.unwrap()).head.left()
    }

    pub(crate) fn right_of(&self, place: Option<NodePlace>) -> Option<NodePlace>
        requires placed { IsPlaceIn (located self.now) place }
        requires child { has_right (position_at self.now place).here ≡ true }
        ensures placed { IsPlaceIn (located self.now) result }
        ensures moved { position_at self.now result ≡ down_right (position_at self.now place) }
    {
        self.parts.nodes.get(place.unwrap()).head.right()
    }

    // The child on that side.
    pub(crate) fn child_of(&self, place: Option<NodePlace>, side: Side) -> Option<NodePlace>
        requires placed { IsPlaceIn (located self.now) place }
        requires child { is_node (child side (position_at self.now place).here) ≡ true }
        ensures placed { IsPlaceIn (located self.now) result }
        ensures moved { position_at self.now result ≡ on_side side (position_at self.now place) }
    {
        match side {
            Side::Root => place,
            Side::Left => self.left_of(place),
            Side::Right => self.right_of(place),
        }
    }

    pub(crate) fn parent_of(&self, place: Option<NodePlace>) -> Option<NodePlace>
        requires placed { IsPlaceIn (located self.now) place }
        requires below { is_root (position_at self.now place).above ≡ false }
        ensures placed { IsPlaceIn (located self.now) result }
        ensures moved { position_at self.now result ≡ up (position_at self.now place) }
    {
        self.parts.nodes.get(place.unwrap()).head.parent()
    }

    pub(crate) fn is_root(&self, place: Option<NodePlace>) -> bool
        requires { IsPlaceIn (located self.now) place }
        ensures { result ≡ is_root (position_at self.now place).above }
    {
        match place {
            Some(found) => !self.parts.nodes.get(found).head.parent().is_some(),
            None => true,
        }
    }

    pub(crate) fn has_left(&self, place: Option<NodePlace>) -> bool
        requires { IsPlaceIn (located self.now) place }
        ensures { result ≡ has_left (position_at self.now place).here }
    {
        match place {
            Some(found) => self.parts.nodes.get(found).head.left().is_some(),
            None => false,
        }
    }

    pub(crate) fn has_right(&self, place: Option<NodePlace>) -> bool
        requires { IsPlaceIn (located self.now) place }
        ensures { result ≡ has_right (position_at self.now place).here }
    {
        match place {
            Some(found) => self.parts.nodes.get(found).head.right().is_some(),
            None => false,
        }
    }

    pub(crate) fn items(&self, place: Option<NodePlace>) -> &[TupleRef]
        requires { IsPlaceIn (located self.now) place }
        ensures items { result.now ≡ items_of (position_at self.now place).here }
        ensures some { is_some place ≡ is_node (position_at self.now place).here }
        ensures narrow { is_node (position_at self.now place).here ≡ true → MAX ≤ MOST_ITEMS }
        ensures fits { length result.now ≤ MAX }
    {
        match place {
            Some(found) => self.parts.nodes.get(found).items.as_slice(),
            None => &[],
        }
    }

    pub(crate) fn height_at(&self, place: Option<NodePlace>) -> u32
        requires { IsPlaceIn (located self.now) place }
        ensures { result ≡ stated (position_at self.now place).here }
    {
        match place {
            Some(found) => self.parts.nodes.get(found).head.height(),
            None => 0,
        }
    }

    pub(crate) fn heights(&self, place: Option<NodePlace>) -> (u32, u32)
        requires { IsPlaceIn (located self.now) place }
        ensures left { result.0 ≡ stated (left_of (position_at self.now place).here) }
        ensures right { result.1 ≡ stated (right_of (position_at self.now place).here) }
    {
        let left = if self.has_left(place) {
            self.height_at(self.left_of(place))
        } else {
            0
        };
        let right = if self.has_right(place) {
            self.height_at(self.right_of(place))
        } else {
            0
        };
        (left, right)
    }

    // The least item of the left and of the right child, where there is one.
    #[inline]
    pub(crate) fn least_below(
        &self,
        place: Option<NodePlace>,
    ) -> (Option<TupleRef>, Option<TupleRef>)
        requires { IsPlaceIn (located self.now) place }
        ensures left { result.0 ≡ slice_get (items_of (left_of (position_at self.now place).here)) 0 }
        ensures right { result.1 ≡ slice_get (items_of (right_of (position_at self.now place).here)) 0 }
    {
        let left = if self.has_left(place) {
            self.items(self.left_of(place)).first().copied()
        } else {
            None
        };
        let right = if self.has_right(place) {
            self.items(self.right_of(place)).first().copied()
        } else {
            None
        };
        (left, right)
    }
}
