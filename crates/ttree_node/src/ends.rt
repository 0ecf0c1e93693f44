//! The end of a tree: each node becomes a spare one.
ghost use Rattle.std.specs.Prelude.{◌≡◌};

use crate::linked_nodes::LinkedNodes;

impl<const MAX: usize> LinkedNodes<MAX> {
    ghost use Rattle.ttree_node.specs.Tree.{empty};
    ghost use Rattle.ttree_node.specs.Seen.{tree_of};

    // Makes each node a spare one, the leaves first.
    pub(crate) fn clear(&mut self)
        ensures tree { tree_of self.new ≡ empty }
    {
        let mut place = self.root();
        while self.is_node(place) {
            if self.has_left(place) {
                place = self.left_of(place);
            } else if self.has_right(place) {
                place = self.right_of(place);
            } else {
                place = self.drop_leaf(place);
            }
        }
    }
}
