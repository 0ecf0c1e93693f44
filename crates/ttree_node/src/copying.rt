//! Memory for a copy of a tree.
ghost use Rattle.std.specs.Prelude.{◌≡◌, ◌+◌, ◌<◌, ◌≤◌, IfOk};

use crate::linked_nodes::LinkedNodes;
use no_memory::NoMemory;

impl<const MAX: usize> LinkedNodes<MAX> {
    ghost use Rattle.ttree_node.specs.Tree.{empty, size};
    ghost use Rattle.ttree_node.specs.Seen.{tree_of, spares_of};
    ghost use Rattle.ttree_node.specs.Linked.{node_limit};

    // There are fewer nodes than a set may have. It does nothing.
    fn nodes_are_few(&self)
        ensures { size (tree_of self.now) + spares_of self.now < node_limit }
    {
        let _parts = &self.parts;
    }

    // An empty tree with `nodes` spare nodes.
    pub(crate) fn room_for_copy(&self, nodes: usize) -> Result<LinkedNodes<MAX>, NoMemory>
        requires { nodes ≤ size (tree_of self.now) + spares_of self.now }
        ensures tree { IfOk result (λ room. tree_of room ≡ empty) }
        ensures spares { IfOk result (λ room. spares_of room ≡ nodes) }
    {
        self.nodes_are_few();
        let mut room = LinkedNodes::new(self.parts.alloc);
        room.reserve(nodes)?;
        Ok(room)
    }
}
