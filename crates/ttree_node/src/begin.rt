//! Where a look and an edit begin.
ghost use Rattle.std.specs.Prelude.{◌≡◌, []};

use crate::editor::Editor;
use crate::linked_nodes::LinkedNodes;
use crate::look::Look;
use crate::nodes::NodePlace;

impl<const MAX: usize> LinkedNodes<MAX> {
    ghost use Rattle.ttree_node.specs.Tree.{at};
    ghost use Rattle.ttree_node.specs.Linked.{located, IsPlaceIn};
    ghost use Rattle.ttree_node.specs.Seen.{tree_of, spares_of, position_at};
    ghost use Rattle.ttree_node.specs.Look.{position};
    ghost use Rattle.ttree_node.specs.Editor.{position as edited, tree_at, spares_at};

    // The root of the tree, to be read.
    pub(crate) fn look(&self) -> Look<'_, MAX>
        ensures nodes { result.nodes.now ≡ self.now }
        ensures root { position result ≡ at [] (tree_of self.now) }
    {
        Look {
            nodes: self,
            at: self.root(),
        }
    }

    // That place, to be read.
    pub(crate) fn look_at(&self, place: Option<NodePlace>) -> Look<'_, MAX>
        requires { IsPlaceIn (located self.now) place }
        ensures nodes { result.nodes.now ≡ self.now }
        ensures place { position result ≡ position_at self.now place }
    {
        Look {
            nodes: self,
            at: place,
        }
    }

    /// The root of the tree, to be edited.
    pub fn edit(&mut self) -> Editor<'_, MAX>
        ensures same_reference { result.nodes.ghost_name ≡ self.entry.ghost_name }
        ensures tree { tree_at result ≡ tree_of self.old }
        ensures root { edited result ≡ at [] (tree_of self.old) }
        ensures spares { spares_at result ≡ spares_of self.old }
    {
        let at = self.root();
        Editor { nodes: self, at }
    }
}
