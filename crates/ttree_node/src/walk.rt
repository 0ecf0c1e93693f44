//! A walk over the items of a tree in list order.
ghost use Rattle.std.specs.Prelude.{◌≡◌, ◌≤◌, ◌++◌, length};
ghost use Rattle.std.specs.Iterator.{YieldsFirst, item_count};

use crate::linked_nodes::LinkedNodes;
use crate::look::Look;
use part_raw::TupleRef;

/// The items of a tree that are left to visit, in list order. It goes from node to node by their links, and takes no memory.
#[derive(Clone, Copy)]
pub struct Walk<'a, const MAX: usize> {
    look: Look<'a, MAX>,
    index: usize,
}

impl<const MAX: usize> LinkedNodes<MAX> {
    ghost use Rattle.ttree_node.specs.Tree.{list};
    ghost use Rattle.ttree_node.specs.Seen.{tree_of};
    ghost use Rattle.ttree_node.specs.Walk.{rest_of};

    // All items in list order.
    pub(crate) fn walk(&self) -> Walk<'_, MAX>
        ensures { rest_of result ≡ list (tree_of self.now) }
    {
        let at = self.first_below(self.root());
        Walk {
            look: Look { nodes: self, at },
            index: 0,
        }
    }
}

impl<'a, const MAX: usize> Look<'a, MAX> {
    ghost use Rattle.ttree_node.specs.Tree.{items_of, list, list_from, list_until, whole};
    ghost use Rattle.ttree_node.specs.Look.{position};
    ghost use Rattle.ttree_node.specs.Walk.{rest_of};

    /// The items in list order, from item `index` of this node on.
    pub fn walk_from(self, index: usize) -> Walk<'a, MAX>
        requires { index ≤ length (items_of (position self).here) }
        ensures from { rest_of result ≡ list_from index (position self.entry) }
        ensures parts { list_until index (position self.entry) ++ rest_of result ≡ list (whole (position self.entry)) }
    {
        Walk { look: self, index }
    }
}

impl<'a, const MAX: usize> Iterator for Walk<'a, MAX> {
    ghost use Rattle.ttree_node.specs.Walk.{rest_of};

    type Item = TupleRef;

    ghost next_gives = { YieldsFirst rest_of };

    ghost remaining = { item_count rest_of };

    fn next(&mut self) -> Option<TupleRef> {
        let nodes = self.look.nodes;
        if nodes.items(self.look.at).len() <= self.index {
            self.look.at = Some(nodes.next_with_items(self.look.at)?);
            self.index = 0;
        }
        let item = nodes.items(self.look.at)[self.index];
        self.index += 1;
        Some(item)
    }
}
