//! How a tree stands, and the size of node that tables take.
ghost use Rattle.ttree.specs.Shape.{HasShape, IsWellShaped};

use crate::tree::TTree;

/// At most so many references stand in a node of a table's tree: 256 bytes of them, or four lines of a processor's cache.
pub const MOST_ITEMS: usize = 32;

/// At least so many references stand in a node of a table's tree that has two children, and one more in a node with one
/// child together with it. The two between it and `MOST_ITEMS` let a row come and go without a node each time.
pub const LEAST_ITEMS: usize = 30;

/// A T-tree in the size that tables take.
pub type TableTree = TTree<LEAST_ITEMS, MOST_ITEMS>;

/// How high a tree is, and how many nodes and references it has.
#[derive(Clone, Copy, PartialEq, Eq)]
pub struct TreeShape {
    /// 0 where the tree is empty, 1 for a leaf, and one more than the higher child's for another node.
    pub height: usize,
    /// The nodes of the tree, without the spare ones.
    pub nodes: usize,
    /// The references.
    pub items: usize,
}

impl<const MIN: usize, const MAX: usize> TTree<MIN, MAX> {
    /// How the tree stands.
    pub fn shape(&self) -> TreeShape
        ensures told { HasShape self.now.tree result }
        ensures kept { IsWellShaped MIN MAX self.now.tree }
    {
        let height = self.height();
        TreeShape {
            height,
            nodes: self.nodes(),
            items: self.len,
        }
    }
}

/// How a table's tree stands: no node has more than 32 references, each with two children at least 30, and each with one
/// child at least 31 together with it.
pub fn table_tree_shape(tree: &TableTree) -> TreeShape
    ensures told { HasShape tree.now.tree result }
    ensures kept { IsWellShaped 30 32 tree.now.tree }
{
    tree.shape()
}
