//! The trees of a relation, in the size that tables take.
ghost use Rattle.std.specs.Prelude.{◌≡◌, ◌^◌, ◌≤◌, IfOk, length};
ghost use Rattle.ttree.specs.Held.{items_of_tree};

use no_memory::NoMemory;
use part_raw::TupleRef;
use std::alloc::Global;

/// A tree of a relation: nodes of at most 32 references, and of at least 30 where they have two children.
pub type Tree = ttree::TableTree;

/// The references of a tree that are left to visit, in order.
pub type Walk<'a> = ttree::Walk<'a, { ttree::MOST_ITEMS }>;

// A tree that is built from below, of these references in the order in which they come.
pub fn tree_of(alloc: Global, refs: &[TupleRef]) -> Result<Tree, NoMemory>
    requires { length refs.now ≤ 2 ^ 32 }
    ensures { IfOk result (λ t. items_of_tree t ≡ refs.now) }
{
    Tree::from_slice(alloc, refs)
}
