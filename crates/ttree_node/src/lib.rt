//! The linked nodes of a T-tree.
//!
//! A [`LinkedTree`] owns the nodes of one tree, and spare ones for it to grow by. Each node holds up to `MAX` references, and links its children,
//! its parent or the next spare node:
//!
//! ```text
//!         root                  free
//!           |                     |
//!           v                     v
//!        [40 45]                 [ ] --left--> [ ] --left--> [ ]
//!         //  \\
//!        //    \\      //  \\  a link down, and the child's link up to its parent
//!     [20]     [80]
//! ```
//!
//! Contracts see a `LinkedTree` as a tree of lists of references, with a stated height at each node, and the number of spare nodes; where the nodes
//! lie is no part of its value. One stands at a place in the tree with a [`Look`], which reads, or with an [`Editor`], which also changes. A
//! [`Walk`] gives all references in list order.
//!
//! An editor needs the places of the nodes. So it stands in the [`LinkedNodes`] that a `LinkedTree` lends out ([`LinkedTree::nodes_mut`]). A function that
//! edits takes these, or an editor of them; when the loan ends, the `LinkedTree` has the tree that they are then.
//!
//! This crate doesn't care in which order the references are, how full a node is, whether the stated heights are true or the tree is
//! balanced: that is its user's to keep. It relies on this, and each call keeps it:
//!
//! - A child links the node that links it as its parent, and keeps on which side it hangs. The root links no parent.
//! - No node is linked from two places, so the nodes that the root leads to are a tree.
//! - The spare nodes are a chain by their left links, hold nothing, and are counted.
//! - The nodes of the tree and the spare ones are all that the set of nodes owns. So each is freed at most once, and only by them.
//!
//! Only the module `nodes` follows a pointer.
#![tactic(auto)]

mod begin;
mod copying;
mod editor;
mod edits;
mod ends;
mod leaves;
mod linked_nodes;
mod linked_tree;
mod look;
mod merges;
mod moves;
mod node;
mod nodes;
mod order;
mod parts;
mod rotations;
mod slides;
mod walk;

pub use editor::Editor;
pub use linked_nodes::LinkedNodes;
pub use linked_tree::LinkedTree;
pub use look::Look;
pub use node::{Side, Way};
pub use nodes::NodePlace;
pub use walk::Walk;
