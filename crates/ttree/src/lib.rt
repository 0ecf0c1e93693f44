//! A T-tree: an ordered index of references, in nodes that hold many each, balanced as an AVL tree is
//! (Lehman and Carey, A Study of Index Structures for Main Memory Database Management Systems, VLDB 1986).
//!
//! It holds no keys. An order or a probe, handed in with each call, compares the tuples that the references
//! name; the tree does not care what a tuple is, nor which order it is, as long as its list rises by it.
//!
//! After any calls:
//! - at each node the heights of the two subtrees differ by at most one, and the node states its height;
//! - no node is empty, and none holds more than `MAX` references;
//! - a node with two children holds at least `MIN`, and a node with a leaf alone at least `MIN + 1`
//!   together with it;
//! - the references are counted, and so are all nodes, those of the tree and the spare ones.
#![tactic(auto)]

mod asking;
mod balance;
mod build;
mod copying;
mod index;
mod insert;
mod removal;
mod rotate;
mod search;
mod settle;
mod shape;
mod steps;
mod tree;
mod warming;

pub use shape::{LEAST_ITEMS, MOST_ITEMS, TableTree, TreeShape, table_tree_shape};
pub use tree::TTree;
pub use ttree_node::{Look, Walk};
pub use warming::{ABREAST, Leading, Way, Ways};
