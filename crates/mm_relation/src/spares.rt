//! What is spare of the rows' store and of an index, given back once it is more than a share of what is in use: so a
//! relation that has shrunk doesn't keep what it grew to.
//!
//! A removal makes one node spare at most. So there are as many removals between two times as the second gives back nodes,
//! but for those that were reserved for a change of rows, and a removal costs no more for it in the long run.
ghost use Rattle.std.specs.Prelude.{◌≡◌, ◌≤◌, ◌/◌, max};
ghost use Rattle.ttree.specs.Held.{size};

use crate::rows::Rows;
use crate::tree::Tree;
use lin_hash::RowHash;

// A store keeps partitions with no row that have so few cells in all, of 64 KiB, however few rows there are.
const FEW_CELLS: u64 = 4_096;

// A tree keeps so few spare nodes, however few are in use.
const FEW_NODES: usize = 64;

// A hash keeps so few nodes in blocks without a row, of 12 bytes each, and so few heads, however few entries it has.
const FEW_HASH_NODES: usize = 4_096;

// A spare node for so many entries: so memory isn't given back and taken again as entries go and come.
const ENTRIES_A_SPARE_NODE: usize = 4;

// And room for so many heads a bucket. A hash loses at most one bucket where it loses a row, so it has as many rows fewer as heads
// are given back, and a removal costs no more for it in the long run.
const MOST_HEADS_A_BUCKET: usize = 2;

// Gives the memory of the partitions with no row back where it is that of more than a quarter as many rows as there are,
// and of more than a few. Each of them had to lose its rows before, so a removal costs no more for it in the long run.
pub fn shed_rows(rows: &mut Rows)
    ensures tuples { rows.new.tuples ≡ rows.old.tuples }
    ensures width { rows.new.width ≡ rows.old.width }
    ensures aside { rows.new.aside ≡ rows.old.aside }
    ensures kept { rows.old.free ≤ 4096 / rows.old.width → rows.new ≡ rows.old }
{
    rows.shed_spares(FEW_CELLS / rows.width() as u64);
}

// Gives the spare nodes of a tree back where they are more than those in use, and more than a few.
pub fn shed_tree(tree: &mut Tree)
    ensures tree { tree.new.tree ≡ tree.old.tree }
    ensures few { tree.new.spares ≤ max (size tree.new.tree) 64 }
    ensures kept { tree.old.spares ≤ max (size tree.old.tree) 64 → tree.new ≡ tree.old }
{
    if tree.spares() > tree.nodes().max(FEW_NODES) {
        tree.release_spares();
    }
}

// Gives the spare memory of a hash back where it has more than a few nodes in blocks without a row and more than a quarter
// as many as entries, or room for more than a few heads and for more than twice as many as buckets.
pub fn shed_hash(hash: &mut RowHash)
    ensures entries { hash.new.entries ≡ hash.old.entries }
    ensures buckets { hash.new.buckets ≡ hash.old.buckets }
{
    let (heads, entries) = (hash.heads(), hash.len());
    let has_spare_nodes = hash.spare_nodes() > FEW_HASH_NODES.max(entries / ENTRIES_A_SPARE_NODE);
    let has_spare_heads = heads > FEW_HASH_NODES && heads / MOST_HEADS_A_BUCKET > hash.buckets();
    if has_spare_nodes || has_spare_heads {
        hash.release_spares();
    }
}
