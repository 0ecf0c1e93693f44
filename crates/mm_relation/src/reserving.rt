//! Memory for many rows at once, before the first of them comes in. So a load of more than there is memory for is told so
//! before its first row, but for what only the order of the rows tells: how many nodes the trees need.
ghost use Rattle.std.specs.Prelude.{◌≡◌, ◌+◌, ◌≤◌, OnOk, map};
ghost use Rattle.std.specs.FinMap as finite;
ghost use Rattle.ttree.specs.Room.{room_of};
ghost use Rattle.mm_relation.specs.Indexes.{seen, HaveRooms, KeepRoom};
ghost use Rattle.mm_relation.specs.Owing.{HasOwed};

use crate::index::IndexOn;
use crate::indexes::{cover, reserve};
use crate::parts::settle;
use crate::relation::Relation;
use crate::rows::Rows;
use crate::tree::Tree;
use no_memory::NoMemory;
use part_raw::{MAX_TUPLES, SLOTS, TupleRef};
use plain_tables::{MOST_ROWS, Sequence};
use ttree::{LEAST_ITEMS, MOST_ITEMS};

// Of how many inserts a tree is to be sure so that it gets about so many spare nodes. It gets one for each insert, and none
// beyond those that suffice for all references, where each holds half of `LEAST_ITEMS`.
fn inserts_for(tree: &Tree, nodes: usize) -> usize
    ensures most { result ≤ 16777216 }
    ensures least { nodes ≤ 16777216 → nodes ≤ result }
{
    let held = tree
        .nodes()
        .saturating_add(nodes)
        .saturating_mul(LEAST_ITEMS / 2);
    held.saturating_sub(tree.len())
        .max(nodes)
        .min(MOST_ROWS as usize)
}

// Makes sure of memory for so many references more in each tree, and for so many in each hash.
fn reserve_indexes(
    by_key: &mut Tree,
    indexes: &mut Sequence<IndexOn>,
    in_trees: usize,
    in_hashes: usize,
) -> Result<(), NoMemory>
    requires trees { in_trees ≤ 33554432 }
    requires hashes { in_hashes ≤ 33554432 }
    ensures by_key { by_key.new.tree ≡ by_key.old.tree }
    ensures same { map seen indexes.new ≡ map seen indexes.old }
    ensures key_kept { room_of 30 by_key.old ≤ room_of 30 by_key.new }
    ensures keeps { KeepRoom 0 0 indexes.old indexes.new }
    ensures key_room { OnOk result (in_trees ≤ room_of 30 by_key.new) }
    ensures room { OnOk result (HaveRooms in_trees in_hashes indexes.new) }
{
    by_key.reserve(in_trees)?;
    reserve(indexes, in_trees, in_hashes)
}

// Makes sure of memory in the hashes for the nodes of the rows to come in the partitions from one slot to another.
fn cover_slots(indexes: &mut Sequence<IndexOn>, from: u64, to: u64) -> Result<(), NoMemory>
    requires { to ≤ MAX_TUPLES }
    ensures same { map seen indexes.new ≡ map seen indexes.old }
    ensures keeps { KeepRoom 0 0 indexes.old indexes.new }
{
    let mut slot = from;
    while slot < to {
        cover(
            indexes,
            TupleRef {
                number: slot as u32,
            },
        )?;
        slot += u64::from(SLOTS);
    }
    Ok(())
}

// Makes sure of slots for so many rows, and in the indexes of what they are known to need beside what is owed: for each row a
// head and a node in each hash, and a node of each tree for as many rows as it holds at most. How many nodes a tree needs depends
// on the order of the rows.
fn reserve_parts(
    rows: &mut Rows,
    by_key: &mut Tree,
    indexes: &mut Sequence<IndexOn>,
    n: u64,
) -> Result<(), NoMemory>
    requires few { finite.len rows.old.tuples + n ≤ 16777216 }
    requires owed { HasOwed rows.old.aside.owed rows.old.aside.hidden by_key.old indexes.old }
    ensures rows { rows.new.tuples ≡ rows.old.tuples }
    ensures width { rows.new.width ≡ rows.old.width }
    ensures aside { rows.new.aside ≡ rows.old.aside }
    ensures by_key { by_key.new.tree ≡ by_key.old.tree }
    ensures same { map seen indexes.new ≡ map seen indexes.old }
    ensures owed { HasOwed rows.old.aside.owed rows.old.aside.hidden by_key.new indexes.new }
    ensures free { OnOk result (n ≤ rows.new.free) }
    ensures room { OnOk result (HaveRooms rows.old.aside.owed (rows.old.aside.owed + n) indexes.new) }
{
    let slots = rows.slots();
    rows.reserve_many(n)?;
    let owed = rows.owed() as usize;
    let in_trees = owed + inserts_for(by_key, n as usize / MOST_ITEMS);
    reserve_indexes(by_key, indexes, in_trees, owed + n as usize)?;
    cover_slots(indexes, slots, rows.slots())
}

impl Relation {
    /// Makes sure of memory for so many rows more, or as many as the table may still have: for their cells, and for what the indexes
    /// are known to need for them. It stays until rows go. At an error it is given back as what is spare is.
    pub fn reserve_rows(&mut self, count: usize) -> Result<(), NoMemory>
        ensures { self.new ≡ self.old }
    {
        let left = u64::from(MOST_ROWS).saturating_sub(self.rows.len());
        let n = left.min(count as u64);
        let reserved = reserve_parts(&mut self.rows, &mut self.by_key, &mut self.indexes, n);
        if reserved.is_err() {
            settle(&mut self.rows, &mut self.by_key, &mut self.indexes);
        }
        reserved
    }

    /// Gives spare memory back, by the rules of a removal. It takes no memory.
    pub fn shed_spares(&mut self)
        ensures { self.new ≡ self.old }
    {
        settle(&mut self.rows, &mut self.by_key, &mut self.indexes);
    }
}
