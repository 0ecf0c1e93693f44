//! One declared index of a relation.
ghost use Rattle.std.specs.Prelude.{◌≡◌, ℕ, ◌<◌, ◌≤◌, IsSome, OnOk, max};
ghost use Rattle.part_raw.specs.declared.tuple_ref.TupleRef.{TupleRef};
ghost use Rattle.mm_relation.specs.Order.{KeysDiffer};
ghost use Rattle.mm_relation.specs.Reading.{value_at, hash_at};
ghost use Rattle.mm_relation.specs.Indexes.{declaration_of, room_in, sure, CoversIn, spares_in, HasFewSpares, seen, Awaits, Gains, Has, Loses};

use crate::linked_keys::LinkedKeys;
use crate::numbers::DeclaredIndex;
use crate::order::{ColumnOrder, value_in};
use crate::rows::Rows;
use crate::spares::{shed_hash, shed_tree};
use crate::tree::Tree;
use lin_hash::RowHash;
use mm_index::OrderProbe;
use no_memory::NoMemory;
use part_raw::{MAX_TUPLES, TupleRef};
use plain_tables::{ColumnNumber, IndexKind, hash_of, low_bits};

/// What stands on a column: the rows in the order of their values there, or under the hash of these.
#[derive(Drop)]
pub enum Index {
    Tree(Tree),
    Hash(RowHash),
}

/// A declared index: its column, and the tree or the hash that stands on it.
#[derive(Drop)]
pub struct IndexOn {
    pub column: ColumnNumber,
    pub index: Index,
}

// The hash under which a row's value in a column stands.
pub fn hash_in<R: LinkedKeys>(rows: &Rows, others: &R, column: ColumnNumber, r: TupleRef) -> u32
    requires { IsSome (value_at (R.keys others.now) column.0 rows.now.tuples r) }
    ensures { result ≡ hash_at (R.keys others.now) column.0 rows.now.tuples r }
{
    low_bits(hash_of(value_in(rows, others, column, r)))
}

impl IndexOn {
    // How it was declared.
    pub fn declaration(&self) -> DeclaredIndex
        ensures { result ≡ declaration_of self.now }
    {
        let kind = match self.index {
            Index::Tree(_) => IndexKind::Tree,
            Index::Hash(_) => IndexKind::Hash,
        };
        DeclaredIndex {
            column: self.column,
            kind,
        }
    }

    // Makes sure of memory for so many references more, and for no spare nodes beyond these.
    pub fn reserve(&mut self, n: usize) -> Result<(), NoMemory>
        requires { n ≤ 33554432 }
        ensures same { seen self.new ≡ seen self.old }
        ensures reserved { OnOk result (n ≤ room_in self.new.index) }
        ensures room { (t h : ℕ) → sure t h self.old.index ≤ room_in self.old.index → sure t h self.new.index ≤ room_in self.new.index }
        ensures kept { (q : TupleRef) → CoversIn q self.old.index → CoversIn q self.new.index }
        ensures spares { spares_in self.new.index ≤ max (spares_in self.old.index) n }
    {
        match &mut self.index {
            Index::Tree(tree) => tree.reserve(n),
            Index::Hash(hash) => hash.reserve(n),
        }
    }

    // Makes sure of memory for the node of a row's reference. A tree's nodes belong to no row.
    pub fn cover(&mut self, r: TupleRef) -> Result<(), NoMemory>
        requires { r.number < MAX_TUPLES }
        ensures same { seen self.new ≡ seen self.old }
        ensures room { (t h : ℕ) → sure t h self.old.index ≤ room_in self.old.index → sure t h self.new.index ≤ room_in self.new.index }
        ensures kept { (q : TupleRef) → CoversIn q self.old.index → CoversIn q self.new.index }
        ensures covered { OnOk result (CoversIn r self.new.index) }
    {
        match &mut self.index {
            Index::Tree(_) => Ok(()),
            Index::Hash(hash) => hash.cover(r),
        }
    }

    // Puts a row's reference in. It takes no memory.
    pub fn insert<R: LinkedKeys>(&mut self, rows: &Rows, others: &R, r: TupleRef)
        requires keys_differ { KeysDiffer rows.now.tuples }
        requires awaits { Awaits (R.keys others.now) rows.now.tuples r self.old }
        ensures { Gains (R.keys others.now) rows.now.tuples r self.old self.new }
    {
        let column = self.column;
        match &mut self.index {
            Index::Tree(tree) => {
                let order = ColumnOrder::beside(rows, others, column, r);
                tree.insert(&mut OrderProbe::new(&order, r));
            }
            Index::Hash(hash) => hash.insert(hash_in(rows, others, column, r), r),
        }
    }

    // Takes a row's reference out. It takes no memory.
    pub fn remove<R: LinkedKeys>(&mut self, rows: &Rows, others: &R, r: TupleRef)
        requires keys_differ { KeysDiffer rows.now.tuples }
        requires has { Has (R.keys others.now) rows.now.tuples r self.old }
        ensures { Loses (R.keys others.now) rows.now.tuples r self.old self.new }
    {
        let column = self.column;
        match &mut self.index {
            Index::Tree(tree) => {
                let order = ColumnOrder::beside(rows, others, column, r);
                tree.remove(&mut OrderProbe::new(&order, r));
            }
            Index::Hash(hash) => hash.remove(r),
        }
    }

    // Gives back what is spare, where that is more than what is in use.
    pub fn shed_spares(&mut self)
        ensures same { seen self.new ≡ seen self.old }
        ensures few { HasFewSpares self.new }
    {
        match &mut self.index {
            Index::Tree(tree) => shed_tree(tree),
            Index::Hash(hash) => shed_hash(hash),
        }
    }
}
