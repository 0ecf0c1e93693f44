//! How the indexes of a table stand.
ghost use Rattle.std.specs.Prelude.{◌≡◌, ◌<◌, ◌≤◌, ◌∷◌, Some, length, slice_get};
ghost use Rattle.std.specs.Option.{option_map};
ghost use Rattle.plain_tables.specs.References.{all_indexes};
ghost use Rattle.plain_tables.specs.Tables.{Table};
ghost use Rattle.mm_catalog.specs.Seen.{database_of};
ghost use Rattle.mm_catalog.specs.Indexes.{key_tree, TellsIndex};

use crate::catalog::Catalog;
use crate::laws::a_catalog_is_consistent;
use mm_relation::{DeclaredIndex, HashShape, Relation, Relations, TreeShape};
use plain_tables::{ColumnNumber, IndexKind, TableNumber};

/// How an index stands, by its kind.
#[derive(Clone, Copy)]
pub enum IndexShape {
    Tree(TreeShape),
    Hash(HashShape),
}

/// An index of a table: its column, and how it stands.
#[derive(Clone, Copy)]
pub struct TableIndex {
    pub column: ColumnNumber,
    pub shape: IndexShape,
}

// One of the indexes of a relation as it was declared, behind the tree of the key, which is a declaration of itself.
fn declaration_at(relation: &Relation, number: usize) -> DeclaredIndex
    requires { number ≤ length relation.now.declared }
    ensures { slice_get (key_tree ∷ relation.now.declared) number ≡ Some result }
{
    match number.checked_sub(1) {
        Some(behind) => relation.declared()[behind],
        None => DeclaredIndex {
            column: ColumnNumber(0),
            kind: IndexKind::Tree,
        },
    }
}

impl Catalog {
    /// How many indexes a table has: the tree of its key, and the declared ones.
    pub fn index_count(&self, table: TableNumber) -> usize
        requires { table.0 < length (database_of self.now) }
        ensures { option_map (λ t. length (all_indexes t)) (slice_get (database_of self.now) table.0) ≡ Some result }
    {
        1 + self.declared(table).len()
    }

    /// One index of a table, by its number: the tree of its key is the first, and behind it stand the declared ones in the
    /// order of their declaration. It takes no memory.
    pub fn index_at(&self, table: TableNumber, number: usize) -> TableIndex
        requires table { table.0 < length (database_of self.now) }
        requires number { (t : Table) → slice_get (database_of self.now) table.0 ≡ Some t → number < length (all_indexes t) }
        ensures { TellsIndex self.now table.0 number result }
    {
        a_catalog_is_consistent(self);
        let relation = self.at(table);
        let DeclaredIndex { column, kind } = declaration_at(relation, number);
        let shape = match kind {
            IndexKind::Tree => IndexShape::Tree(relation.tree_shape(column)),
            IndexKind::Hash => IndexShape::Hash(relation.hash_shape(column)),
        };
        TableIndex { column, shape }
    }
}
