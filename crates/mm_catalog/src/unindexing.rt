//! An index that is taken out of a table whole, and put back with no memory.
ghost use Rattle.std.specs.Prelude.{◌≡◌, ◌<◌, Some, IsTrue, IfOk, OnErr, length, slice_get, take};
ghost use Rattle.mm_relation.specs.Changes.{has_declared_on};
ghost use Rattle.mm_relation.specs.Declaring.{declaration};
ghost use Rattle.mm_relation.specs.State.{RelationState, linked_keys};
ghost use Rattle.mm_relation.specs.Taken.{HasPlaceFor, IsServedBy, IsTaken, with_index};
ghost use Rattle.mm_catalog.specs.Changes.{IsChangedAt, IsCurrentAt};

use crate::catalog::Catalog;
use mm_relation::laws::a_relation_is_kept;
use mm_relation::{DroppedIndex, Relation};
use mm_resolver::Schemas;
use no_memory::NoMemory;
use plain_tables::{ColumnNumber, IndexKind, TableNumber};

// Takes an index out of the relation of this number.
fn take_index(
    relations: &mut [Relation],
    table: TableNumber,
    column: ColumnNumber,
    kind: IndexKind,
) -> Result<DroppedIndex, NoMemory>
    requires there { table.0 < length relations.old }
    requires declared { (s : RelationState) → slice_get relations.old table.0 ≡ Some s → IsTrue (has_declared_on s column.0 kind) }
    requires current { IsCurrentAt relations.old table.0 }
    ensures taken { IfOk result (λ d. IsChangedAt relations.old relations.new table.0 (λ old new. IsTaken old new (declaration column kind) d)) }
    ensures unchanged { OnErr result (relations.new ≡ relations.old) }
{
    let relation = &mut relations[table.0];
    let index = relation.take_index(column, kind)?;
    a_relation_is_kept(relation);
    Ok(index)
}

// Puts an index back into the relation of this number. It takes no memory.
fn put_index(relations: &mut [Relation], table: TableNumber, index: DroppedIndex)
    requires there { table.0 < length relations.old }
    requires place { (s : RelationState) → slice_get relations.old table.0 ≡ Some s → HasPlaceFor s index }
    requires served { (s : RelationState) → slice_get relations.old table.0 ≡ Some s → IsServedBy (linked_keys s.targets (take table.0 relations.old)) s index }
    requires current { IsCurrentAt relations.old table.0 }
    ensures { IsChangedAt relations.old relations.new table.0 (λ old new. new ≡ with_index old index) }
{
    let relation = &mut relations[table.0];
    relation.put_index(index);
    a_relation_is_kept(relation);
}

impl Catalog {
    ghost use Rattle.plain_tables.specs.ResolvedLaws.{IsMeant};
    ghost use Rattle.plain_tables.specs.declared.resolved.Resolved.TheVariants as resolved;
    ghost use Rattle.mm_catalog.specs.Changes.{IsDone};
    ghost use Rattle.mm_catalog.specs.Outline.{IsOutline, outline_of};
    ghost use Rattle.mm_catalog.specs.Seen.{database_of};
    ghost use Rattle.mm_catalog.specs.Unindexed.{CanHaveIndex, HasIndexLess, has_index, with_index_of};
    ghost use Rattle.std.specs.Prelude.{OnOk};

    /// Whether a table has a declared index of this kind on this column. The tree of its key is none.
    pub fn has_index(&self, table: TableNumber, column: ColumnNumber, kind: IndexKind) -> bool
        requires { table.0 < length (database_of self.now) }
        ensures { result ≡ has_index (database_of self.now) table.0 column kind }
    {
        self.declares(table, column, kind)
    }

    /// Drops an index of a table, and gives it with all that putting it back needs. It takes memory that doesn't grow with the rows.
    pub fn take_index_out(
        &mut self,
        table: TableNumber,
        column: ColumnNumber,
        kind: IndexKind,
    ) -> Result<DroppedIndex, NoMemory>
        requires meant { IsMeant self.old.limits (database_of self.old) (resolved.DropIndex table column kind) }
        requires declared { IsTrue (has_index (database_of self.old) table.0 column kind) }
        ensures done { OnOk result (IsDone self.old self.new (resolved.DropIndex table column kind)) }
        ensures taken { IfOk result (λ d. HasIndexLess (outline_of self.old) (outline_of self.new) table.0 d) }
        ensures unchanged { OnErr result (self.new ≡ self.old) }
    {
        take_index(self.relations.as_mut_slice(), table, column, kind)
    }

    /// Puts an index back into a table, at its place among the declared ones. It takes no memory, and never fails.
    pub fn put_index_back(&mut self, table: TableNumber, index: DroppedIndex)
        requires can { CanHaveIndex (outline_of self.old) table.0 index }
        requires stands { IsOutline (with_index_of table.0 index (outline_of self.old)) }
        ensures { outline_of self.new ≡ with_index_of table.0 index (outline_of self.old) }
    {
        put_index(self.relations.as_mut_slice(), table, index)
    }
}
