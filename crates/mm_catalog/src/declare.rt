//! Indexes of one relation among those before it.
ghost use Rattle.std.specs.Prelude.{◌≡◌, ◌<◌, Some, OnOk, OnErr, length, slice_get};
ghost use Rattle.mm_relation.specs.State.{RelationState};
ghost use Rattle.mm_relation.specs.Declaring.{declaration, IsDeclared, without_index};
ghost use Rattle.mm_catalog.specs.Changes.{IsChangedAt, IsCurrentAt};

use crate::before::Before;
use mm_relation::Relation;
use mm_relation::laws::a_relation_is_kept;
use no_memory::NoMemory;
use plain_tables::{ColumnNumber, IndexKind, TableNumber};

// Declares an index of the relation of this number.
pub fn declare(
    relations: &mut [Relation],
    table: TableNumber,
    column: ColumnNumber,
    kind: IndexKind,
) -> Result<(), NoMemory>
    requires there { table.0 < length relations.old }
    requires column { (s : RelationState) → slice_get relations.old table.0 ≡ Some s → column.0 < length s.targets }
    requires current { IsCurrentAt relations.old table.0 }
    ensures declared { OnOk result (IsChangedAt relations.old relations.new table.0 (λ old new. IsDeclared old new (declaration column kind))) }
    ensures unchanged { OnErr result (relations.new ≡ relations.old) }
{
    let (before, rest) = relations.split_at_mut(table.0);
    let others = Before { relations: before };
    let relation = &mut rest[0];
    relation.add_index(&others, column, kind)?;
    a_relation_is_kept(relation);
    Ok(())
}

// Drops an index of the relation of this number. It takes no memory.
pub fn undeclare(
    relations: &mut [Relation],
    table: TableNumber,
    column: ColumnNumber,
    kind: IndexKind,
)
    requires there { table.0 < length relations.old }
    requires current { IsCurrentAt relations.old table.0 }
    ensures { IsChangedAt relations.old relations.new table.0 (λ old new. new ≡ without_index old (declaration column kind)) }
{
    let relation = &mut relations[table.0];
    relation.drop_index(column, kind);
    a_relation_is_kept(relation);
}
