//! Relations that are told where their links lead, as a table goes from before them or comes back.
ghost use Rattle.std.specs.Prelude.{◌≡◌, ◌<◌, ◌≤◌, ◌^◌, ◌++◌, ℕ, Some, All, length, map, take, drop};
ghost use Rattle.mm_catalog.specs.Linked.{target_at};
ghost use Rattle.mm_catalog.specs.Dropped.{moved_by, with_column_moved, renumbered, CanBeRenumbered};

use mm_relation::{ColumnNumber, Relation, TableNumber};

/// What moves the numbers of tables.
#[derive(Clone, Copy)]
pub enum Renumbering {
    /// The table of this number is gone.
    Gone(TableNumber),
    /// A table comes back at this number.
    Back(TableNumber),
}

// The number that a table has then.
fn moved(renumbering: Renumbering, table: TableNumber) -> TableNumber
    requires { table.0 < 2 ^ 63 }
    ensures { result.0 ≡ moved_by renumbering table.0 }
{
    match renumbering {
        Renumbering::Gone(gone) => {
            if table.0 > gone.0 {
                TableNumber(table.0 - 1)
            } else {
                table
            }
        }
        Renumbering::Back(back) => {
            if table.0 >= back.0 {
                TableNumber(table.0 + 1)
            } else {
                table
            }
        }
    }
}

// Tells a relation where the links of a column lead.
fn renumber_column(relation: &mut Relation, column: ColumnNumber, renumbering: Renumbering)
    requires there { column.0 < length relation.old.targets }
    requires small { (table : ℕ) → target_at relation.old.targets column.0 ≡ Some table → table < 2 ^ 63 }
    ensures { relation.new ≡ with_column_moved (moved_by renumbering) column.0 relation.old }
{
    if let Some(table) = relation.target(column) {
        relation.set_target(column, moved(renumbering, table));
    }
}

// Tells a relation where its links lead.
fn renumber(relation: &mut Relation, renumbering: Renumbering)
    requires { CanBeRenumbered relation.old }
    ensures { relation.new ≡ renumbered (moved_by renumbering) relation.old }
{
    for column in 0..relation.schema().columns.len() {
        renumber_column(relation, ColumnNumber(column), renumbering);
    }
}

/// Tells the relations from this number on where their links lead.
pub fn renumber_from(relations: &mut [Relation], first: TableNumber, renumbering: Renumbering)
    requires there { first.0 ≤ length relations.old }
    requires can { All CanBeRenumbered relations.old }
    ensures { relations.new ≡ take first.0 relations.old ++ map (renumbered (moved_by renumbering)) (drop first.0 relations.old) }
{
    let (_, behind) = relations.split_at_mut(first.0);
    for relation in behind.iter_mut() {
        renumber(relation, renumbering);
    }
}
