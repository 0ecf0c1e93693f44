//! Cells of rows that are set to what they were.
//!
//! The cells that an update replaces are kept by the caller, row by row. As many rows are owed, so setting the cells back takes no
//! memory.
ghost use Rattle.std.specs.Prelude.{◌≡◌, ◌*◌, ◌<◌, Some, IsSome, All, length, slice_get, take};
ghost use Rattle.std.specs.FinMap as finite;
ghost use Rattle.mm_relation.specs.Rows.{Row};
ghost use Rattle.mm_relation.specs.State.{RelationState, IsKept, IsCurrent, linked_keys};
ghost use Rattle.mm_relation.specs.Changes.{IsChangedBack};
ghost use Rattle.mm_catalog.specs.Assigned.{row_links_at};
ghost use Rattle.mm_catalog.specs.ChangedBack.{AreChangedBack, AreChangedBackAt, AreRelinked, CanAllBeChangedBack, CanBeChangedBack};
ghost use Rattle.mm_catalog.specs.Counted.{AreCountedBy, HaveAtLeast, IsHeldIn, naming, none};

use crate::before::Before;
use crate::catalog::Catalog;
use crate::references::counting::count_down;
use crate::references::link::link_in;
use crate::updating::count_up_sets;
use mm_relation::laws::a_relation_is_kept;
use mm_relation::{Relation, StoredCell};
use part_raw::TupleRef;
use plain_tables::{ColumnNumber, TableNumber};

// One referrer less for each row that a link of this row names in the columns of these cells.
fn count_down_sets(
    before: &mut [Relation],
    relation: &Relation,
    r: TupleRef,
    sets: &[(ColumnNumber, StoredCell)],
)
    requires kept { All IsKept before.old }
    requires held { IsSome (finite.get relation.now.rows r) }
    requires columns { All (λ s. s.0.0 < length relation.now.targets) sets.now }
    requires named { (row : Row) → finite.get relation.now.rows r ≡ Some row → All (IsHeldIn before.old) (row_links_at relation.now.targets sets.now row) }
    requires enough { (row : Row) → finite.get relation.now.rows r ≡ Some row → HaveAtLeast before.old (naming (row_links_at relation.now.targets sets.now row)) }
    ensures { (row : Row) → finite.get relation.now.rows r ≡ Some row → AreCountedBy before.old before.new none (naming (row_links_at relation.now.targets sets.now row)) }
{
    let row = relation.row(r);
    for (column, _) in sets {
        if let Some(link) = link_in(relation, &row, *column) {
            count_down(before, link);
        }
    }
}

// Sets cells of a row of a relation to what they were, and counts the links that come and go in the relations before it.
fn change_row_back(
    before: &mut [Relation],
    relation: &mut Relation,
    r: TupleRef,
    sets: &mut [(ColumnNumber, StoredCell)],
)
    requires { CanBeChangedBack before.old relation.old r sets.old }
    ensures changed { IsChangedBack relation.old relation.new r sets.old }
    ensures linked { AreRelinked before.old before.new relation.old relation.new (length sets.old) }
    ensures kept { IsKept relation.new }
    ensures current { IsCurrent (linked_keys relation.old.targets before.old) relation.new }
{
    count_up_sets(before, relation, sets, 1);
    count_down_sets(before, relation, r, sets);
    relation.change_back(&Before { relations: before }, r, sets);
    a_relation_is_kept(relation);
}

// Sets cells of rows of a relation to what they were, where each row has so many, one row's behind the other's.
fn change_each_back(
    before: &mut [Relation],
    relation: &mut Relation,
    rows: &[TupleRef],
    width: usize,
    cells: &mut [(ColumnNumber, StoredCell)],
)
    requires { CanAllBeChangedBack before.old relation.old rows.now width cells.old }
    ensures linked { AreRelinked before.old before.new relation.old relation.new (length rows.now * width) }
    ensures changed { AreChangedBack relation.old relation.new rows.now width cells.old }
    ensures kept { IsKept relation.new }
    ensures current { IsCurrent (linked_keys relation.old.targets before.old) relation.new }
{
    a_relation_is_kept(relation);
    for k in 0..rows.len() {
        let start = k * width;
        change_row_back(before, relation, rows[k], &mut cells[start..start + width]);
    }
}

// Sets cells of rows of the relation of this number to what they were, where each row has so many, one row's behind the other's. Its
// links lead into the relations before it. It takes no memory.
fn change_rows_back(
    relations: &mut [Relation],
    table: TableNumber,
    rows: &[TupleRef],
    width: usize,
    cells: &mut [(ColumnNumber, StoredCell)],
)
    requires there { table.0 < length relations.old }
    requires fit { (s : RelationState) → slice_get relations.old table.0 ≡ Some s → CanAllBeChangedBack (take table.0 relations.old) s rows.now width cells.old }
    ensures { AreChangedBackAt relations.old relations.new table.0 rows.now width cells.old }
{
    let (before, rest) = relations.split_at_mut(table.0);
    change_each_back(before, &mut rest[0], rows, width, cells);
}

impl Catalog {
    ghost use Rattle.mm_catalog.specs.Outline.{IsOutline, OwesCells, outline_of, with_changed_back};

    /// Sets cells of rows of a table to what they were, where each row has so many, one row's behind the other's, and a catalog can
    /// have them so. The rows are owed no longer. It takes no memory, and never fails.
    pub fn change_back(
        &mut self,
        table: TableNumber,
        rows: &[TupleRef],
        width: usize,
        cells: &mut [(ColumnNumber, StoredCell)],
    )
        requires owes { OwesCells (outline_of self.old) table.0 rows.now width cells.old }
        requires stands { IsOutline (with_changed_back table.0 rows.now width cells.old (outline_of self.old)) }
        ensures { outline_of self.new ≡ with_changed_back table.0 rows.now width cells.old (outline_of self.old) }
    {
        change_rows_back(self.relations.as_mut_slice(), table, rows, width, cells)
    }
}
