//! Values that are assigned to rows, where what stood in their cells is noted.
//!
//! As many rows are owed then, so setting the cells back takes no memory.
ghost use Rattle.std.specs.Prelude.{◌≡◌, ◌≢◌, ◌<◌, ◌⊎◌, ◌++◌, Some, IsSome, IfErr, OnOk, OnErr, All, drop, length, slice_get, take};
ghost use Rattle.std.specs.List.{AllPairs};
ghost use Rattle.std.specs.FinMap as finite;
ghost use Rattle.mm_relation.specs.Rows.{Row};
ghost use Rattle.mm_relation.specs.State.{RelationState};
ghost use Rattle.mm_catalog.specs.Assigned.{AreConsistent, AreToColumns, IsNotUpdated};
ghost use Rattle.mm_catalog.specs.Noted.{IsNoted, cells_at, cells_to};

use crate::catalog::Catalog;
use crate::hiding::owe_rows;
use crate::references::link::Link;
use crate::updating::{push_set, set_rows, shed_links};
use mm_relation::{Relation, StoredCell};
use no_memory::NoMemory;
use part_raw::TupleRef;
use plain_tables::{Assignment, ColumnNumber, Refusal, TableNumber};
use std::alloc::Global;

// Puts copies of a row's cells in the columns of these assignments behind the others. Where it finds no memory some of them are there.
fn copy_row(
    alloc: Global,
    relation: &Relation,
    r: TupleRef,
    assignments: &[Assignment],
    cells: &mut Vec<(ColumnNumber, StoredCell)>,
) -> Result<(), NoMemory>
    requires held { IsSome (finite.get relation.now.rows r) }
    requires columns { AreToColumns (length relation.now.targets) assignments.now }
    ensures copied { OnOk result ((row : Row) → finite.get relation.now.rows r ≡ Some row → cells.new.items ≡ cells.old.items ++ cells_to assignments.now row) }
    ensures others { OnErr result (take (length cells.old.items) cells.new.items ≡ cells.old.items) }
{
    for assignment in assignments {
        let cell = relation.cell_copy(alloc, r, assignment.column)?;
        push_set(cells, (assignment.column, cell))?;
    }
    Ok(())
}

// Puts copies of the cells of these rows in the columns of these assignments behind the others, one row's behind the other's. Where it
// finds no memory some of them are there.
fn copy_rows(
    alloc: Global,
    relation: &Relation,
    rows: &[TupleRef],
    assignments: &[Assignment],
    cells: &mut Vec<(ColumnNumber, StoredCell)>,
) -> Result<(), NoMemory>
    requires held { All (λ r. IsSome (finite.get relation.now.rows r)) rows.now }
    requires columns { AreToColumns (length relation.now.targets) assignments.now }
    ensures copied { OnOk result (cells.new.items ≡ cells.old.items ++ cells_at relation.now assignments.now rows.now) }
    ensures others { OnErr result (take (length cells.old.items) cells.new.items ≡ cells.old.items) }
{
    for r in rows {
        copy_row(alloc, relation, *r, assignments, cells)?;
    }
    Ok(())
}

// Assigns values to these rows of the relation of this number, which owes them then, and puts what stood in their cells behind the
// others. Where it is refused some of them are there.
fn set_and_note(
    alloc: Global,
    relations: &mut [Relation],
    table: TableNumber,
    rows: &[TupleRef],
    assignments: &[Assignment],
    sets: &mut Vec<(ColumnNumber, StoredCell)>,
    lost: &mut Vec<Link>,
    cells: &mut Vec<(ColumnNumber, StoredCell)>,
) -> Result<(), Refusal>
    requires there { table.0 < length relations.old }
    requires consistent { AreConsistent relations.old }
    requires columns { (s : RelationState) → slice_get relations.old table.0 ≡ Some s → AreToColumns (length s.targets) assignments.now }
    requires held { (s : RelationState) → slice_get relations.old table.0 ≡ Some s → All (λ r. IsSome (finite.get s.rows r)) rows.now }
    requires once { AllPairs (λ q r. q ≢ r) rows.now }
    ensures noted { OnOk result (IsNoted relations.old relations.new table.0 rows.now assignments.now (drop (length cells.old.items) cells.new.items)) }
    ensures others { take (length cells.old.items) cells.new.items ≡ cells.old.items }
    ensures unchanged { OnErr result (relations.new ≡ relations.old) }
    ensures refused { IfErr result (λ refusal. (refusal ≡ Refusal.NoMemory) ⊎ IsNotUpdated relations.old table.0 assignments.now refusal) }
{
    copy_rows(alloc, &relations[table.0], rows, assignments, cells)?;
    owe_rows(&mut relations[table.0], rows.len())?;
    let answer = set_rows(alloc, relations, table, rows, assignments, sets, lost);
    match answer {
        Ok(()) => Ok(()),
        Err(refusal) => {
            relations[table.0].forgive(rows.len() as u64);
            Err(refusal)
        }
    }
}

// Where there is a refusal, takes the cells behind the first ones out again.
fn keep_if_done(
    cells: &mut Vec<(ColumnNumber, StoredCell)>,
    start: usize,
    answer: &Result<(), Refusal>,
)
    ensures done { OnOk answer.now (cells.new.items ≡ cells.old.items) }
    ensures refused { OnErr answer.now (cells.new.items ≡ take start cells.old.items) }
{
    if answer.is_err() {
        cells.truncate(start);
    }
}

impl Catalog {
    ghost use Rattle.std.specs.Prelude.{Bool};
    ghost use Rattle.plain_tables.specs.Doing as doing;
    ghost use Rattle.plain_tables.specs.Effects.{Refused};
    ghost use Rattle.plain_tables.specs.ResolvedLaws.{AreAssignable, OfTable};
    ghost use Rattle.plain_tables.specs.Tables.{Row as PlainRow};
    ghost use Rattle.mm_catalog.specs.Changes.{HasEffect};
    ghost use Rattle.mm_catalog.specs.Outline.{HaveChanged};
    ghost use Rattle.mm_catalog.specs.Picked.{ArePicked, HoldsRows};
    ghost use Rattle.mm_catalog.specs.Seen.{database_of};

    /// Assigns values to rows of a table as `update` does, and puts what stood in their cells behind those of a list, one row's cells
    /// behind the other's. The rows are owed then, so that the cells can be set back. It finds no memory also where more than 16,777,216
    /// rows of the table are owed then.
    pub fn update_noted(
        &mut self,
        table: TableNumber,
        rows: &[TupleRef],
        assignments: &[Assignment],
        cells: &mut Vec<(ColumnNumber, StoredCell)>,
    ) -> Result<(), Refusal>
        requires meant { OfTable table (database_of self.old) (AreAssignable (database_of self.old) assignments.now) }
        requires held { HoldsRows self.old table.0 rows.now }
        requires once { AllPairs (λ q r. q ≢ r) rows.now }
        ensures updated { OnOk result ((picks : PlainRow → Bool) → ArePicked self.old table.0 rows.now picks → HasEffect self.old self.new (doing.update (database_of self.old) table assignments.now picks) (length rows.now)) }
        ensures noted { OnOk result (HaveChanged self.old self.new table.0 rows.now (length assignments.now) cells.old.items cells.new.items) }
        ensures refused { IfErr result (λ refusal. (refusal ≡ Refusal.NoMemory) ⊎ ((picks : PlainRow → Bool) → (doing.update (database_of self.old) table assignments.now picks).outcome ≡ Refused refusal)) }
        ensures unchanged { OnErr result (self.new ≡ self.old) }
        ensures list { OnErr result (cells.new.items ≡ cells.old.items) }
    {
        let alloc = *self.relations.allocator();
        let start = cells.len();
        let answer = set_and_note(
            alloc,
            self.relations.as_mut_slice(),
            table,
            rows,
            assignments,
            &mut self.sets,
            &mut self.lost,
            cells,
        );
        keep_if_done(cells, start, &answer);
        shed_links(alloc, &mut self.lost, rows.len());
        answer
    }
}
