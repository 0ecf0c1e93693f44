//! What was done in the open transactions, and how it is undone.
ghost use Rattle.std.specs.Prelude.{Bool, true, false, ◌≡◌, ◌≢◌, ◌⊎◌, ◌+◌, ◌<◌, ◌≤◌, ◌∷◌, ◌++◌, ℕ, [], MatchOption, IfErr, OnOk, OnErr, drop, length, take, vec_capacity};
ghost use Rattle.std.specs.List.{AllPairs};
ghost use Rattle.part_raw.specs.declared.tuple_ref.TupleRef.{TupleRef};
ghost use Rattle.mm_catalog.specs.DroppedTables.{CanHaveTable, with_table};
ghost use Rattle.mm_catalog.specs.Unindexed.{CanHaveIndex, with_index_of};
ghost use Rattle.mm_catalog.specs.Outline.{HoldsOnce, IsOutline, outline_of, without_rows};
ghost use Rattle.mm_transactions.specs.Log.{change_of};
ghost use Rattle.mm_transactions.specs.Undoing.{IsReady, before, keeps_tables};

use crate::lodged::{Lodged, Lodging};
use crate::step::{Kind, Step, note, take_arrivals, take_newest};
use mm_catalog::laws::a_catalog_is_consistent;
use mm_catalog::{Catalog, DroppedTable};
use mm_relation::{DroppedIndex, LEAST_IN_ORDER, Relations, SlotSet, StoredCell};
use no_memory::NoMemory;
use part_raw::TupleRef;
use plain_tables::{
    Assignment, ColumnNumber, IndexKind, Refusal, RowList, Schema, TableNumber, Text, Value,
};
use std::alloc::Global;
use std::marker::Model;

// The most steps, and the most references, that a log keeps memory for when no transaction is open.
const KEPT: usize = 256;

// A set that has memory for this slot is not kept then.
const KEPT_SLOTS: u32 = 65_536;

/// The steps of the open transactions.
#[derive(Drop)]
pub struct UndoLog {
    steps: Vec<Step>,
    // How many commands they are.
    commands: usize,
    // The references of all steps, one behind the other.
    refs: Vec<TupleRef>,
    // What stood in the cells that all steps changed, one behind the other.
    cells: Vec<(ColumnNumber, StoredCell)>,
    // How many commands there were when each transaction began, the innermost last.
    marks: Vec<usize>,
    // Room to tell apart the rows that go out in a rollback, where they are many.
    slots: SlotSet,
}

impl Model for UndoLog {
    ghost use Rattle.std.specs.Prelude.{reverse, length};
    ghost use Rattle.plain_tables.specs.contracts.numbers.ColumnNumber.{the_row as column_row};
    ghost use Rattle.mm_relation.specs.contracts.numbers.DeclaredIndex.{the_row as index_row};
    ghost use Rattle.mm_relation.specs.contracts.row.Cell.{the_row as cell_row};
    ghost use Rattle.mm_relation.specs.contracts.taken.DroppedIndex.{the_row as dropped_row};
    ghost use Rattle.mm_catalog.specs.contracts.dropped_table.DroppedTable.{the_row as table_row};
    ghost use Rattle.mm_transactions.specs.Log.{LogState, changes_of, ArePlaced, log_code};
    ghost use Rattle.mm_transactions.specs.Parts.{change_code};

    ghost Value = { LogState };

    ghost coded = { log_code (change_code column_row.coded cell_row.coded table_row.coded index_row.coded dropped_row.coded) };

    ghost view = { λ l. record { changes = changes_of (reverse l.steps.items) l.refs.items l.cells.items; marks = reverse l.marks.items } };

    ghost invariant = { λ l. ArePlaced (reverse l.steps.items) l.refs.items l.cells.items l.commands };
}

impl UndoLog {
    ghost use Rattle.plain_tables.specs.Doing.{done};
    ghost use Rattle.plain_tables.specs.ResolvedLaws.{AreAssignable, IsMeant, OfTable};
    ghost use Rattle.plain_tables.specs.declared.resolved.Resolved.TheVariants as resolved;
    ghost use Rattle.mm_catalog.specs.Changes.{IsDone, HasEffect, IsRefusedFor, IsDeclinedFor};
    ghost use Rattle.mm_catalog.specs.Picked.{ArePicked, HoldsRows};
    ghost use Rattle.mm_catalog.specs.Seen.{database_of};
    ghost use Rattle.plain_tables.specs.Doing as doing;
    ghost use Rattle.plain_tables.specs.Effects.{Refused};
    ghost use Rattle.plain_tables.specs.Tables.{Row};
    ghost use Rattle.mm_catalog.specs.Settled.{settled_catalog};
    ghost use Rattle.mm_transactions.specs.Log.{AreNoted, AreSettled, AreUndone, IsNoted, IsUndone};
    ghost use Rattle.mm_transactions.specs.Undoing.{CanUndo, HaveSameTables, undone};

    /// No steps, and no transaction. It takes no memory.
    pub fn new(alloc: Global) -> UndoLog
        ensures changes { result.changes ≡ [] }
        ensures marks { result.marks ≡ [] }
    {
        UndoLog {
            steps: Vec::new(alloc),
            commands: 0,
            refs: Vec::new(alloc),
            cells: Vec::new(alloc),
            marks: Vec::new(alloc),
            slots: SlotSet::new(alloc),
        }
    }

    /// How many commands there are.
    pub fn len(&self) -> usize
        ensures { result ≡ length self.now.changes }
    {
        self.commands
    }

    /// How many transactions are open.
    pub fn depth(&self) -> usize
        ensures { result ≡ length self.now.marks }
    {
        self.marks.len()
    }

    /// Opens a transaction in those that are open.
    pub fn open(&mut self) -> Result<(), NoMemory>
        ensures changes { self.new.changes ≡ self.old.changes }
        ensures opened { OnOk result (self.new.marks ≡ length self.old.changes ∷ self.old.marks) }
        ensures unchanged { OnErr result (self.new ≡ self.old) }
    {
        self.marks.push(self.commands)?;
        Ok(())
    }

    /// Closes the innermost transaction, and tells how many commands there were when it began.
    pub fn close(&mut self) -> Option<usize>
        ensures changes { self.new.changes ≡ self.old.changes }
        ensures closed { MatchOption result ((self.old.marks ≡ []) × (self.new ≡ self.old)) (λ mark. self.old.marks ≡ mark ∷ self.new.marks) }
    {
        self.marks.pop()
    }

    /// If no transaction is open, forgets the steps, and frees the memory that they took if it is much.
    pub fn forget(&mut self)
        ensures marks { self.new.marks ≡ self.old.marks }
        ensures inside { self.old.marks ≢ [] → self.new ≡ self.old }
        ensures outside { self.old.marks ≡ [] → self.new.changes ≡ [] }
    {
        if self.marks.is_empty() {
            empty_list(&mut self.steps);
            empty_list(&mut self.refs);
            empty_list(&mut self.cells);
            self.commands = 0;
            if self.slots.covers(KEPT_SLOTS) {
                self.slots = SlotSet::new(*self.steps.allocator());
            }
        }
    }

    /// If no transaction is open, lets go what the steps set aside in the catalog, and forgets them. It takes no memory.
    pub fn settle(&mut self, catalog: &mut Catalog)
        ensures marks { self.new.marks ≡ self.old.marks }
        ensures inside { self.old.marks ≢ [] → (self.new ≡ self.old) × (catalog.new ≡ catalog.old) }
        ensures outside { self.old.marks ≡ [] → (self.new.changes ≡ []) × (catalog.new ≡ settled_catalog catalog.old) }
        ensures catalog { AreSettled catalog.old catalog.new }
    {
        if !self.marks.is_empty() {
            return;
        }
        catalog.settle();
        self.forget();
    }

    /// Inserts a row into a table of a catalog, and notes it.
    pub fn insert(
        &mut self,
        catalog: &mut Catalog,
        table: TableNumber,
        values: &[Value],
    ) -> Result<(), Refusal>
        requires { IsMeant catalog.old.limits (database_of catalog.old) (resolved.Insert table values.now) }
        ensures inserted { OnOk result (HasEffect catalog.old catalog.new (done catalog.old.limits (database_of catalog.old) (resolved.Insert table values.now)) 1) }
        ensures noted { OnOk result (IsNoted (outline_of catalog.old) (outline_of catalog.new) self.old self.new) }
        ensures refused { IfErr result (IsRefusedFor catalog.old catalog.new (done catalog.old.limits (database_of catalog.old) (resolved.Insert table values.now))) }
        ensures unchanged { OnErr result (self.new ≡ self.old) }
    {
        make_room(&mut self.steps, &mut self.refs, 1)?;
        let r = catalog.insert_row(table, values)?;
        let step = Step {
            kind: Kind::Came { more: 0 },
            table,
            start: self.refs.len(),
            cells_start: self.cells.len(),
        };
        self.refs.push_reserved(r);
        note(&mut self.steps, step, 1);
        self.commands += 1;
        cover_many(&mut self.slots, self.refs.len(), catalog, table);
        Ok(())
    }

    /// Loads rows into a table of a catalog, and notes them.
    pub fn load_rows(
        &mut self,
        catalog: &mut Catalog,
        table: TableNumber,
        rows: RowList,
    ) -> Result<(), Refusal>
        requires { IsMeant catalog.old.limits (database_of catalog.old) (resolved.Load table rows) }
        ensures loaded { OnOk result (HasEffect catalog.old catalog.new (done catalog.old.limits (database_of catalog.old) (resolved.Load table rows)) (length rows)) }
        ensures noted { OnOk result (IsNoted (outline_of catalog.old) (outline_of catalog.new) self.old self.new) }
        ensures refused { IfErr result (IsDeclinedFor catalog.old catalog.new (done catalog.old.limits (database_of catalog.old) (resolved.Load table rows))) }
        ensures outline { OnErr result (outline_of catalog.new ≡ outline_of catalog.old) }
        ensures unchanged { OnErr result (self.new ≡ self.old) }
    {
        make_room(&mut self.steps, &mut self.refs, 0)?;
        let start = self.refs.len();
        let cells_start = self.cells.len();
        catalog.load_listed(table, rows, &mut self.refs)?;
        let end = self.refs.len();
        let step = Step {
            kind: Kind::Came { more: 0 },
            table,
            start,
            cells_start,
        };
        note(&mut self.steps, step, end - start);
        self.commands += 1;
        cover_many(&mut self.slots, end, catalog, table);
        Ok(())
    }

    /// Deletes rows of a table of a catalog, which are hidden there, and notes them.
    pub fn delete(
        &mut self,
        catalog: &mut Catalog,
        table: TableNumber,
        rows: &[TupleRef],
    ) -> Result<(), Refusal>
        requires there { table.0 < length (database_of catalog.old) }
        requires held { HoldsRows catalog.old table.0 rows.now }
        requires once { AllPairs (λ q r. q ≢ r) rows.now }
        ensures deleted { OnOk result ((picks : Row → Bool) → ArePicked catalog.old table.0 rows.now picks → HasEffect catalog.old catalog.new (doing.delete (database_of catalog.old) table picks) (length rows.now)) }
        ensures noted { OnOk result (IsNoted (outline_of catalog.old) (outline_of catalog.new) self.old self.new) }
        ensures refused { IfErr result (λ refusal. (refusal ≡ Refusal.NoMemory) ⊎ ((picks : Row → Bool) → ArePicked catalog.old table.0 rows.now picks → (doing.delete (database_of catalog.old) table picks).outcome ≡ Refused refusal)) }
        ensures kept { OnErr result (catalog.new ≡ catalog.old) }
        ensures unchanged { OnErr result (self.new ≡ self.old) }
    {
        make_room(&mut self.steps, &mut self.refs, rows.len())?;
        catalog.hide(table, rows)?;
        let start = self.refs.len();
        let cells_start = self.cells.len();
        note_rows(&mut self.refs, rows);
        let step = Step {
            kind: Kind::Went { more: 0 },
            table,
            start,
            cells_start,
        };
        note(&mut self.steps, step, rows.len());
        self.commands += 1;
        Ok(())
    }

    /// Assigns values to rows of a table of a catalog, and notes what stood in their cells.
    pub fn update(
        &mut self,
        catalog: &mut Catalog,
        table: TableNumber,
        rows: &[TupleRef],
        assignments: &[Assignment],
    ) -> Result<(), Refusal>
        requires meant { OfTable table (database_of catalog.old) (AreAssignable (database_of catalog.old) assignments.now) }
        requires held { HoldsRows catalog.old table.0 rows.now }
        requires once { AllPairs (λ q r. q ≢ r) rows.now }
        ensures updated { OnOk result ((picks : Row → Bool) → ArePicked catalog.old table.0 rows.now picks → HasEffect catalog.old catalog.new (doing.update (database_of catalog.old) table assignments.now picks) (length rows.now)) }
        ensures noted { OnOk result (IsNoted (outline_of catalog.old) (outline_of catalog.new) self.old self.new) }
        ensures refused { IfErr result (λ refusal. (refusal ≡ Refusal.NoMemory) ⊎ ((picks : Row → Bool) → (doing.update (database_of catalog.old) table assignments.now picks).outcome ≡ Refused refusal)) }
        ensures kept { OnErr result (catalog.new ≡ catalog.old) }
        ensures unchanged { OnErr result (self.new ≡ self.old) }
    {
        make_room(&mut self.steps, &mut self.refs, rows.len())?;
        let start = self.refs.len();
        let cells_start = self.cells.len();
        catalog.update_noted(table, rows, assignments, &mut self.cells)?;
        note_rows(&mut self.refs, rows);
        let step = Step {
            kind: Kind::Updated {
                width: assignments.len(),
                more: 0,
            },
            table,
            start,
            cells_start,
        };
        note(&mut self.steps, step, rows.len());
        self.commands += 1;
        Ok(())
    }

    /// Declares a table in a catalog, and notes it.
    pub fn create(
        &mut self,
        catalog: &mut Catalog,
        name: Text,
        schema: Schema,
    ) -> Result<(), NoMemory>
        requires { IsMeant catalog.old.limits (database_of catalog.old) (resolved.Table name schema) }
        ensures done { OnOk result (IsDone catalog.old catalog.new (resolved.Table name schema)) }
        ensures noted { OnOk result (IsNoted (outline_of catalog.old) (outline_of catalog.new) self.old self.new) }
        ensures kept { OnErr result (catalog.new ≡ catalog.old) }
        ensures unchanged { OnErr result (self.new ≡ self.old) }
    {
        self.steps.reserve(1)?;
        let table = TableNumber(catalog.table_count());
        let gained = catalog.create_noted(name, schema)?;
        let start = self.refs.len();
        let cells_start = self.cells.len();
        let step = Step {
            kind: Kind::TableDeclared { gained },
            table,
            start,
            cells_start,
        };
        note(&mut self.steps, step, 0);
        self.commands += 1;
        Ok(())
    }

    /// Drops a table of a catalog, to which no column refers, and notes it: its rows are hidden, and then it is taken out.
    pub fn drop_table(&mut self, catalog: &mut Catalog, table: TableNumber) -> Result<(), NoMemory>
        requires { IsMeant catalog.old.limits (database_of catalog.old) (resolved.DropTable table) }
        ensures done { OnOk result (IsDone catalog.old catalog.new (resolved.DropTable table)) }
        ensures noted { OnOk result (AreNoted (outline_of catalog.old) (outline_of catalog.new) self.old self.new) }
        ensures kept { OnErr result (catalog.new ≡ catalog.old) }
        ensures unchanged { OnErr result (self.new ≡ self.old) }
    {
        a_catalog_is_consistent(catalog);
        self.steps.reserve(2)?;
        let lodging = Lodging::new(*self.steps.allocator())?;
        let room = catalog.room_for_table()?;
        let start = self.refs.len();
        let cells_start = self.cells.len();
        catalog.empty_table(table, &mut self.refs)?;
        let end = self.refs.len();
        let went = Step {
            kind: Kind::Went { more: 0 },
            table,
            start,
            cells_start,
        };
        note(&mut self.steps, went, end - start);
        a_catalog_is_consistent(catalog);
        let dropped = lodging.put(catalog.take_table_out(table, room));
        let step = Step {
            kind: Kind::TableDropped { dropped },
            table,
            start: end,
            cells_start,
        };
        note(&mut self.steps, step, 0);
        self.commands += 2;
        Ok(())
    }

    /// Declares an index of a table of a catalog, and notes it.
    pub fn add_index(
        &mut self,
        catalog: &mut Catalog,
        table: TableNumber,
        column: ColumnNumber,
        kind: IndexKind,
    ) -> Result<(), NoMemory>
        requires { IsMeant catalog.old.limits (database_of catalog.old) (resolved.Index table column kind) }
        ensures done { OnOk result (IsDone catalog.old catalog.new (resolved.Index table column kind)) }
        ensures noted { OnOk result (IsNoted (outline_of catalog.old) (outline_of catalog.new) self.old self.new) }
        ensures kept { OnErr result (catalog.new ≡ catalog.old) }
        ensures unchanged { OnErr result (self.new ≡ self.old) }
    {
        self.steps.reserve(1)?;
        catalog.add_index(table, column, kind)?;
        let start = self.refs.len();
        let cells_start = self.cells.len();
        let step = Step {
            kind: Kind::IndexDeclared { column, kind },
            table,
            start,
            cells_start,
        };
        note(&mut self.steps, step, 0);
        self.commands += 1;
        Ok(())
    }

    /// Drops an index of a table of a catalog, and notes it where there is one.
    pub fn drop_index(
        &mut self,
        catalog: &mut Catalog,
        table: TableNumber,
        column: ColumnNumber,
        kind: IndexKind,
    ) -> Result<(), NoMemory>
        requires { IsMeant catalog.old.limits (database_of catalog.old) (resolved.DropIndex table column kind) }
        ensures done { OnOk result (IsDone catalog.old catalog.new (resolved.DropIndex table column kind)) }
        ensures noted { OnOk result (AreNoted (outline_of catalog.old) (outline_of catalog.new) self.old self.new) }
        ensures kept { OnErr result (catalog.new ≡ catalog.old) }
        ensures unchanged { OnErr result (self.new ≡ self.old) }
    {
        if !catalog.has_index(table, column, kind) {
            return Ok(());
        }
        a_catalog_is_consistent(catalog);
        self.steps.reserve(1)?;
        let lodging = Lodging::new(*self.steps.allocator())?;
        let dropped = lodging.put(catalog.take_index_out(table, column, kind)?);
        let start = self.refs.len();
        let cells_start = self.cells.len();
        let step = Step {
            kind: Kind::IndexDropped { dropped },
            table,
            start,
            cells_start,
        };
        note(&mut self.steps, step, 0);
        self.commands += 1;
        Ok(())
    }

    // Undoes the newest command. It takes no memory.
    fn undo_newest(&mut self, catalog: &mut Catalog) -> bool
        requires some { 0 < length self.old.changes }
        requires ready { CanUndo self.old.changes (outline_of catalog.old) }
        ensures undone { IsUndone (outline_of catalog.old) (outline_of catalog.new) self.old self.new }
        ensures tables { result ≡ true → HaveSameTables (outline_of catalog.old) (outline_of catalog.new) }
    {
        let step = take_newest(&mut self.steps, self.refs.len(), self.cells.len());
        self.commands -= 1;
        let keeps = step.kind.keeps_tables();
        let rows = &mut self.refs[step.start..];
        let cells = &mut self.cells[step.cells_start..];
        undo_step(catalog, step.kind, step.table, rows, cells, &mut self.slots);
        self.refs.truncate(step.start);
        self.cells.truncate(step.cells_start);
        keeps
    }

    // Undoes the newest commands, so many at most, where by each one row came into the same table: their rows go at once. It tells
    // whether it undid some, and takes no memory.
    fn undo_arrivals(&mut self, catalog: &mut Catalog, most: usize) -> bool
        requires { CanUndo self.old.changes (outline_of catalog.old) }
        ensures undone { result ≡ true → AreUndone most (outline_of catalog.old) (outline_of catalog.new) self.old self.new }
        ensures log { result ≡ false → self.new ≡ self.old }
        ensures catalog { result ≡ false → catalog.new ≡ catalog.old }
    {
        let Some((table, count)) = take_arrivals(&mut self.steps, most) else {
            return false;
        };
        self.commands -= count;
        let start = self.refs.len() - count;
        undo_came(catalog, table, &mut self.refs, start, &mut self.slots);
        true
    }

    /// Undoes commands, the newest first, until so many are left. It takes no memory, and never fails. It tells whether which tables
    /// there are, and their columns, stayed as they were, which is so where none was declared or dropped.
    pub fn undo_to(&mut self, catalog: &mut Catalog, mark: usize) -> bool
        requires within { mark ≤ length self.old.changes }
        requires ready { CanUndo self.old.changes (outline_of catalog.old) }
        ensures ready { CanUndo self.new.changes (outline_of catalog.new) }
        ensures left { length self.new.changes ≡ mark }
        ensures marks { self.new.marks ≡ self.old.marks }
        ensures earlier { (m : ℕ) → m ≤ mark → undone m self.new.changes (outline_of catalog.new) ≡ undone m self.old.changes (outline_of catalog.old) }
        ensures tables { result ≡ true → HaveSameTables (outline_of catalog.old) (outline_of catalog.new) }
    {
        let mut kept = true;
        while self.len() > mark {
            if !self.undo_arrivals(catalog, self.len() - mark) {
                kept = self.undo_newest(catalog) && kept;
            }
        }
        kept
    }
}

// Undoes what a command did to a table, and to these rows of it, in which these cells stood. It takes no memory.
fn undo_step(
    catalog: &mut Catalog,
    kind: Kind,
    table: TableNumber,
    rows: &mut [TupleRef],
    cells: &mut [(ColumnNumber, StoredCell)],
    slots: &mut SlotSet,
)
    requires ready { IsReady (change_of kind table.0 rows.old cells.old) (outline_of catalog.old) }
    requires stands { IsOutline (before (change_of kind table.0 rows.old cells.old) (outline_of catalog.old)) }
    ensures { outline_of catalog.new ≡ before (change_of kind table.0 rows.old cells.old) (outline_of catalog.old) }
{
    a_catalog_is_consistent(catalog);
    match kind {
        Kind::Came { .. } => catalog.take_many_back(table, rows, slots),
        Kind::Went { .. } => catalog.show(table, rows),
        Kind::Updated { width, .. } => catalog.change_back(table, rows, width, cells),
        Kind::TableDeclared { gained } => catalog.take_back_table(gained.as_slice()),
        Kind::TableDropped { dropped } => put_table_back(catalog, dropped),
        Kind::IndexDeclared { column, kind } => catalog.drop_index(table, column, kind),
        Kind::IndexDropped { dropped } => put_index_back(catalog, table, dropped),
    }
}

// Puts a table that was dropped back. It stands apart, so that no other step makes room for a table where it runs.
#[inline(never)]
fn put_table_back(catalog: &mut Catalog, dropped: Lodged<DroppedTable>)
    requires can { CanHaveTable (outline_of catalog.old) dropped }
    requires stands { IsOutline (with_table dropped (outline_of catalog.old)) }
    ensures { outline_of catalog.new ≡ with_table dropped (outline_of catalog.old) }
{
    catalog.put_table_back(dropped.take())
}

// Puts an index that was dropped back into a table. It stands apart for the same reason.
#[inline(never)]
fn put_index_back(catalog: &mut Catalog, table: TableNumber, dropped: Lodged<DroppedIndex>)
    requires can { CanHaveIndex (outline_of catalog.old) table.0 dropped }
    requires stands { IsOutline (with_index_of table.0 dropped (outline_of catalog.old)) }
    ensures { outline_of catalog.new ≡ with_index_of table.0 dropped (outline_of catalog.old) }
{
    catalog.put_index_back(table, dropped.take())
}

// Takes the rows of a list's references, from the one at `start` on, out of a table again. It takes no memory.
fn undo_came(
    catalog: &mut Catalog,
    table: TableNumber,
    refs: &mut Vec<TupleRef>,
    start: usize,
    slots: &mut SlotSet,
)
    requires within { start ≤ length refs.old.items }
    requires holds { HoldsOnce (outline_of catalog.old) table.0 (drop start refs.old.items) }
    requires stands { IsOutline (without_rows table.0 (drop start refs.old.items) (outline_of catalog.old)) }
    ensures gone { outline_of catalog.new ≡ without_rows table.0 (drop start refs.old.items) (outline_of catalog.old) }
    ensures left { refs.new.items ≡ take start refs.old.items }
{
    let rows = &mut refs[start..];
    undo_step(catalog, Kind::Came { more: 0 }, table, rows, &mut [], slots);
    refs.truncate(start);
}

// Makes room for the slots of a table, where memory is found, and so many rows are noted that a rollback may put them in order.
fn cover_many(slots: &mut SlotSet, noted: usize, catalog: &Catalog, table: TableNumber)
    requires { table.0 < length catalog.now.relations }
{
    if noted >= LEAST_IN_ORDER {
        let _ = slots.cover(catalog.at(table).slots());
    }
}

// Makes sure of room for a step more, and so many references.
fn make_room(steps: &mut Vec<Step>, refs: &mut Vec<TupleRef>, count: usize) -> Result<(), NoMemory>
    ensures steps { steps.new.items ≡ steps.old.items }
    ensures refs { refs.new.items ≡ refs.old.items }
    ensures step_room { OnOk result (length steps.new.items < vec_capacity steps.new) }
    ensures ref_room { OnOk result (length refs.new.items + count ≤ vec_capacity refs.new) }
{
    steps.reserve(1)?;
    refs.reserve(count)?;
    Ok(())
}

// Puts references behind those of a list, which has room for them.
fn note_rows(refs: &mut Vec<TupleRef>, rows: &[TupleRef])
    requires { length refs.old.items + length rows.now ≤ vec_capacity refs.old }
    ensures { refs.new.items ≡ refs.old.items ++ rows.now }
{
    for r in rows {
        refs.push_reserved(*r);
    }
}

// Empties a list, and frees its memory if that is more than is kept.
fn empty_list<T: Drop>(list: &mut Vec<T>)
    ensures { list.new.items ≡ [] }
{
    if list.capacity() > KEPT {
        *list = Vec::new(*list.allocator());
    } else {
        list.clear();
    }
}
