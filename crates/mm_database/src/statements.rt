//! The calls on statements: what they are handed by C, and what they tell.

ghost use Rattle.std.specs.Prelude.{◌≡◌, ◌≢◌, ◌<◌, ℕ, Err, Some, IfErr, IfOk, IsErrOf, OnErr, OnOk, length, slice_get};
ghost use Rattle.mm_cells.specs.declared.cells.Cells.{Cells as PlainCells};
ghost use Rattle.mm_prepared.specs.Cells.{IsSmall, cell_value};
ghost use Rattle.mm_prepared.specs.declared.declined.Declined.TheVariants as declined;
ghost use Rattle.mm_statements.specs.declared.faults.QueryFault.TheVariants as querying;
ghost use Rattle.mm_database.specs.declared.statements.Unprepared.TheVariants as unprepared;
ghost use Rattle.mm_database.specs.declared.statements.Unexecuted.TheVariants as unexecuted;

use crate::database::OpenDatabase;
use crate::rows::Rows;
use mm_cells::Cells;
use mm_statements::{Declined, ExecuteFault, LentValue, PrepareFault, QueryFault};
use no_memory::NoMemory;
use plain_tables::Refusal;
use std::alloc::Global;

/// A statement that was prepared: its number, and how many places it has.
#[repr(C)]
#[derive(Clone, Copy)]
pub struct Statement {
    pub number: u32,
    pub places: u32,
}

/// Why no statement was prepared. Where it was refused, the answer tells why.
#[derive(Clone, Copy)]
pub enum Unprepared {
    Refused,
    NoMemory,
    /// C has no number for the statement, or for its places.
    TooMany,
}

/// Why a statement did nothing. Where it was refused, the answer tells why.
#[derive(Clone, Copy)]
pub enum Unexecuted {
    NoSuchStatement,
    Refused,
    /// Cells have no numbers for the texts that it shows.
    TooLong,
    /// It changes the tables, which another handle shares.
    Shared,
    /// It is a select, which was asked to end.
    Interrupted,
}

/// Makes sure of cells for the values that the statement of a number shows.
pub fn make_room(shown: &mut Vec<Cells>, number: usize) -> Result<(), NoMemory>
    ensures room { OnOk result (number < length shown.new.items) }
    ensures others { (k : ℕ) (cells : PlainCells) → slice_get shown.old.items k ≡ Some cells → slice_get shown.new.items k ≡ Some cells }
{
    while shown.len() <= number {
        let cells = Cells::new(*shown.allocator());
        shown.push(cells)?;
    }
    Ok(())
}

impl OpenDatabase {
    ghost use Rattle.mm_database.specs.StatementCalls.{Prepares, IsUnprepared, KeepsAll, KeepsEach, KeepsOthers, KeepsShown, KeepsStatements, IsMissing, IsPast, IsUnbound, Binds, Finalizes, HasTold, Executes, IsUnexecuted, IsUntold, KeepsColumns, Queries, IsUnqueried, shown_by};
    ghost use Rattle.mm_cells.specs.Reading.{AreFull};
    ghost use Rattle.mm_cells.specs.Values.{values_of};
    ghost use Rattle.mm_statements.specs.Executing.{IsDeclined};
    ghost use Rattle.mm_database.specs.Calls.{IsSilent};
    ghost use Rattle.mm_database.specs.Interrupts.{IsLineSelect, IsSelect};
    ghost use Rattle.mm_database.specs.Sharing.{IsKeptOff, IsLineKeptOff, IsShared};

    /// Keeps the statement that a line spells; the answer is empty then. Where it is refused, that is the answer, and at another fault
    /// the answer stays.
    pub fn prepare(&mut self, alloc: Global, line: &[u8]) -> Result<Statement, Unprepared>
        ensures prepared { IfOk result (Prepares line.now self.old self.new) }
        ensures refused { IsErrOf result unprepared.Refused → IsUnprepared line.now self.old self.new }
        ensures unchanged { OnErr result (KeepsAll self.old self.new) }
        ensures no_memory { IsErrOf result unprepared.NoMemory → KeepsEach self.old self.new }
        ensures too_many { IsErrOf result unprepared.TooMany → KeepsEach self.old self.new }
    {
        let numbered = match self.inner.prepare(alloc, line) {
            Ok(numbered) => numbered,
            Err(PrepareFault::Refused(why)) => {
                self.answer.refuse(why);
                return Err(Unprepared::Refused);
            }
            Err(PrepareFault::NoMemory) => return Err(Unprepared::NoMemory),
        };
        let (Ok(number), Ok(places)) = (
            u32::try_from(numbered.statement),
            u32::try_from(numbered.places),
        ) else {
            let _ = self.inner.finalize(numbered.statement);
            return Err(Unprepared::TooMany);
        };
        self.answer.clear();
        Ok(Statement { number, places })
    }

    /// Binds a value to a place of a statement. Only a text of more than 14 bytes needs memory.
    pub fn bind(&mut self, number: u32, place: u32, cell: LentValue<'_>) -> Result<(), Declined>
        ensures bound { OnOk result (Binds number place (cell_value cell.entry) self.old self.new) }
        ensures missing { IsMissing number self.old → result ≡ Err declined.NoSuchStatement }
        ensures past { IsPast number place self.old → result ≡ Err declined.NoSuchPlace }
        ensures declined { IfErr result (IsUnbound number place self.old) }
        ensures small { IsSmall cell.entry → result ≢ Err declined.NoMemory }
        ensures unchanged { OnErr result (KeepsEach self.old self.new) }
    {
        self.inner.bind(number as usize, place as usize, cell)
    }

    /// Frees a statement, and the room of what it has shown.
    pub fn finalize(&mut self, alloc: Global, number: u32) -> Result<(), Declined>
        ensures freed { OnOk result (Finalizes number self.old self.new) }
        ensures missing { IsMissing number self.old → result ≡ Err declined.NoSuchStatement }
        ensures none { OnErr result (IsMissing number self.old) }
        ensures unchanged { OnErr result (KeepsEach self.old self.new) }
        ensures declined { IfErr result (λ e. e ≡ declined.NoSuchStatement) }
    {
        self.inner.finalize(number as usize)?;
        if let Some(cells) = self.shown.get_mut(number as usize) {
            *cells = Cells::new(alloc);
        }
        Ok(())
    }

    // Does what a statement that is there does, with room for what it shows, and tells what that gave.
    fn execute_there(&mut self, number: usize, rows: &mut Rows) -> Result<(), ExecuteFault>
        requires { number < length self.old.shown.items }
        ensures done { OnOk result (HasTold number self.old self.new rows.new) }
        ensures declined { IfErr result (IsDeclined self.old.inner number) }
        ensures sharing { IsErrOf result ExecuteFault.Shared → IsShared self.old }
        ensures too_long { IsErrOf result ExecuteFault.TooLong → AreFull (shown_by self.new number) }
        ensures unchanged { OnErr result (KeepsAll self.old self.new) }
        ensures others { KeepsOthers number self.old self.new }
        ensures answer { self.new.answer ≡ self.old.answer }
        ensures untold { OnErr result (rows.new ≡ rows.old) }
    {
        let executed = self.inner.execute(number, &mut self.shown[number])?;
        rows.tell(executed, &self.shown[number]);
        Ok(())
    }

    /// Does what a statement does with the values that are bound, and tells what that gave. The values that it shows are its cells, and
    /// the answer is empty. Where it is refused, that is the answer. A number that names no statement leaves all as it was.
    pub fn execute(&mut self, number: u32, rows: &mut Rows) -> Result<(), Unexecuted>
        ensures done { OnOk result (Executes number self.old self.new rows.new) }
        ensures missing { IsMissing number self.old → result ≡ Err unexecuted.NoSuchStatement }
        ensures none { result ≡ Err unexecuted.NoSuchStatement → IsMissing number self.old × (self.new ≡ self.old) }
        ensures refused { IsErrOf result unexecuted.Refused → IsUnexecuted number self.old self.new }
        ensures too_long { result ≡ Err unexecuted.TooLong → AreFull (shown_by self.new number) }
        ensures shared { IsErrOf result unexecuted.Shared → IsKeptOff number self.old self.new }
        ensures interrupted { IsErrOf result unexecuted.Interrupted → IsSelect number self.old }
        ensures too_long_silent { IsErrOf result unexecuted.TooLong → IsSilent self.new }
        ensures interrupted_silent { IsErrOf result unexecuted.Interrupted → IsSilent self.new }
        ensures unchanged { OnErr result (KeepsAll self.old self.new) }
        ensures others { KeepsOthers number self.old self.new }
        ensures untold { OnErr result (rows.new ≡ rows.old) }
    {
        let number = number as usize;
        if !self.inner.has(number) {
            return Err(Unexecuted::NoSuchStatement);
        }
        self.answer.clear();
        if make_room(&mut self.shown, number).is_err() {
            self.answer.refuse(Refusal::NoMemory);
            return Err(Unexecuted::Refused);
        }
        match self.execute_there(number, rows) {
            Ok(()) => Ok(()),
            Err(ExecuteFault::NoSuchStatement) => Err(Unexecuted::NoSuchStatement),
            Err(ExecuteFault::Refused(why)) => {
                self.answer.refuse(why);
                Err(Unexecuted::Refused)
            }
            Err(ExecuteFault::TooLong) => Err(Unexecuted::TooLong),
            Err(ExecuteFault::Shared) => Err(Unexecuted::Shared),
            Err(ExecuteFault::Interrupted) => Err(Unexecuted::Interrupted),
        }
    }

    /// Keeps the columns of what a statement shows, whatever values are bound; the answer is empty then. Where it is refused, that is the
    /// answer. A number that names no statement leaves all as it was.
    pub fn find_columns(&mut self, number: u32) -> Result<(), Unexecuted>
        ensures told { OnOk result (KeepsColumns number self.old self.new) }
        ensures missing { IsMissing number self.old → result ≡ Err unexecuted.NoSuchStatement }
        ensures none { result ≡ Err unexecuted.NoSuchStatement → IsMissing number self.old × (self.new ≡ self.old) }
        ensures refused { IsErrOf result unexecuted.Refused → IsUntold number self.old self.new }
        ensures fits { result ≢ Err unexecuted.TooLong }
        ensures unchanged { KeepsAll self.old self.new }
        ensures shown { KeepsShown self.old self.new }
        ensures reads { ¬ (IsErrOf result unexecuted.Shared) }
        ensures whole { ¬ (IsErrOf result unexecuted.Interrupted) }
    {
        let number = number as usize;
        if !self.inner.has(number) {
            return Err(Unexecuted::NoSuchStatement);
        }
        self.answer.clear();
        match self.inner.columns(number, &mut self.columns) {
            Ok(()) => Ok(()),
            Err(ExecuteFault::NoSuchStatement) => Err(Unexecuted::NoSuchStatement),
            Err(ExecuteFault::Refused(why)) => {
                self.answer.refuse(why);
                Err(Unexecuted::Refused)
            }
            Err(ExecuteFault::TooLong) => Err(Unexecuted::TooLong),
            // It changes no tables, and looks at no row.
            Err(ExecuteFault::Shared | ExecuteFault::Interrupted) => unreachable!(),
        }
    }

    /// Does the insert, the update, the delete or the select that a line spells, and tells what that gave. The values that it shows are
    /// kept; where it is refused, that is the answer, and else the answer is empty.
    pub fn query(&mut self, alloc: Global, line: &[u8], rows: &mut Rows) -> Result<(), QueryFault>
        ensures done { OnOk result (Queries line.now self.old self.new rows.new) }
        ensures refused { IfErr result (λ e. e ≢ querying.TooLong → e ≢ querying.Shared → e ≢ querying.Interrupted → IsUnqueried line.now self.old self.new) }
        ensures too_long { result ≡ Err querying.TooLong → AreFull (values_of self.new.queried) }
        ensures shared { IsErrOf result querying.Shared → IsLineKeptOff line.now self.old self.new }
        ensures interrupted { IsErrOf result querying.Interrupted → IsLineSelect line.now self.old }
        ensures too_long_silent { IsErrOf result querying.TooLong → IsSilent self.new }
        ensures interrupted_silent { IsErrOf result querying.Interrupted → IsSilent self.new }
        ensures unchanged { OnErr result (KeepsAll self.old self.new) }
        ensures statements { KeepsStatements self.old self.new }
        ensures untold { OnErr result (rows.new ≡ rows.old) }
    {
        self.answer.clear();
        match self.inner.query(alloc, line, &mut self.queried) {
            Ok(given) => {
                rows.tell(given, &self.queried);
                Ok(())
            }
            Err(QueryFault::Refused(why)) => {
                self.answer.refuse(why);
                Err(QueryFault::Refused(why))
            }
            Err(QueryFault::TooLong) => Err(QueryFault::TooLong),
            Err(QueryFault::Shared) => Err(QueryFault::Shared),
            Err(QueryFault::Interrupted) => Err(QueryFault::Interrupted),
        }
    }
}
