//! The rows of a select that are read page by page.

ghost use Rattle.std.specs.Prelude.{◌≡◌, ◌≢◌, ◌↔◌, ◌<◌, Err, IfErr, IfOk, IsErrOf, OnErr, OnOk, [], true};
ghost use Rattle.plain_tables.specs.AnswerText.{refusal_text};
ghost use Rattle.plain_tables.specs.declared.refusal.Refusal.{Refusal as PlainRefusal};
ghost use Rattle.mm_cells.specs.Reading.{AreFull};
ghost use Rattle.mm_cells.specs.Values.{values_of};
ghost use Rattle.mm_statements.specs.Cursors.{IsCursorOf, IsUnopened as IsUnopenedBy, MayShare as MayShareIn};
ghost use Rattle.mm_statements.specs.declared.faults.CursorFault.TheVariants as cursor_fault;
ghost use Rattle.mm_statements.specs.declared.faults.ExecuteFault.TheVariants as fault;
ghost use Rattle.mm_database.specs.Calls.{IsSilent};
ghost use Rattle.mm_database.specs.Cursors.{IsUnopened, MayShare, OpensCursor, ReadsRows};
ghost use Rattle.mm_database.specs.Interrupts.{IsSelect};
ghost use Rattle.mm_database.specs.StatementCalls.{IsMissing};
ghost use Rattle.mm_database.specs.Transacting.{IsInTransaction};
ghost use Rattle.mm_database.specs.declared.cursors.Unopened.TheVariants as unopened;

use crate::database::OpenDatabase;
use crate::rows::Rows;
use mm_cells::{CellFault, Cells};
use mm_statements::{Cursor, CursorFault, ExecuteFault, Executed};
use plain_tables::Refusal;
use std::alloc::Global;

/// The rows of a select that are still to be read, and the values of those that were read last.
#[derive(Drop)]
pub struct OpenCursor {
    pub inner: Cursor,
    pub shown: Cells,
}

/// Why no cursor was opened. Where it was refused, the answer tells why.
#[derive(Clone, Copy)]
pub enum Unopened {
    NoSuchStatement,
    InTransaction,
    Refused,
    /// The select was asked to end.
    Interrupted,
}

impl OpenCursor {
    /// Reads the next rows, so many at most, and tells where their cells lie. A failure reads none.
    pub fn fetch(&mut self, most: usize, rows: &mut Rows) -> Result<(), CellFault>
        ensures read { OnOk result (ReadsRows most rows.new self.old self.new) }
        ensures too_long { IsErrOf result CellFault.TooLong → AreFull (values_of self.new.shown) }
        ensures unread { OnErr result (self.new.inner ≡ self.old.inner) }
        ensures untold { OnErr result (rows.new ≡ rows.old) }
    {
        let columns = self.inner.fetch(most, &mut self.shown)?;
        rows.tell(Executed::Rows { columns }, &self.shown);
        Ok(())
    }
}

impl OpenDatabase {
    // Opens a cursor on what the select of a number shows, in a place of its own.
    fn boxed_cursor(&mut self, alloc: Global, number: usize) -> Result<Box<OpenCursor>, CursorFault>
        ensures rows { IfOk result (λ cursor. IsCursorOf self.old.inner number cursor.value.inner) }
        ensures shared { OnOk result (self.new.inner.shared ≡ true) }
        ensures declined { IfErr result (IsUnopenedBy self.old.inner number) }
        ensures waits { self.old.inner.session.saved ≢ [] → result ≡ Err cursor_fault.InTransaction }
        ensures stays { MayShareIn self.old.inner self.new.inner }
        ensures others { self.new ≡ record self.old { inner = self.new.inner } }
    {
        let inner = self.inner.cursor(alloc, number)?;
        let cursor = OpenCursor {
            inner,
            shown: Cells::new(alloc),
        };
        match Box::new(alloc, cursor) {
            Ok(cursor) => Ok(cursor),
            Err(_) => Err(CursorFault::Declined(ExecuteFault::Refused(Refusal::NoMemory))),
        }
    }

    // No cursor is opened for this reason, of which the answer tells where it is a refusal.
    fn decline_cursor(&mut self, why: ExecuteFault) -> Unopened
        requires short { why ≢ fault.TooLong }
        requires reads { why ≢ fault.Shared }
        ensures missing { (result ≡ unopened.NoSuchStatement) ↔ (why ≡ fault.NoSuchStatement) }
        ensures refused { result ≡ unopened.Refused → (refusal : PlainRefusal) × (why ≡ fault.Refused refusal) × (self.new.answer ≡ refusal_text refusal) }
        ensures interrupted { (result ≡ unopened.Interrupted) ↔ (why ≡ fault.Interrupted) }
        ensures waits { result ≢ unopened.InTransaction }
        ensures silent { result ≡ unopened.Interrupted → self.new ≡ self.old }
        ensures others { self.new ≡ record self.old { answer = self.new.answer } }
    {
        match why {
            ExecuteFault::NoSuchStatement => Unopened::NoSuchStatement,
            ExecuteFault::Refused(refusal) => {
                self.answer.refuse(refusal);
                Unopened::Refused
            }
            // Nothing is changed, and no text is shown yet.
            ExecuteFault::TooLong | ExecuteFault::Shared => unreachable!(),
            ExecuteFault::Interrupted => Unopened::Interrupted,
        }
    }

    /// Opens a cursor on the rows that the select of a number shows with the values that are bound; the answer is empty then. Where it is
    /// refused, that is the answer. A number that names no statement leaves all as it was.
    pub fn open_cursor(&mut self, alloc: Global, number: u32) -> Result<Box<OpenCursor>, Unopened>
        ensures opened { IfOk result (λ cursor. OpensCursor number cursor.value self.old self.new) }
        ensures missing { IsMissing number self.old → result ≡ Err unopened.NoSuchStatement }
        ensures none { result ≡ Err unopened.NoSuchStatement → IsMissing number self.old × (self.new ≡ self.old) }
        ensures open { IsErrOf result unopened.InTransaction → IsInTransaction self.old }
        ensures waits { ¬ (IsMissing number self.old) → IsInTransaction self.old → result ≡ Err unopened.InTransaction }
        ensures refused { IsErrOf result unopened.Refused → IsUnopened number self.old self.new }
        ensures interrupted { IsErrOf result unopened.Interrupted → IsSelect number self.old }
        ensures open_silent { IsErrOf result unopened.InTransaction → IsSilent self.new }
        ensures interrupted_silent { IsErrOf result unopened.Interrupted → IsSilent self.new }
        ensures stays { MayShare self.old self.new }
    {
        let number = number as usize;
        if !self.inner.has(number) {
            return Err(Unopened::NoSuchStatement);
        }
        self.answer.clear();
        match self.boxed_cursor(alloc, number) {
            Ok(cursor) => Ok(cursor),
            Err(CursorFault::InTransaction) => Err(Unopened::InTransaction),
            Err(CursorFault::Declined(why)) => Err(self.decline_cursor(why)),
        }
    }
}
