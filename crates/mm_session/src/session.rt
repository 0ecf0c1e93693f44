//! A session: tables, and a stream of requests that comes in pieces.

ghost use Rattle.std.specs.Prelude.{◌≡◌, ◌≢◌, ◌<◌, ◌≤◌, ◌+◌, ◌^◌, ◌++◌, ◌↔◌, [], ℕ, List, Err, Ok, true, false, drop, length, map, position, take, IsSome, IsTrue, IsErrOf, IfNone, IfOk, IfErr, IfSome, OnOk, OnErr};
ghost use Rattle.std.specs.Io.KnownBytes.{Keeps};

use crate::answer::Answer;
use crate::execute::told::ToldPlan;
use crate::fault::{CountFault, NotOneRequest, ReadFault, SelectFault, SessionFault};
use crate::found_rows::FoundRows;
use crate::room::SelectRoom;
use crate::stream::outlet::{Lent, Outlet};
use crate::stream::responder::Responder;
use mm_catalog::Catalog;
use mm_cells::{CellFault, Cells};
use mm_interrupts::Interrupts;
use mm_transactions::NoTransaction;
use plain_tables::{Limits, NoMemory, Query, Refusal, Resolved, RowList, TableNumber, Value};
use plan_chooser::Policy;
use std::alloc::Global;
use std::io::Write;
use std::marker::Model;
use std::mem;

/// A session answers each request that is fed to it, however the stream is cut into pieces.
pub struct Session {
    responder: Responder,
    ended: bool,
}

// It is written out, so that the crates above don't prove anew how each part of a part is freed.
impl Drop for Session {
    fn drop(self) {
        let Session {
            responder: _,
            ended: _,
        } = self;
    }
}

impl Model for Session {
    ghost use Rattle.plain_tables.specs.contracts.command.Limits.{the_row as limits_row};
    ghost use Rattle.plain_tables.specs.contracts.schema.Column.{the_row as column_row};
    ghost use Rattle.plain_tables.specs.contracts.schema.IndexKind.{the_row as kind_row};
    ghost use Rattle.plain_tables.specs.contracts.value.Value.{the_row as value_row};
    ghost use Rattle.mm_catalog.specs.Seen.{database_of};
    ghost use Rattle.mm_catalog.specs.contracts.catalog.Catalog.{the_row as catalog_row};
    ghost use Rattle.mm_transactions.specs.State.{saved_of};
    ghost use Rattle.mm_session.specs.Sessions.{State, state_code, table_code};
    ghost use Rattle.mm_session.specs.contracts.stream.kept.KeptInput.{the_row as kept_row};

    ghost Value = { State };

    ghost coded = { state_code limits_row.coded (table_code column_row.coded kind_row.coded value_row.coded) catalog_row.coded kept_row.coded };

    ghost view = { λ s. record { limits = s.responder.executor.tables.catalog.limits; database = database_of s.responder.executor.tables.catalog; saved = saved_of s.responder.executor.tables; catalog = s.responder.executor.tables.catalog; ended = s.ended; kept = s.responder.kept } };
}

impl Session {
    ghost use Rattle.mm_catalog.specs.Seen.{database_of};
    ghost use Rattle.plain_tables.specs.Databases.{is_named};
    ghost use Rattle.mm_cells.specs.Reading.{AreFull};
    ghost use Rattle.mm_cells.specs.Values.{values_of};
    ghost use Rattle.plain_streams.specs.Division.{IsWhole};
    ghost use Rattle.mm_session.specs.NextRequest.{AnswersLast, AnswersNext, KeepsMore};
    ghost use Rattle.mm_session.specs.Kept.{is_nothing};
    ghost use Rattle.mm_session.specs.Responding.{waits};
    ghost use Rattle.mm_session.specs.OneRequest.{AnswersOne, IsAtSamePlace, StaysInStream, GoesBetween};
    ghost use Rattle.mm_session.specs.IndexAnswers.{AnswersIndexes, TellsNothing};
    ghost use Rattle.mm_session.specs.Reads.{WouldChange};
    ghost use Rattle.mm_session.specs.declared.fault.ReadFault.TheVariants as read_fault;
    ghost use Rattle.plain_tables.specs.Doing.{done};
    ghost use Rattle.plain_tables.specs.Transactions.{begun, committed, rolled_back};
    ghost use Rattle.mm_transactions.specs.Log.{AreSettled};
    ghost use Rattle.plain_tables.specs.ResolvedLaws.{IsMeant, emptied};
    ghost use Rattle.plain_tables.specs.declared.refusal.Refusal.TheVariants as refusal;
    ghost use Rattle.plain_tables.specs.declared.resolved.Resolved.TheVariants as resolved;
    ghost use Rattle.mm_session.specs.Changing.{HasChanged, HasDeclined, IsChange, IsDeleteByKey, ShowsValues};
    ghost use Rattle.mm_session.specs.Columns.{columns_told};
    ghost use Rattle.mm_session.specs.Rooms.{IsBounded};
    ghost use Rattle.mm_session.specs.Counting.{HasRows};
    ghost use Rattle.std.specs.List.{flat_map};
    ghost use Rattle.mm_session.specs.First.{ShowsFirst};
    ghost use Rattle.mm_session.specs.Found.{HasFound, values_found};
    ghost use Rattle.mm_session.specs.Shown.{CanShow};
    ghost use Rattle.mm_session.specs.declared.fault.SelectFault.TheVariants as select_fault;
    ghost use Rattle.mm_session.specs.Told.{IsPlanOf};
    ghost use Rattle.mm_session.specs.Sessions.{State, Gains, Feeds, Finishes, BreaksOff, new_session, tables_of};

    /// A session with no tables, under the standard limits.
    pub fn new(alloc: Global, policy: Policy) -> Result<Session, NoMemory>
        ensures { IfOk result (λ s. s ≡ new_session Limits.STANDARD [] s.catalog) }
    {
        Session::with_limits(alloc, policy, Limits::STANDARD)
    }

    /// A session with no tables, under limits of one's own.
    pub fn with_limits(alloc: Global, policy: Policy, limits: Limits) -> Result<Session, NoMemory>
        requires { limits.rows ≤ 16777216 }
        ensures { IfOk result (λ s. s ≡ new_session limits [] s.catalog) }
    {
        Session::over(alloc, policy, Catalog::new(alloc, limits))
    }

    /// A session with the tables of a catalog, under its limits.
    pub fn over(alloc: Global, policy: Policy, catalog: Catalog) -> Result<Session, NoMemory>
        ensures { IfOk result (λ s. s ≡ new_session catalog.limits (database_of catalog) catalog) }
    {
        Ok(Session {
            responder: Responder::new(alloc, policy, catalog)?,
            ended: false,
        })
    }

    /// The tables, lent.
    pub fn catalog(&self) -> &Catalog
        ensures own { result.now ≡ self.now.catalog }
        ensures tables { database_of result.now ≡ self.now.database }
        ensures limits { result.now.limits ≡ self.now.limits }
    {
        self.responder.executor.tables.catalog()
    }

    /// How many transactions are open.
    pub fn transactions(&self) -> usize
        ensures { result ≡ length self.now.saved }
    {
        self.responder.executor.tables.transactions()
    }

    /// Begins a transaction, in those that are open. The stream goes on as before.
    pub fn begin(&mut self) -> Result<(), NoMemory>
        ensures begun { OnOk result (tables_of self.new ≡ begun (tables_of self.old)) }
        ensures catalog { self.new.catalog ≡ self.old.catalog }
        ensures unchanged { OnErr result (self.new ≡ self.old) }
        ensures stream { IsAtSamePlace self.old self.new }
    {
        self.responder.executor.tables.begin()
    }

    /// Ends the innermost transaction, and keeps what was done in it. The stream goes on as before.
    pub fn commit(&mut self) -> Result<(), NoTransaction>
        ensures open { OnOk result (self.old.saved ≢ []) }
        ensures committed { OnOk result (tables_of self.new ≡ committed (tables_of self.old)) }
        ensures catalog { AreSettled self.old.catalog self.new.catalog }
        ensures none { OnErr result (self.old.saved ≡ []) }
        ensures unchanged { OnErr result (self.new ≡ self.old) }
        ensures stream { IsAtSamePlace self.old self.new }
    {
        self.responder.executor.tables.commit()
    }

    /// Ends the innermost transaction, and undoes what was done in it: the tables are those that it began with. It tells whether
    /// which tables there are, and their columns, stayed as they were, which is so where none was declared or dropped. It takes
    /// no memory. The stream goes on as before.
    pub fn rollback(&mut self) -> Result<bool, NoTransaction>
        ensures open { OnOk result (self.old.saved ≢ []) }
        ensures rolled_back { OnOk result (tables_of self.new ≡ rolled_back (tables_of self.old)) }
        ensures tables { result ≡ Ok true → map emptied self.new.database ≡ map emptied self.old.database }
        ensures none { OnErr result (self.old.saved ≡ []) }
        ensures unchanged { OnErr result (self.new ≡ self.old) }
        ensures stream { IsAtSamePlace self.old self.new }
    {
        let tables = &mut self.responder.executor.tables;
        let kept = tables.rollback()?;
        tables.note_all_changed();
        Ok(kept)
    }

    /// Whether the session has ended.
    pub fn has_ended(&self) -> bool
        ensures { result ≡ self.now.ended }
    {
        self.ended
    }

    /// Whether nothing has come of a request of the stream that has not ended.
    pub fn is_between_requests(&self) -> bool
        ensures { result ≡ is_nothing self.now.kept }
    {
        self.responder.kept.is_nothing()
    }

    /// Answers one request by itself, beside the stream: a line without its line feed, and the block behind it, which is empty
    /// for a line that asks for none. The stream goes on as if the request had not been there.
    pub fn answer_request(
        &mut self,
        line: &[u8],
        block: &[u8],
        answer: &mut Answer,
    ) -> Result<(), NotOneRequest>
        // The request is one, and was answered.
        ensures ok { OnOk result (AnswersOne self.old.limits self.old.database (record { line = line.now; block = block.now }) answer.new self.new.database) }

        // It isn't: the line has a line feed in it, or takes another number of bytes than the block has.
        ensures err { OnErr result (¬ (IsWhole (record { line = line.now; block = block.now }))) }
        ensures unchanged { OnErr result ((self.new ≡ self.old) × (answer.new ≡ answer.old)) }

        // The stream goes on as before, and the request stands behind what of it was answered.
        ensures stream { StaysInStream self.old self.new }
        ensures run { OnOk result (GoesBetween self.old self.new (record { line = line.now; block = block.now }) answer.new) }
    {
        self.responder.answer_request(line, block, answer)
    }

    /// Answers one request that changes no tables, as `answer_request` does: a select, a dump, a listing of the tables, a silent line, and
    /// what is refused by the line and its block, by names and by values. What would change tables is declined, though they might refuse it.
    pub fn read_request(
        &self,
        line: &[u8],
        block: &[u8],
        answer: &mut Answer,
    ) -> Result<(), ReadFault>
        // The request is one, and was answered. The tables are as before.
        ensures ok { OnOk result (AnswersOne self.now.limits self.now.database (record { line = line.now; block = block.now }) answer.new self.now.database) }

        // It isn't: the line has a line feed in it, or takes another number of bytes than the block has.
        ensures err { IsErrOf result read_fault.NotOneRequest → ¬ (IsWhole (record { line = line.now; block = block.now })) }

        // It is, and means a change.
        ensures changes { IsErrOf result read_fault.Changes → WouldChange self.now.database (record { line = line.now; block = block.now }) }
        ensures unchanged { OnErr result (answer.new ≡ answer.old) }

        // The request stands behind what of the stream was answered.
        ensures run { OnOk result (GoesBetween self.now self.now (record { line = line.now; block = block.now }) answer.new) }
    {
        self.responder.read_request(line, block, answer)
    }

    /// Takes the next bytes of the stream up to the end of a request, makes its answer, and gives the bytes behind it. Where no
    /// request ends in them, it takes them all. It is `feed` request by request, and writes nothing.
    pub fn answer_next<'a>(&mut self, bytes: &'a [u8], answer: &mut Answer) -> Option<&'a [u8]>
        requires { self.old.ended ≡ false }
        ensures some { IfSome result (λ others. (front : List ℕ) × (bytes.now ≡ front ++ others.now) × AnswersNext self.old self.new front answer.new) }
        ensures none { IfNone result (KeepsMore self.old self.new bytes.now) }
        ensures unchanged { IfNone result (answer.new ≡ answer.old) }

        // Each call takes a byte, or ends a block that has begun.
        ensures shorter { IfSome result (λ others. length others.now < length bytes.now + waits self.old.kept) }
    {
        let others = self.responder.take(bytes)?;
        mem::swap(&mut self.responder.answer, answer);
        Some(others)
    }

    /// Makes the answer to the last request of the stream, which it ends in; where there is none, the empty one. The session has
    /// ended then. It is `end`, and writes nothing.
    pub fn answer_last(&mut self, answer: &mut Answer)
        requires { self.old.ended ≡ false }
        ensures answers { AnswersLast self.old self.new answer.new }
        ensures over { IsTrue self.new.ended }
        ensures limits { self.new.limits ≡ self.old.limits }
        ensures saved { self.new.saved ≡ self.old.saved }
    {
        self.ended = true;
        if self.responder.kept.is_nothing() {
            answer.clear();
            return;
        }
        self.responder.finish();
        mem::swap(&mut self.responder.answer, answer);
    }

    /// Does an insert, an update or a delete beside the stream, and tells how many rows it was about. The stream goes on as before. A
    /// delete by the key needs no memory where no transaction is open.
    pub fn change(&mut self, command: &Resolved) -> Result<usize, Refusal>
        requires meant { IsMeant self.old.limits self.old.database command.now }
        requires change { IsChange command.now }
        ensures done { IfOk result (HasChanged self.new (done self.old.limits self.old.database command.now)) }
        ensures refused { IfErr result (HasDeclined self.old self.new (done self.old.limits self.old.database command.now)) }
        ensures unchanged { OnErr result (self.new ≡ self.old) }
        ensures by_key { self.old.saved ≡ [] → IsDeleteByKey command.now → result ≢ Err refusal.NoMemory }
        ensures stream { StaysInStream self.old self.new }
    {
        self.responder.executor.change(command)
    }

    /// Puts a row into a table beside the stream, as `change` does by the insert of these values, which are lent. The stream goes on as
    /// before.
    pub fn insert(&mut self, table: TableNumber, values: &[Value]) -> Result<(), Refusal>
        requires { IsMeant self.old.limits self.old.database (resolved.Insert table values.now) }
        ensures done { OnOk result (HasChanged self.new (done self.old.limits self.old.database (resolved.Insert table values.now)) 1) }
        ensures refused { IfErr result (HasDeclined self.old self.new (done self.old.limits self.old.database (resolved.Insert table values.now))) }
        ensures unchanged { OnErr result (self.new ≡ self.old) }
        ensures stream { StaysInStream self.old self.new }
    {
        self.responder.executor.insert(table, values)
    }

    /// Puts rows into a table beside the stream, all of them or none, as a load of these values does. The stream goes on as before.
    pub fn load(&mut self, table: TableNumber, rows: RowList) -> Result<(), Refusal>
        requires { IsMeant self.old.limits self.old.database (resolved.Load table rows) }
        ensures done { OnOk result (HasChanged self.new (done self.old.limits self.old.database (resolved.Load table rows)) (length rows)) }
        ensures refused { IfErr result (HasDeclined self.old self.new (done self.old.limits self.old.database (resolved.Load table rows))) }
        ensures stream { StaysInStream self.old self.new }
    {
        self.responder.executor.load(table, rows)
    }

    /// Makes the cells the values that a select shows, a row behind the other, and tells how many columns each row has. A failure
    /// may leave any cells there; `TooLong` comes only if their texts have 4 GiB or more then. The rows are found in the room, of which
    /// at most 64 KiB are kept.
    ///
    /// At each row that is walked, joined with others or shown the select goes on, or ends where it is asked to. It isn't asked while an
    /// index is searched, found rows are put into order, or equal ones are told apart.
    pub fn select(
        &self,
        query: &Query,
        room: &mut SelectRoom,
        cells: &mut Cells,
        interrupts: Interrupts<'_>,
    ) -> Result<usize, SelectFault>
        requires { IsMeant self.now.limits self.now.database (resolved.Select query.now) }
        ensures shown { IfOk result (λ columns. ShowsValues (done self.now.limits self.now.database (resolved.Select query.now)).outcome columns (values_of cells.new)) }
        ensures some { IfOk result (λ columns. 0 < columns) }
        ensures too_long { IsErrOf result SelectFault.TooLong → AreFull (values_of cells.new) }
        ensures room { IsBounded room.new }
    {
        let executor = &self.responder.executor;
        executor
            .reading()
            .select_values(executor.tables.catalog(), query, room, cells, interrupts)
    }

    /// Makes the cells the values of the first rows that a select shows, so many at most, as `select` does of all. Of a table alone no
    /// more rows are looked at than it takes to find these, where no index finds its rows, or that of its key does.
    pub fn first(
        &self,
        query: &Query,
        most: usize,
        room: &mut SelectRoom,
        cells: &mut Cells,
        interrupts: Interrupts<'_>,
    ) -> Result<usize, SelectFault>
        requires { IsMeant self.now.limits self.now.database (resolved.Select query.now) }
        ensures shown { IfOk result (λ columns. ShowsFirst (done self.now.limits self.now.database (resolved.Select query.now)).outcome most columns (values_of cells.new)) }
        ensures some { IfOk result (λ columns. 0 < columns) }
        ensures too_long { IsErrOf result SelectFault.TooLong → AreFull (values_of cells.new) }
        ensures room { IsBounded room.new }
    {
        let executor = &self.responder.executor;
        executor.reading().first_values(
            executor.tables.catalog(),
            query,
            most,
            room,
            cells,
            interrupts,
        )
    }

    /// Finds the rows that a select shows, in their order, and keeps them as references. It never ends by `TooLong`, and is asked to end
    /// as `select` is. At most 64 KiB of the room are kept.
    pub fn find(
        &self,
        query: &Query,
        room: &mut SelectRoom,
        interrupts: Interrupts<'_>,
    ) -> Result<FoundRows, SelectFault>
        requires { IsMeant self.now.limits self.now.database (resolved.Select query.now) }
        ensures found { IfOk result (HasFound (done self.now.limits self.now.database (resolved.Select query.now)).outcome self.now.catalog) }
        ensures declined { IfErr result (λ why. why ≢ select_fault.TooLong) }
        ensures room { IsBounded room.new }
    {
        let executor = &self.responder.executor;
        executor
            .reading()
            .find_shown(executor.tables.catalog(), query, room, interrupts)
    }

    /// Makes the cells the values of rows that were found of these tables, a row behind the other: of those behind the first `from`, so
    /// many at most. It tells how many columns each has. A failure may leave any cells there; `TooLong` comes only if their texts have
    /// 4 GiB or more then.
    pub fn show(
        &self,
        found: &FoundRows,
        from: usize,
        most: usize,
        cells: &mut Cells,
    ) -> Result<usize, CellFault>
        requires { CanShow self.now.catalog found.now.list }
        ensures columns { IfOk result (λ columns. columns ≡ length found.now.list.columns) }
        ensures shown { IfOk result (λ _. values_of cells.new ≡ flat_map (λ row. row) (take most (drop from (values_found self.now.catalog found.now)))) }
        ensures too_long { IsErrOf result CellFault.TooLong → AreFull (values_of cells.new) }
    {
        let executor = &self.responder.executor;
        executor
            .reading()
            .show_found(executor.tables.catalog(), found, from, most, cells)
    }

    /// How many rows a select shows. They are counted as they are found, and none of their values is kept.
    pub fn count(&self, query: &Query, interrupts: Interrupts<'_>) -> Result<u64, CountFault>
        requires { IsMeant self.now.limits self.now.database (resolved.Select query.now) }
        ensures counted { IfOk result (λ count. HasRows (done self.now.limits self.now.database (resolved.Select query.now)).outcome (λ n. count ≡ n)) }
        ensures too_many { IsErrOf result CountFault.TooMany → HasRows (done self.now.limits self.now.database (resolved.Select query.now)).outcome (λ n. 2 ^ 64 ≤ n) }
    {
        let executor = &self.responder.executor;
        executor
            .reading()
            .count_rows(executor.tables.catalog(), query, interrupts)
    }

    /// Makes the cells the columns of what a select shows: of each its name, behind its table's, and then the number of the kind of
    /// its values: 1 of integers, 2 of texts. A failure may leave any cells there.
    pub fn columns(&self, query: &Query, cells: &mut Cells) -> Result<(), CellFault>
        requires { IsMeant self.now.limits self.now.database (resolved.Select query.now) }
        ensures { OnOk result (values_of cells.new ≡ columns_told self.now.database query.now) }
    {
        let executor = &self.responder.executor;
        executor
            .reading()
            .columns(executor.tables.catalog(), query, cells)
    }

    /// The plan by which `select` shows what a query asks for, as far as it can be known before a row is read.
    pub fn plan(&self, query: &Query) -> Result<ToldPlan, NoMemory>
        requires { IsMeant self.now.limits self.now.database (resolved.Select query.now) }
        ensures { IfOk result (λ told. (policy : Policy) × IsPlanOf policy self.now.catalog query.now told) }
    {
        let executor = &self.responder.executor;
        executor
            .reading()
            .tell_plan(executor.tables.catalog(), query)
    }

    /// Makes the answer how the indexes of the table of a name stand: that of its key, and the declared ones.
    pub fn tell_indexes(&self, name: &[u8], answer: &mut Answer)
        ensures { AnswersIndexes self.now.catalog name.now answer.new }
    {
        let executor = &self.responder.executor;
        executor
            .reading()
            .tell_indexes(executor.tables.catalog(), name, answer)
    }

    /// The number of the newest change of the table of a name, or of all tables if the name is empty. Each command that changes rows
    /// of a table raises both, a declaration or a drop of a table that of all tables, and a rollback those of each table. Where nothing
    /// was changed in between, they are as they were. A table that is declared anew has a greater number than any before it.
    pub fn version(&self, name: &[u8]) -> Result<u64, Refusal>
        ensures there { OnOk result (name.now ≢ [] → IsSome (position (is_named name.now) self.now.database)) }
        ensures refused { IfErr result (TellsNothing self.now.catalog name.now) }
        ensures named { IfErr result (λ _. name.now ≢ []) }
    {
        let executor = &self.responder.executor;
        executor.reading().version(executor.tables.catalog(), name)
    }

    /// Takes the next bytes of the stream, and answers each request that ends in them.
    ///
    /// After `Write` the session has ended: each later call answers `Ended` and writes nothing.
    pub fn feed<W: Write>(&mut self, piece: &[u8], w: &mut W) -> Result<(), SessionFault>
        // Ended, before the call.
        ensures ended { IsErrOf result SessionFault.Ended ↔ IsTrue self.old.ended }
        ensures unchanged { IsErrOf result SessionFault.Ended → (self.new ≡ self.old) × Keeps (W.contents w.old) (W.contents w.new) }

        // Each request that ended was answered.
        ensures ok { OnOk result (Gains (W.contents w.old) (W.contents w.new) (Feeds self.old self.new piece.now)) }

        // A write failed, and the answers stop somewhere.
        ensures write { IsErrOf result SessionFault.Write → Gains (W.contents w.old) (W.contents w.new) (BreaksOff self.old self.new piece.now false) }
        ensures over { IsErrOf result SessionFault.Write → IsTrue self.new.ended }
        ensures limits { self.new.limits ≡ self.old.limits }
        ensures saved { self.new.saved ≡ self.old.saved }
    {
        self.feed_into(
            piece,
            &mut Lent {
                writer: w,
                is_flushed: true,
            },
        )
    }

    // Feeds a piece, and writes the answers to an outlet.
    pub(crate) fn feed_into<O: Outlet>(
        &mut self,
        piece: &[u8],
        outlet: &mut O,
    ) -> Result<(), SessionFault>
        ensures ended { IsErrOf result SessionFault.Ended ↔ IsTrue self.old.ended }
        ensures unchanged { IsErrOf result SessionFault.Ended → (self.new ≡ self.old) × Keeps (O.contents outlet.old) (O.contents outlet.new) }
        ensures ok { OnOk result (Gains (O.contents outlet.old) (O.contents outlet.new) (Feeds self.old self.new piece.now)) }
        ensures write { IsErrOf result SessionFault.Write → Gains (O.contents outlet.old) (O.contents outlet.new) (BreaksOff self.old self.new piece.now false) }
        ensures over { IsErrOf result SessionFault.Write → IsTrue self.new.ended }
        ensures limits { self.new.limits ≡ self.old.limits }
        ensures saved { self.new.saved ≡ self.old.saved }
        ensures name { O.name outlet.new ≡ O.name outlet.old }
    {
        if self.ended {
            return Err(SessionFault::Ended);
        }
        let mut rest = piece;
        while let Some(others) = self.responder.take(rest) {
            if outlet.put(self.responder.answer.as_slice()).is_err() {
                self.ended = true;
                return Err(SessionFault::Write);
            }
            rest = others;
        }
        Ok(())
    }

    /// Answers the last request of the stream, which it ends in, where there is one. The session has ended then: each later call
    /// answers `Ended` and writes nothing.
    pub fn end<W: Write>(&mut self, w: &mut W) -> Result<(), SessionFault>
        ensures ended { IsErrOf result SessionFault.Ended ↔ IsTrue self.old.ended }
        ensures unchanged { IsErrOf result SessionFault.Ended → (self.new ≡ self.old) × Keeps (W.contents w.old) (W.contents w.new) }
        ensures ok { OnOk result (Gains (W.contents w.old) (W.contents w.new) (Finishes self.old self.new)) }
        ensures write { IsErrOf result SessionFault.Write → Gains (W.contents w.old) (W.contents w.new) (BreaksOff self.old self.new [] true) }
        ensures over { IsTrue self.new.ended }
        ensures limits { self.new.limits ≡ self.old.limits }
        ensures saved { self.new.saved ≡ self.old.saved }
    {
        self.end_into(&mut Lent {
            writer: w,
            is_flushed: true,
        })
    }

    // Ends the stream, and writes its last answer to an outlet.
    pub(crate) fn end_into<O: Outlet>(&mut self, outlet: &mut O) -> Result<(), SessionFault>
        ensures ended { IsErrOf result SessionFault.Ended ↔ IsTrue self.old.ended }
        ensures unchanged { IsErrOf result SessionFault.Ended → (self.new ≡ self.old) × Keeps (O.contents outlet.old) (O.contents outlet.new) }
        ensures ok { OnOk result (Gains (O.contents outlet.old) (O.contents outlet.new) (Finishes self.old self.new)) }
        ensures write { IsErrOf result SessionFault.Write → Gains (O.contents outlet.old) (O.contents outlet.new) (BreaksOff self.old self.new [] true) }
        ensures over { IsTrue self.new.ended }
        ensures limits { self.new.limits ≡ self.old.limits }
        ensures saved { self.new.saved ≡ self.old.saved }
        ensures name { O.name outlet.new ≡ O.name outlet.old }
    {
        if self.ended {
            return Err(SessionFault::Ended);
        }
        self.ended = true;
        if self.responder.kept.is_nothing() {
            return Ok(());
        }
        self.responder.finish();
        if outlet.put(self.responder.answer.as_slice()).is_err() {
            return Err(SessionFault::Write);
        }
        Ok(())
    }

    /// Ends the session, and lets it go.
    pub fn finish<W: Write>(mut self, w: &mut W) -> Result<(), SessionFault>
        ensures ended { IsErrOf result SessionFault.Ended ↔ IsTrue self.ended }
        ensures unchanged { IsErrOf result SessionFault.Ended → Keeps (W.contents w.old) (W.contents w.new) }
        ensures ok { OnOk result (Gains (W.contents w.old) (W.contents w.new) (λ gained. (last : State) × Finishes self last gained)) }
        ensures write { IsErrOf result SessionFault.Write → Gains (W.contents w.old) (W.contents w.new) (λ sent. (last : State) × BreaksOff self last [] true sent) }
    {
        self.end(w)
    }
}
