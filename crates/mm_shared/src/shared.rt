//! A session that databases share.

ghost use Rattle.std.specs.Prelude.{◌≡◌, ◌≢◌, ◌<◌, ◌≤◌, ◌↔◌, ◌^◌, [], Err, Ok, false, length, map, true, IfErr, IfOk, IsErrOf, IsTrue, OnErr, OnOk};
ghost use Rattle.std.specs.Io.KnownBytes.{Keeps};
ghost use Rattle.plain_tables.specs.Doing.{done};
ghost use Rattle.plain_tables.specs.ResolvedLaws.{IsMeant, emptied};
ghost use Rattle.plain_tables.specs.Transactions.{begun, committed, rolled_back};
ghost use Rattle.plain_tables.specs.declared.resolved.Resolved.TheVariants as resolved;
ghost use Rattle.plain_streams.specs.Division.{IsWhole};
ghost use Rattle.mm_catalog.specs.Seen.{database_of};
ghost use Rattle.mm_cells.specs.Reading.{AreFull};
ghost use Rattle.mm_cells.specs.Values.{values_of};
ghost use Rattle.mm_session.specs.Changing.{HasChanged, IsChange, ShowsValues};
ghost use Rattle.mm_session.specs.Counting.{HasRows};
ghost use Rattle.mm_session.specs.First.{ShowsFirst};
ghost use Rattle.mm_session.specs.Found.{HasFound};
ghost use Rattle.mm_session.specs.OneRequest.{AnswersOne, GoesBetween, IsAtSamePlace, StaysInStream};
ghost use Rattle.mm_session.specs.Reads.{WouldChange};
ghost use Rattle.mm_session.specs.Rooms.{IsBounded};
ghost use Rattle.mm_transactions.specs.Log.{AreSettled};
ghost use Rattle.mm_session.specs.Sessions.{BreaksOff, Feeds, Finishes, Gains, new_session, tables_of};
ghost use Rattle.mm_session.specs.declared.fault.SelectFault.TheVariants as select_fault;
ghost use Rattle.mm_shared.specs.Faults.{IsUndone};
ghost use Rattle.mm_shared.specs.declared.faults.BeginFault.TheVariants as begin_fault;
ghost use Rattle.mm_shared.specs.declared.faults.ChangeFault.TheVariants as change_fault;
ghost use Rattle.mm_shared.specs.declared.faults.RequestFault.TheVariants as request_fault;
ghost use Rattle.mm_shared.specs.declared.faults.StreamFault.TheVariants as stream_fault;

use crate::faults::{BeginFault, ChangeFault, RequestFault, StreamFault};
use mm_catalog::Catalog;
use mm_catalog::laws::a_catalog_is_consistent;
use mm_cells::Cells;
use mm_interrupts::Interrupts;
use mm_session::{Answer, CountFault, FoundRows, SelectFault, SelectRoom, Session};
use mm_transactions::NoTransaction;
use no_memory::NoMemory;
use plain_tables::{Query, Resolved, RowList, TableNumber, Value};
use plan_chooser::Policy;
use std::alloc::Global;
use std::io::Write;
use std::marker::Model;
use std::mem;
use std::sync::Arc;

/// A session of a database's own, or one behind a counted owner that databases share. The last that is left of these changes it. It is
/// seen as the session, and whether that is shared.
pub struct SharedSession {
    // The session that isn't shared. Beside a shared one it has no tables, and is there once that is left.
    own: Session,
    shared: Option<Arc<Session, Global>>,
}

// It is written out, so that the crates above don't prove anew how each part of a part is freed.
impl Drop for SharedSession {
    fn drop(self) {
        let SharedSession { own: _, shared: _ } = self;
    }
}

impl Model for SharedSession {
    ghost use Rattle.std.specs.Prelude.{IfSome, is_some};
    ghost use Rattle.std.specs.Arc.{arc_value};
    ghost use Rattle.std.specs.Option.{option_map_or};
    ghost use Rattle.mm_session.specs.contracts.session.Session.{the_row as session_row};
    ghost use Rattle.mm_shared.specs.Held.{Held, IsBeside, held_code};

    ghost Value = { Held };

    ghost coded = { held_code session_row.coded };

    ghost view = { λ s. record { session = option_map_or arc_value s.shared s.own; shared = is_some s.shared } };

    ghost invariant = { λ s. IfSome s.shared (λ shared. IsBeside s.own (arc_value shared)) };
}

impl SharedSession {
    ghost use Rattle.std.specs.Arc.{arc_value};

    /// Holds a session that nobody else does.
    pub fn new(session: Session) -> SharedSession
        ensures { result ≡ record { session = session; shared = false } }
    {
        SharedSession {
            own: session,
            shared: None,
        }
    }

    // A session without tables, under the same limits.
    fn emptied(&self, alloc: Global, policy: Policy) -> Result<Session, NoMemory>
        ensures { IfOk result (λ s. s ≡ new_session self.now.session.limits [] s.catalog) }
    {
        let catalog = self.catalog();
        a_catalog_is_consistent(catalog);
        Session::with_limits(alloc, policy, catalog.limits())
    }

    /// Another owner of the session, which is shared then. Even where there is no memory for that owner it may be.
    pub fn owner(&mut self, alloc: Global, policy: Policy) -> Result<Arc<Session, Global>, NoMemory>
        requires { self.old.session.saved ≡ [] }
        ensures owner { IfOk result (λ a. arc_value a ≡ self.old.session) }
        ensures shared { OnOk result (self.new.shared ≡ true) }
        ensures session { self.new.session ≡ self.old.session }
        ensures stays { IsTrue self.old.shared → self.new.shared ≡ true }
    {
        if let Some(shared) = &self.shared {
            return Ok(Arc::try_clone(shared)?);
        }
        let empty = self.emptied(alloc, policy)?;
        match Arc::new(alloc, mem::replace(&mut self.own, empty)) {
            Ok(session) => Ok(Arc::try_clone(self.shared.insert(session))?),
            Err(mut failed) => {
                mem::swap(&mut self.own, &mut failed.value);
                Err(NoMemory::from(failed))
            }
        }
    }

    /// Holds the session once more: it is shared then. Even where there is no memory for that it may be.
    pub fn another(&mut self, alloc: Global, policy: Policy) -> Result<SharedSession, NoMemory>
        requires { self.old.session.saved ≡ [] }
        ensures another { IfOk result (λ s. s ≡ record { session = self.old.session; shared = true }) }
        ensures shared { OnOk result (self.new.shared ≡ true) }
        ensures session { self.new.session ≡ self.old.session }
        ensures stays { IsTrue self.old.shared → self.new.shared ≡ true }
    {
        let own = self.emptied(alloc, policy)?;
        let session = self.owner(alloc, policy)?;
        Ok(SharedSession {
            own,
            shared: Some(session),
        })
    }

    /// Leaves the session for one without tables. Only where it isn't shared that takes memory.
    pub fn leave(&mut self, alloc: Global, policy: Policy) -> Result<(), NoMemory>
        ensures left { OnOk result (self.new.session ≡ new_session self.old.session.limits [] self.new.session.catalog) }
        ensures alone { self.new.shared ≡ false }
        ensures own { OnErr result (self.old.shared ≡ false) }
        ensures unchanged { OnErr result (self.new ≡ self.old) }
    {
        if self.shared.is_none() {
            self.own = self.emptied(alloc, policy)?;
        }
        self.shared = None;
        Ok(())
    }

    /// The session, lent.
    pub fn session(&self) -> &Session
        ensures { result.now ≡ self.now.session }
    {
        match &self.shared {
            Some(session) => session,
            None => &self.own,
        }
    }

    /// The tables, lent.
    pub fn catalog(&self) -> &Catalog
        ensures own { result.now ≡ self.now.session.catalog }
        ensures tables { database_of result.now ≡ self.now.session.database }
        ensures limits { result.now.limits ≡ self.now.session.limits }
    {
        self.session().catalog()
    }

    /// How many transactions are open.
    pub fn transactions(&self) -> usize
        ensures { result ≡ length self.now.session.saved }
    {
        self.session().transactions()
    }

    /// Whether a transaction is open.
    pub fn is_in_transaction(&self) -> bool
        ensures open { result ≡ true → self.now.session.saved ≢ [] }
        ensures none { result ≡ false → self.now.session.saved ≡ [] }
    {
        self.transactions() > 0
    }

    /// Begins a transaction, as the session does, where nobody else holds it. It isn't shared then.
    pub fn begin(&mut self) -> Result<(), BeginFault>
        ensures begun { OnOk result (tables_of self.new.session ≡ begun (tables_of self.old.session)) }
        ensures catalog { self.new.session.catalog ≡ self.old.session.catalog }
        ensures alone { OnOk result (self.new.shared ≡ false) }
        ensures shared { IsErrOf result begin_fault.Shared → IsTrue self.old.shared }
        ensures unchanged { OnErr result (self.new ≡ self.old) }
        ensures stream { IsAtSamePlace self.old.session self.new.session }
    {
        let Some(shared) = &mut self.shared else {
            return Ok(self.own.begin()?);
        };
        let Some(session) = Arc::get_mut(shared) else {
            return Err(BeginFault::Shared);
        };
        session.begin()?;
        mem::swap(&mut self.own, session);
        self.shared = None;
        Ok(())
    }

    /// Ends the innermost transaction, and keeps what was done in it, as the session does. None is open while it is shared.
    pub fn commit(&mut self) -> Result<(), NoTransaction>
        ensures open { OnOk result (self.old.session.saved ≢ []) }
        ensures alone { OnOk result (self.new.shared ≡ false) }
        ensures committed { OnOk result (tables_of self.new.session ≡ committed (tables_of self.old.session)) }
        ensures catalog { AreSettled self.old.session.catalog self.new.session.catalog }
        ensures none { OnErr result (self.old.session.saved ≡ []) }
        ensures unchanged { OnErr result (self.new ≡ self.old) }
        ensures stream { IsAtSamePlace self.old.session self.new.session }
    {
        if self.shared.is_some() {
            return Err(NoTransaction);
        }
        self.own.commit()
    }

    /// Ends the innermost transaction, and undoes what was done in it, as the session does. None is open while it is shared.
    pub fn rollback(&mut self) -> Result<bool, NoTransaction>
        ensures open { OnOk result (self.old.session.saved ≢ []) }
        ensures alone { OnOk result (self.new.shared ≡ false) }
        ensures rolled_back { OnOk result (tables_of self.new.session ≡ rolled_back (tables_of self.old.session)) }
        ensures tables { result ≡ Ok true → map emptied self.new.session.database ≡ map emptied self.old.session.database }
        ensures none { OnErr result (self.old.session.saved ≡ []) }
        ensures unchanged { OnErr result (self.new ≡ self.old) }
        ensures stream { IsAtSamePlace self.old.session self.new.session }
    {
        if self.shared.is_some() {
            return Err(NoTransaction);
        }
        self.own.rollback()
    }

    /// Makes the cells the values that a select shows, as the session does, until it is asked to end. The rows are found in
    /// the room.
    pub fn select(
        &self,
        query: &Query,
        room: &mut SelectRoom,
        cells: &mut Cells,
        interrupts: Interrupts<'_>,
    ) -> Result<usize, SelectFault>
        requires { IsMeant self.now.session.limits self.now.session.database (resolved.Select query.now) }
        ensures shown { IfOk result (λ columns. ShowsValues (done self.now.session.limits self.now.session.database (resolved.Select query.now)).outcome columns (values_of cells.new)) }
        ensures some { IfOk result (λ columns. 0 < columns) }
        ensures too_long { IsErrOf result SelectFault.TooLong → AreFull (values_of cells.new) }
        ensures room { IsBounded room.new }
    {
        self.session().select(query, room, cells, interrupts)
    }

    /// Makes the cells the values of the first rows that a select shows, so many at most, as the session does. The rows are found in the
    /// room.
    pub fn first(
        &self,
        query: &Query,
        most: usize,
        room: &mut SelectRoom,
        cells: &mut Cells,
        interrupts: Interrupts<'_>,
    ) -> Result<usize, SelectFault>
        requires { IsMeant self.now.session.limits self.now.session.database (resolved.Select query.now) }
        ensures shown { IfOk result (λ columns. ShowsFirst (done self.now.session.limits self.now.session.database (resolved.Select query.now)).outcome most columns (values_of cells.new)) }
        ensures some { IfOk result (λ columns. 0 < columns) }
        ensures too_long { IsErrOf result SelectFault.TooLong → AreFull (values_of cells.new) }
        ensures room { IsBounded room.new }
    {
        self.session().first(query, most, room, cells, interrupts)
    }

    /// Finds the rows that a select shows, and keeps them as references, as the session does. They are found in the room.
    pub fn find(
        &self,
        query: &Query,
        room: &mut SelectRoom,
        interrupts: Interrupts<'_>,
    ) -> Result<FoundRows, SelectFault>
        requires { IsMeant self.now.session.limits self.now.session.database (resolved.Select query.now) }
        ensures found { IfOk result (HasFound (done self.now.session.limits self.now.session.database (resolved.Select query.now)).outcome self.now.session.catalog) }
        ensures declined { IfErr result (λ why. why ≢ select_fault.TooLong) }
        ensures room { IsBounded room.new }
    {
        self.session().find(query, room, interrupts)
    }

    /// How many rows a select shows, as the session counts them.
    pub fn count(&self, query: &Query, interrupts: Interrupts<'_>) -> Result<u64, CountFault>
        requires { IsMeant self.now.session.limits self.now.session.database (resolved.Select query.now) }
        ensures counted { IfOk result (λ count. HasRows (done self.now.session.limits self.now.session.database (resolved.Select query.now)).outcome (λ n. count ≡ n)) }
        ensures too_many { IsErrOf result CountFault.TooMany → HasRows (done self.now.session.limits self.now.session.database (resolved.Select query.now)).outcome (λ n. 2 ^ 64 ≤ n) }
    {
        self.session().count(query, interrupts)
    }

    /// Does an insert, an update or a delete, as the session does, where nobody else holds it.
    pub fn change(&mut self, command: &Resolved) -> Result<usize, ChangeFault>
        requires meant { IsMeant self.old.session.limits self.old.session.database command.now }
        requires change { IsChange command.now }
        ensures done { IfOk result (HasChanged self.new.session (done self.old.session.limits self.old.session.database command.now)) }
        ensures refused { IfErr result (IsUndone self.old.session self.new.session (done self.old.session.limits self.old.session.database command.now)) }
        ensures unchanged { OnErr result (self.new ≡ self.old) }
        ensures shared { IsErrOf result change_fault.Shared → IsTrue self.old.shared }
        ensures keeps { self.new.shared ≡ self.old.shared }
        ensures stream { StaysInStream self.old.session self.new.session }
    {
        let Some(shared) = &mut self.shared else {
            return Ok(self.own.change(command)?);
        };
        match Arc::get_mut(shared) {
            Some(session) => Ok(session.change(command)?),
            None => Err(ChangeFault::Shared),
        }
    }

    /// Puts a row into a table, as the session does, where nobody else holds it.
    pub fn insert(&mut self, table: TableNumber, values: &[Value]) -> Result<(), ChangeFault>
        requires { IsMeant self.old.session.limits self.old.session.database (resolved.Insert table values.now) }
        ensures done { OnOk result (HasChanged self.new.session (done self.old.session.limits self.old.session.database (resolved.Insert table values.now)) 1) }
        ensures refused { IfErr result (IsUndone self.old.session self.new.session (done self.old.session.limits self.old.session.database (resolved.Insert table values.now))) }
        ensures unchanged { OnErr result (self.new ≡ self.old) }
        ensures shared { IsErrOf result change_fault.Shared → IsTrue self.old.shared }
        ensures keeps { self.new.shared ≡ self.old.shared }
        ensures stream { StaysInStream self.old.session self.new.session }
    {
        let Some(shared) = &mut self.shared else {
            return Ok(self.own.insert(table, values)?);
        };
        match Arc::get_mut(shared) {
            Some(session) => Ok(session.insert(table, values)?),
            None => Err(ChangeFault::Shared),
        }
    }

    /// Puts rows into a table, all of them or none, as the session does, where nobody else holds it.
    pub fn load(&mut self, table: TableNumber, rows: RowList) -> Result<(), ChangeFault>
        requires { IsMeant self.old.session.limits self.old.session.database (resolved.Load table rows) }
        ensures done { OnOk result (HasChanged self.new.session (done self.old.session.limits self.old.session.database (resolved.Load table rows)) (length rows)) }
        ensures refused { IfErr result (IsUndone self.old.session self.new.session (done self.old.session.limits self.old.session.database (resolved.Load table rows))) }
        ensures unchanged { OnErr result (self.new.session.database ≡ self.old.session.database) }
        ensures shared { IsErrOf result change_fault.Shared → IsTrue self.old.shared }
        ensures keeps { self.new.shared ≡ self.old.shared }
        ensures stream { StaysInStream self.old.session self.new.session }
    {
        let Some(shared) = &mut self.shared else {
            return Ok(self.own.load(table, rows)?);
        };
        match Arc::get_mut(shared) {
            Some(session) => Ok(session.load(table, rows)?),
            None => Err(ChangeFault::Shared),
        }
    }

    /// Answers one request by itself, as the session does. Where somebody else holds that, it declines what would change tables.
    pub fn answer_request(
        &mut self,
        line: &[u8],
        block: &[u8],
        answer: &mut Answer,
    ) -> Result<(), RequestFault>
        ensures ok { OnOk result (AnswersOne self.old.session.limits self.old.session.database (record { line = line.now; block = block.now }) answer.new self.new.session.database) }
        ensures err { IsErrOf result request_fault.NotOneRequest → ¬ (IsWhole (record { line = line.now; block = block.now })) }
        ensures unchanged { OnErr result ((self.new ≡ self.old) × (answer.new ≡ answer.old)) }
        ensures stream { StaysInStream self.old.session self.new.session }
        ensures run { OnOk result (GoesBetween self.old.session self.new.session (record { line = line.now; block = block.now }) answer.new) }
        ensures shared { IsErrOf result request_fault.Shared → IsTrue self.old.shared }
        ensures change { IsErrOf result request_fault.Shared → WouldChange self.old.session.database (record { line = line.now; block = block.now }) }
        ensures keeps { self.new.shared ≡ self.old.shared }
    {
        let Some(shared) = &mut self.shared else {
            return Ok(self.own.answer_request(line, block, answer)?);
        };
        match Arc::get_mut(shared) {
            Some(session) => Ok(session.answer_request(line, block, answer)?),
            None => Ok(shared.read_request(line, block, answer)?),
        }
    }

    /// Takes the next bytes of the stream, as the session does, where nobody else holds it.
    pub fn feed<W: Write>(&mut self, piece: &[u8], w: &mut W) -> Result<(), StreamFault>
        ensures ended { IsErrOf result stream_fault.Ended ↔ IsTrue self.old.session.ended }
        ensures unchanged { IsErrOf result stream_fault.Ended → (self.new ≡ self.old) × Keeps (W.contents w.old) (W.contents w.new) }
        ensures ok { OnOk result (Gains (W.contents w.old) (W.contents w.new) (Feeds self.old.session self.new.session piece.now)) }
        ensures write { IsErrOf result stream_fault.Write → Gains (W.contents w.old) (W.contents w.new) (BreaksOff self.old.session self.new.session piece.now false) }
        ensures over { IsErrOf result stream_fault.Write → IsTrue self.new.session.ended }
        ensures limits { self.new.session.limits ≡ self.old.session.limits }
        ensures shared { IsErrOf result stream_fault.Shared → IsTrue self.old.shared × (self.new.session ≡ self.old.session) × Keeps (W.contents w.old) (W.contents w.new) }
        ensures keeps { self.new.shared ≡ self.old.shared }
        ensures saved { self.new.session.saved ≡ self.old.session.saved }
    {
        if self.session().has_ended() {
            return Err(StreamFault::Ended);
        }
        let Some(shared) = &mut self.shared else {
            return Ok(self.own.feed(piece, w)?);
        };
        match Arc::get_mut(shared) {
            Some(session) => Ok(session.feed(piece, w)?),
            None => Err(StreamFault::Shared),
        }
    }

    /// Ends the stream, as the session does, where nobody else holds it.
    pub fn end<W: Write>(&mut self, w: &mut W) -> Result<(), StreamFault>
        ensures ended { IsErrOf result stream_fault.Ended ↔ IsTrue self.old.session.ended }
        ensures unchanged { IsErrOf result stream_fault.Ended → (self.new ≡ self.old) × Keeps (W.contents w.old) (W.contents w.new) }
        ensures ok { OnOk result (Gains (W.contents w.old) (W.contents w.new) (Finishes self.old.session self.new.session)) }
        ensures write { IsErrOf result stream_fault.Write → Gains (W.contents w.old) (W.contents w.new) (BreaksOff self.old.session self.new.session [] true) }
        ensures over { result ≢ Err stream_fault.Shared → IsTrue self.new.session.ended }
        ensures limits { self.new.session.limits ≡ self.old.session.limits }
        ensures shared { IsErrOf result stream_fault.Shared → IsTrue self.old.shared × (self.new.session ≡ self.old.session) × Keeps (W.contents w.old) (W.contents w.new) }
        ensures keeps { self.new.shared ≡ self.old.shared }
        ensures saved { self.new.session.saved ≡ self.old.session.saved }
    {
        if self.session().has_ended() {
            return Err(StreamFault::Ended);
        }
        let Some(shared) = &mut self.shared else {
            return Ok(self.own.end(w)?);
        };
        match Arc::get_mut(shared) {
            Some(session) => Ok(session.end(w)?),
            None => Err(StreamFault::Shared),
        }
    }
}
