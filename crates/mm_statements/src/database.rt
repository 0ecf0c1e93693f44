//! A database with statements: a session, and the statements that are kept of its tables.

use crate::columns::push_columns;
use crate::counting::select_of;
use crate::cursor::Cursor;
use crate::faults::{CursorFault, ExecuteFault, PrepareFault, QueryFault, ShareFault};
use crate::many::{change_all, load_each};
use crate::planning::{PlannedSelect, plan_of_line};
use crate::querying::command_of_line;
use crate::reading::{count_marks, meaning, readable};
use crate::resolving::{command_of, resolution_of, resolve, settle};
use mm_cells::Cells;
use mm_interrupts::{Interrupter, Interrupts};
use mm_prepared::{
    Bound, Commands, Declined, Lent, LentValue, Statements, check_each, may_declare,
};
use mm_session::{Answer, SelectRoom, Session};
use mm_shared::{BeginFault, NotedTables, RequestFault, SharedSession, StreamFault};
use mm_transactions::NoTransaction;
use no_memory::NoMemory;
use plain_statements::Template;
use plain_tables::{Limits, Refusal, Resolved, Value};
use plan_chooser::Policy;
use std::alloc::Global;
use std::io::Write;
use std::marker::Model;

/// A statement that was prepared: its number, and how many holes it has.
#[derive(Clone, Copy)]
pub struct Numbered {
    pub statement: usize,
    pub places: usize,
}

/// What an execution gave: how many rows it changed; or rows, of so many columns each.
#[derive(Clone, Copy)]
pub enum Executed {
    Changed(usize),
    Rows { columns: usize },
}

/// A statement that is kept, as it was prepared and as it stands: the line that spells it, and the values that are bound to its holes,
/// by their places.
#[derive(Clone, Copy)]
pub struct PreparedLine<'a> {
    pub line: &'a str,
    pub values: &'a [Value],
}

/// A session with statements. A statement is a line whose question marks are holes for values; it is prepared once, and executed with
/// the values that are bound then.
///
/// Several databases may share a session. Each has statements of its own, and reads the tables. Only the last that is left changes
/// them; the others are refused by `Shared`. In a transaction sharing and leaving are refused by `InTransaction`. All changes are done
/// there, by lines, statements and pieces of the stream, and a rollback undoes them.
pub struct Database {
    held: SharedSession,
    policy: Policy,
    statements: Statements,
    // What is known of the statements' meaning is right by these.
    noted: NotedTables,
    commands: Commands,
    // What a select finds is found here, and the room is kept for the next.
    room: SelectRoom,
    // What asks selects to end, once somebody wanted it.
    interrupter: Option<Interrupter>,
}

// It is written out, so that the crates above don't prove anew how each part of a part is freed.
impl Drop for Database {
    fn drop(self) {
        let Database {
            held: _,
            policy: _,
            statements: _,
            noted: _,
            commands: _,
            room: _,
            interrupter: _,
        } = self;
    }
}

// A select begins that such an interrupter may ask to end, if there is one.
fn begin_select(interrupter: &Option<Interrupter>) -> Interrupts<'_> {
    match interrupter {
        Some(interrupter) => interrupter.begin(),
        None => Interrupts::none(),
    }
}

impl Model for Database {
    ghost use Rattle.plain_tables.specs.contracts.value.Value.{the_row as value_row};
    ghost use Rattle.mm_session.specs.contracts.session.Session.{the_row as session_row};
    ghost use Rattle.mm_prepared.specs.Kept.{all_seen};
    ghost use Rattle.mm_statements.specs.Databases.{DatabaseState, database_code};
    ghost use Rattle.mm_statements.specs.Right.{AreNoted};

    ghost Value = { DatabaseState };

    ghost coded = { database_code session_row.coded value_row.coded };

    ghost view = { λ d. record { session = d.held.session; shared = d.held.shared; statements = all_seen d.statements } };

    ghost invariant = { λ d. AreNoted d.held.session.database d.noted d.statements };
}

impl Database {
    ghost use Rattle.std.specs.Prelude.{◌≡◌, ◌<◌, ◌≢◌, ◌≤◌, ◌↔◌, ◌⊎◌, ℕ, Err, None, Some, false, true, [], IsErrOf, IsSome, IsTrue, IfErr, IfOk, MatchOption, OnErr, OnOk, length, replicate, slice_set};
    ghost use Rattle.std.specs.Io.KnownBytes.{Keeps};
    ghost use Rattle.plain_tables.specs.declared.value.Value.TheVariants as value;
    ghost use Rattle.plain_streams.specs.Division.{IsWhole};
    ghost use Rattle.plain_streams.specs.Requests.{without_return};
    ghost use Rattle.mm_cells.specs.Reading.{AreFull};
    ghost use Rattle.mm_cells.specs.Values.{values_of};
    ghost use Rattle.mm_session.specs.Changing.{HasChanged};
    ghost use Rattle.mm_session.specs.OneRequest.{AnswersOne, GoesBetween, IsAtSamePlace, StaysInStream};
    ghost use Rattle.mm_session.specs.Reads.{WouldChange};
    ghost use Rattle.mm_session.specs.Sessions.{BreaksOff, Feeds, Finishes, Gains, new_session, tables_of};
    ghost use Rattle.plain_tables.specs.Transactions.{begun, committed, rolled_back};
    ghost use Rattle.mm_prepared.specs.Cells.{IsSmall, cell_value};
    ghost use Rattle.mm_prepared.specs.Kept.{KeptStatement};
    ghost use Rattle.mm_statements.specs.Counting.{HasRowsOf, IsUncounted};
    ghost use Rattle.mm_statements.specs.Cursors.{IsCursorOf, IsUnopened, MayShare};
    ghost use Rattle.mm_statements.specs.First.{IsUnshown, ShowsFirstOf};
    ghost use Rattle.mm_statements.specs.Databases.{statement_at, IsUnchanged, KeepsTables, NowNames, SameStatements, SharesMore};
    ghost use Rattle.mm_statements.specs.Executing.{HasGiven, IsDeclined, IsEffectOf, IsUntold, TellsColumns};
    ghost use Rattle.mm_statements.specs.Many.{IsDeclinedWithMany, IsEffectOfMany};
    ghost use Rattle.mm_statements.specs.Planning.{IsPlanOfLine, IsUnplanned};
    ghost use Rattle.mm_statements.specs.Preparing.{IsPrepared, IsUnpreparedFor};
    ghost use Rattle.mm_statements.specs.Querying.{IsEffectOfLine, IsUnanswered};
    ghost use Rattle.mm_prepared.specs.declared.declined.Declined.TheVariants as declined;
    ghost use Rattle.mm_statements.specs.declared.faults.ExecuteFault.TheVariants as fault;
    ghost use Rattle.mm_shared.specs.declared.faults.BeginFault.TheVariants as begin_fault;
    ghost use Rattle.mm_statements.specs.declared.faults.CursorFault.TheVariants as cursor_fault;
    ghost use Rattle.mm_statements.specs.declared.faults.QueryFault.TheVariants as query_fault;
    ghost use Rattle.mm_statements.specs.declared.faults.ShareFault.TheVariants as share_fault;
    ghost use Rattle.mm_shared.specs.declared.faults.RequestFault.TheVariants as request_fault;
    ghost use Rattle.mm_shared.specs.declared.faults.StreamFault.TheVariants as stream_fault;
    ghost use Rattle.plain_tables.specs.Effects.{Effect};

    /// A database with no tables, under these limits, and no statements. It shares no session.
    pub fn new(alloc: Global, policy: Policy, limits: Limits) -> Result<Database, NoMemory>
        requires { limits.rows ≤ 16777216 }
        ensures session { IfOk result (λ d. d.session ≡ new_session limits [] d.session.catalog) }
        ensures none { IfOk result (λ d. (number : ℕ) → statement_at d number ≡ None) }
        ensures alone { IfOk result (λ d. d.shared ≡ false) }
    {
        Ok(Database::over(alloc, policy, Session::with_limits(alloc, policy, limits)?))
    }

    // A database that holds a session so, and has no statements.
    fn holding(alloc: Global, policy: Policy, held: SharedSession) -> Database
        ensures session { result.session ≡ held.session }
        ensures shared { result.shared ≡ held.shared }
        ensures none { (number : ℕ) → statement_at result number ≡ None }
    {
        Database {
            held,
            policy,
            statements: Statements::new(alloc),
            noted: NotedTables::new(alloc),
            commands: Commands::new(alloc),
            room: SelectRoom::new(alloc),
            interrupter: None,
        }
    }

    /// A database with a session of its own, and no statements.
    pub fn over(alloc: Global, policy: Policy, session: Session) -> Database
        ensures session { result.session ≡ session }
        ensures none { (number : ℕ) → statement_at result number ≡ None }
        ensures alone { result.shared ≡ false }
    {
        Database::holding(alloc, policy, SharedSession::new(session))
    }

    /// A database that shares the session, with no statements of its own. In a transaction there is none.
    pub fn reader(&mut self, alloc: Global) -> Result<Database, ShareFault>
        ensures session { IfOk result (λ d. d.session ≡ self.old.session) }
        ensures none { IfOk result (λ d. (number : ℕ) → statement_at d number ≡ None) }
        ensures shared { IfOk result (λ d. (d.shared ≡ true) × (self.new.shared ≡ true)) }
        ensures stays { SharesMore self.old self.new }
        ensures declined { IsErrOf result share_fault.InTransaction → self.new ≡ self.old }
        ensures open { IsErrOf result share_fault.InTransaction → self.old.session.saved ≢ [] }
        ensures waits { self.old.session.saved ≢ [] → result ≡ Err share_fault.InTransaction }
    {
        if self.held.is_in_transaction() {
            return Err(ShareFault::InTransaction);
        }
        let held = self.held.another(alloc, self.policy)?;
        Ok(Database::holding(alloc, self.policy, held))
    }

    /// A database of its own with the same tables, and no statements. Its stream begins anew. In a transaction there is none.
    pub fn try_clone(&self, alloc: Global) -> Result<Database, ShareFault>
        ensures session { IfOk result (λ d. d.session ≡ new_session self.now.session.limits self.now.session.database d.session.catalog) }
        ensures tables { IfOk result (λ d. d.session.catalog ≡ self.now.session.catalog) }
        ensures none { IfOk result (λ d. (number : ℕ) → statement_at d number ≡ None) }
        ensures alone { IfOk result (λ d. d.shared ≡ false) }
        ensures open { IsErrOf result share_fault.InTransaction → self.now.session.saved ≢ [] }
        ensures waits { self.now.session.saved ≢ [] → result ≡ Err share_fault.InTransaction }
    {
        if self.held.is_in_transaction() {
            return Err(ShareFault::InTransaction);
        }
        let catalog = self.held.catalog().try_clone(alloc)?;
        let session = Session::over(alloc, self.policy, catalog)?;
        Ok(Database::over(alloc, self.policy, session))
    }

    /// Has another database share the session, in the place of its own, which ends where no third shares it. The other's statements
    /// and their values stay. What is known of their meaning stays where the tables have the names and columns that it was worked out
    /// by. In a transaction of either it is declined.
    pub fn share(&mut self, alloc: Global, other: &mut Database) -> Result<(), ShareFault>
        ensures session { OnOk result (other.new.session ≡ self.old.session) }
        ensures statements { OnOk result (SameStatements other.old other.new) }
        ensures shared { OnOk result ((other.new.shared ≡ true) × (self.new.shared ≡ true)) }
        ensures stays { SharesMore self.old self.new }
        ensures declined { IsErrOf result share_fault.InTransaction → self.new ≡ self.old }
        ensures unchanged { OnErr result (other.new ≡ other.old) }
        ensures open { IsErrOf result share_fault.InTransaction → (self.old.session.saved ≢ []) ⊎ (other.old.session.saved ≢ []) }
        ensures waits { (self.old.session.saved ≢ []) ⊎ (other.old.session.saved ≢ []) → result ≡ Err share_fault.InTransaction }
    {
        if self.held.is_in_transaction() || other.held.is_in_transaction() {
            return Err(ShareFault::InTransaction);
        }
        let held = self.held.another(alloc, self.policy)?;
        other.held = held;
        other.noted.doubt();
        other.policy = self.policy;
        Ok(())
    }

    /// Leaves the session, which ends where no other database shares it, for one without tables. The statements and their values stay.
    /// What is known of their meaning stays for the tables that are shared next. In a transaction it is declined. Only where nothing is
    /// shared it takes memory.
    pub fn leave(&mut self, alloc: Global) -> Result<(), ShareFault>
        ensures session { OnOk result (self.new.session ≡ new_session self.old.session.limits [] self.new.session.catalog) }
        ensures statements { OnOk result (SameStatements self.old self.new) }
        ensures alone { OnOk result (self.new.shared ≡ false) }
        ensures own { IsErrOf result share_fault.NoMemory → self.old.shared ≡ false }
        ensures unchanged { OnErr result (self.new ≡ self.old) }
        ensures open { IsErrOf result share_fault.InTransaction → self.old.session.saved ≢ [] }
        ensures waits { self.old.session.saved ≢ [] → result ≡ Err share_fault.InTransaction }
    {
        if self.held.is_in_transaction() {
            return Err(ShareFault::InTransaction);
        }
        self.held.leave(alloc, self.policy)?;
        self.noted.doubt();
        Ok(())
    }

    /// The select that a line spells, and its plan. A carriage return at the line's end is no part of it.
    pub fn plan(&self, alloc: Global, line: &[u8]) -> Result<PlannedSelect, Refusal>
        ensures planned { IfOk result (IsPlanOfLine self.now.session (without_return line.now)) }
        ensures refused { IfErr result (IsUnplanned self.now.session (without_return line.now)) }
    {
        plan_of_line(alloc, &self.held, line)
    }

    /// What asks the select that is under way to end, from another thread. There may be several.
    pub fn interrupter(&mut self, alloc: Global) -> Result<Interrupter, NoMemory>
        ensures { self.new ≡ self.old }
    {
        if let Some(interrupter) = &self.interrupter {
            return interrupter.another();
        }
        let own = Interrupter::new(alloc)?;
        let another = own.another()?;
        self.interrupter = Some(own);
        Ok(another)
    }

    /// The session, lent.
    pub fn session(&self) -> &Session
        ensures { result.now ≡ self.now.session }
    {
        self.held.session()
    }

    /// How many transactions are open.
    pub fn transactions(&self) -> usize
        ensures { result ≡ length self.now.session.saved }
    {
        self.held.transactions()
    }

    /// Begins a transaction, in those that are open. The session isn't shared then. The stream goes on as before.
    pub fn begin(&mut self) -> Result<(), BeginFault>
        ensures begun { OnOk result (tables_of self.new.session ≡ begun (tables_of self.old.session)) }
        ensures alone { OnOk result (self.new.shared ≡ false) }
        ensures shared { IsErrOf result begin_fault.Shared → IsTrue self.old.shared }
        ensures unchanged { OnErr result (self.new ≡ self.old) }
        ensures stream { IsAtSamePlace self.old.session self.new.session }
        ensures statements { SameStatements self.old self.new }
    {
        self.held.begin()
    }

    /// Ends the innermost transaction, and keeps what was done in it. The stream goes on as before.
    pub fn commit(&mut self) -> Result<(), NoTransaction>
        ensures open { OnOk result (self.old.session.saved ≢ []) }
        ensures committed { OnOk result (tables_of self.new.session ≡ committed (tables_of self.old.session)) }
        ensures none { OnErr result (self.old.session.saved ≡ []) }
        ensures alone { OnOk result (self.new.shared ≡ false) }
        ensures unchanged { OnErr result (self.new ≡ self.old) }
        ensures stream { IsAtSamePlace self.old.session self.new.session }
        ensures statements { SameStatements self.old self.new }
    {
        self.held.commit()
    }

    /// Ends the innermost transaction, and undoes what was done in it: the tables are those that it began with. It takes no memory.
    /// The stream goes on as before. Where no table was declared or dropped in it, what is known of the statements' meaning isn't even
    /// compared with the tables.
    pub fn rollback(&mut self) -> Result<(), NoTransaction>
        ensures open { OnOk result (self.old.session.saved ≢ []) }
        ensures rolled_back { OnOk result (tables_of self.new.session ≡ rolled_back (tables_of self.old.session)) }
        ensures none { OnErr result (self.old.session.saved ≡ []) }
        ensures alone { OnOk result (self.new.shared ≡ false) }
        ensures unchanged { OnErr result (self.new ≡ self.old) }
        ensures stream { IsAtSamePlace self.old.session self.new.session }
        ensures statements { SameStatements self.old self.new }
    {
        let kept = self.held.rollback()?;
        if !kept {
            self.noted.doubt();
        }
        Ok(())
    }

    /// Answers one request by itself, beside the stream: a line without its line feed, and the block behind it, which is empty
    /// for a line that asks for none. The stream goes on as if the request had not been there.
    ///
    /// Where the line can't change the names and columns of tables, what is known of the statements' meaning isn't even compared with them.
    pub fn answer_request(
        &mut self,
        line: &[u8],
        block: &[u8],
        answer: &mut Answer,
    ) -> Result<(), RequestFault>
        // The request is one, and was answered.
        ensures ok { OnOk result (AnswersOne self.old.session.limits self.old.session.database (record { line = line.now; block = block.now }) answer.new self.new.session.database) }

        // It isn't: the line has a line feed in it, or takes another number of bytes than the block has.
        ensures err { IsErrOf result request_fault.NotOneRequest → ¬ (IsWhole (record { line = line.now; block = block.now })) }

        // Where it isn't, or would change tables that another database shares, nothing has changed.
        ensures unchanged { OnErr result ((self.new ≡ self.old) × (answer.new ≡ answer.old)) }
        ensures shared { IsErrOf result request_fault.Shared → IsTrue self.old.shared }
        ensures change { IsErrOf result request_fault.Shared → WouldChange self.old.session.database (record { line = line.now; block = block.now }) }
        ensures keeps { self.new.shared ≡ self.old.shared }

        // The stream goes on as before, and the request stands behind what of it was answered.
        ensures stream { StaysInStream self.old.session self.new.session }
        ensures run { OnOk result (GoesBetween self.old.session self.new.session (record { line = line.now; block = block.now }) answer.new) }

        // The statements stay.
        ensures statements { SameStatements self.old self.new }
    {
        self.held.answer_request(line, block, answer)?;
        if may_declare(line) {
            self.noted.doubt();
        }
        Ok(())
    }

    /// Takes the next bytes of the stream, and answers each request that ends in them.
    ///
    /// After `Write` the session has ended: each later call answers `Ended` and writes nothing.
    pub fn feed<W: Write>(&mut self, piece: &[u8], w: &mut W) -> Result<(), StreamFault>
        // Ended, before the call.
        ensures ended { IsErrOf result stream_fault.Ended ↔ IsTrue self.old.session.ended }
        ensures unchanged { IsErrOf result stream_fault.Ended → (self.new.session ≡ self.old.session) × Keeps (W.contents w.old) (W.contents w.new) }

        // Each request that ended was answered.
        ensures ok { OnOk result (Gains (W.contents w.old) (W.contents w.new) (Feeds self.old.session self.new.session piece.now)) }

        // A write failed, and the answers stop somewhere.
        ensures write { IsErrOf result stream_fault.Write → Gains (W.contents w.old) (W.contents w.new) (BreaksOff self.old.session self.new.session piece.now false) }
        ensures over { IsErrOf result stream_fault.Write → IsTrue self.new.session.ended }
        ensures limits { self.new.session.limits ≡ self.old.session.limits }

        // Another database shares the session.
        ensures shared { IsErrOf result stream_fault.Shared → IsTrue self.old.shared × (self.new.session ≡ self.old.session) × Keeps (W.contents w.old) (W.contents w.new) }

        ensures keeps { self.new.shared ≡ self.old.shared }

        // The same transactions are open.
        ensures saved { self.new.session.saved ≡ self.old.session.saved }

        // The statements stay.
        ensures statements { SameStatements self.old self.new }
    {
        let fed = self.held.feed(piece, w);
        self.noted.doubt();
        fed
    }

    /// Answers the last request of the stream, which it ends in, where there is one. The session has ended then: each later call
    /// answers `Ended` and writes nothing.
    pub fn end<W: Write>(&mut self, w: &mut W) -> Result<(), StreamFault>
        ensures ended { IsErrOf result stream_fault.Ended ↔ IsTrue self.old.session.ended }
        ensures unchanged { IsErrOf result stream_fault.Ended → (self.new.session ≡ self.old.session) × Keeps (W.contents w.old) (W.contents w.new) }
        ensures ok { OnOk result (Gains (W.contents w.old) (W.contents w.new) (Finishes self.old.session self.new.session)) }
        ensures write { IsErrOf result stream_fault.Write → Gains (W.contents w.old) (W.contents w.new) (BreaksOff self.old.session self.new.session [] true) }
        ensures shared { IsErrOf result stream_fault.Shared → IsTrue self.old.shared × (self.new.session ≡ self.old.session) × Keeps (W.contents w.old) (W.contents w.new) }
        ensures over { result ≢ Err stream_fault.Shared → IsTrue self.new.session.ended }
        ensures saved { self.new.session.saved ≡ self.old.session.saved }
        ensures limits { self.new.session.limits ≡ self.old.session.limits }
        ensures keeps { self.new.shared ≡ self.old.shared }
        ensures statements { SameStatements self.old self.new }
    {
        let ended = self.held.end(w);
        self.noted.doubt();
        ended
    }

    /// Whether a number names a statement.
    pub fn has(&self, number: usize) -> bool
        ensures { IsTrue result ↔ IsSome (statement_at self.now number) }
    {
        self.statements.get(number).is_some()
    }

    /// The statement that a number names, lent.
    pub fn statement(&self, number: usize) -> Option<PreparedLine<'_>>
        ensures { MatchOption result (statement_at self.now number ≡ None) (λ kept. statement_at self.now number ≡ Some (record { line = kept.line.now; values = kept.values.now })) }
    {
        let prepared = self.statements.get(number)?;
        Some(PreparedLine {
            line: prepared.line.as_str(),
            values: prepared.bound.as_slice(),
        })
    }

    /// Keeps the statement that a line spells, under a number that named none. Each of its holes has a null until a value is bound.
    ///
    /// A carriage return at the line's end is no part of it.
    pub fn prepare(&mut self, alloc: Global, line: &[u8]) -> Result<Numbered, PrepareFault>
        ensures prepared { IfOk result (λ n. IsPrepared self.old.session.database (without_return line.now) n.places) }
        ensures fresh { IfOk result (λ n. statement_at self.old n.statement ≡ None) }
        ensures kept { IfOk result (λ n. NowNames self.old self.new n.statement (Some (record { line = without_return line.now; values = replicate n.places value.Null }))) }
        ensures refused { IfErr result (IsUnpreparedFor self.old.session.database (without_return line.now)) }
        ensures session { self.new.session ≡ self.old.session }
        ensures keeps { self.new.shared ≡ self.old.shared }
        ensures unchanged { OnErr result (IsUnchanged self.old self.new) }
    {
        let line = readable(line)?;
        let resolution = meaning(alloc, self.held.catalog(), &line)?;
        let places = count_marks(line.as_str().as_bytes());
        settle(self.held.catalog(), &mut self.noted, &mut self.statements)?;
        let statement = self
            .statements
            .prepare(alloc, line.as_str(), places, resolution)?;
        self.commands.make_place(statement);
        Ok(Numbered { statement, places })
    }

    /// Frees a number: it names no statement.
    pub fn finalize(&mut self, number: usize) -> Result<(), Declined>
        ensures freed { OnOk result (NowNames self.old self.new number None) }
        ensures missing { statement_at self.old number ≡ None → result ≡ Err declined.NoSuchStatement }
        ensures declined { IfErr result (λ e. e ≡ declined.NoSuchStatement) }
        ensures none { OnErr result (statement_at self.old number ≡ None) }
        ensures session { self.new.session ≡ self.old.session }
        ensures keeps { self.new.shared ≡ self.old.shared }
        ensures unchanged { OnErr result (IsUnchanged self.old self.new) }
    {
        self.commands.empty(number);
        self.statements.finalize(number)
    }

    /// Binds a value to the hole of a place in the statement that a number names. A text is copied. Only one of more than 14 bytes needs
    /// memory.
    pub fn bind(&mut self, number: usize, place: usize, cell: LentValue<'_>) -> Result<(), Declined>
        ensures bound { OnOk result ((p : KeptStatement) → statement_at self.old number ≡ Some p → NowNames self.old self.new number (Some (record p { values = slice_set p.values place (cell_value cell.entry) }))) }
        ensures missing { statement_at self.old number ≡ None → result ≡ Err declined.NoSuchStatement }
        ensures past { (p : KeptStatement) → statement_at self.old number ≡ Some p → length p.values ≤ place → result ≡ Err declined.NoSuchPlace }
        ensures declined { IfErr result (λ e. e ≢ declined.NoMemory → (p : KeptStatement) → statement_at self.old number ≡ Some p → length p.values ≤ place) }
        ensures small { IsSmall cell.entry → result ≢ Err declined.NoMemory }
        ensures session { self.new.session ≡ self.old.session }
        ensures keeps { self.new.shared ≡ self.old.shared }
        ensures unchanged { OnErr result (IsUnchanged self.old self.new) }
    {
        self.statements.bind(number, place, cell)
    }

    /// Does what the statement of a number says with the values that are bound, beside the stream. It makes the cells the values of the
    /// rows that it shows, a row behind the other, and none where it shows none; where it fails they may be any. `TooLong` comes only if
    /// their texts have 4 GiB or more then. A select that an interrupter asks to end does so.
    pub fn execute(&mut self, number: usize, shown: &mut Cells) -> Result<Executed, ExecuteFault>
        ensures done { IfOk result (λ given. (effect : Effect) × IsEffectOf self.old number effect × HasGiven self.new.session effect given (values_of shown.new)) }
        ensures missing { statement_at self.old number ≡ None → result ≡ Err fault.NoSuchStatement }
        ensures declined { IfErr result (IsDeclined self.old number) }
        ensures shared { IsErrOf result fault.Shared → IsTrue self.old.shared }
        ensures too_long { IsErrOf result ExecuteFault.TooLong → AreFull (values_of shown.new) }
        ensures unchanged { OnErr result (IsUnchanged self.old self.new) }

        // The stream goes on as before, and the statements stay.
        ensures stream { StaysInStream self.old.session self.new.session }
        ensures statements { SameStatements self.old self.new }
        ensures keeps { self.new.shared ≡ self.old.shared }
    {
        shown.clear();
        resolve(&self.held, &mut self.noted, &mut self.statements, number)?;
        let kept = self.commands.at(number);
        let lent = command_of(&self.statements, number, kept)?;
        let command = match lent {
            Lent::Insert { table, row } => {
                self.held.insert(table, row)?;
                return Ok(Executed::Changed(1));
            }
            Lent::Command(command) => command,
        };
        if let Resolved::Select(query) = command {
            let interrupts = begin_select(&self.interrupter);
            let columns = self.held.select(query, &mut self.room, shown, interrupts)?;
            return Ok(Executed::Rows { columns });
        }
        let count = self.held.change(command)?;
        Ok(Executed::Changed(count))
    }

    /// Does what the statement of a number says with each of these rows of values, one after the other, beside the stream: all of them or
    /// none, and it tells how many rows of tables were changed in all. What is bound stays as it is. First each row has to make a change of
    /// the statement by what its values are; a select is none, and is refused by 20. Refusals of what a row does have its number, counted from
    /// 1. Rows that an insert makes go in as those of a load do, by rising keys where they are many. `TooLong` comes only if the rows that
    /// are changed in all have no number of 64 bits.
    pub fn execute_many(&mut self, number: usize, rows: Vec<Bound>) -> Result<usize, ExecuteFault>
        ensures done { IfOk result (λ count. (effect : Effect) × IsEffectOfMany self.old number rows.items effect × HasChanged self.new.session effect count) }
        ensures missing { statement_at self.old number ≡ None → result ≡ Err fault.NoSuchStatement }
        ensures declined { IfErr result (IsDeclinedWithMany self.old number rows.items) }
        ensures shared { IsErrOf result fault.Shared → IsTrue self.old.shared }
        ensures unchanged { OnErr result (KeepsTables self.old self.new) }

        // The stream goes on as before, and the statements stay.
        ensures stream { StaysInStream self.old.session self.new.session }
        ensures statements { SameStatements self.old self.new }
        ensures keeps { IsTrue self.new.shared → IsTrue self.old.shared }
    {
        if !self.has(number) {
            return Err(ExecuteFault::NoSuchStatement);
        }
        if rows.is_empty() {
            return Ok(0);
        }
        resolve(&self.held, &mut self.noted, &mut self.statements, number)?;
        let resolution = resolution_of(&self.statements, number);
        check_each(&rows, resolution)?;
        if let Template::Insert { table, slots } = &resolution.template {
            return load_each(&mut self.held, *table, slots.as_slice(), rows);
        }
        let kept = self.commands.at(number);
        change_all(&mut self.held, &rows, resolution, kept)
    }

    /// Makes the cells the columns of the rows that the statement of a number shows, whatever values are bound: of each its name, after
    /// its table's, and then the number of the kind of its values: 1 of integers, 2 of texts. There are none where it shows no rows; after
    /// an error they may be any. It is refused only where every execution is, by what the names and the given values are refused by.
    pub fn columns(&mut self, number: usize, cells: &mut Cells) -> Result<(), ExecuteFault>
        ensures told { OnOk result (TellsColumns self.old number (values_of cells.new)) }
        ensures missing { statement_at self.old number ≡ None → result ≡ Err fault.NoSuchStatement }
        ensures declined { IfErr result (IsUntold self.old number) }
        ensures unchanged { IsUnchanged self.old self.new }
    {
        cells.clear();
        resolve(&self.held, &mut self.noted, &mut self.statements, number)?;
        let resolution = resolution_of(&self.statements, number);
        let Template::Select(query) = &resolution.template else {
            return Ok(());
        };
        push_columns(cells, self.held.catalog(), query)?;
        Ok(())
    }

    /// Makes the cells the values of the first rows that the select of a number shows with the values that are bound, so many at most, and
    /// tells how many columns each has. It is refused as an execution is, and what is no select isn't done: it is refused by 20 once its
    /// names and its values are right. Where it fails the cells may be any. `TooLong` comes only if their texts have 4 GiB or more then.
    pub fn first(
        &mut self,
        number: usize,
        most: usize,
        shown: &mut Cells,
    ) -> Result<usize, ExecuteFault>
        ensures shown { IfOk result (λ columns. ShowsFirstOf self.old number most columns (values_of shown.new)) }
        ensures some { IfOk result (λ columns. 0 < columns) }
        ensures missing { statement_at self.old number ≡ None → result ≡ Err fault.NoSuchStatement }
        ensures declined { IfErr result (IsUnshown self.old number) }
        ensures too_long { IsErrOf result ExecuteFault.TooLong → AreFull (values_of shown.new) }
        ensures unchanged { IsUnchanged self.old self.new }
    {
        shown.clear();
        resolve(&self.held, &mut self.noted, &mut self.statements, number)?;
        let kept = self.commands.at(number);
        let lent = command_of(&self.statements, number, kept)?;
        let query = select_of(&lent)?;
        let interrupts = begin_select(&self.interrupter);
        Ok(
            self.held
                .first(query, most, &mut self.room, shown, interrupts)?,
        )
    }

    // The rows that the select of a number shows with the values that are bound, outside a transaction, to be read page by page.
    fn open_cursor(&mut self, alloc: Global, number: usize) -> Result<Cursor, ExecuteFault>
        requires { self.old.session.saved ≡ [] }
        ensures rows { IfOk result (IsCursorOf self.old number) }
        ensures missing { statement_at self.old number ≡ None → result ≡ Err fault.NoSuchStatement }
        ensures declined { IfErr result (IsUnshown self.old number) }
        ensures fits { IfErr result (λ why. why ≢ fault.TooLong) }
        ensures shared { OnOk result (self.new.shared ≡ true) }
        ensures stays { MayShare self.old self.new }
    {
        resolve(&self.held, &mut self.noted, &mut self.statements, number)?;
        let kept = self.commands.at(number);
        let lent = command_of(&self.statements, number, kept)?;
        let query = select_of(&lent)?;
        let interrupts = begin_select(&self.interrupter);
        let found = self.held.find(query, &mut self.room, interrupts)?;
        let session = self.held.owner(alloc, self.policy)?;
        Ok(Cursor::new(session, found))
    }

    /// The rows that the select of a number shows with the values that are bound, to be read page by page. They are kept as references,
    /// and the session is shared as long as they are. It is refused as an execution is; what is no select is refused by 20 once its names
    /// and its values are right. In a transaction it is declined.
    pub fn cursor(&mut self, alloc: Global, number: usize) -> Result<Cursor, CursorFault>
        ensures rows { IfOk result (IsCursorOf self.old number) }
        ensures missing { self.old.session.saved ≡ [] → statement_at self.old number ≡ None → result ≡ Err (cursor_fault.Declined fault.NoSuchStatement) }
        ensures declined { IfErr result (IsUnopened self.old number) }
        ensures waits { self.old.session.saved ≢ [] → result ≡ Err cursor_fault.InTransaction }
        ensures shared { OnOk result (self.new.shared ≡ true) }
        ensures stays { MayShare self.old self.new }
    {
        if self.held.is_in_transaction() {
            return Err(CursorFault::InTransaction);
        }
        Ok(self.open_cursor(alloc, number)?)
    }

    /// How many rows the select of a number shows with the values that are bound. They are counted, and none of their values is kept. It is
    /// refused as an execution is. What is no select isn't done: it is refused by 20 once its names and its values are right.
    pub fn count(&mut self, number: usize) -> Result<u64, ExecuteFault>
        ensures counted { IfOk result (λ count. HasRowsOf self.old number (λ n. count ≡ n)) }
        ensures missing { statement_at self.old number ≡ None → result ≡ Err fault.NoSuchStatement }
        ensures declined { IfErr result (IsUncounted self.old number) }
        ensures unchanged { IsUnchanged self.old self.new }
    {
        resolve(&self.held, &mut self.noted, &mut self.statements, number)?;
        let kept = self.commands.at(number);
        let lent = command_of(&self.statements, number, kept)?;
        let query = select_of(&lent)?;
        let interrupts = begin_select(&self.interrupter);
        Ok(self.held.count(query, interrupts)?)
    }

    /// Does the insert, the update, the delete or the select that a line spells, beside the stream. No statement is kept, and no
    /// question mark is a hole. It makes the cells the values of the rows that it shows, as an execution does, which also says
    /// when `TooLong` comes.
    ///
    /// A carriage return at the line's end is no part of it.
    pub fn query(
        &mut self,
        alloc: Global,
        line: &[u8],
        cells: &mut Cells,
    ) -> Result<Executed, QueryFault>
        ensures done { IfOk result (λ given. (effect : Effect) × IsEffectOfLine self.old.session (without_return line.now) effect × HasGiven self.new.session effect given (values_of cells.new)) }
        ensures refused { IfErr result (IsUnanswered self.old.session (without_return line.now)) }
        ensures shared { IsErrOf result query_fault.Shared → IsTrue self.old.shared }
        ensures too_long { IsErrOf result QueryFault.TooLong → AreFull (values_of cells.new) }
        ensures unchanged { OnErr result (IsUnchanged self.old self.new) }

        // The stream goes on as before, and the statements stay.
        ensures stream { StaysInStream self.old.session self.new.session }
        ensures statements { SameStatements self.old self.new }
        ensures keeps { self.new.shared ≡ self.old.shared }
    {
        cells.clear();
        let command = command_of_line(alloc, &self.held, line)?;
        if let Resolved::Select(query) = &command {
            let interrupts = begin_select(&self.interrupter);
            let columns = self.held.select(query, &mut self.room, cells, interrupts)?;
            return Ok(Executed::Rows { columns });
        }
        let count = self.held.change(&command)?;
        Ok(Executed::Changed(count))
    }
}
