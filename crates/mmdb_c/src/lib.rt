//! mmdb for C: handles, and the calls on them.
//!
//! A handle owns a database of mm_database. Each call takes it out of the handle, has it do what the call is for, puts it back, and tells
//! by a status what came of it. The header that C reads is `include/mmdb.h`.
//!
//! - A handle that is closed owns nothing, and a call on it does nothing.
//! - A handle may go from thread to thread: `Send` is proved of it.
//! - Several handles may share a session. Each has statements, answers and rows of its own. While they share it none of them changes its
//!   tables. `SHARED` comes only of a handle that has shared its tables and not left them since, and never in a transaction.
//! - In a transaction all is done that is done outside, by lines, statements and pieces of the stream. `IN_TRANSACTION` refuses only
//!   sharing and leaving there.
//! - After each status but `DONE` the tables are as they were, unless a piece found no room for its answers.
//! - A select can be asked to end by a handle of another kind, which a second thread may use while the first is in the call.
#![tactic(auto)]

ghost use Rattle.std.specs.Prelude.{◌≡◌, ◌≢◌, ◌↔◌, ◌<◌, ◌≤◌, ◌⊎◌, [], Some, None, IfOk, IfSome, IsSome, IsNone, IsSomeAnd, IsTrue, length, false};
ghost use Rattle.std.specs.Vec.{vec_ptr, vec_len};
ghost use Rattle.plain_streams.specs.Division.{IsWhole};
ghost use Rattle.mm_session.specs.Refused.{TellsRefusal};
ghost use Rattle.mm_database.specs.Calls.{IsNew, request, AnswersRequest, TellsIndexes, TakesPiece, LosesStream, IsAsBefore};
ghost use Rattle.mm_database.specs.Sharing.{IsRequestKeptOff, IsShared, LosesAnswer};
ghost use Rattle.mmdb_c.specs.Calls.{AreLimits, Becomes};

pub mod clone_calls;
pub mod count_calls;
pub mod cursor_calls;
mod cursor_handle;
pub mod first_calls;
mod handle;
pub mod interrupter_calls;
mod interrupter_handle;
pub mod many_calls;
pub mod plan_calls;
pub mod reason_calls;
pub mod restore_calls;
mod restore_handle;
pub mod save_calls;
pub mod sharing_calls;
pub mod statement_calls;
pub mod transaction_calls;
pub mod version_calls;

use crate::handle::Handle;
use mm_database::OpenDatabase;
use mm_statements::{RequestFault, StreamFault};
use no_memory::NoMemory;
use plain_tables::{LONGEST_BLOCK, Limits, MOST_ROWS};
use plan_chooser::Policy;
use std::alloc::Global;

const DONE: u32 = 0;

const NOT_OPEN: u32 = 1;

const IS_OPEN: u32 = 2;

const NO_SUCH_POLICY: u32 = 3;

const LIMIT_OUT_OF_RANGE: u32 = 4;

const NO_LINE: u32 = 5;

const NOT_ONE_REQUEST: u32 = 6;

const NO_MEMORY: u32 = 7;

const ENDED: u32 = 8;

const NO_SUCH_STATEMENT: u32 = 9;

const NO_SUCH_PLACE: u32 = 10;

const NOT_UTF8: u32 = 11;

const REFUSED: u32 = 12;

const TOO_LARGE: u32 = 13;

const SHARED: u32 = 14;

const NO_TRANSACTION: u32 = 15;

const IN_TRANSACTION: u32 = 16;

const NOT_ROWS: u32 = 17;

const INTERRUPTED: u32 = 18;

const NOT_A_DUMP: u32 = 19;

const CHANGED: u32 = 20;

/// The bytes of an answer.
#[repr(C)]
#[derive(Drop)]
pub struct Bytes {
    pub at: *const u8,
    pub length: usize,
}

// A database with no tables and no statements, in a place of its own.
fn new_database(
    alloc: Global,
    policy: Policy,
    limits: Limits,
) -> Result<Box<OpenDatabase>, NoMemory>
    requires { limits.rows ≤ 16777216 }
    ensures { IfOk result (λ database. IsNew limits database.value) }
{
    let database = OpenDatabase::new(alloc, policy, limits)?;
    Ok(Box::new(alloc, database)?)
}

/// Opens a database with no tables.
#[unsafe(no_mangle)]
pub extern "C" fn mmdb_open(
    alloc: Global,
    handle: &mut Handle,
    policy: u32,
    rows: u32,
    block: u32,
) -> u32
    ensures is_open { (result ≡ IS_OPEN) ↔ IsSome handle.old.database }
    ensures no_such_policy { (result ≡ NO_SUCH_POLICY) ↔ (IsNone handle.old.database × (4 < policy)) }
    ensures out_of_range { (result ≡ LIMIT_OUT_OF_RANGE) ↔ (IsNone handle.old.database × (policy ≤ 4) × ¬ (AreLimits rows block)) }
    ensures opened { IsNone handle.old.database × (policy ≤ 4) × AreLimits rows block → (result ≡ DONE) ⊎ (result ≡ NO_MEMORY) }
    ensures done { result ≡ DONE → IsSomeAnd handle.new.database (IsNew (record { rows = rows; block = block })) }
    ensures unchanged { result ≢ DONE → handle.new.database ≡ handle.old.database }
{
    if let Some(database) = handle.take(alloc) {
        handle.put(alloc, database);
        return IS_OPEN;
    }
    let Some(policy) = Policy::numbered(policy) else {
        return NO_SUCH_POLICY;
    };
    if rows == 0 || rows > MOST_ROWS || block > LONGEST_BLOCK {
        return LIMIT_OUT_OF_RANGE;
    }
    let Ok(database) = new_database(alloc, policy, Limits { rows, block }) else {
        return NO_MEMORY;
    };
    handle.put(alloc, database);
    DONE
}

// Tells where bytes lie, and how many they are.
fn tell(bytes: &Vec<u8>, told: &mut Bytes)
    ensures { told.new ≡ record { at = vec_ptr bytes.now; length = vec_len bytes.now } }
{
    told.at = bytes.as_ptr();
    told.length = bytes.len();
}

// Answers the request of a line and a block, and tells where its answer lies.
fn answer_request(
    alloc: Global,
    handle: &mut Handle,
    line: &[u8],
    block: &[u8],
    answer: &mut Bytes,
) -> u32
    ensures not_open { (result ≡ NOT_OPEN) ↔ IsNone handle.old.database }
    ensures no_line { (result ≡ NO_LINE) ↔ (IsSome handle.old.database × (line.now ≡ [])) }
    ensures not_one_request { result ≡ NOT_ONE_REQUEST → IsSome handle.old.database × (line.now ≢ []) × ¬ (IsWhole (request line.now block.now)) }
    ensures one_request { IsSome handle.old.database × (line.now ≢ []) × IsWhole (request line.now block.now) → (result ≡ DONE) ⊎ (result ≡ SHARED) }
    ensures judged { IsSome handle.old.database × (line.now ≢ []) → (result ≡ DONE) ⊎ ((result ≡ NOT_ONE_REQUEST) ⊎ (result ≡ SHARED)) }
    ensures kept_off { result ≡ SHARED → IsSomeAnd handle.old.database (IsRequestKeptOff (request line.now block.now)) }
    ensures done { result ≡ DONE → Becomes handle.old.database handle.new.database (AnswersRequest (request line.now block.now)) }
    ensures told { result ≡ DONE → IsSomeAnd handle.new.database (λ d. answer.new.length ≡ length d.answer) }
    ensures unchanged { result ≢ DONE → (handle.new.database ≡ handle.old.database) × (answer.new ≡ answer.old) }
{
    let Some(mut database) = handle.take(alloc) else {
        return NOT_OPEN;
    };
    if line.is_empty() {
        handle.put(alloc, database);
        return NO_LINE;
    }
    let answered = database.answer_request(line, block);
    if answered.is_ok() {
        tell(database.answer.as_vec(), answer);
    }
    handle.put(alloc, database);
    match answered {
        Ok(()) => DONE,
        Err(RequestFault::NotOneRequest) => NOT_ONE_REQUEST,
        Err(RequestFault::Shared) => SHARED,
    }
}

/// Answers one command line, given without its line feed, beside the stream. Where another handle shares the tables, one that would change
/// them is declined.
#[unsafe(no_mangle)]
pub extern "C" fn mmdb_command(
    alloc: Global,
    handle: &mut Handle,
    line: &[u8],
    answer: &mut Bytes,
) -> u32
    ensures not_open { (result ≡ NOT_OPEN) ↔ IsNone handle.old.database }
    ensures no_line { (result ≡ NO_LINE) ↔ (IsSome handle.old.database × (line.now ≡ [])) }
    ensures not_one_request { result ≡ NOT_ONE_REQUEST → IsSome handle.old.database × (line.now ≢ []) × ¬ (IsWhole (request line.now [])) }
    ensures one_request { IsSome handle.old.database × (line.now ≢ []) × IsWhole (request line.now []) → (result ≡ DONE) ⊎ (result ≡ SHARED) }
    ensures judged { IsSome handle.old.database × (line.now ≢ []) → (result ≡ DONE) ⊎ ((result ≡ NOT_ONE_REQUEST) ⊎ (result ≡ SHARED)) }
    ensures kept_off { result ≡ SHARED → IsSomeAnd handle.old.database (IsRequestKeptOff (request line.now [])) }
    ensures done { result ≡ DONE → Becomes handle.old.database handle.new.database (AnswersRequest (request line.now [])) }
    ensures told { result ≡ DONE → IsSomeAnd handle.new.database (λ d. answer.new.length ≡ length d.answer) }
    ensures unchanged { result ≢ DONE → (handle.new.database ≡ handle.old.database) × (answer.new ≡ answer.old) }
{
    answer_request(alloc, handle, line, &[], answer)
}

/// Answers a command line and the block that it asks for, beside the stream. Where another handle shares the tables, a load that its line and
/// its block don't refuse is declined.
#[unsafe(no_mangle)]
pub extern "C" fn mmdb_load(
    alloc: Global,
    handle: &mut Handle,
    line: &[u8],
    block: &[u8],
    answer: &mut Bytes,
) -> u32
    ensures not_open { (result ≡ NOT_OPEN) ↔ IsNone handle.old.database }
    ensures no_line { (result ≡ NO_LINE) ↔ (IsSome handle.old.database × (line.now ≡ [])) }
    ensures not_one_request { result ≡ NOT_ONE_REQUEST → IsSome handle.old.database × (line.now ≢ []) × ¬ (IsWhole (request line.now block.now)) }
    ensures one_request { IsSome handle.old.database × (line.now ≢ []) × IsWhole (request line.now block.now) → (result ≡ DONE) ⊎ (result ≡ SHARED) }
    ensures judged { IsSome handle.old.database × (line.now ≢ []) → (result ≡ DONE) ⊎ ((result ≡ NOT_ONE_REQUEST) ⊎ (result ≡ SHARED)) }
    ensures kept_off { result ≡ SHARED → IsSomeAnd handle.old.database (IsRequestKeptOff (request line.now block.now)) }
    ensures done { result ≡ DONE → Becomes handle.old.database handle.new.database (AnswersRequest (request line.now block.now)) }
    ensures told { result ≡ DONE → IsSomeAnd handle.new.database (λ d. answer.new.length ≡ length d.answer) }
    ensures unchanged { result ≢ DONE → (handle.new.database ≡ handle.old.database) × (answer.new ≡ answer.old) }
{
    answer_request(alloc, handle, line, block, answer)
}

/// Tells how the indexes of a table stand, by its name, beside the stream.
#[unsafe(no_mangle)]
pub extern "C" fn mmdb_indexes(
    alloc: Global,
    handle: &mut Handle,
    table: &[u8],
    answer: &mut Bytes,
) -> u32
    ensures not_open { (result ≡ NOT_OPEN) ↔ IsNone handle.old.database }
    ensures open { (result ≡ DONE) ↔ IsSome handle.old.database }
    ensures done { result ≡ DONE → Becomes handle.old.database handle.new.database (TellsIndexes table.now) }
    ensures told { result ≡ DONE → IsSomeAnd handle.new.database (λ d. answer.new.length ≡ length d.answer) }
    ensures unchanged { result ≢ DONE → (handle.new.database ≡ handle.old.database) × (answer.new ≡ answer.old) }
{
    let Some(mut database) = handle.take(alloc) else {
        return NOT_OPEN;
    };
    database.tell_indexes(table);
    tell(database.answer.as_vec(), answer);
    handle.put(alloc, database);
    DONE
}

/// Takes the next bytes of the stream, and keeps the answers of the requests that end in them.
#[unsafe(no_mangle)]
pub extern "C" fn mmdb_feed(alloc: Global, handle: &mut Handle, piece: &[u8]) -> u32
    ensures not_open { (result ≡ NOT_OPEN) ↔ IsNone handle.old.database }
    ensures ended { (result ≡ ENDED) ↔ IsSomeAnd handle.old.database (λ d. IsTrue d.inner.session.ended) }
    ensures goes_on { IsSomeAnd handle.old.database (λ d. d.inner.session.ended ≡ false) → (result ≡ DONE) ⊎ ((result ≡ NO_MEMORY) ⊎ (result ≡ SHARED)) }
    ensures done { result ≡ DONE → Becomes handle.old.database handle.new.database (TakesPiece piece.now) }
    ensures no_memory { result ≡ NO_MEMORY → Becomes handle.old.database handle.new.database (LosesStream piece.now) }
    ensures shared { result ≡ SHARED → Becomes handle.old.database handle.new.database LosesAnswer }
    ensures sharing { result ≡ SHARED → IsSomeAnd handle.old.database IsShared }
    ensures unchanged { (result ≡ NOT_OPEN) ⊎ (result ≡ ENDED) → handle.new.database ≡ handle.old.database }
{
    let Some(mut database) = handle.take(alloc) else {
        return NOT_OPEN;
    };
    let fed = database.feed(piece);
    handle.put(alloc, database);
    match fed {
        Ok(()) => DONE,
        Err(StreamFault::Write) => NO_MEMORY,
        Err(StreamFault::Ended) => ENDED,
        Err(StreamFault::Shared) => SHARED,
    }
}

/// Tells where the answers to the last call lie, until the next call that changes them.
#[unsafe(no_mangle)]
pub extern "C" fn mmdb_answer(alloc: Global, handle: &mut Handle, answer: &mut Bytes) -> u32
    ensures not_open { (result ≡ NOT_OPEN) ↔ IsNone handle.old.database }
    ensures open { (result ≡ DONE) ↔ IsSome handle.old.database }
    ensures told { result ≡ DONE → IsSomeAnd handle.new.database (λ d. answer.new.length ≡ length d.answer) }
    ensures untold { result ≢ DONE → answer.new ≡ answer.old }
    ensures unchanged { handle.new.database ≡ handle.old.database }
{
    let Some(database) = handle.take(alloc) else {
        return NOT_OPEN;
    };
    tell(database.answer.as_vec(), answer);
    handle.put(alloc, database);
    DONE
}

/// The number of the refusal that the answers to the last call begin with, or 0.
#[unsafe(no_mangle)]
pub extern "C" fn mmdb_refusal(alloc: Global, handle: &mut Handle) -> u32
    ensures not_open { IsNone handle.old.database → result ≡ 0 }
    ensures tells { IfSome handle.old.database (λ d. TellsRefusal d.answer result) }
    ensures unchanged { handle.new.database ≡ handle.old.database }
{
    let Some(database) = handle.take(alloc) else {
        return 0;
    };
    let number = database.answer.refusal();
    handle.put(alloc, database);
    number
}

/// Tells why the request of a line and a block was refused by the refusal that the answers to the last call begin with, in
/// words that lie there until the next call.
#[unsafe(no_mangle)]
pub extern "C" fn mmdb_reason(
    alloc: Global,
    handle: &mut Handle,
    line: &[u8],
    block: &[u8],
    reason: &mut Bytes,
) -> u32
    ensures not_open { (result ≡ NOT_OPEN) ↔ IsNone handle.old.database }
    ensures no_line { (result ≡ NO_LINE) ↔ (IsSome handle.old.database × (line.now ≡ [])) }
    ensures asked { IsSome handle.old.database × (line.now ≢ []) → (result ≡ DONE) ⊎ (result ≡ NO_MEMORY) }
    ensures told { result ≡ DONE → IsSomeAnd handle.new.database (λ d. reason.new.length ≡ length d.reason) }
    ensures untold { result ≢ DONE → reason.new ≡ reason.old }
    ensures closed { result ≡ NOT_OPEN → handle.new.database ≡ handle.old.database }
    // The session and the answers are as they were.
    ensures unchanged { result ≢ NOT_OPEN → Becomes handle.old.database handle.new.database IsAsBefore }
{
    let Some(mut database) = handle.take(alloc) else {
        return NOT_OPEN;
    };
    if line.is_empty() {
        handle.put(alloc, database);
        return NO_LINE;
    }
    if database.find_reason(alloc, line, block).is_err() {
        handle.put(alloc, database);
        return NO_MEMORY;
    }
    tell(database.reason.as_vec(), reason);
    handle.put(alloc, database);
    DONE
}

/// Closes the handle, and frees its database where it was open. The tables go with the last handle that shares them.
#[unsafe(no_mangle)]
pub extern "C" fn mmdb_close(alloc: Global, handle: &mut Handle)
    ensures { handle.new.database ≡ None }
{
    drop(handle.take(alloc));
}
