//! The calls that tell why a statement was refused, and why a line is none.

ghost use Rattle.std.specs.Prelude.{◌≡◌, ◌≢◌, ◌↔◌, ◌⊎◌, [], IsNone, IsSome, IsSomeAnd, length};
ghost use Rattle.mm_database.specs.Calls.{IsAsBefore};
ghost use Rattle.mmdb_c.specs.Calls.{Becomes};
ghost use Rattle.mm_database.specs.StatementCalls.{IsMissing};

use crate::handle::Handle;
use crate::{Bytes, DONE, NO_LINE, NO_MEMORY, NO_SUCH_STATEMENT, NOT_OPEN, tell};
use mm_database::Unexplained;
use std::alloc::Global;

/// Tells why a line was refused, when it was to be prepared, by the refusal that the answers to the last call begin with, in words
/// that lie there until the next call.
#[unsafe(no_mangle)]
pub extern "C" fn mmdb_prepare_reason(
    alloc: Global,
    handle: &mut Handle,
    line: &[u8],
    reason: &mut Bytes,
) -> u32
    ensures not_open { (result ≡ NOT_OPEN) ↔ IsNone handle.old.database }
    ensures no_line { (result ≡ NO_LINE) ↔ (IsSome handle.old.database × (line.now ≡ [])) }
    ensures asked { IsSome handle.old.database × (line.now ≢ []) → (result ≡ DONE) ⊎ (result ≡ NO_MEMORY) }
    ensures told { result ≡ DONE → IsSomeAnd handle.new.database (λ d. reason.new.length ≡ length d.reason) }
    ensures untold { result ≢ DONE → reason.new ≡ reason.old }
    ensures closed { result ≡ NOT_OPEN → handle.new.database ≡ handle.old.database }
    // The session, its statements, all rows and the answers are as they were.
    ensures unchanged { result ≢ NOT_OPEN → Becomes handle.old.database handle.new.database IsAsBefore }
{
    let Some(mut database) = handle.take(alloc) else {
        return NOT_OPEN;
    };
    if line.is_empty() {
        handle.put(alloc, database);
        return NO_LINE;
    }
    if database.find_prepare_reason(alloc, line).is_err() {
        handle.put(alloc, database);
        return NO_MEMORY;
    }
    tell(database.reason.as_vec(), reason);
    handle.put(alloc, database);
    DONE
}

/// Tells why a statement was refused, with the values that are bound, by the refusal that the answers to the last call begin with, in
/// words that lie there until the next call.
#[unsafe(no_mangle)]
pub extern "C" fn mmdb_statement_reason(
    alloc: Global,
    handle: &mut Handle,
    statement: u32,
    reason: &mut Bytes,
) -> u32
    ensures not_open { (result ≡ NOT_OPEN) ↔ IsNone handle.old.database }
    ensures no_such_statement { (result ≡ NO_SUCH_STATEMENT) ↔ IsSomeAnd handle.old.database (IsMissing statement) }
    ensures asked { IsSome handle.old.database → (result ≡ DONE) ⊎ ((result ≡ NO_SUCH_STATEMENT) ⊎ (result ≡ NO_MEMORY)) }
    ensures told { result ≡ DONE → IsSomeAnd handle.new.database (λ d. reason.new.length ≡ length d.reason) }
    ensures untold { result ≢ DONE → reason.new ≡ reason.old }
    ensures closed { result ≡ NOT_OPEN → handle.new.database ≡ handle.old.database }
    // The session, its statements, all rows and the answers are as they were.
    ensures unchanged { result ≢ NOT_OPEN → Becomes handle.old.database handle.new.database IsAsBefore }
{
    let Some(mut database) = handle.take(alloc) else {
        return NOT_OPEN;
    };
    let found = database.find_statement_reason(alloc, statement);
    if found.is_ok() {
        tell(database.reason.as_vec(), reason);
    }
    handle.put(alloc, database);
    match found {
        Ok(()) => DONE,
        Err(Unexplained::NoSuchStatement) => NO_SUCH_STATEMENT,
        Err(Unexplained::NoMemory) => NO_MEMORY,
    }
}
