//! The calls that read the rows of a select page by page.

ghost use Rattle.std.specs.Prelude.{◌≡◌, ◌≢◌, ◌↔◌, ◌⊎◌, IsNone, IsSome, IsSomeAnd, None};
ghost use Rattle.mm_cells.specs.Reading.{AreFull};
ghost use Rattle.mm_cells.specs.Values.{values_of};
ghost use Rattle.mm_database.specs.Calls.{IsSilent};
ghost use Rattle.mmdb_c.specs.Calls.{Becomes};
ghost use Rattle.mm_database.specs.Cursors.{IsUnopened, MayShare, OpensCursor, ReadsRows};
ghost use Rattle.mm_database.specs.Interrupts.{IsSelect};
ghost use Rattle.mm_database.specs.StatementCalls.{IsMissing};
ghost use Rattle.mm_database.specs.Transacting.{IsInTransaction};

use crate::cursor_handle::CursorHandle;
use crate::handle::Handle;
use crate::{
    DONE, IN_TRANSACTION, INTERRUPTED, IS_OPEN, NO_MEMORY, NO_SUCH_STATEMENT, NOT_OPEN, REFUSED,
    TOO_LARGE,
};
use mm_cells::CellFault;
use mm_database::{Rows, Unopened};
use std::alloc::Global;

/// Opens a cursor on the rows that the select of a statement shows with the values that are bound. They are found now, and the tables stay
/// as they are until it is closed.
#[unsafe(no_mangle)]
pub extern "C" fn mmdb_cursor_open(
    alloc: Global,
    handle: &mut Handle,
    statement: u32,
    cursor: &mut CursorHandle,
) -> u32
    ensures not_open { (result ≡ NOT_OPEN) ↔ IsNone handle.old.database }
    ensures is_open { (result ≡ IS_OPEN) ↔ (IsSome handle.old.database × IsSome cursor.old.cursor) }
    ensures no_such_statement { (result ≡ NO_SUCH_STATEMENT) ↔ (IsNone cursor.old.cursor × IsSomeAnd handle.old.database (IsMissing statement)) }
    ensures done { result ≡ DONE → IsSomeAnd cursor.new.cursor (λ c. Becomes handle.old.database handle.new.database (OpensCursor statement c)) }
    ensures in_transaction { result ≡ IN_TRANSACTION → IsSomeAnd handle.old.database IsInTransaction }
    ensures waits { IsNone cursor.old.cursor × IsSomeAnd handle.old.database (λ d. (¬ (IsMissing statement d)) × IsInTransaction d) → result ≡ IN_TRANSACTION }
    ensures refused { result ≡ REFUSED → Becomes handle.old.database handle.new.database (IsUnopened statement) }
    ensures interrupted { result ≡ INTERRUPTED → IsSomeAnd handle.old.database (IsSelect statement) }
    ensures in_transaction_silent { result ≡ IN_TRANSACTION → IsSomeAnd handle.new.database IsSilent }
    ensures interrupted_silent { result ≡ INTERRUPTED → IsSomeAnd handle.new.database IsSilent }
    ensures stays { IsSome handle.old.database → Becomes handle.old.database handle.new.database MayShare }
    ensures others { (result ≡ DONE) ⊎ ((result ≡ NOT_OPEN) ⊎ ((result ≡ IS_OPEN) ⊎ ((result ≡ NO_SUCH_STATEMENT) ⊎ ((result ≡ IN_TRANSACTION) ⊎ ((result ≡ REFUSED) ⊎ (result ≡ INTERRUPTED)))))) }
    ensures unchanged { (result ≡ NOT_OPEN) ⊎ ((result ≡ IS_OPEN) ⊎ (result ≡ NO_SUCH_STATEMENT)) → handle.new.database ≡ handle.old.database }
    ensures unopened { result ≢ DONE → cursor.new.cursor ≡ cursor.old.cursor }
{
    let Some(mut database) = handle.take(alloc) else {
        return NOT_OPEN;
    };
    if let Some(own) = cursor.take(alloc) {
        cursor.put(alloc, own);
        handle.put(alloc, database);
        return IS_OPEN;
    }
    let opened = database.open_cursor(alloc, statement);
    handle.put(alloc, database);
    match opened {
        Ok(own) => {
            cursor.put(alloc, own);
            DONE
        }
        Err(Unopened::NoSuchStatement) => NO_SUCH_STATEMENT,
        Err(Unopened::InTransaction) => IN_TRANSACTION,
        Err(Unopened::Refused) => REFUSED,
        Err(Unopened::Interrupted) => INTERRUPTED,
    }
}

/// Reads the next rows of a cursor, so many at most, and tells where their cells lie.
#[unsafe(no_mangle)]
pub extern "C" fn mmdb_cursor_fetch(
    alloc: Global,
    cursor: &mut CursorHandle,
    most: usize,
    rows: &mut Rows,
) -> u32
    ensures not_open { (result ≡ NOT_OPEN) ↔ IsNone cursor.old.cursor }
    ensures done { result ≡ DONE → IsSomeAnd cursor.old.cursor (λ old. IsSomeAnd cursor.new.cursor (ReadsRows most rows.new old)) }
    ensures too_large { result ≡ TOO_LARGE → IsSomeAnd cursor.new.cursor (λ c. AreFull (values_of c.shown)) }
    ensures others { (result ≡ DONE) ⊎ ((result ≡ NOT_OPEN) ⊎ ((result ≡ NO_MEMORY) ⊎ (result ≡ TOO_LARGE))) }
    ensures unread { (result ≡ NO_MEMORY) ⊎ (result ≡ TOO_LARGE) → IsSomeAnd cursor.old.cursor (λ old. IsSomeAnd cursor.new.cursor (λ new. new.inner ≡ old.inner)) }
    ensures unchanged { result ≡ NOT_OPEN → cursor.new.cursor ≡ None }
    ensures untold { result ≢ DONE → rows.new ≡ rows.old }
{
    let Some(mut own) = cursor.take(alloc) else {
        return NOT_OPEN;
    };
    let read = own.fetch(most, rows);
    cursor.put(alloc, own);
    match read {
        Ok(()) => DONE,
        Err(CellFault::NoMemory(_)) => NO_MEMORY,
        Err(CellFault::TooLong) => TOO_LARGE,
    }
}

/// Frees a cursor, and lets go of the tables.
#[unsafe(no_mangle)]
pub extern "C" fn mmdb_cursor_close(alloc: Global, cursor: &mut CursorHandle)
    ensures { cursor.new.cursor ≡ None }
{
    cursor.take(alloc);
}
