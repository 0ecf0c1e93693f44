//! The call that executes a statement with many rows of values.

ghost use Rattle.std.specs.Prelude.{◌≡◌, ◌≢◌, ◌↔◌, ◌⊎◌, IsNone, IsSome, IsSomeAnd};
ghost use Rattle.std.specs.List.{All};
ghost use Rattle.mmdb_c.specs.Calls.{Becomes};
ghost use Rattle.mm_database.specs.Given.{IsWritten};
ghost use Rattle.mm_database.specs.Many.{AreNoRowsFor, ExecutesMany, IsRefusedMany, KeepsAllTables, StaysBeside};
ghost use Rattle.mm_database.specs.Sharing.{IsShared};
ghost use Rattle.mm_database.specs.StatementCalls.{IsMissing};

use crate::handle::Handle;
use crate::{DONE, NO_SUCH_STATEMENT, NOT_OPEN, NOT_ROWS, NOT_UTF8, REFUSED, SHARED, TOO_LARGE};
use mm_cells::ResultCell;
use mm_database::UnexecutedMany;
use std::alloc::Global;

/// Does what a statement does with each of the rows of values that cells are, all of them or none, and tells how many rows of tables were
/// changed.
#[unsafe(no_mangle)]
pub extern "C" fn mmdb_execute_many(
    alloc: Global,
    handle: &mut Handle,
    statement: u32,
    cells: &[ResultCell],
    texts: &[u8],
    changed: &mut u64,
) -> u32
    ensures not_open { (result ≡ NOT_OPEN) ↔ IsNone handle.old.database }
    ensures no_such_statement { (result ≡ NO_SUCH_STATEMENT) ↔ IsSomeAnd handle.old.database (IsMissing statement) }
    ensures done { result ≡ DONE → Becomes handle.old.database handle.new.database (λ old new. ExecutesMany statement texts.now cells.now old new changed.new) }
    ensures not_rows { result ≡ NOT_ROWS → IsSomeAnd handle.old.database (AreNoRowsFor statement texts.now cells.now) }
    ensures not_utf8 { result ≡ NOT_UTF8 → ¬ (All (IsWritten texts.now) cells.now) }
    ensures refused { result ≡ REFUSED → Becomes handle.old.database handle.new.database (IsRefusedMany statement texts.now cells.now) }
    ensures shared { result ≡ SHARED → IsSomeAnd handle.old.database IsShared }
    ensures kept { result ≢ DONE → IsSome handle.old.database → Becomes handle.old.database handle.new.database KeepsAllTables }
    ensures stays { IsSome handle.old.database → Becomes handle.old.database handle.new.database StaysBeside }
    ensures others { IsSome handle.old.database → (result ≡ DONE) ⊎ ((result ≡ NO_SUCH_STATEMENT) ⊎ ((result ≡ NOT_ROWS) ⊎ ((result ≡ NOT_UTF8) ⊎ ((result ≡ REFUSED) ⊎ ((result ≡ TOO_LARGE) ⊎ (result ≡ SHARED)))))) }
    ensures unchanged { (result ≡ NOT_OPEN) ⊎ ((result ≡ NO_SUCH_STATEMENT) ⊎ ((result ≡ NOT_ROWS) ⊎ (result ≡ NOT_UTF8))) → handle.new.database ≡ handle.old.database }
    ensures untold { result ≢ DONE → changed.new ≡ changed.old }
{
    let Some(mut database) = handle.take(alloc) else {
        return NOT_OPEN;
    };
    let executed = database.execute_many(alloc, statement, cells, texts);
    handle.put(alloc, database);
    match executed {
        Ok(count) => {
            *changed = count;
            DONE
        }
        Err(UnexecutedMany::NoSuchStatement) => NO_SUCH_STATEMENT,
        Err(UnexecutedMany::NotRows) => NOT_ROWS,
        Err(UnexecutedMany::NotUtf8) => NOT_UTF8,
        Err(UnexecutedMany::Refused) => REFUSED,
        Err(UnexecutedMany::TooMany) => TOO_LARGE,
        Err(UnexecutedMany::Shared) => SHARED,
    }
}
