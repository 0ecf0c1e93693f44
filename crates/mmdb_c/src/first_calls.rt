//! The call that tells the first rows of a select.

ghost use Rattle.std.specs.Prelude.{◌≡◌, ◌≢◌, ◌↔◌, ◌⊎◌, IsNone, IsSome, IsSomeAnd};
ghost use Rattle.mm_cells.specs.Reading.{AreFull};
ghost use Rattle.mm_database.specs.Calls.{IsSilent};
ghost use Rattle.mmdb_c.specs.Calls.{Becomes};
ghost use Rattle.mm_database.specs.First.{IsUnshown, ShowsFirst};
ghost use Rattle.mm_database.specs.Interrupts.{IsSelect};
ghost use Rattle.mm_database.specs.StatementCalls.{IsMissing, KeepsAll, KeepsOthers, shown_by};

use crate::handle::Handle;
use crate::{DONE, INTERRUPTED, NO_SUCH_STATEMENT, NOT_OPEN, REFUSED, TOO_LARGE};
use mm_database::{Rows, Unexecuted};
use std::alloc::Global;

/// Tells the first rows that the select of a statement shows with the values that are bound, so many at most.
#[unsafe(no_mangle)]
pub extern "C" fn mmdb_first(
    alloc: Global,
    handle: &mut Handle,
    statement: u32,
    most: usize,
    rows: &mut Rows,
) -> u32
    ensures not_open { (result ≡ NOT_OPEN) ↔ IsNone handle.old.database }
    ensures no_such_statement { (result ≡ NO_SUCH_STATEMENT) ↔ IsSomeAnd handle.old.database (IsMissing statement) }
    ensures done { result ≡ DONE → Becomes handle.old.database handle.new.database (λ old new. ShowsFirst statement most old new rows.new) }
    ensures refused { result ≡ REFUSED → Becomes handle.old.database handle.new.database (IsUnshown statement) }
    ensures too_large { result ≡ TOO_LARGE → IsSomeAnd handle.new.database (λ d. AreFull (shown_by d statement)) }
    ensures interrupted { result ≡ INTERRUPTED → IsSomeAnd handle.old.database (IsSelect statement) }
    ensures too_large_silent { result ≡ TOO_LARGE → IsSomeAnd handle.new.database IsSilent }
    ensures interrupted_silent { result ≡ INTERRUPTED → IsSomeAnd handle.new.database IsSilent }
    ensures kept { IsSome handle.old.database → Becomes handle.old.database handle.new.database KeepsAll }
    ensures rows { IsSome handle.old.database → Becomes handle.old.database handle.new.database (KeepsOthers statement) }
    ensures others { IsSome handle.old.database → (result ≡ DONE) ⊎ ((result ≡ NO_SUCH_STATEMENT) ⊎ ((result ≡ REFUSED) ⊎ ((result ≡ TOO_LARGE) ⊎ (result ≡ INTERRUPTED)))) }
    ensures unchanged { (result ≡ NOT_OPEN) ⊎ (result ≡ NO_SUCH_STATEMENT) → handle.new.database ≡ handle.old.database }
    ensures untold { result ≢ DONE → rows.new ≡ rows.old }
{
    let Some(mut database) = handle.take(alloc) else {
        return NOT_OPEN;
    };
    let shown = database.first(statement, most, rows);
    handle.put(alloc, database);
    match shown {
        Ok(()) => DONE,
        Err(Unexecuted::NoSuchStatement) => NO_SUCH_STATEMENT,
        Err(Unexecuted::Refused) => REFUSED,
        Err(Unexecuted::TooLong) => TOO_LARGE,
        Err(Unexecuted::Shared) => unreachable!(),
        Err(Unexecuted::Interrupted) => INTERRUPTED,
    }
}
