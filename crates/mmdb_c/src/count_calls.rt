//! The call that counts the rows of a select.

ghost use Rattle.std.specs.Prelude.{◌≡◌, ◌≢◌, ◌↔◌, ◌⊎◌, IsNone, IsSome, IsSomeAnd};
ghost use Rattle.mm_database.specs.Calls.{IsSilent};
ghost use Rattle.mmdb_c.specs.Calls.{Becomes};
ghost use Rattle.mm_database.specs.Counting.{CountsRows, IsUncounted, OnlyCounts, ShowsTooMany};
ghost use Rattle.mm_database.specs.Interrupts.{IsSelect};
ghost use Rattle.mm_database.specs.StatementCalls.{IsMissing};

use crate::handle::Handle;
use crate::{DONE, INTERRUPTED, NO_SUCH_STATEMENT, NOT_OPEN, REFUSED, TOO_LARGE};
use mm_database::Unexecuted;
use std::alloc::Global;

/// Tells how many rows the select of a statement shows with the values that are bound. They are counted, and none is told.
#[unsafe(no_mangle)]
pub extern "C" fn mmdb_count(
    alloc: Global,
    handle: &mut Handle,
    statement: u32,
    count: &mut u64,
) -> u32
    ensures not_open { (result ≡ NOT_OPEN) ↔ IsNone handle.old.database }
    ensures no_such_statement { (result ≡ NO_SUCH_STATEMENT) ↔ IsSomeAnd handle.old.database (IsMissing statement) }
    ensures done { result ≡ DONE → Becomes handle.old.database handle.new.database (λ old new. CountsRows statement old new count.new) }
    ensures refused { result ≡ REFUSED → Becomes handle.old.database handle.new.database (IsUncounted statement) }
    ensures too_large { result ≡ TOO_LARGE → IsSomeAnd handle.old.database (ShowsTooMany statement) }
    ensures interrupted { result ≡ INTERRUPTED → IsSomeAnd handle.old.database (IsSelect statement) }
    ensures too_large_silent { result ≡ TOO_LARGE → IsSomeAnd handle.new.database IsSilent }
    ensures interrupted_silent { result ≡ INTERRUPTED → IsSomeAnd handle.new.database IsSilent }
    ensures kept { IsSome handle.old.database → Becomes handle.old.database handle.new.database OnlyCounts }
    ensures others { IsSome handle.old.database → (result ≡ DONE) ⊎ ((result ≡ NO_SUCH_STATEMENT) ⊎ ((result ≡ REFUSED) ⊎ ((result ≡ TOO_LARGE) ⊎ (result ≡ INTERRUPTED)))) }
    ensures unchanged { (result ≡ NOT_OPEN) ⊎ (result ≡ NO_SUCH_STATEMENT) → handle.new.database ≡ handle.old.database }
    ensures untold { result ≢ DONE → count.new ≡ count.old }
{
    let Some(mut database) = handle.take(alloc) else {
        return NOT_OPEN;
    };
    let counted = database.count(statement);
    handle.put(alloc, database);
    match counted {
        Ok(rows) => {
            *count = rows;
            DONE
        }
        Err(Unexecuted::NoSuchStatement) => NO_SUCH_STATEMENT,
        Err(Unexecuted::Refused) => REFUSED,
        Err(Unexecuted::TooLong) => TOO_LARGE,
        Err(Unexecuted::Shared) => unreachable!(),
        Err(Unexecuted::Interrupted) => INTERRUPTED,
    }
}
