//! The call that tells the number of the newest change.

ghost use Rattle.std.specs.Prelude.{◌≡◌, ◌≢◌, ◌↔◌, ◌⊎◌, IsNone, IsSome};
ghost use Rattle.mmdb_c.specs.Calls.{Becomes};
ghost use Rattle.mm_database.specs.Planning.{OnlyAnswers};
ghost use Rattle.mm_database.specs.Versions.{HasNoVersion, HasVersion};

use crate::handle::Handle;
use crate::{DONE, NOT_OPEN, REFUSED};
use std::alloc::Global;

/// Tells the number of the newest change of the table of a name, or of all tables if the name is empty.
#[unsafe(no_mangle)]
pub extern "C" fn mmdb_version(
    alloc: Global,
    handle: &mut Handle,
    table: &[u8],
    version: &mut u64,
) -> u32
    ensures not_open { (result ≡ NOT_OPEN) ↔ IsNone handle.old.database }
    ensures done { result ≡ DONE → Becomes handle.old.database handle.new.database (HasVersion table.now) }
    ensures refused { result ≡ REFUSED → Becomes handle.old.database handle.new.database (HasNoVersion table.now) }
    ensures kept { IsSome handle.old.database → Becomes handle.old.database handle.new.database OnlyAnswers }
    ensures others { IsSome handle.old.database → (result ≡ DONE) ⊎ (result ≡ REFUSED) }
    ensures unchanged { result ≡ NOT_OPEN → handle.new.database ≡ handle.old.database }
    ensures untold { result ≢ DONE → version.new ≡ version.old }
{
    let Some(mut database) = handle.take(alloc) else {
        return NOT_OPEN;
    };
    let told = database.version(table);
    handle.put(alloc, database);
    match told {
        Ok(number) => {
            *version = number;
            DONE
        }
        Err(_) => REFUSED,
    }
}
