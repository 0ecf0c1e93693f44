//! The call that tells the plan of a select.

ghost use Rattle.std.specs.Prelude.{◌≡◌, ◌≢◌, ◌↔◌, ◌⊎◌, [], IsNone, IsSome, IsSomeAnd, length};
ghost use Rattle.mmdb_c.specs.Calls.{Becomes};
ghost use Rattle.mm_database.specs.Planning.{IsUnplanned, TellsPlan};

use crate::handle::Handle;
use crate::{Bytes, DONE, NO_LINE, NOT_OPEN, REFUSED, tell};
use std::alloc::Global;

/// Tells the plan of the select that a line spells, in words. The select is not done.
#[unsafe(no_mangle)]
pub extern "C" fn mmdb_plan(
    alloc: Global,
    handle: &mut Handle,
    line: &[u8],
    plan: &mut Bytes,
) -> u32
    ensures not_open { (result ≡ NOT_OPEN) ↔ IsNone handle.old.database }
    ensures no_line { (result ≡ NO_LINE) ↔ (IsSome handle.old.database × (line.now ≡ [])) }
    ensures judged { IsSome handle.old.database × (line.now ≢ []) → (result ≡ DONE) ⊎ (result ≡ REFUSED) }
    ensures done { result ≡ DONE → Becomes handle.old.database handle.new.database (TellsPlan line.now) }
    ensures refused { result ≡ REFUSED → Becomes handle.old.database handle.new.database (IsUnplanned line.now) }
    ensures told { (result ≡ DONE) ⊎ (result ≡ REFUSED) → IsSomeAnd handle.new.database (λ d. plan.new.length ≡ length d.answer) }
    ensures unchanged { (result ≡ NOT_OPEN) ⊎ (result ≡ NO_LINE) → (handle.new.database ≡ handle.old.database) × (plan.new ≡ plan.old) }
{
    let Some(mut database) = handle.take(alloc) else {
        return NOT_OPEN;
    };
    if line.is_empty() {
        handle.put(alloc, database);
        return NO_LINE;
    }
    let told = database.tell_plan(alloc, line);
    tell(database.answer.as_vec(), plan);
    handle.put(alloc, database);
    match told {
        Ok(()) => DONE,
        Err(_) => REFUSED,
    }
}
