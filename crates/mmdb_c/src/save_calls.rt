//! The call that saves a whole database.

ghost use Rattle.std.specs.Prelude.{◌≡◌, ◌≢◌, ◌↔◌, ◌⊎◌, IsNone, IsSome, IsSomeAnd, length};
ghost use Rattle.mmdb_c.specs.Calls.{Becomes};
ghost use Rattle.mm_database.specs.Planning.{OnlyAnswers};
ghost use Rattle.mm_database.specs.Saving.{IsUnsaved, MakesPiece};

use crate::handle::Handle;
use crate::{Bytes, CHANGED, DONE, NO_MEMORY, NOT_OPEN, REFUSED, tell};
use mm_database::{SaveMark, Unsaved};
use std::alloc::Global;

/// Makes the next piece of a dump of all tables, and tells where it lies. The mark goes on.
#[unsafe(no_mangle)]
pub extern "C" fn mmdb_save(
    alloc: Global,
    handle: &mut Handle,
    mark: &mut SaveMark,
    piece: &mut Bytes,
) -> u32
    ensures not_open { (result ≡ NOT_OPEN) ↔ IsNone handle.old.database }
    ensures done { result ≡ DONE → Becomes handle.old.database handle.new.database (MakesPiece mark.old mark.new) }
    ensures told { result ≡ DONE → IsSomeAnd handle.new.database (λ d. piece.new.length ≡ length d.answer) }
    ensures refused { result ≡ REFUSED → Becomes handle.old.database handle.new.database (IsUnsaved mark.old) }
    ensures kept { IsSome handle.old.database → Becomes handle.old.database handle.new.database OnlyAnswers }
    ensures others { (result ≡ DONE) ⊎ ((result ≡ NOT_OPEN) ⊎ ((result ≡ CHANGED) ⊎ ((result ≡ REFUSED) ⊎ (result ≡ NO_MEMORY)))) }
    ensures unchanged { result ≡ NOT_OPEN → handle.new.database ≡ handle.old.database }
    ensures untold { result ≢ DONE → (mark.new ≡ mark.old) × (piece.new ≡ piece.old) }
{
    let Some(mut database) = handle.take(alloc) else {
        return NOT_OPEN;
    };
    let saved = database.save(mark);
    if saved.is_ok() {
        tell(database.answer.as_vec(), piece);
    }
    handle.put(alloc, database);
    match saved {
        Ok(()) => DONE,
        Err(Unsaved::Changed) => CHANGED,
        Err(Unsaved::Refused) => REFUSED,
        Err(Unsaved::NoMemory) => NO_MEMORY,
    }
}
