//! The calls on what asks selects to end.

ghost use Rattle.std.specs.Prelude.{◌≡◌, ◌≢◌, ◌↔◌, ◌⊎◌, IsNone, IsSome, None};

use crate::handle::Handle;
use crate::interrupter_handle::InterrupterHandle;
use crate::{DONE, IS_OPEN, NO_MEMORY, NOT_OPEN};
use mm_interrupts::Interrupter;
use no_memory::NoMemory;
use std::alloc::Global;

// An interrupter that was made, in a place of its own.
fn boxed(alloc: Global, made: Result<Interrupter, NoMemory>) -> Result<Box<Interrupter>, NoMemory> {
    Ok(Box::new(alloc, made?)?)
}

/// Opens what asks the selects of a database to end.
#[unsafe(no_mangle)]
pub extern "C" fn mmdb_interrupter_open(
    alloc: Global,
    handle: &mut Handle,
    interrupter: &mut InterrupterHandle,
) -> u32
    ensures not_open { (result ≡ NOT_OPEN) ↔ IsNone handle.old.database }
    ensures is_open { (result ≡ IS_OPEN) ↔ (IsSome handle.old.database × IsSome interrupter.old.interrupter) }
    ensures done { result ≡ DONE → IsSome interrupter.new.interrupter }
    ensures others { (result ≡ DONE) ⊎ ((result ≡ NOT_OPEN) ⊎ ((result ≡ IS_OPEN) ⊎ (result ≡ NO_MEMORY))) }
    ensures kept { handle.new.database ≡ handle.old.database }
    ensures untold { result ≢ DONE → interrupter.new.interrupter ≡ interrupter.old.interrupter }
{
    let Some(mut database) = handle.take(alloc) else {
        return NOT_OPEN;
    };
    if let Some(own) = interrupter.take(alloc) {
        interrupter.put(alloc, own);
        handle.put(alloc, database);
        return IS_OPEN;
    }
    let made = database.inner.interrupter(alloc);
    let own = boxed(alloc, made);
    handle.put(alloc, database);
    match own {
        Ok(own) => {
            interrupter.put(alloc, own);
            DONE
        }
        Err(_) => NO_MEMORY,
    }
}

/// Asks the select that is under way in a call on the database to end. It takes no memory and waits for nothing.
#[unsafe(no_mangle)]
pub extern "C" fn mmdb_interrupt(alloc: Global, interrupter: &mut InterrupterHandle)
    ensures { interrupter.new.interrupter ≡ interrupter.old.interrupter }
{
    let Some(own) = interrupter.take(alloc) else {
        return;
    };
    own.interrupt();
    interrupter.put(alloc, own);
}

/// Frees what asks selects to end.
#[unsafe(no_mangle)]
pub extern "C" fn mmdb_interrupter_close(alloc: Global, interrupter: &mut InterrupterHandle)
    ensures { interrupter.new.interrupter ≡ None }
{
    interrupter.take(alloc);
}
