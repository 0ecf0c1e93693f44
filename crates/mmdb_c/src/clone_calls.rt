//! The call that copies a database.

ghost use Rattle.std.specs.Prelude.{◌≡◌, ◌≢◌, ◌↔◌, ◌⊎◌, Err, IfOk, IsErrOf, IsNone, IsSome, IsSomeAnd};
ghost use Rattle.mm_database.specs.Cloning.{IsCopyOf};
ghost use Rattle.mm_database.specs.Transacting.{IsInTransaction};
ghost use Rattle.mm_statements.specs.declared.faults.ShareFault.TheVariants as share_fault;

use crate::handle::Handle;
use crate::{DONE, IN_TRANSACTION, IS_OPEN, NO_MEMORY, NOT_OPEN};
use mm_database::OpenDatabase;
use mm_statements::ShareFault;
use std::alloc::Global;

// A copy of a database, in a place of its own.
fn new_copy(alloc: Global, database: &OpenDatabase) -> Result<Box<OpenDatabase>, ShareFault>
    ensures done { IfOk result (λ copy. IsCopyOf database.now copy.value) }
    ensures open { IsErrOf result share_fault.InTransaction → IsInTransaction database.now }
    ensures waits { IsInTransaction database.now → result ≡ Err share_fault.InTransaction }
{
    let copy = database.try_clone(alloc)?;
    match Box::new(alloc, copy) {
        Ok(copy) => Ok(copy),
        Err(_) => Err(ShareFault::NoMemory),
    }
}

/// Opens a second handle on a copy of the tables, which is its own. In a transaction there is none.
#[unsafe(no_mangle)]
pub extern "C" fn mmdb_clone(alloc: Global, handle: &mut Handle, copy: &mut Handle) -> u32
    ensures not_open { (result ≡ NOT_OPEN) ↔ IsNone handle.old.database }
    ensures is_open { (result ≡ IS_OPEN) ↔ (IsSome handle.old.database × IsSome copy.old.database) }
    ensures others { IsSome handle.old.database × IsNone copy.old.database → (result ≡ DONE) ⊎ ((result ≡ NO_MEMORY) ⊎ (result ≡ IN_TRANSACTION)) }
    ensures done { result ≡ DONE → IsSomeAnd handle.old.database (λ d. IsSomeAnd copy.new.database (IsCopyOf d)) }
    ensures in_transaction { result ≡ IN_TRANSACTION → IsSomeAnd handle.old.database IsInTransaction }
    ensures waits { IsSomeAnd handle.old.database IsInTransaction × IsNone copy.old.database → result ≡ IN_TRANSACTION }
    ensures unchanged { handle.new.database ≡ handle.old.database }
    ensures kept { result ≢ DONE → copy.new.database ≡ copy.old.database }
{
    let Some(database) = handle.take(alloc) else {
        return NOT_OPEN;
    };
    if let Some(other) = copy.take(alloc) {
        copy.put(alloc, other);
        handle.put(alloc, database);
        return IS_OPEN;
    }
    let copied = new_copy(alloc, &database);
    handle.put(alloc, database);
    match copied {
        Ok(opened) => {
            copy.put(alloc, opened);
            DONE
        }
        Err(ShareFault::NoMemory) => NO_MEMORY,
        Err(ShareFault::InTransaction) => IN_TRANSACTION,
    }
}
