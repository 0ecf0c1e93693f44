//! The calls by which handles share tables.

ghost use Rattle.std.specs.Prelude.{◌≡◌, ◌≢◌, ◌↔◌, ◌⊎◌, Err, false, IfOk, IsErrOf, IsNone, IsOk, IsSome, IsSomeAnd, OnErr, OnOk};
ghost use Rattle.mmdb_c.specs.Calls.{Becomes, Joins};
ghost use Rattle.mm_statements.specs.declared.faults.ShareFault.TheVariants as share_fault;
ghost use Rattle.mm_database.specs.Transacting.{IsInTransaction};
ghost use Rattle.mm_database.specs.Sharing.{IsShared, Leaves, OpensOn, SharesMore};

use crate::handle::Handle;
use crate::{DONE, IN_TRANSACTION, NO_MEMORY, NOT_OPEN};
use mm_database::OpenDatabase;
use mm_statements::ShareFault;
use std::alloc::Global;

// A database that shares the tables, in a place of its own.
fn new_reader(alloc: Global, database: &mut OpenDatabase) -> Result<Box<OpenDatabase>, ShareFault>
    ensures done { IfOk result (λ reader. OpensOn database.old reader.value) }
    ensures sharing { OnOk result (IsShared database.new) }
    ensures stays { SharesMore database.old database.new }
    ensures declined { IsErrOf result share_fault.InTransaction → database.new ≡ database.old }
    ensures open { IsErrOf result share_fault.InTransaction → IsInTransaction database.old }
    ensures waits { IsInTransaction database.old → result ≡ Err share_fault.InTransaction }
{
    let reader = database.reader(alloc)?;
    match Box::new(alloc, reader) {
        Ok(reader) => Ok(reader),
        Err(_) => Err(ShareFault::NoMemory),
    }
}

// Has a handle share the tables of a database.
fn join(alloc: Global, database: &mut OpenDatabase, reader: &mut Handle) -> Result<(), ShareFault>
    ensures done { OnOk result (Joins database.old reader.old.database reader.new.database) }
    ensures sharing { OnOk result (IsShared database.new) }
    ensures stays { SharesMore database.old database.new }
    ensures declined { IsErrOf result share_fault.InTransaction → database.new ≡ database.old }
    ensures unchanged { OnErr result (reader.new.database ≡ reader.old.database) }
    ensures open { IsErrOf result share_fault.InTransaction → IsInTransaction database.old ⊎ IsSomeAnd reader.old.database IsInTransaction }
    ensures waits { IsInTransaction database.old ⊎ IsSomeAnd reader.old.database IsInTransaction → result ≡ Err share_fault.InTransaction }
{
    let Some(mut own) = reader.take(alloc) else {
        let opened = new_reader(alloc, database)?;
        reader.put(alloc, opened);
        return Ok(());
    };
    let shared = database.share(alloc, &mut own);
    reader.put(alloc, own);
    shared
}

// The status that tells whether tables were shared or left.
fn status_of(shared: Result<(), ShareFault>) -> u32
    ensures done { (result ≡ DONE) ↔ IsOk shared }
    ensures no_memory { (result ≡ NO_MEMORY) ↔ IsErrOf shared share_fault.NoMemory }
    ensures in_transaction { (result ≡ IN_TRANSACTION) ↔ IsErrOf shared share_fault.InTransaction }
{
    match shared {
        Ok(()) => DONE,
        Err(ShareFault::NoMemory) => NO_MEMORY,
        Err(ShareFault::InTransaction) => IN_TRANSACTION,
    }
}

/// Has a second handle share the tables of a first, in the place of its own. A closed one is opened. Where there is no memory for that,
/// the first may count as sharing its tables all the same.
#[unsafe(no_mangle)]
pub extern "C" fn mmdb_share(alloc: Global, handle: &mut Handle, reader: &mut Handle) -> u32
    ensures not_open { (result ≡ NOT_OPEN) ↔ IsNone handle.old.database }
    ensures open { IsSome handle.old.database → (result ≡ DONE) ⊎ ((result ≡ NO_MEMORY) ⊎ (result ≡ IN_TRANSACTION)) }
    ensures done { result ≡ DONE → IsSomeAnd handle.old.database (λ d. Joins d reader.old.database reader.new.database) }
    ensures sharing { result ≡ DONE → IsSomeAnd handle.new.database IsShared }
    ensures stays { IsSome handle.old.database → Becomes handle.old.database handle.new.database SharesMore }
    ensures unchanged { (result ≡ NOT_OPEN) ⊎ (result ≡ IN_TRANSACTION) → handle.new.database ≡ handle.old.database }
    ensures kept { result ≢ DONE → reader.new.database ≡ reader.old.database }
    ensures in_transaction { result ≡ IN_TRANSACTION → IsSomeAnd handle.old.database IsInTransaction ⊎ IsSomeAnd reader.old.database IsInTransaction }
    ensures waits { IsSome handle.old.database × (IsSomeAnd handle.old.database IsInTransaction ⊎ IsSomeAnd reader.old.database IsInTransaction) → result ≡ IN_TRANSACTION }
{
    let Some(mut database) = handle.take(alloc) else {
        return NOT_OPEN;
    };
    let joined = join(alloc, &mut database, reader);
    handle.put(alloc, database);
    status_of(joined)
}

/// Has a handle leave its tables, which go with the last handle that shares them. It has none then. Only where it shares nothing it takes
/// memory.
#[unsafe(no_mangle)]
pub extern "C" fn mmdb_leave(alloc: Global, handle: &mut Handle) -> u32
    ensures not_open { (result ≡ NOT_OPEN) ↔ IsNone handle.old.database }
    ensures open { IsSome handle.old.database → (result ≡ DONE) ⊎ ((result ≡ NO_MEMORY) ⊎ (result ≡ IN_TRANSACTION)) }
    ensures done { result ≡ DONE → Becomes handle.old.database handle.new.database Leaves }
    ensures own { result ≡ NO_MEMORY → IsSomeAnd handle.old.database (λ d. d.inner.shared ≡ false) }
    ensures unchanged { result ≢ DONE → handle.new.database ≡ handle.old.database }
    ensures in_transaction { (result ≡ IN_TRANSACTION) ↔ IsSomeAnd handle.old.database IsInTransaction }
{
    let Some(mut database) = handle.take(alloc) else {
        return NOT_OPEN;
    };
    let left = database.leave(alloc);
    handle.put(alloc, database);
    status_of(left)
}
