//! The calls that open a database of a dump.

ghost use Rattle.std.specs.Prelude.{◌≡◌, ◌≢◌, ◌↔◌, ◌⊎◌, ◌<◌, ◌≤◌, IfErr, IfOk, IsNone, IsSome, IsSomeAnd, IsTrue, None, false, length};
ghost use Rattle.mm_session.specs.Restoring.{TellsSome, goes_on_first};
ghost use Rattle.mm_database.specs.Restoring.{IsAtStart, IsRestoredOf};
ghost use Rattle.mmdb_c.specs.Calls.{AreLimits, HasTakenIn};

use crate::handle::Handle;
use crate::restore_handle::RestoreHandle;
use crate::{
    Bytes, DONE, IS_OPEN, LIMIT_OUT_OF_RANGE, NO_MEMORY, NO_SUCH_POLICY, NOT_A_DUMP, NOT_OPEN,
    REFUSED, new_database, tell,
};
use mm_database::{OpenDatabase, OpenRestore};
use mm_session::RestoreFault;
use mm_statements::Database;
use plain_tables::{LONGEST_BLOCK, Limits, MOST_ROWS};
use plan_chooser::Policy;
use std::alloc::Global;

/// Opens what takes in a dump, which is to be restored under these limits.
#[unsafe(no_mangle)]
pub extern "C" fn mmdb_restore_open(
    alloc: Global,
    restore: &mut RestoreHandle,
    policy: u32,
    rows: u32,
    block: u32,
) -> u32
    ensures is_open { (result ≡ IS_OPEN) ↔ IsSome restore.old.restore }
    ensures no_such_policy { (result ≡ NO_SUCH_POLICY) ↔ (IsNone restore.old.restore × (4 < policy)) }
    ensures out_of_range { (result ≡ LIMIT_OUT_OF_RANGE) ↔ (IsNone restore.old.restore × (policy ≤ 4) × ¬ (AreLimits rows block)) }
    ensures opened { IsNone restore.old.restore × (policy ≤ 4) × AreLimits rows block → (result ≡ DONE) ⊎ (result ≡ NO_MEMORY) }
    ensures done { result ≡ DONE → IsSomeAnd restore.new.restore (IsAtStart (record { rows = rows; block = block })) }
    ensures unchanged { result ≢ DONE → restore.new.restore ≡ restore.old.restore }
{
    if let Some(own) = restore.take(alloc) {
        restore.put(alloc, own);
        return IS_OPEN;
    }
    let Some(policy) = Policy::numbered(policy) else {
        return NO_SUCH_POLICY;
    };
    if rows == 0 || rows > MOST_ROWS || block > LONGEST_BLOCK {
        return LIMIT_OUT_OF_RANGE;
    }
    let Ok(own) = OpenRestore::boxed(alloc, policy, Limits { rows, block }) else {
        return NO_MEMORY;
    };
    restore.put(alloc, own);
    DONE
}

/// Takes in the next piece of a dump, and does the requests that end in it. Where one is refused, it tells where that answer lies.
#[unsafe(no_mangle)]
pub extern "C" fn mmdb_restore_take(
    alloc: Global,
    restore: &mut RestoreHandle,
    piece: &[u8],
    answer: &mut Bytes,
) -> u32
    ensures not_open { (result ≡ NOT_OPEN) ↔ IsNone restore.old.restore }
    ensures done { result ≡ DONE → HasTakenIn piece.now restore.old.restore restore.new.restore }
    ensures good { result ≡ DONE → IsSomeAnd restore.old.restore (λ r. r.inner.failed ≡ false) }
    ensures first { result ≡ DONE → IsSomeAnd restore.old.restore (λ r. IsTrue (goes_on_first r.inner.begun piece.now)) }
    ensures refused { result ≡ REFUSED → IsSomeAnd restore.new.restore (λ r. TellsSome r.inner.answer) }
    ensures told { result ≡ REFUSED → IsSomeAnd restore.new.restore (λ r. answer.new.length ≡ length r.inner.answer) }
    ensures untold { result ≢ REFUSED → answer.new ≡ answer.old }
    ensures others { (result ≡ DONE) ⊎ ((result ≡ NOT_OPEN) ⊎ ((result ≡ NO_MEMORY) ⊎ ((result ≡ REFUSED) ⊎ (result ≡ NOT_A_DUMP)))) }
    ensures open { IsSome restore.old.restore → IsSome restore.new.restore }
{
    let Some(mut own) = restore.take(alloc) else {
        return NOT_OPEN;
    };
    match own.inner.take(piece) {
        Ok(()) => {
            restore.put(alloc, own);
            DONE
        }
        Err(RestoreFault::Refused) => {
            tell(own.inner.answer().as_vec(), answer);
            restore.put(alloc, own);
            REFUSED
        }
        Err(RestoreFault::NoMemory(_)) => {
            restore.put(alloc, own);
            NO_MEMORY
        }
        Err(RestoreFault::NotADump | RestoreFault::CutShort | RestoreFault::Failed) => {
            restore.put(alloc, own);
            NOT_A_DUMP
        }
    }
}

// The database that a whole dump made, in a place of its own. Else the dump is given back, with the status that tells why.
fn open_restored(
    alloc: Global,
    own: Box<OpenRestore>,
) -> Result<Box<OpenDatabase>, (Box<OpenRestore>, u32)>
    ensures done { IfOk result (λ database. IsRestoredOf own.value database.value) }
    ensures kept { IfErr result (λ back. back.0.value ≡ own.value) }
    ensures failed { IfErr result (λ back. (back.1 ≡ NO_MEMORY) ⊎ (back.1 ≡ NOT_A_DUMP)) }
{
    match own.inner.check_whole(alloc) {
        Ok(()) => {}
        Err(RestoreFault::NoMemory(_)) => return Err((own, NO_MEMORY)),
        Err(_) => return Err((own, NOT_A_DUMP)),
    }
    let limits = Limits {
        rows: MOST_ROWS,
        block: LONGEST_BLOCK,
    };
    let Ok(mut database) = new_database(alloc, own.policy, limits) else {
        return Err((own, NO_MEMORY));
    };
    let OpenRestore { inner, policy } = Box::into_inner(own);
    database.inner = Database::over(alloc, policy, inner.into_session());
    Ok(database)
}

/// Opens a database of a dump that is whole, which ends the restore.
#[unsafe(no_mangle)]
pub extern "C" fn mmdb_restore_end(
    alloc: Global,
    restore: &mut RestoreHandle,
    handle: &mut Handle,
) -> u32
    ensures not_open { (result ≡ NOT_OPEN) ↔ IsNone restore.old.restore }
    ensures is_open { (result ≡ IS_OPEN) ↔ (IsSome restore.old.restore × IsSome handle.old.database) }
    ensures done { result ≡ DONE → IsSomeAnd restore.old.restore (λ r. IsSomeAnd handle.new.database (IsRestoredOf r)) }
    ensures ended { result ≡ DONE → restore.new.restore ≡ None }
    ensures others { (result ≡ DONE) ⊎ ((result ≡ NOT_OPEN) ⊎ ((result ≡ IS_OPEN) ⊎ ((result ≡ NO_MEMORY) ⊎ (result ≡ NOT_A_DUMP)))) }
    ensures unchanged { result ≢ DONE → (restore.new.restore ≡ restore.old.restore) × (handle.new.database ≡ handle.old.database) }
{
    let Some(own) = restore.take(alloc) else {
        return NOT_OPEN;
    };
    if let Some(database) = handle.take(alloc) {
        handle.put(alloc, database);
        restore.put(alloc, own);
        return IS_OPEN;
    }
    match open_restored(alloc, own) {
        Ok(database) => {
            handle.put(alloc, database);
            DONE
        }
        Err((own, status)) => {
            restore.put(alloc, own);
            status
        }
    }
}

/// Frees what takes in a dump, with what of it has come.
#[unsafe(no_mangle)]
pub extern "C" fn mmdb_restore_close(alloc: Global, restore: &mut RestoreHandle)
    ensures { restore.new.restore ≡ None }
{
    restore.take(alloc);
}
