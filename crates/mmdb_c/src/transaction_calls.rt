//! The calls on transactions.

ghost use Rattle.std.specs.Prelude.{◌≡◌, ◌≢◌, ◌↔◌, ◌⊎◌, IfSome, IsNone, IsSome, IsSomeAnd, length};
ghost use Rattle.plain_tables.specs.Transactions.{begun, committed, rolled_back};
ghost use Rattle.mmdb_c.specs.Calls.{Becomes};
ghost use Rattle.mm_database.specs.Sharing.{IsShared};
ghost use Rattle.mm_database.specs.Transacting.{IsInTransaction, IsOutside, Steps};

use crate::handle::Handle;
use crate::{DONE, NO_MEMORY, NO_TRANSACTION, NOT_OPEN, SHARED};
use mm_statements::BeginFault;
use std::alloc::Global;

/// Begins a transaction, in those that are open.
#[unsafe(no_mangle)]
pub extern "C" fn mmdb_begin(alloc: Global, handle: &mut Handle) -> u32
    ensures not_open { (result ≡ NOT_OPEN) ↔ IsNone handle.old.database }
    ensures open { IsSome handle.old.database → (result ≡ DONE) ⊎ ((result ≡ NO_MEMORY) ⊎ (result ≡ SHARED)) }
    ensures done { result ≡ DONE → Becomes handle.old.database handle.new.database (Steps begun) }
    ensures sharing { result ≡ SHARED → IsSomeAnd handle.old.database IsShared }
    ensures unchanged { result ≢ DONE → handle.new.database ≡ handle.old.database }
{
    let Some(mut database) = handle.take(alloc) else {
        return NOT_OPEN;
    };
    let began = database.begin();
    handle.put(alloc, database);
    match began {
        Ok(()) => DONE,
        Err(BeginFault::NoMemory) => NO_MEMORY,
        Err(BeginFault::Shared) => SHARED,
    }
}

/// Ends the innermost transaction, and keeps what was done in it.
#[unsafe(no_mangle)]
pub extern "C" fn mmdb_commit(alloc: Global, handle: &mut Handle) -> u32
    ensures not_open { (result ≡ NOT_OPEN) ↔ IsNone handle.old.database }
    ensures none { (result ≡ NO_TRANSACTION) ↔ IsSomeAnd handle.old.database IsOutside }
    ensures open { (result ≡ DONE) ↔ IsSomeAnd handle.old.database IsInTransaction }
    ensures done { result ≡ DONE → Becomes handle.old.database handle.new.database (Steps committed) }
    ensures unchanged { result ≢ DONE → handle.new.database ≡ handle.old.database }
{
    let Some(mut database) = handle.take(alloc) else {
        return NOT_OPEN;
    };
    let ended = database.commit();
    handle.put(alloc, database);
    match ended {
        Ok(()) => DONE,
        Err(_) => NO_TRANSACTION,
    }
}

/// Ends the innermost transaction, and undoes what was done in it. It takes no memory.
#[unsafe(no_mangle)]
pub extern "C" fn mmdb_rollback(alloc: Global, handle: &mut Handle) -> u32
    ensures not_open { (result ≡ NOT_OPEN) ↔ IsNone handle.old.database }
    ensures none { (result ≡ NO_TRANSACTION) ↔ IsSomeAnd handle.old.database IsOutside }
    ensures open { (result ≡ DONE) ↔ IsSomeAnd handle.old.database IsInTransaction }
    ensures done { result ≡ DONE → Becomes handle.old.database handle.new.database (Steps rolled_back) }
    ensures unchanged { result ≢ DONE → handle.new.database ≡ handle.old.database }
{
    let Some(mut database) = handle.take(alloc) else {
        return NOT_OPEN;
    };
    let ended = database.rollback();
    handle.put(alloc, database);
    match ended {
        Ok(()) => DONE,
        Err(_) => NO_TRANSACTION,
    }
}

/// How many transactions are open.
#[unsafe(no_mangle)]
pub extern "C" fn mmdb_transactions(alloc: Global, handle: &mut Handle) -> usize
    ensures not_open { IsNone handle.old.database → result ≡ 0 }
    ensures open { IfSome handle.old.database (λ d. result ≡ length d.inner.session.saved) }
    ensures unchanged { handle.new.database ≡ handle.old.database }
{
    let Some(database) = handle.take(alloc) else {
        return 0;
    };
    let number = database.transactions();
    handle.put(alloc, database);
    number
}
