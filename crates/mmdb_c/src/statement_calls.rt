//! The calls on statements.

ghost use Rattle.std.specs.Prelude.{◌≡◌, ◌≢◌, ◌↔◌, ◌≤◌, ◌⊎◌, [], IsNone, IsSome, IsSomeAnd, length};
ghost use Rattle.std.specs.Str.{IsUtf8};
ghost use Rattle.plain_tables.specs.declared.value.Value.TheVariants as value;
ghost use Rattle.mm_cells.specs.Reading.{AreFull};
ghost use Rattle.mm_cells.specs.Values.{values_of};
ghost use Rattle.mm_prepared.specs.Cells.{IsSmall, cell_value};
ghost use Rattle.mm_statements.specs.declared.database.Executed.TheVariants as gives;
ghost use Rattle.mm_database.specs.Calls.{IsSilent};
ghost use Rattle.mmdb_c.specs.Calls.{Becomes};
ghost use Rattle.mm_database.specs.StatementCalls.{Prepares, IsUnprepared, KeepsAll, KeepsEach, KeepsOthers, KeepsShown, KeepsStatements, IsMissing, IsPast, Binds, Finalizes, Executes, IsUnexecuted, IsUntold, KeepsColumns, Tells, Queries, IsUnqueried, shown_by};
ghost use Rattle.mm_database.specs.Interrupts.{IsLineSelect, IsSelect};
ghost use Rattle.mm_database.specs.Sharing.{IsKeptOff, IsLineKeptOff};

use crate::handle::Handle;
use crate::{
    DONE, INTERRUPTED, NO_LINE, NO_MEMORY, NO_SUCH_PLACE, NO_SUCH_STATEMENT, NOT_OPEN, NOT_UTF8,
    REFUSED, SHARED, TOO_LARGE,
};
use mm_database::{Rows, Statement, Unexecuted, Unprepared};
use mm_statements::{Declined, Executed, LentValue, QueryFault};
use std::alloc::Global;

/// Prepares the statement that a line spells, and tells its number and how many places it has.
#[unsafe(no_mangle)]
pub extern "C" fn mmdb_prepare(
    alloc: Global,
    handle: &mut Handle,
    line: &[u8],
    statement: &mut Statement,
) -> u32
    ensures not_open { (result ≡ NOT_OPEN) ↔ IsNone handle.old.database }
    ensures no_line { (result ≡ NO_LINE) ↔ (IsSome handle.old.database × (line.now ≡ [])) }
    ensures judged { IsSome handle.old.database × (line.now ≢ []) → (result ≡ DONE) ⊎ ((result ≡ REFUSED) ⊎ ((result ≡ NO_MEMORY) ⊎ (result ≡ TOO_LARGE))) }
    ensures done { result ≡ DONE → Becomes handle.old.database handle.new.database (λ old new. Prepares line.now old new statement.new) }
    ensures refused { result ≡ REFUSED → Becomes handle.old.database handle.new.database (IsUnprepared line.now) }
    ensures kept { (result ≡ REFUSED) ⊎ ((result ≡ NO_MEMORY) ⊎ (result ≡ TOO_LARGE)) → Becomes handle.old.database handle.new.database KeepsAll }
    ensures no_memory { (result ≡ NO_MEMORY) ⊎ (result ≡ TOO_LARGE) → Becomes handle.old.database handle.new.database KeepsEach }
    ensures unchanged { (result ≡ NOT_OPEN) ⊎ (result ≡ NO_LINE) → handle.new.database ≡ handle.old.database }
    ensures untold { result ≢ DONE → statement.new ≡ statement.old }
{
    let Some(mut database) = handle.take(alloc) else {
        return NOT_OPEN;
    };
    if line.is_empty() {
        handle.put(alloc, database);
        return NO_LINE;
    }
    let prepared = database.prepare(alloc, line);
    handle.put(alloc, database);
    match prepared {
        Ok(told) => {
            *statement = told;
            DONE
        }
        Err(Unprepared::Refused) => REFUSED,
        Err(Unprepared::NoMemory) => NO_MEMORY,
        Err(Unprepared::TooMany) => TOO_LARGE,
    }
}

// Binds a value to a place of a statement.
fn bind(alloc: Global, handle: &mut Handle, statement: u32, place: u32, cell: LentValue<'_>) -> u32
    ensures not_open { (result ≡ NOT_OPEN) ↔ IsNone handle.old.database }
    ensures missing { IsSomeAnd handle.old.database (IsMissing statement) → result ≡ NO_SUCH_STATEMENT }
    ensures past { IsSomeAnd handle.old.database (IsPast statement place) → result ≡ NO_SUCH_PLACE }
    ensures no_such_statement { result ≡ NO_SUCH_STATEMENT → IsSomeAnd handle.old.database (IsMissing statement) }
    ensures no_such_place { result ≡ NO_SUCH_PLACE → IsSomeAnd handle.old.database (IsPast statement place) }
    ensures others { IsSome handle.old.database → (result ≡ DONE) ⊎ ((result ≡ NO_SUCH_STATEMENT) ⊎ ((result ≡ NO_SUCH_PLACE) ⊎ (result ≡ NO_MEMORY))) }
    ensures small { IsSmall cell.entry → result ≢ NO_MEMORY }
    ensures done { result ≡ DONE → Becomes handle.old.database handle.new.database (Binds statement place (cell_value cell.entry)) }
    ensures kept { result ≢ DONE → IsSome handle.old.database → Becomes handle.old.database handle.new.database KeepsEach }
    ensures closed { result ≡ NOT_OPEN → handle.new.database ≡ handle.old.database }
{
    let Some(mut database) = handle.take(alloc) else {
        return NOT_OPEN;
    };
    let bound = database.bind(statement, place, cell);
    handle.put(alloc, database);
    match bound {
        Ok(()) => DONE,
        Err(Declined::NoSuchStatement) => NO_SUCH_STATEMENT,
        Err(Declined::NoSuchPlace) => NO_SUCH_PLACE,
        Err(Declined::NoMemory) => NO_MEMORY,
    }
}

/// Binds an integer to a place of a statement. It needs no memory.
#[unsafe(no_mangle)]
pub extern "C" fn mmdb_bind_integer(
    alloc: Global,
    handle: &mut Handle,
    statement: u32,
    place: u32,
    integer: i64,
) -> u32
    ensures not_open { (result ≡ NOT_OPEN) ↔ IsNone handle.old.database }
    ensures missing { IsSomeAnd handle.old.database (IsMissing statement) → result ≡ NO_SUCH_STATEMENT }
    ensures past { IsSomeAnd handle.old.database (IsPast statement place) → result ≡ NO_SUCH_PLACE }
    ensures no_such_statement { result ≡ NO_SUCH_STATEMENT → IsSomeAnd handle.old.database (IsMissing statement) }
    ensures no_such_place { result ≡ NO_SUCH_PLACE → IsSomeAnd handle.old.database (IsPast statement place) }
    ensures others { IsSome handle.old.database → (result ≡ DONE) ⊎ ((result ≡ NO_SUCH_STATEMENT) ⊎ (result ≡ NO_SUCH_PLACE)) }
    ensures done { result ≡ DONE → Becomes handle.old.database handle.new.database (Binds statement place (value.Int integer)) }
    ensures kept { result ≢ DONE → IsSome handle.old.database → Becomes handle.old.database handle.new.database KeepsEach }
    ensures closed { result ≡ NOT_OPEN → handle.new.database ≡ handle.old.database }
{
    bind(alloc, handle, statement, place, LentValue::Integer(integer))
}

/// Binds a null to a place of a statement. It needs no memory.
#[unsafe(no_mangle)]
pub extern "C" fn mmdb_bind_null(
    alloc: Global,
    handle: &mut Handle,
    statement: u32,
    place: u32,
) -> u32
    ensures not_open { (result ≡ NOT_OPEN) ↔ IsNone handle.old.database }
    ensures missing { IsSomeAnd handle.old.database (IsMissing statement) → result ≡ NO_SUCH_STATEMENT }
    ensures past { IsSomeAnd handle.old.database (IsPast statement place) → result ≡ NO_SUCH_PLACE }
    ensures no_such_statement { result ≡ NO_SUCH_STATEMENT → IsSomeAnd handle.old.database (IsMissing statement) }
    ensures no_such_place { result ≡ NO_SUCH_PLACE → IsSomeAnd handle.old.database (IsPast statement place) }
    ensures others { IsSome handle.old.database → (result ≡ DONE) ⊎ ((result ≡ NO_SUCH_STATEMENT) ⊎ (result ≡ NO_SUCH_PLACE)) }
    ensures done { result ≡ DONE → Becomes handle.old.database handle.new.database (Binds statement place value.Null) }
    ensures kept { result ≢ DONE → IsSome handle.old.database → Becomes handle.old.database handle.new.database KeepsEach }
    ensures closed { result ≡ NOT_OPEN → handle.new.database ≡ handle.old.database }
{
    bind(alloc, handle, statement, place, LentValue::Null)
}

/// Binds a text to a place of a statement. It is copied. One of at most 14 bytes needs no memory.
#[unsafe(no_mangle)]
pub extern "C" fn mmdb_bind_text(
    alloc: Global,
    handle: &mut Handle,
    statement: u32,
    place: u32,
    text: &[u8],
) -> u32
    ensures not_open { (result ≡ NOT_OPEN) ↔ IsNone handle.old.database }
    ensures not_utf8 { (result ≡ NOT_UTF8) ↔ (IsSome handle.old.database × ¬ (IsUtf8 text.now)) }
    ensures missing { IsSomeAnd handle.old.database (IsMissing statement) → IsUtf8 text.now → result ≡ NO_SUCH_STATEMENT }
    ensures past { IsSomeAnd handle.old.database (IsPast statement place) → IsUtf8 text.now → result ≡ NO_SUCH_PLACE }
    ensures no_such_statement { result ≡ NO_SUCH_STATEMENT → IsSomeAnd handle.old.database (IsMissing statement) }
    ensures no_such_place { result ≡ NO_SUCH_PLACE → IsSomeAnd handle.old.database (IsPast statement place) }
    ensures others { IsSome handle.old.database → (result ≡ DONE) ⊎ ((result ≡ NO_SUCH_STATEMENT) ⊎ ((result ≡ NO_SUCH_PLACE) ⊎ ((result ≡ NOT_UTF8) ⊎ (result ≡ NO_MEMORY)))) }
    ensures short { length text.now ≤ 14 → result ≢ NO_MEMORY }
    ensures done { result ≡ DONE → Becomes handle.old.database handle.new.database (Binds statement place (value.Text text.now)) }
    ensures kept { result ≢ DONE → IsSome handle.old.database → Becomes handle.old.database handle.new.database KeepsEach }
    ensures closed { result ≡ NOT_OPEN → handle.new.database ≡ handle.old.database }
{
    if let Ok(text) = str::from_utf8(text) {
        return bind(alloc, handle, statement, place, LentValue::Text(text));
    }
    let Some(database) = handle.take(alloc) else {
        return NOT_OPEN;
    };
    handle.put(alloc, database);
    NOT_UTF8
}

/// Does what a statement does with the values that are bound, and tells what it gave.
#[unsafe(no_mangle)]
pub extern "C" fn mmdb_execute(
    alloc: Global,
    handle: &mut Handle,
    statement: u32,
    rows: &mut Rows,
) -> u32
    ensures not_open { (result ≡ NOT_OPEN) ↔ IsNone handle.old.database }
    ensures no_such_statement { (result ≡ NO_SUCH_STATEMENT) ↔ IsSomeAnd handle.old.database (IsMissing statement) }
    ensures done { result ≡ DONE → Becomes handle.old.database handle.new.database (λ old new. Executes statement old new rows.new) }
    ensures refused { result ≡ REFUSED → Becomes handle.old.database handle.new.database (IsUnexecuted statement) }
    ensures shared { result ≡ SHARED → Becomes handle.old.database handle.new.database (IsKeptOff statement) }
    ensures interrupted { result ≡ INTERRUPTED → IsSomeAnd handle.old.database (IsSelect statement) }
    ensures too_large_silent { result ≡ TOO_LARGE → IsSomeAnd handle.new.database IsSilent }
    ensures interrupted_silent { result ≡ INTERRUPTED → IsSomeAnd handle.new.database IsSilent }
    ensures kept { result ≢ DONE → IsSome handle.old.database → Becomes handle.old.database handle.new.database KeepsAll }
    ensures rows { IsSome handle.old.database → Becomes handle.old.database handle.new.database (KeepsOthers statement) }
    ensures too_large { result ≡ TOO_LARGE → IsSomeAnd handle.new.database (λ d. AreFull (shown_by d statement)) }
    ensures others { IsSome handle.old.database → (result ≡ DONE) ⊎ ((result ≡ NO_SUCH_STATEMENT) ⊎ ((result ≡ REFUSED) ⊎ ((result ≡ TOO_LARGE) ⊎ ((result ≡ SHARED) ⊎ (result ≡ INTERRUPTED))))) }
    ensures unchanged { (result ≡ NOT_OPEN) ⊎ (result ≡ NO_SUCH_STATEMENT) → handle.new.database ≡ handle.old.database }
    ensures untold { result ≢ DONE → rows.new ≡ rows.old }
{
    let Some(mut database) = handle.take(alloc) else {
        return NOT_OPEN;
    };
    let executed = database.execute(statement, rows);
    handle.put(alloc, database);
    match executed {
        Ok(()) => DONE,
        Err(Unexecuted::NoSuchStatement) => NO_SUCH_STATEMENT,
        Err(Unexecuted::Refused) => REFUSED,
        Err(Unexecuted::TooLong) => TOO_LARGE,
        Err(Unexecuted::Shared) => SHARED,
        Err(Unexecuted::Interrupted) => INTERRUPTED,
    }
}

/// Tells the columns of what a statement shows, whatever values are bound: a row for each, of its name and its kind.
#[unsafe(no_mangle)]
pub extern "C" fn mmdb_columns(
    alloc: Global,
    handle: &mut Handle,
    statement: u32,
    columns: &mut Rows,
) -> u32
    ensures not_open { (result ≡ NOT_OPEN) ↔ IsNone handle.old.database }
    ensures no_such_statement { (result ≡ NO_SUCH_STATEMENT) ↔ IsSomeAnd handle.old.database (IsMissing statement) }
    ensures done { result ≡ DONE → Becomes handle.old.database handle.new.database (λ old new. KeepsColumns statement old new × Tells new.columns (gives.Rows 2) columns.new) }
    ensures refused { result ≡ REFUSED → Becomes handle.old.database handle.new.database (IsUntold statement) }
    ensures kept { IsSome handle.old.database → Becomes handle.old.database handle.new.database KeepsAll }
    ensures rows { IsSome handle.old.database → Becomes handle.old.database handle.new.database KeepsShown }
    ensures others { IsSome handle.old.database → (result ≡ DONE) ⊎ ((result ≡ NO_SUCH_STATEMENT) ⊎ (result ≡ REFUSED)) }
    ensures unchanged { (result ≡ NOT_OPEN) ⊎ (result ≡ NO_SUCH_STATEMENT) → handle.new.database ≡ handle.old.database }
    ensures untold { result ≢ DONE → columns.new ≡ columns.old }
{
    let Some(mut database) = handle.take(alloc) else {
        return NOT_OPEN;
    };
    let found = database.find_columns(statement);
    if found.is_ok() {
        columns.tell(Executed::Rows { columns: 2 }, &database.columns);
    }
    handle.put(alloc, database);
    match found {
        Ok(()) => DONE,
        Err(Unexecuted::NoSuchStatement) => NO_SUCH_STATEMENT,
        Err(Unexecuted::Refused) => REFUSED,
        Err(Unexecuted::TooLong) => TOO_LARGE,
        Err(Unexecuted::Shared | Unexecuted::Interrupted) => unreachable!(),
    }
}

/// Frees a statement. It needs no memory.
#[unsafe(no_mangle)]
pub extern "C" fn mmdb_finalize(alloc: Global, handle: &mut Handle, statement: u32) -> u32
    ensures not_open { (result ≡ NOT_OPEN) ↔ IsNone handle.old.database }
    ensures no_such_statement { (result ≡ NO_SUCH_STATEMENT) ↔ IsSomeAnd handle.old.database (IsMissing statement) }
    ensures done { result ≡ DONE → Becomes handle.old.database handle.new.database (Finalizes statement) }
    ensures kept { result ≢ DONE → IsSome handle.old.database → Becomes handle.old.database handle.new.database KeepsEach }
    ensures closed { result ≡ NOT_OPEN → handle.new.database ≡ handle.old.database }
    ensures others { IsSome handle.old.database → (result ≡ DONE) ⊎ (result ≡ NO_SUCH_STATEMENT) }
{
    let Some(mut database) = handle.take(alloc) else {
        return NOT_OPEN;
    };
    let finalized = database.finalize(alloc, statement);
    handle.put(alloc, database);
    if finalized.is_ok() {
        DONE
    } else {
        NO_SUCH_STATEMENT
    }
}

/// Does the insert, the update, the delete or the select that a line spells, and tells what that gave. No statement is kept.
#[unsafe(no_mangle)]
pub extern "C" fn mmdb_query(
    alloc: Global,
    handle: &mut Handle,
    line: &[u8],
    rows: &mut Rows,
) -> u32
    ensures not_open { (result ≡ NOT_OPEN) ↔ IsNone handle.old.database }
    ensures no_line { (result ≡ NO_LINE) ↔ (IsSome handle.old.database × (line.now ≡ [])) }
    ensures judged { IsSome handle.old.database × (line.now ≢ []) → (result ≡ DONE) ⊎ ((result ≡ REFUSED) ⊎ ((result ≡ TOO_LARGE) ⊎ ((result ≡ SHARED) ⊎ (result ≡ INTERRUPTED)))) }
    ensures done { result ≡ DONE → Becomes handle.old.database handle.new.database (λ old new. Queries line.now old new rows.new) }
    ensures refused { result ≡ REFUSED → Becomes handle.old.database handle.new.database (IsUnqueried line.now) }
    ensures too_large { result ≡ TOO_LARGE → IsSomeAnd handle.new.database (λ d. AreFull (values_of d.queried)) }
    ensures shared { result ≡ SHARED → Becomes handle.old.database handle.new.database (IsLineKeptOff line.now) }
    ensures interrupted { result ≡ INTERRUPTED → IsSomeAnd handle.old.database (IsLineSelect line.now) }
    ensures too_large_silent { result ≡ TOO_LARGE → IsSomeAnd handle.new.database IsSilent }
    ensures interrupted_silent { result ≡ INTERRUPTED → IsSomeAnd handle.new.database IsSilent }
    ensures kept { (result ≡ REFUSED) ⊎ ((result ≡ TOO_LARGE) ⊎ ((result ≡ SHARED) ⊎ (result ≡ INTERRUPTED))) → Becomes handle.old.database handle.new.database KeepsAll }
    ensures rows { (result ≡ DONE) ⊎ ((result ≡ REFUSED) ⊎ ((result ≡ TOO_LARGE) ⊎ ((result ≡ SHARED) ⊎ (result ≡ INTERRUPTED)))) → Becomes handle.old.database handle.new.database KeepsStatements }
    ensures unchanged { (result ≡ NOT_OPEN) ⊎ (result ≡ NO_LINE) → handle.new.database ≡ handle.old.database }
    ensures untold { result ≢ DONE → rows.new ≡ rows.old }
{
    let Some(mut database) = handle.take(alloc) else {
        return NOT_OPEN;
    };
    if line.is_empty() {
        handle.put(alloc, database);
        return NO_LINE;
    }
    let queried = database.query(alloc, line, rows);
    handle.put(alloc, database);
    match queried {
        Ok(()) => DONE,
        Err(QueryFault::Refused(_)) => REFUSED,
        Err(QueryFault::TooLong) => TOO_LARGE,
        Err(QueryFault::Shared) => SHARED,
        Err(QueryFault::Interrupted) => INTERRUPTED,
    }
}
