//! From the statement of a number to the resolved command that it is with its values.
ghost use Rattle.std.specs.Prelude.{◌≡◌, Err, IfErr, IfOk, IsOk, None, OnOk, Ok, Some, map, true};
ghost use Rattle.plain_tables.specs.Databases.{Database};
ghost use Rattle.plain_tables.specs.ResolvedLaws.{IsMeant, emptied};
ghost use Rattle.plain_tables.specs.declared.command.Limits.{Limits};
ghost use Rattle.mm_prepared.specs.Kept.{IsKnown, SameSeen, named};
ghost use Rattle.mm_prepared.specs.Lent.{lent_command};
ghost use Rattle.mm_catalog.specs.Seen.{database_of};
ghost use Rattle.mm_shared.specs.Noted.{noted_tables};
ghost use Rattle.mm_statements.specs.Resolving.{IsFinished, IsOfRows, IsUnfinished, IsUnresolved};
ghost use Rattle.mm_statements.specs.Right.{AreNoted, AreRight};
ghost use Rattle.mm_prepared.specs.declared.kept.Prepared.{Prepared as PlainPrepared};
ghost use Rattle.mm_statements.specs.declared.faults.ExecuteFault.TheVariants as fault;

use crate::faults::ExecuteFault;
use crate::reading::meaning;
use mm_catalog::Catalog;
use mm_lang::Line;
use mm_prepared::{Lent, Statements, lend};
use mm_shared::{NotedTables, SharedSession};
use no_memory::NoMemory;
use plain_statements::Resolution;
use plain_tables::{Refusal, Resolved};

/// Sees to it that what is known of the statements is right by the tables of a catalog. It is kept where these have the names and columns
/// that are noted, and else forgotten.
pub fn settle(
    catalog: &Catalog,
    noted: &mut NotedTables,
    statements: &mut Statements,
) -> Result<(), NoMemory>
    requires { AreNoted (database_of catalog.now) noted.old statements.old }
    ensures noted { AreNoted (database_of catalog.now) noted.new statements.new }
    ensures current { OnOk result (noted.new.current ≡ true) }
    ensures right { OnOk result (AreRight (database_of catalog.now) statements.new) }
    ensures same { SameSeen statements.old statements.new }
    ensures stays { noted_tables noted.old ≡ map emptied (database_of catalog.now) → IsOk result × (statements.new ≡ statements.old) }
{
    if noted.are_current() {
        return Ok(());
    }
    let others = noted.renew(catalog)?;
    if others {
        statements.forget();
    }
    Ok(())
}

// Works out what the statement of a number means of the tables.
fn resolve_anew(
    held: &SharedSession,
    statements: &mut Statements,
    number: usize,
) -> Result<(), ExecuteFault>
    requires { AreRight held.now.session.database statements.old }
    ensures right { AreRight held.now.session.database statements.new }
    ensures same { SameSeen statements.old statements.new }
    ensures known { OnOk result (IsKnown statements.new number) }
    ensures missing { named statements.old number ≡ None → result ≡ Err fault.NoSuchStatement }
    ensures refused { IfErr result (IsUnresolved held.now.session.database statements.old number) }
{
    let Some(prepared) = statements.get(number) else {
        return Err(ExecuteFault::NoSuchStatement);
    };
    let line = Line::new(prepared.line.as_str());
    let resolution = meaning(prepared.bound.allocator(), held.catalog(), &line)?;
    // The number names a statement, so this is never declined.
    let _ = statements.set_resolution(number, resolution);
    Ok(())
}

// Works out what the statement of a number means of the tables, where that isn't known.
fn resolve_settled(
    held: &SharedSession,
    statements: &mut Statements,
    number: usize,
) -> Result<(), ExecuteFault>
    requires { AreRight held.now.session.database statements.old }
    ensures right { AreRight held.now.session.database statements.new }
    ensures same { SameSeen statements.old statements.new }
    ensures known { OnOk result (IsKnown statements.new number) }
    ensures missing { named statements.old number ≡ None → result ≡ Err fault.NoSuchStatement }
    ensures refused { IfErr result (IsUnresolved held.now.session.database statements.old number) }
{
    if let Some(prepared) = statements.get(number) {
        if prepared.resolution.is_some() {
            return Ok(());
        }
    }
    resolve_anew(held, statements, number)
}

// Works out what the statement of a number means of the tables, where the tables as they are may not have been noted.
fn resolve_doubted(
    held: &SharedSession,
    noted: &mut NotedTables,
    statements: &mut Statements,
    number: usize,
) -> Result<(), ExecuteFault>
    requires { AreNoted held.now.session.database noted.old statements.old }
    ensures noted { AreNoted held.now.session.database noted.new statements.new }
    ensures right { OnOk result (AreRight held.now.session.database statements.new) }
    ensures same { SameSeen statements.old statements.new }
    ensures known { OnOk result (IsKnown statements.new number) }
    ensures missing { named statements.old number ≡ None → result ≡ Err fault.NoSuchStatement }
    ensures refused { IfErr result (IsUnresolved held.now.session.database statements.old number) }
{
    if statements.get(number).is_none() {
        return Err(ExecuteFault::NoSuchStatement);
    }
    settle(held.catalog(), noted, statements)?;
    resolve_settled(held, statements, number)
}

/// Works out what the statement of a number means of the tables, where that isn't known by the tables as they are.
#[inline]
pub fn resolve(
    held: &SharedSession,
    noted: &mut NotedTables,
    statements: &mut Statements,
    number: usize,
) -> Result<(), ExecuteFault>
    requires { AreNoted held.now.session.database noted.old statements.old }
    ensures noted { AreNoted held.now.session.database noted.new statements.new }
    ensures right { OnOk result (AreRight held.now.session.database statements.new) }
    ensures same { SameSeen statements.old statements.new }
    ensures known { OnOk result (IsKnown statements.new number) }
    ensures missing { named statements.old number ≡ None → result ≡ Err fault.NoSuchStatement }
    ensures refused { IfErr result (IsUnresolved held.now.session.database statements.old number) }
{
    if noted.are_current() {
        if let Some(prepared) = statements.get(number) {
            if prepared.resolution.is_some() {
                return Ok(());
            }
        }
    }
    resolve_doubted(held, noted, statements, number)
}

/// What the statement of a number means of the tables, whatever values are bound.
pub fn resolution_of(statements: &Statements, number: usize) -> &Resolution
    requires { IsKnown statements.now number }
    ensures { (p : PlainPrepared) → named statements.now number ≡ Some p → p.resolution ≡ Some result.now }
{
    let Some(prepared) = statements.get(number) else {
        unreachable!();
    };
    let Some(resolution) = &prepared.resolution else {
        unreachable!();
    };
    resolution
}

/// The resolved command that the statement of a number is with the values that are bound. Where these are lent the command that is kept
/// stays, and else that is filled.
pub fn command_of<'a>(
    statements: &'a Statements,
    number: usize,
    kept: &'a mut Resolved,
) -> Result<Lent<'a>, Refusal>
    requires { IsKnown statements.now number }
    ensures finished { (tables : Database) → AreRight tables statements.now → IfOk result (λ c. IsFinished tables statements.now number (Ok (lent_command c))) }
    ensures meant { (limits : Limits) (tables : Database) → AreRight tables statements.now → IfOk result (λ c. IsMeant limits tables (lent_command c)) }
    ensures rows { IfOk result (λ c. IsOfRows (lent_command c)) }
    ensures refused { (tables : Database) → AreRight tables statements.now → IfErr result (λ why. IsUnfinished tables statements.now number (fault.Refused why)) }
{
    let Some(prepared) = statements.get(number) else {
        unreachable!();
    };
    let Some(resolution) = &prepared.resolution else {
        unreachable!();
    };
    let alloc = prepared.bound.allocator();
    lend(alloc, prepared.bound.as_slice(), resolution, kept)
}
