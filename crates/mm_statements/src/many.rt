//! A statement that is executed with many rows of values, all of them or none.
ghost use Rattle.std.specs.Prelude.{◌≡◌, IfErr, IfOk, IsErrOf, IsTrue, OnErr, length, map};
ghost use Rattle.std.specs.List.{All};
ghost use Rattle.plain_tables.specs.Doing.{done};
ghost use Rattle.plain_tables.specs.ResolvedLaws.{IsMeant};
ghost use Rattle.plain_tables.specs.declared.resolved.Resolved.TheVariants as resolved;
ghost use Rattle.plain_statements.specs.Filling.{slot_value};
ghost use Rattle.mm_prepared.specs.Many.{IsChangeWith, all_or_none, effect_with, effect_with_each};
ghost use Rattle.mm_session.specs.Changing.{HasChanged};
ghost use Rattle.mm_session.specs.OneRequest.{StaysInStream};
ghost use Rattle.mm_statements.specs.Many.{EndsBy, HasFailed, IsMeaning, outcome_in_record};
ghost use Rattle.mm_statements.specs.declared.faults.ExecuteFault.TheVariants as fault;

use crate::faults::ExecuteFault;
use mm_prepared::{Bound, finish, in_record, rows_of_insert};
use mm_shared::{ChangeFault, SharedSession};
use plain_statements::{Resolution, Slot};
use plain_tables::{Resolved, TableNumber};

/// Puts the rows into a table that an insert with these slots makes of rows of values, all of them or none, and tells how many they are.
pub fn load_each(
    held: &mut SharedSession,
    table: TableNumber,
    slots: &[Slot],
    rows: Vec<Bound>,
) -> Result<usize, ExecuteFault>
    requires { IsMeant held.old.session.limits held.old.session.database (resolved.Load table (map (λ row. map (slot_value row) slots.now) rows.items)) }
    ensures count { IfOk result (λ count. count ≡ length rows.items) }
    ensures done { IfOk result (HasChanged held.new.session (done held.old.session.limits held.old.session.database (resolved.Load table (map (λ row. map (slot_value row) slots.now) rows.items)))) }
    ensures refused { IfErr result (HasFailed held.old.session.database (done held.old.session.limits held.old.session.database (resolved.Load table (map (λ row. map (slot_value row) slots.now) rows.items)))) }
    ensures unchanged { OnErr result (held.new.session.database ≡ held.old.session.database) }
    ensures shared { IsErrOf result fault.Shared → IsTrue held.old.shared }
    ensures keeps { held.new.shared ≡ held.old.shared }
    ensures stream { StaysInStream held.old.session held.new.session }
{
    let alloc = *rows.allocator();
    let count = rows.len();
    let made = rows_of_insert(alloc, slots, rows)?;
    held.load(table, made)?;
    Ok(count)
}

// Does what a resolved statement does with a row of values, whose refusals have this number.
fn change_with(
    held: &mut SharedSession,
    values: &Bound,
    resolution: &Resolution,
    kept: &mut Resolved,
    number: u64,
) -> Result<usize, ExecuteFault>
    requires meaning { IsMeaning held.old.session.database resolution.now }
    requires change { IsChangeWith resolution.now values.now }
    ensures done { IfOk result (HasChanged held.new.session (effect_with held.old.session.limits resolution.now held.old.session.database values.now)) }
    ensures refused { IfErr result (EndsBy (outcome_in_record number (effect_with held.old.session.limits resolution.now held.old.session.database values.now).outcome)) }
    ensures meaning { IsMeaning held.new.session.database resolution.now }
    ensures shared { IsErrOf result fault.Shared → IsTrue held.old.shared }
    ensures keeps { held.new.shared ≡ held.old.shared }
    ensures stream { StaysInStream held.old.session held.new.session }
{
    finish(values.allocator(), values.as_slice(), resolution, kept)?;
    match held.change(kept) {
        Ok(count) => Ok(count),
        Err(ChangeFault::Refused(why)) => Err(ExecuteFault::Refused(in_record(why, number))),
        Err(ChangeFault::Shared) => Err(ExecuteFault::Shared),
    }
}

// Does what a resolved statement does with each of these rows of values, one after the other, and tells how many rows of tables were changed
// in all. It stops at the first refusal.
fn change_each(
    held: &mut SharedSession,
    rows: &[Bound],
    resolution: &Resolution,
    kept: &mut Resolved,
) -> Result<usize, ExecuteFault>
    requires meaning { IsMeaning held.old.session.database resolution.now }
    requires changes { All (IsChangeWith resolution.now) rows.now }
    ensures done { IfOk result (HasChanged held.new.session (effect_with_each held.old.session.limits resolution.now rows.now held.old.session.database)) }
    ensures refused { IfErr result (EndsBy (effect_with_each held.old.session.limits resolution.now rows.now held.old.session.database).outcome) }
    ensures meaning { IsMeaning held.new.session.database resolution.now }
    ensures shared { IsErrOf result fault.Shared → IsTrue held.old.shared }
    ensures keeps { held.new.shared ≡ held.old.shared }
    ensures stream { StaysInStream held.old.session held.new.session }
{
    let mut changed: usize = 0;
    for (place, values) in rows.iter().enumerate() {
        let count = change_with(held, values, resolution, kept, place as u64 + 1)?;
        let Some(sum) = changed.checked_add(count) else {
            return Err(ExecuteFault::TooLong);
        };
        changed = sum;
    }
    Ok(changed)
}

/// Does what a resolved statement does with each of these rows of values, one after the other: all of them or none, by a transaction of its
/// own. It tells how many rows of tables were changed in all.
pub fn change_all(
    held: &mut SharedSession,
    rows: &[Bound],
    resolution: &Resolution,
    kept: &mut Resolved,
) -> Result<usize, ExecuteFault>
    requires meaning { IsMeaning held.old.session.database resolution.now }
    requires changes { All (IsChangeWith resolution.now) rows.now }
    ensures done { IfOk result (HasChanged held.new.session (all_or_none held.old.session.database (effect_with_each held.old.session.limits resolution.now rows.now held.old.session.database))) }
    ensures refused { IfErr result (HasFailed held.old.session.database (all_or_none held.old.session.database (effect_with_each held.old.session.limits resolution.now rows.now held.old.session.database))) }
    ensures unchanged { OnErr result (held.new.session.database ≡ held.old.session.database) }
    ensures meaning { IsMeaning held.new.session.database resolution.now }
    ensures shared { IsErrOf result fault.Shared → IsTrue held.old.shared }
    ensures keeps { IsTrue held.new.shared → IsTrue held.old.shared }
    ensures stream { StaysInStream held.old.session held.new.session }
{
    held.begin()?;
    let changed = change_each(held, rows, resolution, kept);
    // The transaction is open, so neither is declined.
    if changed.is_ok() {
        let _ = held.commit();
    } else {
        let _ = held.rollback();
    }
    changed
}
