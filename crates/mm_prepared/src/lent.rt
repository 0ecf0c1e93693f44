//! What a statement does with its values, lent: an insert lends the values themselves, where they are its row.
ghost use Rattle.std.specs.Prelude.{◌≡◌, ◌≢◌, Err, IfErr, IfOk, IfSome, IsTrue, Ok, map};
ghost use Rattle.plain_statements.specs.Filling.{slot_value};
ghost use Rattle.plain_statements.specs.Finishing.{filled_template, finished};
ghost use Rattle.plain_statements.specs.declared.statement.Slot.TheVariants as hole_or_value;
ghost use Rattle.plain_tables.specs.declared.refusal.Refusal.TheVariants as refusal;
ghost use Rattle.plain_tables.specs.declared.resolved.Resolved.TheVariants as resolved;
ghost use Rattle.mm_prepared.specs.Lent.{lent_command};

use crate::finishing::{check, finish};
use plain_statements::{Resolution, Slot, Template};
use plain_tables::{Refusal, Resolved, TableNumber, Value};
use std::alloc::Global;

/// A resolved command on rows: the insert of a row, or any.
#[derive(Drop)]
pub enum Lent<'a> {
    Insert {
        table: TableNumber,
        row: &'a [Value],
    },
    Command(&'a Resolved),
}

fn is_hole(slot: &Slot, place: usize) -> bool
    ensures { IsTrue result → slot.now ≡ hole_or_value.Hole place }
{
    matches!(slot, Slot::Hole(hole) if *hole == place)
}

// Whether the slots of a row are the holes in turn, so that it is the values themselves.
pub(crate) fn are_holes_in_turn(slots: &[Slot], values: &[Value]) -> bool
    ensures { IsTrue result → map (slot_value values.now) slots.now ≡ values.now }
{
    if slots.len() != values.len() {
        return false;
    }
    for (place, slot) in slots.iter().enumerate() {
        if !is_hole(slot, place) {
            return false;
        }
    }
    true
}

// The table of an insert whose row is these values themselves.
fn table_of_row(template: &Template, values: &[Value]) -> Option<TableNumber>
    ensures { IfSome result (λ table. filled_template values.now template.now ≡ resolved.Insert table values.now) }
{
    let Template::Insert { table, slots } = template else {
        return None;
    };
    if !are_holes_in_turn(slots.as_slice(), values) {
        return None;
    }
    Some(*table)
}

/// What a resolved statement does with these values, or why it is refused, as `finish` does. The command is filled only where the
/// values are not lent.
pub fn lend<'a>(
    alloc: Global,
    values: &'a [Value],
    resolution: &Resolution,
    kept: &'a mut Resolved,
) -> Result<Lent<'a>, Refusal>
    ensures done { IfOk result (λ c. finished values.now resolution.now ≡ Ok (lent_command c)) }
    ensures refused { IfErr result (λ e. e ≢ refusal.NoMemory → finished values.now resolution.now ≡ Err e) }
{
    if let Some(table) = table_of_row(&resolution.template, values) {
        check(values, resolution)?;
        return Ok(Lent::Insert { table, row: values });
    }
    finish(alloc, values, resolution, kept)?;
    Ok(Lent::Command(kept))
}
