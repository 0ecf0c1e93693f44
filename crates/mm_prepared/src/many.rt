//! Many rows of values for one statement: whether each makes a change of it, and the rows that an insert makes of them.
ghost use Rattle.std.specs.Prelude.{◌≡◌, Err, None, Some, IfErr, IfOk, OnOk, map};
ghost use Rattle.std.specs.List.{All};
ghost use Rattle.plain_tables.specs.Doing as doing;
ghost use Rattle.plain_tables.specs.ResolvedLaws.{HasWidth};
ghost use Rattle.plain_statements.specs.Filling.{slot_value};
ghost use Rattle.plain_statements.specs.Finishing.{finished};
ghost use Rattle.mm_prepared.specs.Many.{IsChangeWith, as_change, first_unfit};

use crate::bound::Bound;
use crate::filling::filled_each;
use crate::finishing::check;
use crate::lent::are_holes_in_turn;
use no_memory::NoMemory;
use plain_statements::{Resolution, Slot, Template};
use plain_tables::{Refusal, RowList, Sequence, Value};
use std::alloc::Global;

// Why a row of values makes no change of a resolved statement, if it makes none.
fn check_change(values: &[Value], resolution: &Resolution) -> Result<(), Refusal>
    ensures change { OnOk result (IsChangeWith resolution.now values.now) }
    ensures refused { IfErr result (λ why. as_change (finished values.now resolution.now) ≡ Err why) }
{
    check(values, resolution)?;
    match &resolution.template {
        Template::Select(_) => Err(Refusal::NotACommand),
        _ => Ok(()),
    }
}

/// Why the first of these rows of values that makes no change of a resolved statement makes none, if there is one: it is refused as `finish`
/// refuses it, or by 20 where the statement is a select.
pub fn check_each(rows: &[Bound], resolution: &Resolution) -> Result<(), Refusal>
    ensures changes { OnOk result (first_unfit resolution.now rows.now ≡ None) }
    ensures widths { OnOk result (All (All HasWidth) rows.now) }
    ensures refused { IfErr result (λ why. first_unfit resolution.now rows.now ≡ Some why) }
{
    for row in rows {
        check_change(row.as_slice(), resolution)?;
    }
    Ok(())
}

// The row that an insert with these slots makes of a row of values, which are moved where they are the row themselves.
fn row_of_insert(alloc: Global, slots: &[Slot], values: Bound) -> Result<Sequence<Value>, NoMemory>
    ensures { IfOk result (λ row. row ≡ map (slot_value values) slots.now) }
{
    if are_holes_in_turn(slots, values.as_slice()) {
        return Ok(values.into_row());
    }
    filled_each(alloc, values.as_slice(), slots)
}

/// The rows that an insert with these slots makes of rows of values. Where the slots are the holes in turn, these are moved and not copied.
pub fn rows_of_insert(alloc: Global, slots: &[Slot], rows: Vec<Bound>) -> Result<RowList, NoMemory>
    ensures { IfOk result (λ made. made ≡ map (λ values. map (slot_value values) slots.now) rows.items) }
{
    let mut made = RowList::new(alloc);
    for values in rows {
        let mut row = row_of_insert(alloc, slots, values)?.into_vec();
        made.push(&mut row)?;
    }
    Ok(made)
}

/// The refusal of a row, with the number of the record that it is of.
pub fn in_record(refusal: Refusal, number: u64) -> Refusal
    ensures { result ≡ doing.in_record number refusal }
{
    let record = Some(number);
    match refusal {
        Refusal::KeyExists { .. } => Refusal::KeyExists { record },
        Refusal::NoReferencedRow { .. } => Refusal::NoReferencedRow { record },
        Refusal::TableFull { .. } => Refusal::TableFull { record },
        other => other,
    }
}
