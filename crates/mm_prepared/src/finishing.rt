//! What is left to be checked of a resolved statement once its values have come, and what is done then.
ghost use Rattle.std.specs.Prelude.{◌≡◌, ◌≢◌, Ok, Err, IfErr, OnOk};
ghost use Rattle.std.specs.List.{list_any};
ghost use Rattle.plain_tables.specs.declared.refusal.Refusal.TheVariants as refusal;
ghost use Rattle.plain_statements.specs.Finishing.{comes, filled_template, finished, is_past, is_wrong};

use crate::filling::fill;
use plain_statements::{Resolution, Want};
use plain_tables::{Refusal, Resolved, Value};
use std::alloc::Global;

// Whether a value comes that is of another type than is wanted, or a null where none can stand.
fn comes_wrong(values: &[Value], want: Want) -> bool
    ensures { result ≡ comes is_wrong values.now want }
{
    match values.get(want.hole) {
        Some(value) => want.need.is_wrong(value),
        None => want.need.is_wrong(&Value::Null),
    }
}

// Whether a text comes that is to be stored and is too long for it.
fn comes_past(values: &[Value], want: Want) -> bool
    ensures { result ≡ comes is_past values.now want }
{
    match values.get(want.hole) {
        Some(value) => want.need.is_past(value),
        None => false,
    }
}

fn has_wrong(values: &[Value], wants: &[Want]) -> bool
    ensures { result ≡ list_any (comes is_wrong values.now) wants.now }
{
    wants.iter().any(|want| comes_wrong(values, *want))
}

fn has_past(values: &[Value], wants: &[Want]) -> bool
    ensures { result ≡ list_any (comes is_past values.now) wants.now }
{
    wants.iter().any(|want| comes_past(values, *want))
}

/// Why a resolved statement is refused with these values, if it is: 35 where a value is of another type than its column, then 46 where a
/// text that is to be stored is too long, then what is refused once the values are right.
pub fn check(values: &[Value], resolution: &Resolution) -> Result<(), Refusal>
    ensures done { OnOk result (finished values.now resolution.now ≡ Ok (filled_template values.now resolution.now.template)) }
    ensures refused { IfErr result (λ e. finished values.now resolution.now ≡ Err e) }
{
    let wants = resolution.wants.as_slice();
    if has_wrong(values, wants) {
        return Err(Refusal::WrongType);
    }
    if has_past(values, wants) {
        return Err(Refusal::TextTooLong);
    }
    if let Some(why) = resolution.last {
        return Err(why);
    }
    Ok(())
}

/// Makes the command what a resolved statement does with these values, or tells why it is refused, as `check` does; 90 may stand for
/// any of it. It has the room of what the command was, where that is of its kind. After a refusal the command may be anything.
pub fn finish(
    alloc: Global,
    values: &[Value],
    resolution: &Resolution,
    kept: &mut Resolved,
) -> Result<(), Refusal>
    ensures done { OnOk result (finished values.now resolution.now ≡ Ok kept.new) }
    ensures refused { IfErr result (λ e. e ≢ refusal.NoMemory → finished values.now resolution.now ≡ Err e) }
{
    check(values, resolution)?;
    fill(kept, alloc, values, &resolution.template)?;
    Ok(())
}
