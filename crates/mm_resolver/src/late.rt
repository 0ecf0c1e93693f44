//! The checks of a statement that come behind those of its values: why it is refused once these are right.
ghost use Rattle.std.specs.Prelude.{◌≡◌, ◌==◌, map};
ghost use Rattle.std.specs.List.{list_any};
ghost use Rattle.plain_statements.specs.Slots.{first_refusal};
ghost use Rattle.mm_resolver.specs.Checks as checks;
ghost use Rattle.mm_resolver.specs.Select as select;

use crate::checks::{MOST_CONDITIONS, are_too_many, asks_too_much};
use crate::culprit::Culprit;
use crate::schemas::Schemas;
use crate::slotted::AsSetting;
use plain_tables::{Refusal, Shown};

// Whether an assignment is of the key.
fn sets_key<A: AsSetting>(assignments: &[A::Assignment]) -> bool
    ensures { result ≡ list_any (λ a. a.column.0 == 0) (map A.as_assignment assignments.now) }
{
    assignments
        .iter()
        .any(|assignment| A::column_of(assignment).0 == 0)
}

/// There are few enough conditions.
pub fn delete_late<S: Schemas>(schemas: &S, conditions: usize) -> Option<Refusal>
    ensures { result ≡ first_refusal (checks.delete_late conditions) }
{
    if are_too_many(schemas, conditions, MOST_CONDITIONS, Culprit::Conditions) {
        return Some(Refusal::TooMany);
    }
    None
}

/// The key isn't set, and there are few enough conditions.
pub fn update_late<S: Schemas, A: AsSetting>(
    schemas: &S,
    assignments: &[A::Assignment],
    conditions: usize,
) -> Option<Refusal>
    ensures { result ≡ first_refusal (checks.update_late (map A.as_assignment assignments.now) conditions) }
{
    if sets_key::<A>(assignments) {
        schemas.blame(Refusal::KeyCannotBeSet, Culprit::Key);
        return Some(Refusal::KeyCannotBeSet);
    }
    delete_late(schemas, conditions)
}

/// There are few enough items, conditions and joins.
pub fn select_late<S: Schemas>(
    schemas: &S,
    shown: &Shown,
    conditions: usize,
    joins: usize,
) -> Option<Refusal>
    ensures { result ≡ first_refusal (select.select_late shown.now conditions joins) }
{
    if asks_too_much(schemas, shown, conditions, joins) {
        return Some(Refusal::TooMany);
    }
    None
}
