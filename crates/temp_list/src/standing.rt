//! How a value stands to that of a test.
ghost use Rattle.std.specs.Prelude.{◌≡◌};
ghost use Rattle.plain_tables.specs.Queries.{are_ordered as are_ordered_so, stands_to_null as stands_to_null_so, stands as stands_so};

use plain_tables::{Op, SeenValue, SoughtValue, StoredValue, Test, Value};
use std::cmp::Ordering;

// Whether values that compare so are ordered as the operator says.
fn are_ordered(op: Op, ordering: Ordering) -> bool
    ensures { result ≡ are_ordered_so op ordering }
{
    match op {
        Op::Eq => ordering.is_eq(),
        Op::Ne => ordering.is_ne(),
        Op::Lt => ordering.is_lt(),
        Op::Le => ordering.is_le(),
        Op::Gt => ordering.is_gt(),
        Op::Ge => ordering.is_ge(),
    }
}

// Whether a value stands to null as the operator says.
fn stands_to_null(op: Op, value: &StoredValue) -> bool
    ensures { result ≡ stands_to_null_so op value.now }
{
    match op {
        Op::Eq => value.is_null(),
        Op::Ne => !value.is_null(),
        Op::Lt | Op::Le | Op::Gt | Op::Ge => false,
    }
}

/// Whether a value stands so to the value of a test.
pub fn stands(op: Op, value: &StoredValue, asked: &SoughtValue<'_>) -> bool
    ensures { result ≡ stands_so op value.now asked.now }
{
    if asked.is_null() {
        return stands_to_null(op, value);
    }
    !value.is_null() && are_ordered(op, value.compare(asked))
}

/// Whether a value passes a test. Two integers are compared where they are, with no value made to be looked for.
pub fn passes(value: &StoredValue, test: &Test) -> bool
    ensures { result ≡ stands_so test.now.op value.now test.now.value }
{
    match (value.seen(), &test.value) {
        (SeenValue::Int(z), Value::Int(asked)) => are_ordered(test.op, z.cmp(asked)),
        _ => stands(test.op, value, &test.value.sought()),
    }
}
