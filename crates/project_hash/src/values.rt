//! What shows values: these compared, hashed and told apart, where they lie.
ghost use Rattle.std.specs.Prelude.{◌≡◌, ◌<◌, ◌↔◌, IsTrue, List, Some, length, slice_get};
ghost use Rattle.plain_tables.specs.declared.value.Value.{Value};
ghost use Rattle.project_hash.specs.Distinct.{values_cmp};
ghost use Rattle.project_hash.specs.Hashes.{hash_of_values};

use crate::hashing::{in_32_bits, with_value};
use plain_tables::{SeenValue, StoredValue};
use std::cmp::Ordering;

// Whether two values are equal. Texts of different lengths are told apart at once.
fn are_equal(value: &StoredValue, other: &StoredValue) -> bool
    ensures { IsTrue result ↔ (value.now ≡ other.now) }
{
    match (value.seen(), other.seen()) {
        (SeenValue::Text(text), SeenValue::Text(other)) => text == other,
        _ => value == other,
    }
}

/// A row that shows values, first column first.
pub(crate) trait ShowsValues {
    // the values
    ghost values: { Self → List Value };

    /// How many values are shown.
    fn width(&self) -> usize
        ensures { result ≡ length (values self.now) };

    /// The value in a column that is shown.
    fn value(&self, column: usize) -> &StoredValue
        requires { column < length (values self.now) }
        ensures { slice_get (values self.now) column ≡ Some result.now };

    /// Compares the values, first column first.
    fn compare(&self, other: &Self) -> Ordering
        ensures { result ≡ values_cmp (values self.now) (values other.now) }
    {
        for column in 0..self.width().min(other.width()) {
            let ordering = self.value(column).cmp(other.value(column));
            if ordering.is_ne() {
                return ordering;
            }
        }
        self.width().cmp(&other.width())
    }

    /// Whether both show the same values.
    fn is_alike(&self, other: &Self) -> bool
        ensures { IsTrue result ↔ (values self.now ≡ values other.now) }
    {
        if self.width() != other.width() {
            return false;
        }
        for column in 0..self.width() {
            if !are_equal(self.value(column), other.value(column)) {
                return false;
            }
        }
        true
    }

    /// The hash of the values.
    fn shown_hash(&self) -> u32
        ensures { result ≡ hash_of_values (values self.now) }
    {
        let mut hash = 0;
        for column in 0..self.width() {
            hash = with_value(hash, self.value(column));
        }
        in_32_bits(hash)
    }
}
