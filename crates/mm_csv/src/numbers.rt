//! Integers of fields.

ghost use Rattle.std.specs.Prelude.{◌≡◌};
ghost use Rattle.plain_tables.specs.CsvReading as reading;

use plain_tables::integer;

/// The integer that a field spells, if it spells one of 64 bits.
pub fn integer_of(field: &[u8]) -> Option<i64>
    ensures { result ≡ reading.integer_of field.now }
{
    integer(field)
}
