//! Which fields stand as they are, and which between quotes.

ghost use Rattle.std.specs.Prelude.{◌≡◌, true, false};
ghost use Rattle.plain_tables.specs.Csv as csv_text;

use crate::ends::ends_of;

/// Whether a byte calls for quotes around its field.
#[inline]
pub fn is_special(byte: u8) -> bool
    ensures { result ≡ csv_text.calls_for_quotes byte }
{
    (byte == b',') | (byte == b'"') | (byte == b'\r') | (byte == b'\n')
}

// Whether each byte lies above the comma, the greatest that calls for quotes.
fn each_lies_above_commas(field: &[u8]) -> bool
    ensures { result ≡ true → csv_text.needs_quotes field.now ≡ false }
{
    let mut low = false;
    for byte in field {
        low |= *byte <= b',';
    }
    !low
}

// Whether each of eight bytes lies above the comma. They are tested at once.
#[inline]
fn eight_lie_above_commas(bytes: &[u8; 8]) -> bool
    ensures { result ≡ true → csv_text.needs_quotes bytes.now ≡ false }
{
    let mut low = false;
    for byte in bytes {
        low |= *byte <= b',';
    }
    !low
}

// Whether each byte lies above the comma. Most fields are told by this alone.
#[inline]
fn lies_above_commas(field: &[u8]) -> bool
    ensures { result ≡ true → csv_text.needs_quotes field.now ≡ false }
{
    match ends_of(field) {
        Some((first, last)) => eight_lie_above_commas(first) & eight_lie_above_commas(last),
        None => each_lies_above_commas(field),
    }
}

// Whether some byte calls for quotes. Each is tested, with no branch on what the others are.
fn has_special(field: &[u8]) -> bool
    ensures { result ≡ csv_text.needs_quotes field.now }
{
    let mut must = false;
    for byte in field {
        must |= is_special(*byte);
    }
    must
}

/// Whether a field holds a byte that calls for quotes around it.
#[inline]
pub fn must_be_quoted(field: &[u8]) -> bool
    ensures { result ≡ csv_text.needs_quotes field.now }
{
    !lies_above_commas(field) && has_special(field)
}
