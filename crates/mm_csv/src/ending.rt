//! Records without quotes, put together from their last byte to their first.

ghost use Rattle.std.specs.Prelude.{◌≡◌, ◌∷◌, ◌++◌, ◌+◌, ◌<◌, ◌≤◌, [], false, IsTrue, IfSome, drop, length, map};
ghost use Rattle.std.specs.Fmt.{decimal, signed_decimal};
ghost use Rattle.plain_tables.specs.Csv.{needs_quotes, row_record, value_field};

use crate::ends::copy_bytes;
use crate::plain::must_be_quoted;
use itoa::write_digits;
use plain_tables::{SeenValue, StoredValue};
use std::marker::Model;

// The most bytes of an ending.
const ROOM: usize = 256;

// The most bytes of an integer, with a comma before it.
const INTEGER_ROOM: usize = 21;

/// The end of a record: fields that stand without quotes, each behind a comma, and the line feed. It stands at the end of an
/// array, with room for more fields before it, so that the digits of an integer come from the last to the first, straight to
/// their places. Contracts see its bytes.
#[derive(Drop)]
pub struct Ending {
    bytes: [u8; ROOM],
    start: usize,
}

impl Model for Ending {
    ghost use Rattle.std.specs.Prelude.{List, ℕ, ◌≤◌, drop};

    ghost Value = { List ℕ };

    ghost view = { λ e. drop e.start e.bytes };

    ghost invariant = { λ e. e.start ≤ 256 };
}

impl Ending {
    /// No bytes yet.
    pub fn new() -> Ending
        ensures { result ≡ [] }
    {
        Ending {
            bytes: [0; ROOM],
            start: ROOM,
        }
    }

    // For how many bytes more there is room.
    #[inline]
    fn room(&self) -> usize
        ensures { result + length self.now ≡ 256 }
    {
        self.start
    }

    // Makes this the end of each record, its line feed.
    fn begin(&mut self)
        ensures { self.new ≡ 10 ∷ [] }
    {
        self.start = ROOM - 1;
        self.bytes[ROOM - 1] = b'\n';
    }

    // Puts a byte before the others.
    #[inline]
    fn put_byte(&mut self, byte: u8)
        requires { length self.old < 256 }
        ensures { self.new ≡ byte ∷ self.old }
    {
        self.start -= 1;
        self.bytes[self.start] = byte;
    }

    // Puts bytes before the others.
    #[inline]
    fn put_bytes(&mut self, bytes: &[u8])
        requires { length bytes.now + length self.old ≤ 256 }
        ensures { self.new ≡ bytes.now ++ self.old }
    {
        let start = self.start - bytes.len();
        copy_bytes(&mut self.bytes[start..self.start], bytes);
        self.start = start;
    }

    // Puts the digits of a number before the others.
    #[inline]
    fn put_digits(&mut self, n: u64)
        requires { length self.old + 20 ≤ 256 }
        ensures { self.new ≡ decimal n ++ self.old }
    {
        self.start = write_digits(n, &mut self.bytes, self.start);
    }

    // Puts an integer before the others, and a comma before it, if there is room.
    #[inline]
    fn put_integer(&mut self, z: i64) -> bool
        ensures put { IsTrue result → self.new ≡ 44 ∷ (signed_decimal z ++ self.old) }
        ensures plain { needs_quotes (signed_decimal z) ≡ false }
    {
        if self.room() < INTEGER_ROOM {
            return false;
        }
        self.put_digits(z.unsigned_abs());
        if z < 0 {
            self.put_byte(b'-');
        }
        self.put_byte(b',');
        true
    }

    // Puts a field before the others, and a comma before it, if it needs no quotes and there is room.
    #[inline]
    fn put_text(&mut self, field: &[u8]) -> bool
        ensures put { IsTrue result → self.new ≡ 44 ∷ (field.now ++ self.old) }
        ensures plain { IsTrue result → needs_quotes field.now ≡ false }
    {
        if self.room() <= field.len() || must_be_quoted(field) {
            return false;
        }
        self.put_bytes(field);
        self.put_byte(b',');
        true
    }

    // Puts the field of a value before the others, and a comma before it, if it needs no quotes and there is room. Links are
    // left to others: what is shown of a row holds none.
    #[inline]
    fn put_value(&mut self, value: &StoredValue) -> bool
        ensures put { IsTrue result → self.new ≡ 44 ∷ (value_field value.now ++ self.old) }
        ensures plain { IsTrue result → needs_quotes (value_field value.now) ≡ false }
    {
        match value.seen() {
            SeenValue::Null => self.put_text(b""),
            SeenValue::Int(z) => self.put_integer(z),
            SeenValue::Text(text) => self.put_text(text.as_bytes()),
            SeenValue::Link(_) => false,
        }
    }

    // The bytes behind the first.
    fn behind_first(&self) -> &[u8]
        requires { 0 < length self.now }
        ensures { result.now ≡ drop 1 self.now }
    {
        &self.bytes[self.start + 1..]
    }

    /// The record of values, if each of its fields stands without quotes and all have room here.
    pub fn record_of(&mut self, values: &[&StoredValue]) -> Option<&[u8]>
        requires { 0 < length values.now }
        ensures { IfSome result (λ text. text.now ≡ row_record (map (λ v. v.now) values.now)) }
    {
        self.begin();
        for place in (0..values.len()).rev() {
            if !self.put_value(values[place]) {
                return None;
            }
        }
        // One empty field, which is all of its record, stands between quotes.
        if self.room() + 2 >= ROOM {
            return None;
        }
        Some(self.behind_first())
    }
}
