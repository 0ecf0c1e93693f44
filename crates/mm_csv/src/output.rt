//! The fields of records, written straight to where they go.

ghost use Rattle.std.specs.Prelude.{◌≡◌, ◌<◌, Bool, ◌∷◌, [], false, IsTrue, IfOk, OnOk, length, map};
ghost use Rattle.std.specs.Fmt.{decimal, signed_decimal};
ghost use Rattle.std.specs.Io.KnownBytes.{Appends, Keeps};
ghost use Rattle.plain_tables.specs.Csv.{quoted, row_record, value_field};
ghost use Rattle.mm_csv.specs.Records.{AddsField, StandsInQuotes, comma};
ghost use Rattle.mm_csv.specs.FullNames.{full_name_text};

use crate::FullName;
use crate::ending::Ending;
use crate::plain::must_be_quoted;
use crate::quotes::Quotes;
use crate::sink::ByteSink;
use itoa::Buffer;
use plain_tables::{NoMemory, SeenValue, SoughtValue, StoredValue};
use std::alloc::Global;
use std::marker::Model;

// The integer that a link to row number 0 is seen as.
const FIRST_LINK: u64 = 1 << 63;

/// Where records go. Contracts see the bytes that it holds, where they are known.
#[derive(Drop)]
pub struct Output<W: ByteSink + Drop> {
    alloc: Global,
    to: W,
    quotes: Quotes,
    ending: Ending,
}

impl<W: ByteSink + Drop> Model for Output<W> {
    ghost use Rattle.std.specs.Prelude.{Option, List, ℕ};

    ghost Value = { Option (List ℕ) };

    ghost view = { λ o. W.contents o.to };
}

impl<W: ByteSink + Drop> Output<W> {
    /// What follows the bytes in `to`.
    pub fn new(alloc: Global, to: W) -> Output<W>
        ensures { Keeps (W.contents to) result }
    {
        Output {
            alloc,
            to,
            quotes: Quotes::new(alloc),
            ending: Ending::new(),
        }
    }

    /// What is written to.
    pub fn get_ref(&self) -> &W
        ensures { W.contents result.now ≡ self.now }
    {
        &self.to
    }

    /// Gives back what was written to.
    pub fn into_inner(self) -> W
        ensures { Keeps self (W.contents result) }
    {
        let Output { to, .. } = self;
        to
    }

    #[inline]
    fn put(&mut self, bytes: &[u8]) -> Result<(), NoMemory>
        ensures { OnOk result (Appends self.old self.new bytes.now) }
    {
        self.to.push_bytes(bytes)
    }

    // What stands before the field at this place of its record.
    #[inline]
    fn put_comma(&mut self, place: usize) -> Result<(), NoMemory>
        ensures { OnOk result (Appends self.old self.new (comma place)) }
    {
        if place > 0 {
            return self.put(b",");
        }
        Ok(())
    }

    fn put_quoted(&mut self, field: &[u8]) -> Result<(), NoMemory>
        requires { StandsInQuotes field.now }
        ensures { OnOk result (Appends self.old self.new (quoted field.now)) }
    {
        self.quotes.write(&mut self.to, field)
    }

    /// The field at a place of its record, where it may be alone.
    #[inline]
    pub fn put_field(&mut self, place: usize, alone: bool, field: &[u8]) -> Result<(), NoMemory>
        ensures { OnOk result (AddsField alone place self.old self.new field.now) }
    {
        self.put_comma(place)?;
        if must_be_quoted(field) || (alone && field.is_empty()) {
            return self.put_quoted(field);
        }
        self.put(field)
    }

    #[inline]
    fn put_integer(&mut self, place: usize, z: i64) -> Result<(), NoMemory>
        ensures { (alone : Bool) → OnOk result (AddsField alone place self.old self.new (signed_decimal z)) }
    {
        self.put_comma(place)?;
        self.put(Buffer::new().format(z).as_bytes())
    }

    #[cold]
    fn put_large(&mut self, place: usize, n: u64) -> Result<(), NoMemory>
        ensures { (alone : Bool) → OnOk result (AddsField alone place self.old self.new (decimal n)) }
    {
        self.put_comma(place)?;
        self.put(Buffer::new().format(n).as_bytes())
    }

    /// The field of a value, of a command or of a row.
    #[inline]
    pub fn put_value(
        &mut self,
        place: usize,
        alone: bool,
        value: &SoughtValue<'_>,
    ) -> Result<(), NoMemory>
        ensures { OnOk result (AddsField alone place self.old self.new (value_field value.now)) }
    {
        match value.seen() {
            SeenValue::Null => self.put_field(place, alone, b""),
            SeenValue::Int(z) => self.put_integer(place, z),
            SeenValue::Text(text) => self.put_field(place, alone, text.as_bytes()),
            SeenValue::Link(number) => self.put_large(place, FIRST_LINK + u64::from(number)),
        }
    }

    // A full name of which a part must be quoted.
    #[cold]
    fn put_name_quoted(&mut self, name: &FullName) -> Result<(), NoMemory>
        requires { StandsInQuotes (full_name_text name.now) }
        ensures { OnOk result (Appends self.old self.new (quoted (full_name_text name.now))) }
    {
        let mut text = Vec::new(self.alloc);
        text.extend_from_slice(name.table.as_bytes())?;
        text.push(b'.')?;
        text.extend_from_slice(name.column.as_bytes())?;
        self.put_quoted(&text)
    }

    /// The field of a full name.
    pub fn put_full_name(&mut self, place: usize, name: &FullName) -> Result<(), NoMemory>
        ensures { (alone : Bool) → OnOk result (AddsField alone place self.old self.new (full_name_text name.now)) }
    {
        self.put_comma(place)?;
        if must_be_quoted(name.table.as_bytes()) || must_be_quoted(name.column.as_bytes()) {
            return self.put_name_quoted(name);
        }
        self.put(name.table.as_bytes())?;
        self.put(b".")?;
        self.put(name.column.as_bytes())
    }

    /// The record of values, if it is short and needs no quotes: made as a whole, so that room is made for it once. Else nothing
    /// is written, and the answer is no.
    pub fn put_short(&mut self, values: &[&StoredValue]) -> Result<bool, NoMemory>
        requires { 0 < length values.now }
        ensures written { IfOk result (λ is. IsTrue is → Appends self.old self.new (row_record (map (λ v. v.now) values.now))) }
        ensures unchanged { IfOk result (λ is. is ≡ false → self.new ≡ self.old) }
    {
        let Some(record) = self.ending.record_of(values) else {
            return Ok(false);
        };
        self.to.push_bytes(record)?;
        Ok(true)
    }

    /// The end of a record.
    #[inline]
    pub fn put_end(&mut self) -> Result<(), NoMemory>
        ensures { OnOk result (Appends self.old self.new (10 ∷ [])) }
    {
        self.put(b"\n")
    }
}
