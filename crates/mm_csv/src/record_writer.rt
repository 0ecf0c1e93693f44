//! A writer of records that takes values by reference.

ghost use Rattle.std.specs.Prelude.{◌≡◌, ◌<◌, true, false, length, map, IfOk, OnOk, OnErr};
ghost use Rattle.std.specs.Io.KnownBytes.{Appends, Keeps};
ghost use Rattle.plain_tables.specs.Csv.{record_text, row_record};
ghost use Rattle.mm_csv.specs.FullNames.{full_name_text};

use crate::FullName;
use crate::fields::{write_full_names, write_names, write_row, write_values};
use crate::output::Output;
use crate::sink::ByteSink;
use plain_tables::{NoMemory, StoredValue, Text, Value};
use std::alloc::Global;
use std::marker::Model;

/// Writes records to `W`.
///
/// Contracts see what `W` holds, and whether a call has failed. A call that fails may leave a part of its record behind,
/// and every later one fails by the growth that was refused to it.
#[derive(Drop)]
pub struct RecordWriter<W: ByteSink + Drop> {
    output: Output<W>,
    refused: Option<NoMemory>,
}

impl<W: ByteSink + Drop> Model for RecordWriter<W> {
    ghost use Rattle.std.specs.Prelude.{true, false};
    ghost use Rattle.std.specs.Option.{option_map_or};
    ghost use Rattle.mm_csv.specs.Records.{Written};

    ghost Value = { Written };

    ghost view = { λ r. record { failed = option_map_or (λ _. true) r.refused false; bytes = r.output } };
}

impl<W: ByteSink + Drop> RecordWriter<W> {
    /// A writer of what follows the bytes in `to`. It needs memory for fields between quotes alone.
    pub fn new(alloc: Global, to: W) -> RecordWriter<W>
        ensures fresh { result.failed ≡ false }
        ensures bytes { Keeps (W.contents to) result.bytes }
    {
        RecordWriter {
            output: Output::new(alloc, to),
            refused: None,
        }
    }

    // Fails where an earlier call has.
    fn check(&self) -> Result<(), NoMemory>
        ensures goes { OnOk result (self.now.failed ≡ false) }
        ensures failed { OnErr result (self.now.failed ≡ true) }
    {
        match self.refused {
            None => Ok(()),
            Some(refused) => Err(refused),
        }
    }

    // Keeps the growth that was refused to a call, where one was.
    fn note(&mut self, written: Result<(), NoMemory>) -> Result<(), NoMemory>
        requires { self.old.failed ≡ false }
        ensures same { result ≡ written }
        ensures bytes { self.new.bytes ≡ self.old.bytes }
        ensures goes { OnOk result (self.new.failed ≡ false) }
        ensures failed { OnErr result (self.new.failed ≡ true) }
    {
        match written {
            Ok(()) => Ok(()),
            Err(refused) => {
                self.refused = Some(refused);
                Err(refused)
            }
        }
    }

    // A row as a record.
    pub(crate) fn push_record(&mut self, row: &[Value]) -> Result<(), NoMemory>
        requires { 0 < length row.now }
        ensures bytes { OnOk result (Appends self.old.bytes self.new.bytes (row_record row.now)) }
        ensures goes { OnOk result ((self.old.failed ≡ false) × (self.new.failed ≡ false)) }
        ensures failed { OnErr result (self.new.failed ≡ true) }
    {
        self.check()?;
        let written = write_row(&mut self.output, row);
        self.note(written)
    }

    /// Values of rows, which are lent one by one, as a record.
    pub fn push_values(&mut self, values: &[&StoredValue]) -> Result<(), NoMemory>
        requires { 0 < length values.now }
        ensures bytes { OnOk result (Appends self.old.bytes self.new.bytes (row_record (map (λ v. v.now) values.now))) }
        ensures goes { OnOk result ((self.old.failed ≡ false) × (self.new.failed ≡ false)) }
        ensures failed { OnErr result (self.new.failed ≡ true) }
    {
        self.check()?;
        let written = write_values(&mut self.output, values);
        self.note(written)
    }

    /// Names as a record.
    pub fn push_names(&mut self, names: &[Text]) -> Result<(), NoMemory>
        requires { 0 < length names.now }
        ensures bytes { OnOk result (Appends self.old.bytes self.new.bytes (record_text names.now)) }
        ensures goes { OnOk result ((self.old.failed ≡ false) × (self.new.failed ≡ false)) }
        ensures failed { OnErr result (self.new.failed ≡ true) }
    {
        self.check()?;
        let written = write_names(&mut self.output, names);
        self.note(written)
    }

    /// Full names as a record.
    pub fn push_full_names(&mut self, names: &[FullName]) -> Result<(), NoMemory>
        requires { 0 < length names.now }
        ensures bytes { OnOk result (Appends self.old.bytes self.new.bytes (record_text (map full_name_text names.now))) }
        ensures goes { OnOk result ((self.old.failed ≡ false) × (self.new.failed ≡ false)) }
        ensures failed { OnErr result (self.new.failed ≡ true) }
    {
        self.check()?;
        let written = write_full_names(&mut self.output, names);
        self.note(written)
    }

    /// What is written to, with the bytes so far.
    pub fn get_ref(&self) -> &W
        ensures { W.contents result.now ≡ self.now.bytes }
    {
        self.output.get_ref()
    }

    /// Gives back what was written to, once it has every byte.
    pub fn finish(self) -> Result<W, NoMemory>
        ensures bytes { IfOk result (λ to. Keeps self.bytes (W.contents to)) }
        ensures goes { OnOk result (self.failed ≡ false) }
    {
        self.check()?;
        let RecordWriter { output, .. } = self;
        Ok(output.into_inner())
    }
}
