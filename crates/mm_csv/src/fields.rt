//! Records, field by field.

ghost use Rattle.std.specs.Prelude.{◌<◌, length, map, OnOk};
ghost use Rattle.std.specs.Io.KnownBytes.{Appends};
ghost use Rattle.plain_tables.specs.Csv.{record_text, row_record};
ghost use Rattle.mm_csv.specs.FullNames.{full_name_text};

use crate::FullName;
use crate::output::Output;
use crate::sink::ByteSink;
use plain_tables::{NoMemory, StoredValue, Text, Value};

/// A row as a record. After an error a part of it may have been written.
pub fn write_row<W: ByteSink + Drop>(output: &mut Output<W>, row: &[Value]) -> Result<(), NoMemory>
    requires { 0 < length row.now }
    ensures { OnOk result (Appends output.old output.new (row_record row.now)) }
{
    let alone = row.len() == 1;
    for (place, value) in row.iter().enumerate() {
        output.put_value(place, alone, &value.sought())?;
    }
    output.put_end()
}

// Values of rows as a record, field by field. After an error a part of it may have been written.
fn write_each<W: ByteSink + Drop>(
    output: &mut Output<W>,
    values: &[&StoredValue],
) -> Result<(), NoMemory>
    requires { 0 < length values.now }
    ensures { OnOk result (Appends output.old output.new (row_record (map (λ v. v.now) values.now))) }
{
    let alone = values.len() == 1;
    for (place, value) in values.iter().enumerate() {
        output.put_value(place, alone, &value.sought())?;
    }
    output.put_end()
}

/// Values of rows, which are lent one by one, as a record. After an error a part of it may have been written.
pub fn write_values<W: ByteSink + Drop>(
    output: &mut Output<W>,
    values: &[&StoredValue],
) -> Result<(), NoMemory>
    requires { 0 < length values.now }
    ensures { OnOk result (Appends output.old output.new (row_record (map (λ v. v.now) values.now))) }
{
    if output.put_short(values)? {
        return Ok(());
    }
    write_each(output, values)
}

/// Names as a record. After an error a part of it may have been written.
pub fn write_names<W: ByteSink + Drop>(
    output: &mut Output<W>,
    names: &[Text],
) -> Result<(), NoMemory>
    requires { 0 < length names.now }
    ensures { OnOk result (Appends output.old output.new (record_text names.now)) }
{
    let alone = names.len() == 1;
    for (place, name) in names.iter().enumerate() {
        output.put_field(place, alone, name.as_bytes())?;
    }
    output.put_end()
}

/// Full names as a record. After an error a part of it may have been written.
pub fn write_full_names<W: ByteSink + Drop>(
    output: &mut Output<W>,
    names: &[FullName],
) -> Result<(), NoMemory>
    requires { 0 < length names.now }
    ensures { OnOk result (Appends output.old output.new (record_text (map full_name_text names.now))) }
{
    for (place, full_name) in names.iter().enumerate() {
        output.put_full_name(place, full_name)?;
    }
    output.put_end()
}
