//! Where the rows go that a select shows: into an answer, as records, or into cells. What takes them says whether the select goes on.

ghost use Rattle.std.specs.Prelude.{◌≡◌, ◌++◌, ◌∷◌, [], Some, IfErr, IfOk, OnOk};
ghost use Rattle.std.specs.Io.KnownBytes.{Keeps};
ghost use Rattle.no_memory.specs.declared.NoMemory.{NoMemory as PlainNoMemory};
ghost use Rattle.plain_tables.specs.ResolvedLaws.{IsStorable};
ghost use Rattle.mm_session.specs.Sinks.{PutsValues, EndsRow};

use crate::answer::Answer;
use crate::fault::SelectFault;
use mm_cells::{CellFault, Cells};
use mm_csv::RecordWriter;
use mm_interrupts::{Interrupts, Progress};
use no_memory::NoMemory;
use plain_tables::StoredValue;
use std::alloc::Global;
use std::marker::Model;

/// What takes the rows of a select, value by value, from where they lie. A value isn't taken where a growth was refused, or where
/// something else keeps it out.
pub trait RowSink<'a>: Progress {
    ghost use Rattle.std.specs.Prelude.{List};
    ghost use Rattle.plain_tables.specs.Tables.{Row};

    // Since a state, these rows were received, and these values of one that has not ended.
    ghost received: { Self → List Row → Row → Self → Type 0 };

    // The sink, as it is, may be why it takes no more for this reason.
    ghost declines: { Self → Self.Fault → Type 0 };

    /// Puts a value behind those of its row.
    fn push_value(&mut self, value: &'a StoredValue) -> Result<(), Self::Fault>
        requires { IsStorable value.now }
        ensures taken { OnOk result (PutsValues received self.old self.new (value.now ∷ [])) }
        ensures declined { IfErr result (declines self.new) };

    /// Ends a row, which has a value.
    fn end_row(&mut self) -> Result<(), Self::Fault>
        ensures ended { OnOk result (EndsRow received self.old self.new) }
        ensures declined { IfErr result (declines self.new) };

    // A growth that was refused is a reason at any time.
    ghost by_memory: { (sink : Self) (refused : PlainNoMemory) (why : Self.Fault) → Self.Fault.from_gives refused why → declines sink why };

    // So is what ends the select.
    ghost by_end: { (sink : Self) (why : Self.Fault) → Self.ends sink why → declines sink why };
}

impl<'a> RowSink<'a> for Cells {
    ghost use Rattle.std.proofs.Common.{rules};
    ghost use Rattle.std.specs.List.{flat_map};
    ghost use Rattle.mm_cells.specs.Reading.{AreFull};
    ghost use Rattle.mm_cells.specs.Values.{values_of};
    ghost use Rattle.mm_cells.specs.declared.fault.CellFault.TheVariants as fault;

    ghost received = { λ start rows part now. values_of now ≡ values_of start ++ (flat_map (λ row. row) rows ++ part) };

    ghost declines = { λ now why. why ≡ fault.TooLong → AreFull (values_of now) };

    ghost by_memory = { Prim.search rules };

    ghost by_end = { λ sink why other is. absurd (other is) };

    #[inline(always)]
    fn push_value(&mut self, value: &'a StoredValue) -> Result<(), CellFault> {
        self.push(value)
    }

    #[inline(always)]
    fn end_row(&mut self) -> Result<(), CellFault> {
        Ok(())
    }
}

/// Cells that take the rows of a select until it is asked to end.
#[derive(Drop)]
pub struct ShownCells<'i> {
    pub cells: Cells,
    pub interrupts: Interrupts<'i>,
}

impl<'i> Progress for ShownCells<'i> {
    ghost use Rattle.std.proofs.Common.{rules};
    ghost use Rattle.std.specs.Prelude.{◌≢◌};
    ghost use Rattle.mm_session.specs.declared.fault.SelectFault.TheVariants as fault;

    type Fault = SelectFault;

    ghost ends = { λ now why. why ≢ fault.TooLong };

    ghost out_of_memory = { Prim.search rules };

    #[inline(always)]
    fn go_on(&self) -> Result<(), SelectFault> {
        Ok(self.interrupts.check()?)
    }
}

impl<'a, 'i> RowSink<'a> for ShownCells<'i> {
    ghost use Rattle.std.proofs.Common.{rules};
    ghost use Rattle.std.specs.List.{flat_map};
    ghost use Rattle.mm_cells.specs.Reading.{AreFull};
    ghost use Rattle.mm_cells.specs.Values.{values_of};
    ghost use Rattle.mm_session.specs.declared.fault.SelectFault.TheVariants as fault;

    ghost received = { λ start rows part now. values_of now.cells ≡ values_of start.cells ++ (flat_map (λ row. row) rows ++ part) };

    ghost declines = { λ now why. why ≡ fault.TooLong → AreFull (values_of now.cells) };

    ghost by_memory = { Prim.search rules };

    ghost by_end = { λ sink why other is. absurd (other is) };

    #[inline(always)]
    fn push_value(&mut self, value: &'a StoredValue) -> Result<(), SelectFault> {
        Ok(self.cells.push(value)?)
    }

    #[inline(always)]
    fn end_row(&mut self) -> Result<(), SelectFault> {
        Ok(())
    }
}

/// Rows as records, behind those that a writer has. The values of a row wait until it ends. Contracts see the bytes, these values,
/// and how many rows there are: no more than bytes, so they can be counted.
#[derive(Drop)]
pub struct Records<'a> {
    writer: RecordWriter<Answer>,
    values: Vec<&'a StoredValue>,
    count: usize,
}

impl<'a> Model for Records<'a> {
    ghost use Rattle.std.specs.Prelude.{◌≡◌, ◌≤◌, false, length, map, IfSome};
    ghost use Rattle.mm_session.specs.Sinks.{Written};

    ghost Value = { Written };

    ghost view = { λ r. record { bytes = r.writer.bytes; part = map (λ v. v.now) r.values.items; count = r.count } };

    ghost invariant = { λ r. r.writer.failed ≡ false → IfSome r.writer.bytes (λ bytes. r.count ≤ length bytes) };
}

impl<'a> Records<'a> {
    /// No rows yet, behind what a writer has. They are so wide.
    pub fn new(
        alloc: Global,
        writer: RecordWriter<Answer>,
        width: usize,
    ) -> Result<Records<'a>, NoMemory>
        ensures { IfOk result (λ made. made ≡ record { bytes = writer.bytes; part = []; count = 0 }) }
    {
        let values = Vec::with_capacity(alloc, width)?;
        Ok(Records {
            writer,
            values,
            count: 0,
        })
    }

    /// What is written to, with the bytes so far.
    pub fn written(&self) -> &Answer
        ensures { Some result.now ≡ self.now.bytes }
    {
        self.writer.get_ref()
    }

    /// Gives back what was written to, and tells how many rows were.
    pub fn finish(self) -> Result<(Answer, usize), NoMemory>
        ensures { IfOk result (λ made. Keeps self.entry.bytes (Some made.0) × (made.1 ≡ self.entry.count)) }
    {
        let count = self.count;
        let Records { writer, .. } = self;
        let whole = writer.finish()?;
        Ok((whole, count))
    }
}

impl<'a> Progress for Records<'a> {
    type Fault = NoMemory;

    ghost ends = { λ now why. Unit {0} };

    ghost out_of_memory = { λ search refused why gives. tt };

    #[inline(always)]
    fn go_on(&self) -> Result<(), NoMemory> {
        Ok(())
    }
}

impl<'a> RowSink<'a> for Records<'a> {
    ghost use Rattle.mm_session.specs.Sinks.{IsBehind};

    ghost received = { IsBehind };

    ghost declines = { λ now why. Unit {0} };

    ghost by_memory = { λ sink refused why gives. tt };

    ghost by_end = { λ sink why ends. tt };

    #[inline]
    fn push_value(&mut self, value: &'a StoredValue) -> Result<(), NoMemory> {
        self.values.push(value)?;
        Ok(())
    }

    #[inline]
    fn end_row(&mut self) -> Result<(), NoMemory> {
        if self.values.is_empty() {
            return Ok(());
        }
        let before = self.writer.get_ref().len();
        self.writer.push_values(&self.values)?;
        let after = self.writer.get_ref().len();
        // Each record has a byte.
        prove!(self.count <= before);
        prove!(before < after);
        self.values.clear();
        self.count += 1;
        Ok(())
    }
}
