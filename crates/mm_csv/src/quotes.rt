//! Fields between quotes, through a writer of the crate `csv`.

ghost use Rattle.std.specs.Prelude.{◌≡◌, ◌++◌, ◌∷◌, [], IfOk, OnOk};
ghost use Rattle.std.specs.Io.KnownBytes.{Appends};
ghost use Rattle.csv.specs.Writing.{writer_under};
ghost use Rattle.std.specs.List.{flat_map};
ghost use Rattle.plain_tables.specs.Csv.{doubled, quoted, record_text};
ghost use Rattle.mm_csv.specs.Records.{IsIdle, StandsInQuotes};

use crate::sink::ByteSink;
use csv::{Writer, WriterBuilder};
use plain_tables::NoMemory;
use std::alloc::Global;
use std::marker::Model;

// How many bytes a writer may hold that is used again.
const MOST_KEPT: usize = 16384;

// The library's writer failed. Its error doesn't tell whether a growth was refused.
#[derive(Clone, Copy)]
struct Failed;

// Lets a writer write the record of one field.
fn write_alone(writer: &mut Writer<Vec<u8>>, field: &[u8]) -> Result<(), Failed>
    requires { IsIdle writer.old }
    ensures idle { OnOk result (IsIdle writer.new) }
    ensures text { OnOk result ((writer_under writer.new).items ≡ (writer_under writer.old).items ++ record_text (field.now ∷ [])) }
{
    if let Err(_) = writer.write_fields(&[field]) {
        return Err(Failed);
    }
    match writer.flush() {
        Ok(()) => Ok(()),
        Err(_) => Err(Failed),
    }
}

// Puts the bytes of a field behind others, each quote mark twice.
fn push_doubled<W: ByteSink>(to: &mut W, field: &[u8]) -> Result<(), NoMemory>
    ensures { OnOk result (Appends (W.contents to.old) (W.contents to.new) (flat_map doubled field.now)) }
{
    for byte in field {
        if *byte == b'"' {
            to.push_bytes(b"\"\"")?;
        } else {
            to.push_bytes(&[*byte])?;
        }
    }
    Ok(())
}

// Puts a field between quotes behind others, without the library's writer.
#[cold]
fn push_quoted<W: ByteSink>(to: &mut W, field: &[u8]) -> Result<(), NoMemory>
    ensures { OnOk result (Appends (W.contents to.old) (W.contents to.new) (quoted field.now)) }
{
    to.push_bytes(b"\"")?;
    push_doubled(to, field)?;
    to.push_bytes(b"\"")
}

/// Writes fields between quotes. Its writer is made where the first of them needs it, and kept for the others: each makes
/// a record of its own there, and from that it is taken.
#[derive(Drop)]
pub struct Quotes {
    alloc: Global,
    kept: Option<Box<Writer<Vec<u8>>>>,
}

impl Model for Quotes {
    ghost use Rattle.std.specs.Prelude.{IfSome};
    ghost use Rattle.std.specs.Bool.{⊤};
    ghost use Rattle.mm_csv.specs.Records.{IsIdle};

    ghost Value = { ⊤ };

    ghost view = { λ _. tt };

    ghost invariant = { λ q. IfSome q.kept (λ b. IsIdle b.value) };
}

impl Quotes {
    /// One that has no writer yet.
    pub fn new(alloc: Global) -> Quotes {
        Quotes { alloc, kept: None }
    }

    // The writer that is kept, or a new one where there is none or it holds much.
    fn take(&mut self) -> Result<Box<Writer<Vec<u8>>>, NoMemory>
        ensures { IfOk result (λ writer. IsIdle writer.value) }
    {
        if let Some(writer) = self.kept.take() {
            if writer.get_ref().len() <= MOST_KEPT {
                return Ok(writer);
            }
        }
        let mut settings = WriterBuilder::new();
        let writer = settings.flexible(true).from_writer(Vec::new(self.alloc));
        Ok(Box::new(self.alloc, writer)?)
    }

    /// Writes a field between quotes: one that holds a byte that calls for them, or the empty one of a record. Where the library's
    /// writer fails, the field goes to its place byte by byte.
    #[cold]
    #[inline(never)]
    pub fn write<W: ByteSink>(&mut self, to: &mut W, field: &[u8]) -> Result<(), NoMemory>
        requires { StandsInQuotes field.now }
        ensures { OnOk result (Appends (W.contents to.old) (W.contents to.new) (quoted field.now)) }
    {
        let mut writer = self.take()?;
        let before = writer.get_ref().len();
        if write_alone(&mut writer, field).is_err() {
            return push_quoted(to, field);
        }
        let bytes = writer.get_ref().as_slice();
        to.push_bytes(&bytes[before..bytes.len() - 1])?;
        self.kept = Some(writer);
        Ok(())
    }
}
