//! Cells, and the values that they are.
ghost use Rattle.std.specs.Prelude.{◌≡◌, ◌++◌, ◌∷◌, ◌+◌, ◌<◌, ◌↔◌, [], None, length, map, IsErrOf, OnOk, OnErr};
ghost use Rattle.plain_tables.specs.Stored.{link_number};
ghost use Rattle.plain_tables.specs.declared.value.Value.TheVariants as value;
ghost use Rattle.std.specs.List.{All};
ghost use Rattle.mm_cells.specs.Reading.{IsReadable, IsTooLong, cell_value, texts_of};

use crate::fault::CellFault;
use no_memory::NoMemory;
use plain_tables::{SeenValue, StoredValue, Value};
use std::alloc::Global;
use std::mem::size_of;

/// The kind of a cell that is null.
pub const NULL: u16 = 0;

/// The kind of a cell that is an integer.
pub const INTEGER: u16 = 1;

/// The kind of a cell that is a text.
pub const TEXT: u16 = 2;

/// A null; an integer; or a text, by its place and its length among the bytes of the texts.
#[repr(C)]
#[derive(Clone, Copy)]
pub struct ResultCell {
    pub integer: i64,
    pub at: u32,
    pub length: u16,
    pub kind: u16,
}

const _: () = prove!(size_of::<ResultCell>() == 16);

// Appends a full name, a table's and a column's with a dot between them, to the bytes of texts: all of it, or nothing.
fn append_name(texts: &mut Vec<u8>, table: &str, column: &str) -> Result<(), NoMemory>
    ensures appended { OnOk result (texts.new.items ≡ texts.old.items ++ (table.now ++ 46 ∷ column.now)) }
    ensures unchanged { OnErr result (texts.new.items ≡ texts.old.items) }
{
    texts.reserve(table.len() + 1 + column.len())?;
    texts.extend_from_slice(table.as_bytes())?;
    texts.push(b'.')?;
    texts.extend_from_slice(column.as_bytes())?;
    Ok(())
}

/// Values as cells, and the bytes of their texts, which a program reads where they lie. Contracts see both, and so their addresses.
#[derive(Drop)]
pub struct Cells {
    pub cells: Vec<ResultCell>,
    pub texts: Vec<u8>,
    ghost readable: { All (IsReadable texts.items) cells.items },
    ghost in_turn: { texts_of (map (cell_value texts.items) cells.items) ≡ texts.items },
}

impl Cells {
    ghost use Rattle.mm_cells.specs.Values.{values_of};

    /// No values. It takes no memory.
    pub fn new(alloc: Global) -> Cells
        ensures { values_of result ≡ [] }
    {
        Cells {
            cells: Vec::new(alloc),
            texts: Vec::new(alloc),
        }
    }

    /// How many values there are.
    pub fn len(&self) -> usize
        ensures { result ≡ length (values_of self.now) }
    {
        self.cells.len()
    }

    // Puts a cell that is no text behind the others.
    fn put(&mut self, cell: ResultCell) -> Result<(), NoMemory>
        requires no_text { cell.kind < 2 }
        requires nowhere { cell.at + cell.length ≡ 0 }
        ensures pushed { OnOk result (values_of self.new ≡ values_of self.old ++ cell_value [] cell ∷ []) }
        ensures unchanged { OnErr result (values_of self.new ≡ values_of self.old) }
    {
        self.cells.push(cell)?;
        Ok(())
    }

    /// Puts a null behind the others. Where that finds no memory, it is not put there.
    pub fn push_null(&mut self) -> Result<(), NoMemory>
        ensures pushed { OnOk result (values_of self.new ≡ values_of self.old ++ value.Null ∷ []) }
        ensures unchanged { OnErr result (values_of self.new ≡ values_of self.old) }
    {
        self.put(ResultCell {
            integer: 0,
            at: 0,
            length: 0,
            kind: NULL,
        })
    }

    /// Puts an integer behind the others. Where that finds no memory, it is not put there.
    pub fn push_integer(&mut self, integer: i64) -> Result<(), NoMemory>
        ensures pushed { OnOk result (values_of self.new ≡ values_of self.old ++ value.Int integer ∷ []) }
        ensures unchanged { OnErr result (values_of self.new ≡ values_of self.old) }
    {
        self.put(ResultCell {
            integer,
            at: 0,
            length: 0,
            kind: INTEGER,
        })
    }

    /// Puts a text behind the others. At an error it is not put there: `TooLong` if the text has more than 65,535 bytes, or the texts
    /// before it have 4 GiB or more.
    #[inline(never)]
    pub fn push_text(&mut self, text: &str) -> Result<(), CellFault>
        ensures pushed { OnOk result (values_of self.new ≡ values_of self.old ++ value.Text text.now ∷ []) }
        ensures too_long { IsErrOf result CellFault.TooLong ↔ IsTooLong (values_of self.old) (value.Text text.now) }
        ensures unchanged { OnErr result (values_of self.new ≡ values_of self.old) }
    {
        let Ok(at) = u32::try_from(self.texts.len()) else {
            return Err(CellFault::TooLong);
        };
        let Ok(length) = u16::try_from(text.len()) else {
            return Err(CellFault::TooLong);
        };
        self.cells.reserve(1)?;
        self.texts.extend_from_slice(text.as_bytes())?;
        self.cells.push_reserved(ResultCell {
            integer: 0,
            at,
            length,
            kind: TEXT,
        });
        Ok(())
    }

    /// Appends a full name as a text: a table's name, a dot and a column's. It fails as `push_text` does, and then appends nothing.
    pub fn push_name(&mut self, table: &str, column: &str) -> Result<(), CellFault>
        ensures pushed { OnOk result (values_of self.new ≡ values_of self.old ++ value.Text (table.now ++ 46 ∷ column.now) ∷ []) }
        ensures too_long { IsErrOf result CellFault.TooLong ↔ IsTooLong (values_of self.old) (value.Text (table.now ++ 46 ∷ column.now)) }
        ensures unchanged { OnErr result (values_of self.new ≡ values_of self.old) }
    {
        let Ok(at) = u32::try_from(self.texts.len()) else {
            return Err(CellFault::TooLong);
        };
        let Ok(length) = u16::try_from(table.len() + 1 + column.len()) else {
            return Err(CellFault::TooLong);
        };
        self.cells.reserve(1)?;
        append_name(&mut self.texts, table, column)?;
        self.cells.push(ResultCell {
            integer: 0,
            at,
            length,
            kind: TEXT,
        })?;
        Ok(())
    }

    /// Puts a value of a command behind the others. At an error it is not put there; `TooLong` comes as from `push_text`.
    pub fn push_value(&mut self, value: &Value) -> Result<(), CellFault>
        ensures pushed { OnOk result (values_of self.new ≡ values_of self.old ++ value.now ∷ []) }
        ensures too_long { IsErrOf result CellFault.TooLong ↔ IsTooLong (values_of self.old) value.now }
        ensures unchanged { OnErr result (values_of self.new ≡ values_of self.old) }
    {
        match value {
            Value::Null => Ok(self.push_null()?),
            Value::Int(integer) => Ok(self.push_integer(*integer)?),
            Value::Text(text) => self.push_text(text.as_str()),
        }
    }

    /// Puts a stored value behind the others. At an error it is not put there; `TooLong` comes as from `push_text`.
    #[inline(always)]
    pub fn push(&mut self, value: &StoredValue) -> Result<(), CellFault>
        requires { link_number value.now ≡ None }
        ensures pushed { OnOk result (values_of self.new ≡ values_of self.old ++ value.now ∷ []) }
        ensures too_long { IsErrOf result CellFault.TooLong ↔ IsTooLong (values_of self.old) value.now }
        ensures unchanged { OnErr result (values_of self.new ≡ values_of self.old) }
    {
        match value.seen() {
            SeenValue::Null => Ok(self.push_null()?),
            SeenValue::Int(integer) => Ok(self.push_integer(integer)?),
            SeenValue::Text(text) => self.push_text(text),
            SeenValue::Link(_) => unreachable!(),
        }
    }

    /// Lets the values go, and keeps their room.
    pub fn clear(&mut self)
        ensures { values_of self.new ≡ [] }
    {
        self.cells.clear();
        self.texts.clear();
    }
}
