//! What a row has in a column, as its store keeps it.
ghost use Rattle.std.specs.Prelude.{◌≡◌, IfOk};
ghost use Rattle.plain_tables.specs.declared.value.Value.{Value};
ghost use Rattle.mm_relation.specs.Cells.{cell_seen};
ghost use Rattle.mm_relation.specs.Reading.{link_of};
ghost use Rattle.mm_relation.specs.declared.row.Cell.TheVariants.{Held, Link};

use no_memory::NoMemory;
use part_raw::TupleRef;
use plain_tables::{StoredValue, Value};
use std::alloc::Global;
use std::marker::Model;
use std::mem;
use std::mem::size_of;

/// A cell as a row keeps it, in 16 bytes: one value, which is a link where the cell is one. Contracts see the cell.
#[derive(Drop)]
pub struct StoredCell {
    value: StoredValue,
}

const _: () = prove!(size_of::<StoredCell>() == 16);

impl Model for StoredCell {
    ghost use Rattle.mm_relation.specs.declared.row.Cell.{Cell as RowCell};
    ghost use Rattle.mm_relation.specs.contracts.row.Cell.{the_row as cell_row};

    ghost Value = { RowCell };

    ghost coded = { cell_row.coded };

    ghost use Rattle.mm_relation.specs.Cells.{cell_kept};

    ghost view = { λ c. cell_kept c.value };
}

// What a cell holds, lent to be matched on.
#[derive(Clone, Copy)]
pub enum SeenCell<'a> {
    Held(&'a StoredValue),
    Link { to: TupleRef },
}

impl StoredCell {
    /// The cell of a value of the row's own. The value is moved, and takes no memory.
    pub fn held(value: Value) -> StoredCell
        ensures { result ≡ Held value }
    {
        StoredCell {
            value: StoredValue::pack(value),
        }
    }

    /// The cell that names a row.
    pub fn link(to: TupleRef) -> StoredCell
        ensures { result ≡ Link to }
    {
        StoredCell {
            value: StoredValue::link(to.number),
        }
    }

    /// The row that it names. None where it holds a value of the row's own.
    pub fn named(&self) -> Option<TupleRef>
        ensures { result ≡ link_of self.now }
    {
        let number = self.value.link_number()?;
        Some(TupleRef { number })
    }

    // A copy. One of a text of at most 14 bytes takes no memory, nor does one of a link.
    pub(crate) fn copied(&self, alloc: Global) -> Result<StoredCell, NoMemory>
        ensures { IfOk result (λ copy. copy ≡ self.now) }
    {
        Ok(StoredCell {
            value: self.value.try_clone(alloc)?,
        })
    }

    // Moves a value of the row's own out, and leaves null. A link stays there too.
    pub(crate) fn take(&mut self) -> StoredCell
        ensures taken { result ≡ self.old }
        ensures link { link_of self.new ≡ link_of self.old }
    {
        match self.named() {
            Some(to) => StoredCell::link(to),
            None => mem::replace(self, StoredCell::held(Value::Null)),
        }
    }

    // The value of the row's own that it holds, where it is known to be no link.
    #[inline]
    pub(crate) fn own(&self) -> &StoredValue
        requires { (value : Value) × (self.now ≡ Held value) }
        ensures { Held result.now ≡ self.now }
    {
        &self.value
    }

    // What it holds, to match on.
    pub(crate) fn seen(&self) -> SeenCell<'_>
        ensures { cell_seen result ≡ self.now }
    {
        match self.value.link_number() {
            Some(number) => SeenCell::Link {
                to: TupleRef { number },
            },
            None => SeenCell::Held(&self.value),
        }
    }
}
