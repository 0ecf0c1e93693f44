//! A value on the heap, in memory that was found before it.
//!
//! ```text
//!  Lodging::new ──▶ Lodging ──put──▶ Lodged ──take──▶ the value
//! ```
ghost use Rattle.std.specs.Prelude.{◌≡◌, IsSome};

use no_memory::NoMemory;
use std::alloc::Global;
use std::marker::Model;

/// Memory for a value.
#[derive(Drop)]
pub struct Lodging<T> {
    cell: Box<Option<T>>,
}

/// A value in such memory.
#[derive(Drop)]
pub struct Lodged<T> {
    cell: Box<Option<T>>,
    ghost full: { IsSome cell.value },
}

impl<T> Model for Lodged<T> {
    ghost use Rattle.mm_transactions.specs.Lodged.{the_some};

    ghost Value = { T };

    ghost coded = { T.code };

    ghost view = { λ l. the_some l.cell.value l.full };
}

impl<T: Drop> Lodging<T> {
    /// Takes memory for a value.
    pub fn new(alloc: Global) -> Result<Lodging<T>, NoMemory> {
        Ok(Lodging {
            cell: Box::new(alloc, None)?,
        })
    }

    /// Puts the value there. It takes no memory.
    pub fn put(self, value: T) -> Lodged<T>
        ensures { result ≡ value }
    {
        let mut cell = self.cell;
        *cell = Some(value);
        Lodged { cell }
    }
}

impl<T: Drop> Lodged<T> {
    /// Takes the value out, and gives the memory back.
    pub fn take(self) -> T
        ensures { result ≡ self }
    {
        let Some(value) = Box::into_inner(self.cell) else {
            unreachable!();
        };
        value
    }
}
