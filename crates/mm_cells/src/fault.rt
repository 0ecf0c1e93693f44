//! Why a value is not put among cells.

use no_memory::NoMemory;
use std::alloc::{AllocError, AllocFailed};

/// Why a value is not put among cells. They are unchanged.
#[derive(Clone, Copy)]
pub enum CellFault {
    /// A growth was refused.
    NoMemory(NoMemory),
    /// The text has more than 65,535 bytes, or the texts before it have 4 GiB or more: a cell has no number for it.
    TooLong,
}

impl From<NoMemory> for CellFault {
    ghost use Rattle.std.specs.Prelude.{◌≡◌};
    ghost use Rattle.mm_cells.specs.declared.fault.CellFault.TheVariants as fault;

    ghost from_gives = { λ refused e. e ≡ fault.NoMemory refused };

    fn from(refused: NoMemory) -> CellFault {
        CellFault::NoMemory(refused)
    }
}

impl From<AllocError> for CellFault {
    ghost use Rattle.std.specs.Prelude.{◌≢◌};
    ghost use Rattle.mm_cells.specs.declared.fault.CellFault.TheVariants as fault;

    ghost from_gives = { λ _ e. e ≢ fault.TooLong };

    fn from(refused: AllocError) -> CellFault {
        CellFault::NoMemory(NoMemory::from(refused))
    }
}

impl<T: Drop> From<AllocFailed<T>> for CellFault {
    ghost use Rattle.std.specs.Prelude.{◌≢◌};
    ghost use Rattle.mm_cells.specs.declared.fault.CellFault.TheVariants as fault;

    ghost from_gives = { λ _ e. e ≢ fault.TooLong };

    fn from(refused: AllocFailed<T>) -> CellFault {
        CellFault::NoMemory(NoMemory::from(refused))
    }
}
