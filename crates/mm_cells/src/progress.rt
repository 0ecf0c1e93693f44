//! Cells take the values of a search to its end.

use crate::cells::Cells;
use crate::fault::CellFault;
use mm_interrupts::Progress;

impl Progress for Cells {
    ghost use Rattle.std.proofs.Common.{rules};
    ghost use Rattle.std.specs.Prelude.{◌≢◌};
    ghost use Rattle.mm_cells.specs.declared.fault.CellFault.TheVariants as fault;

    type Fault = CellFault;

    ghost ends = { λ cells why. why ≢ fault.TooLong };

    ghost out_of_memory = { Prim.search rules };

    #[inline(always)]
    fn go_on(&self) -> Result<(), CellFault> {
        Ok(())
    }
}
