//! What C holds of what asks selects to end.

ghost use Rattle.std.specs.Prelude.{◌≡◌};
ghost use Rattle.std.specs.Option.{MatchOption};
ghost use Rattle.std.specs.declared.option.Option.{Option};
ghost use Rattle.std.specs.declared.option.Option.TheVariants.{None, Some};
ghost use Rattle.std.specs.Coded.{coded_option};
ghost use Rattle.mm_interrupts.specs.declared.interrupter.Interrupter.{Interrupter};
ghost use Rattle.mm_interrupts.specs.contracts.interrupter.Interrupter as held;
ghost use Rattle.raw_handle.specs.Holds.{holds};

use mm_interrupts::Interrupter;
use raw_handle::RawHandle;
use std::alloc::Global;
use std::marker::Model;

/// A pointer to an interrupter, or null.
#[repr(C)]
pub struct InterrupterHandle {
    at: *mut u8,
    pub ghost interrupter: { Option Interrupter } by { coded_option held.the_row.coded },
}

impl Model for InterrupterHandle {
    ghost also_owns = { λ h. holds held.the_row h.at h.interrupter };
}

// What it owns may be used and freed by any thread.
unsafe impl Send for InterrupterHandle {}

impl InterrupterHandle {
    ghost use Rattle.std.specs.Borrow.{Lends, sem};
    ghost use Rattle.raw_handle.specs.contracts.RawHandle as raw_handle;
    ghost use Rattle.mmdb_c.specs.contracts.interrupter_handle.InterrupterHandle.{the_row};

    // Lends itself without its name, which only C needs.
    fn as_raw(&mut self) -> &mut RawHandle<Interrupter>
        ensures* writes_back { sem 𝓛 (Lends the_row (raw_handle.the_row held.the_row) self.entry result (λ w. record { at = w.at; interrupter = w.value })) }
        ensures value { result.now.value ≡ self.old.interrupter }
    {
        unsafe { &mut *(self as *mut InterrupterHandle as *mut RawHandle<Interrupter>) }
    }

    /// Takes the interrupter out, and leaves a handle of none.
    pub fn take(&mut self, alloc: Global) -> Option<Box<Interrupter>>
        ensures taken { MatchOption result (self.old.interrupter ≡ None) (λ b. self.old.interrupter ≡ Some b.value) }
        ensures closed { self.new.interrupter ≡ None }
    {
        self.as_raw().take(alloc)
    }

    /// Makes this a handle of that interrupter, and frees another that was there.
    pub fn put(&mut self, alloc: Global, interrupter: Box<Interrupter>)
        ensures { self.new.interrupter ≡ Some interrupter.value }
    {
        self.as_raw().put(alloc, interrupter)
    }
}
