//! What C holds of what takes in a dump.

ghost use Rattle.std.specs.Prelude.{◌≡◌};
ghost use Rattle.std.specs.Option.{MatchOption};
ghost use Rattle.std.specs.declared.option.Option.{Option};
ghost use Rattle.std.specs.declared.option.Option.TheVariants.{None, Some};
ghost use Rattle.std.specs.Coded.{coded_option};
ghost use Rattle.mm_database.specs.declared.restoring.OpenRestore.{OpenRestore};
ghost use Rattle.mm_database.specs.contracts.restoring.OpenRestore as held;
ghost use Rattle.raw_handle.specs.Holds.{holds};

use mm_database::OpenRestore;
use raw_handle::RawHandle;
use std::alloc::Global;
use std::marker::Model;

/// A pointer to a restore, or null.
#[repr(C)]
pub struct RestoreHandle {
    at: *mut u8,
    pub ghost restore: { Option OpenRestore } by { coded_option held.the_row.coded },
}

impl Model for RestoreHandle {
    ghost also_owns = { λ h. holds held.the_row h.at h.restore };
}

// What it owns may be used and freed by any thread.
unsafe impl Send for RestoreHandle {}

impl RestoreHandle {
    ghost use Rattle.std.specs.Borrow.{Lends, sem};
    ghost use Rattle.raw_handle.specs.contracts.RawHandle as raw_handle;
    ghost use Rattle.mmdb_c.specs.contracts.restore_handle.RestoreHandle.{the_row};

    // Lends itself without its name, which only C needs.
    fn as_raw(&mut self) -> &mut RawHandle<OpenRestore>
        ensures* writes_back { sem 𝓛 (Lends the_row (raw_handle.the_row held.the_row) self.entry result (λ w. record { at = w.at; restore = w.value })) }
        ensures value { result.now.value ≡ self.old.restore }
    {
        unsafe { &mut *(self as *mut RestoreHandle as *mut RawHandle<OpenRestore>) }
    }

    /// Takes the restore out, and leaves a handle of none.
    pub fn take(&mut self, alloc: Global) -> Option<Box<OpenRestore>>
        ensures taken { MatchOption result (self.old.restore ≡ None) (λ b. self.old.restore ≡ Some b.value) }
        ensures closed { self.new.restore ≡ None }
    {
        self.as_raw().take(alloc)
    }

    /// Makes this a handle of that restore, and frees another that was there.
    pub fn put(&mut self, alloc: Global, restore: Box<OpenRestore>)
        ensures { self.new.restore ≡ Some restore.value }
    {
        self.as_raw().put(alloc, restore)
    }
}
