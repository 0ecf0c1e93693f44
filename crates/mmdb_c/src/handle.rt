//! What C holds of a database.

ghost use Rattle.std.specs.Prelude.{◌≡◌};
ghost use Rattle.std.specs.Option.{MatchOption};
ghost use Rattle.std.specs.declared.option.Option.{Option};
ghost use Rattle.std.specs.declared.option.Option.TheVariants.{None, Some};
ghost use Rattle.std.specs.Coded.{coded_option};
ghost use Rattle.mm_database.specs.declared.database.OpenDatabase.{OpenDatabase};
ghost use Rattle.mm_database.specs.contracts.database.OpenDatabase as held;
ghost use Rattle.raw_handle.specs.Holds.{holds};

use mm_database::OpenDatabase;
use raw_handle::RawHandle;
use std::alloc::Global;
use std::marker::Model;

/// A pointer to a database, or null.
#[repr(C)]
pub struct Handle {
    at: *mut u8,
    pub ghost database: { Option OpenDatabase } by { coded_option held.the_row.coded },
}

impl Model for Handle {
    ghost also_owns = { λ h. holds held.the_row h.at h.database };
}

// What it owns may be used and freed by any thread.
unsafe impl Send for Handle {}

impl Handle {
    ghost use Rattle.std.specs.Borrow.{Lends, sem};
    ghost use Rattle.raw_handle.specs.contracts.RawHandle as raw_handle;
    ghost use Rattle.mmdb_c.specs.contracts.handle.Handle.{the_row};

    // Lends itself without its name, which only C needs.
    fn as_raw(&mut self) -> &mut RawHandle<OpenDatabase>
        ensures* writes_back { sem 𝓛 (Lends the_row (raw_handle.the_row held.the_row) self.entry result (λ w. record { at = w.at; database = w.value })) }
        ensures value { result.now.value ≡ self.old.database }
    {
        unsafe { &mut *(self as *mut Handle as *mut RawHandle<OpenDatabase>) }
    }

    /// Takes the database out, and leaves a handle of none.
    pub fn take(&mut self, alloc: Global) -> Option<Box<OpenDatabase>>
        ensures taken { MatchOption result (self.old.database ≡ None) (λ b. self.old.database ≡ Some b.value) }
        ensures closed { self.new.database ≡ None }
    {
        self.as_raw().take(alloc)
    }

    /// Makes this a handle of that database, and frees another that was there.
    pub fn put(&mut self, alloc: Global, database: Box<OpenDatabase>)
        ensures { self.new.database ≡ Some database.value }
    {
        self.as_raw().put(alloc, database)
    }
}
