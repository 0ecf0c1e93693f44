//! What C holds of a cursor.

ghost use Rattle.std.specs.Prelude.{◌≡◌};
ghost use Rattle.std.specs.Option.{MatchOption};
ghost use Rattle.std.specs.declared.option.Option.{Option};
ghost use Rattle.std.specs.declared.option.Option.TheVariants.{None, Some};
ghost use Rattle.std.specs.Coded.{coded_option};
ghost use Rattle.mm_database.specs.declared.cursors.OpenCursor.{OpenCursor};
ghost use Rattle.mm_database.specs.contracts.cursors.OpenCursor as held;
ghost use Rattle.raw_handle.specs.Holds.{holds};

use mm_database::OpenCursor;
use raw_handle::RawHandle;
use std::alloc::Global;
use std::marker::Model;

/// A pointer to a cursor, or null.
#[repr(C)]
pub struct CursorHandle {
    at: *mut u8,
    pub ghost cursor: { Option OpenCursor } by { coded_option held.the_row.coded },
}

impl Model for CursorHandle {
    ghost also_owns = { λ h. holds held.the_row h.at h.cursor };
}

// What it owns may be used and freed by any thread.
unsafe impl Send for CursorHandle {}

impl CursorHandle {
    ghost use Rattle.std.specs.Borrow.{Lends, sem};
    ghost use Rattle.raw_handle.specs.contracts.RawHandle as raw_handle;
    ghost use Rattle.mmdb_c.specs.contracts.cursor_handle.CursorHandle.{the_row};

    // Lends itself without its name, which only C needs.
    fn as_raw(&mut self) -> &mut RawHandle<OpenCursor>
        ensures* writes_back { sem 𝓛 (Lends the_row (raw_handle.the_row held.the_row) self.entry result (λ w. record { at = w.at; cursor = w.value })) }
        ensures value { result.now.value ≡ self.old.cursor }
    {
        unsafe { &mut *(self as *mut CursorHandle as *mut RawHandle<OpenCursor>) }
    }

    /// Takes the cursor out, and leaves a handle of none.
    pub fn take(&mut self, alloc: Global) -> Option<Box<OpenCursor>>
        ensures taken { MatchOption result (self.old.cursor ≡ None) (λ b. self.old.cursor ≡ Some b.value) }
        ensures closed { self.new.cursor ≡ None }
    {
        self.as_raw().take(alloc)
    }

    /// Makes this a handle of that cursor, and frees another that was there.
    pub fn put(&mut self, alloc: Global, cursor: Box<OpenCursor>)
        ensures { self.new.cursor ≡ Some cursor.value }
    {
        self.as_raw().put(alloc, cursor)
    }
}
