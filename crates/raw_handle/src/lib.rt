//! What C holds of a value on the heap: a pointer to it, or null.
//!
//! C keeps the pointer in memory of its own, and passes the place of that to each call. A call takes the value out of the handle, uses it,
//! and puts it back. A handle can't be dropped, so its value is freed only by a call that takes it out, or that puts another in its place.
//!
//! A function that C calls can take no [`RawHandle`], since a type that C sees has no type parameters. It takes a struct of one pointer that
//! owns the same, and lends it as a `RawHandle`. `proofs/Lent.antt` has what the proof of that needs, and `proofs/Crosses.antt` what the proof
//! of its `Send` does.
#![tactic(auto)]

ghost use Rattle.std.specs.Prelude.{◌≡◌};
ghost use Rattle.std.specs.Option.{MatchOption};
ghost use Rattle.std.specs.declared.option.Option.{Option};
ghost use Rattle.std.specs.declared.option.Option.TheVariants.{None, Some};
ghost use Rattle.raw_handle.specs.Holds.{holds};

use raw_box::RawBox;
use std::alloc::Global;
use std::marker::Model;
use std::mem::replace;
use std::ptr::null_mut;

/// A pointer to a value, which it owns, or null.
#[repr(C)]
pub struct RawHandle<T> {
    at: *mut T,
    pub ghost value: { Option T },
}

impl<T> Model for RawHandle<T> {
    ghost also_owns = { λ h. holds T.row h.at h.value };
}

// What it owns may be used and freed by any thread that the value may go to.
unsafe impl<T: Send> Send for RawHandle<T> {}

impl<T> RawHandle<T> {
    /// A handle of no value.
    pub fn closed() -> RawHandle<T>
        ensures { result.value ≡ None }
    {
        RawHandle { at: null_mut() }
    }

    // A handle of that value.
    fn of(raw: RawBox<T, Global>) -> RawHandle<T>
        ensures { result.value ≡ Some raw.value }
    {
        let RawBox { at, alloc: _ } = raw;
        RawHandle { at }
    }

    // The value, if there is one.
    fn into_raw(self, alloc: Global) -> Option<RawBox<T, Global>>
        ensures { MatchOption result (self.value ≡ None) (λ b. self.value ≡ Some b.value) }
    {
        let RawHandle { at } = self;
        if at.is_null() {
            None
        } else {
            Some(RawBox { at, alloc })
        }
    }
}

impl<T: Drop> RawHandle<T> {
    /// Takes the value out, and leaves a handle of none.
    pub fn take(&mut self, alloc: Global) -> Option<Box<T>>
        ensures taken { MatchOption result (self.old.value ≡ None) (λ b. self.old.value ≡ Some b.value) }
        ensures closed { self.new.value ≡ None }
    {
        match replace(self, RawHandle::closed()).into_raw(alloc) {
            None => None,
            Some(raw) => Some(raw.into_box()),
        }
    }

    /// Makes this a handle of that value, and frees another that was there.
    pub fn put(&mut self, alloc: Global, value: Box<T>)
        ensures { self.new.value ≡ Some value.value }
    {
        let before = replace(self, RawHandle::of(RawBox::from_box(value)));
        if let Some(raw) = before.into_raw(alloc) {
            drop(raw.into_box());
        }
    }
}
