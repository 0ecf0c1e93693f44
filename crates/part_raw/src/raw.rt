//! The memory of a partition: slots side by side in one block. Every pointer of the crate is read and written here, and
//! each function is a line or two, with a proof that follows its machine steps. To the rest of the crate the memory is
//! a list that has, for each slot, a tuple or nothing. No call reads an empty slot, writes over a tuple, or frees a block
//! that holds one or is another's.
ghost use Rattle.std.specs.Prelude.{◌≡◌, ℕ, ◌<◌, List, [], Option, None, Some, length, replicate, map, slice_index_or, slice_set, IfOk, IsSome};
ghost use Rattle.std.specs.Vec.Ownership.{FitsInBlock};
ghost use base.Fml.{ftrue};
ghost use denote.RawPtr.{Ptr};
ghost use Rattle.part_raw.specs.Raw.{block_owns, block_lends, deed_owns};
ghost use Rattle.part_raw.specs.Rows.{IsRun, window};
ghost use Rattle.std.specs.Borrow.{sem};

use std::alloc::{AllocError, Allocator};
use std::marker::{Model, PhantomData};
use std::mem::{align_of, size_of};
use std::slice;

// The slots of one block. An empty slot has room for a tuple, and nothing is known of its bytes.
pub struct Slots<T> {
    ptr: *mut T,
    ghost held: { List (Option T) },
}

impl<T> Model for Slots<T> {
    ghost also_owns = { λ s. block_owns T.row s.ptr s.held };

    ghost also_shares = { λ s _ κ. block_lends T.row s.ptr s.held κ };
}

unsafe impl<T: Send> Send for Slots<T> {}

unsafe impl<T: Sync> Sync for Slots<T> {}

// The right to give a block of `count` slots back to its allocator, where that is not 0. It takes no space.
pub struct Deed<T, A: Allocator> {
    mark: PhantomData<*const (T, A)>,
    ghost at: { Ptr },
    ghost count: { ℕ },
    ghost alloc: { A },
}

impl<T, A: Allocator> Model for Deed<T, A> {
    ghost also_owns = { λ d. deed_owns T.row (A.dealloc_token d.alloc) d.at d.count };

    ghost also_shares = { λ _ _ _. ftrue };
}

unsafe impl<T, A: Allocator + Send> Send for Deed<T, A> {}

// A `&` to it holds nothing.
unsafe impl<T, A: Allocator> Sync for Deed<T, A> {}

// A block of `count` empty slots.
pub(crate) fn allocate<T, A: Allocator>(
    alloc: &A,
    count: usize,
) -> Result<(Slots<T>, Deed<T, A>), AllocError>
    requires { FitsInBlock T.row count }
    ensures { IfOk result (λ made. (made.0.held ≡ replicate count None) × (made.1.at ≡ made.0.ptr) × (made.1.count ≡ count) × (made.1.alloc ≡ alloc.now)) }
{
    match alloc.allocate(count * size_of::<T>(), align_of::<T>()) {
        Ok(block) => {
            let slots = Slots {
                ptr: block as *mut T,
            };
            Ok((slots, Deed { mark: PhantomData }))
        }
        Err(refused) => Err(refused),
    }
}

// Gives a block back whose slots are all empty. No slot is left.
pub(crate) fn deallocate<T, A: Allocator>(
    alloc: &A,
    slots: &mut Slots<T>,
    count: usize,
    deed: Deed<T, A>,
)
    requires { (slots.old.held ≡ replicate count None) × (0 < count) × (deed.at ≡ slots.old.ptr) × (deed.count ≡ count) × (deed.alloc ≡ alloc.now) }
    ensures { slots.new.held ≡ [] }
{
    let Deed { mark: _ } = deed;
    unsafe {
        alloc.deallocate(
            slots.ptr as *mut u8,
            count * size_of::<T>(),
            align_of::<T>(),
        );
    }
}

// The right to give nothing back.
pub(crate) fn no_deed<T, A: Allocator>(_alloc: &A) -> Deed<T, A>
    ensures { result.count ≡ 0 }
{
    Deed { mark: PhantomData }
}

// Lets go what is left of a block that was given back.
pub(crate) fn let_go<T, A: Allocator>(slots: Slots<T>, deed: Deed<T, A>)
    requires { (slots.held ≡ []) × (deed.count ≡ 0) }
{
    let Slots { ptr: _ } = slots;
    let Deed { mark: _ } = deed;
}

impl<T> Slots<T> {
    ghost use Rattle.part_raw.specs.RawLends.{LendsRun};

    // No slot, at the place of these.
    pub(crate) fn none(&self) -> Slots<T>
        ensures { result.held ≡ [] }
    {
        Slots { ptr: self.ptr }
    }

    // Writes a tuple into an empty slot.
    pub(crate) fn write(&mut self, slot: usize, tuple: T)
        requires within { slot < length self.old.held }
        requires empty { slice_index_or self.old.held slot None ≡ None }
        ensures held { self.new.held ≡ slice_set self.old.held slot (Some tuple) }
        ensures ptr { self.new.ptr ≡ self.old.ptr }
    {
        unsafe { self.ptr.add(slot).write(tuple) }
    }

    // Reads the tuple out of a slot, which is empty from then on.
    pub(crate) fn read(&mut self, slot: usize) -> T
        requires { IsSome (slice_index_or self.old.held slot None) }
        ensures tuple { slice_index_or self.old.held slot None ≡ Some result }
        ensures held { self.new.held ≡ slice_set self.old.held slot None }
        ensures ptr { self.new.ptr ≡ self.old.ptr }
    {
        unsafe { self.ptr.add(slot).read() }
    }

    // The values of `count` places from `from` on.
    pub(crate) fn run(&self, from: usize, count: usize) -> &[T]
        requires { IsRun self.now.held from count }
        ensures { window from count self.now.held ≡ map Some result.now }
    {
        unsafe { slice::from_raw_parts(self.ptr.add(from), count) }
    }

    // The same, to write to.
    pub(crate) fn run_mut(&mut self, from: usize, count: usize) -> &mut [T]
        requires { IsRun self.old.held from count }
        ensures* writes_back { sem 𝓛 (LendsRun T.row self.entry from count result) }
        ensures values { window from count self.old.held ≡ map Some result.now }
    {
        unsafe { slice::from_raw_parts_mut(self.ptr.add(from), count) }
    }
}
