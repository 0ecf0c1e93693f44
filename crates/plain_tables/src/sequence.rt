//! A list of values, seen by contracts as just that list.

ghost use Rattle.std.specs.Prelude.{◌≡◌, ◌↔◌, ◌<◌, ◌∷◌, ◌++◌, [], length, remove, slice_index_or, IsTrue, OnOk, OnErr};
ghost use Rattle.std.specs.Borrow.{sem};

use no_memory::NoMemory;
use std::alloc::Global;
use std::marker::Model;

/// A list. It is a `Vec` of which contracts see the items alone, and not where they lie in memory.
#[derive(Drop)]
pub struct Sequence<T> {
    items: Vec<T>,
}

impl<T> Model for Sequence<T> {
    ghost use Rattle.std.specs.Prelude.{List};

    ghost Value = { List T };

    ghost view = { λ s. s.items.items };
}

impl<T> Sequence<T> {
    ghost use Rattle.plain_tables.specs.SequenceLends.{LendsItems};

    /// The empty list. It takes no memory.
    pub fn new(alloc: Global) -> Sequence<T>
        ensures { result ≡ [] }
    {
        Sequence {
            items: Vec::new(alloc),
        }
    }

    /// The items of a `Vec`, which is kept as it is.
    pub fn from_vec(items: Vec<T>) -> Sequence<T>
        ensures { result ≡ items.items }
    {
        Sequence { items }
    }

    /// The `Vec` that is kept.
    pub fn into_vec(self) -> Vec<T>
        ensures { result.items ≡ self }
    {
        let Sequence { items } = self;
        items
    }

    /// How many items there are.
    pub fn len(&self) -> usize
        ensures { result ≡ length self.now }
    {
        self.items.len()
    }

    /// Whether there are none.
    pub fn is_empty(&self) -> bool
        ensures { IsTrue result ↔ (self.now ≡ []) }
    {
        self.items.is_empty()
    }

    /// The items, to read.
    pub fn as_slice(&self) -> &[T]
        ensures { result.now ≡ self.now }
    {
        self.items.as_slice()
    }

    /// The items, to write to. They stay as many as they are.
    pub fn as_mut_slice(&mut self) -> &mut [T]
        ensures* writes_back { sem 𝓛 (LendsItems T.row self.entry result) }
        ensures value { result.now ≡ self.old }
    {
        self.items.as_mut_slice()
    }

    /// Puts an item behind the others. An item that there is no memory for is dropped.
    pub fn push(&mut self, item: T) -> Result<(), NoMemory>
    where
        T: Drop,
        ensures pushed { OnOk result (self.new ≡ self.old ++ item ∷ []) }
        ensures unchanged { OnErr result (self.new ≡ self.old) }
    {
        self.items.push(item)?;
        Ok(())
    }

    /// Takes the item at a place out. Those behind it move up.
    pub fn remove(&mut self, place: usize) -> T
        requires { place < length self.old }
        ensures value { result ≡ slice_index_or self.old place result }
        ensures rest { self.new ≡ remove self.old place }
    {
        self.items.remove(place)
    }
}
