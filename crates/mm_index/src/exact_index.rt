//! What a hash index is: a bag of pairs of a hash and a reference. It makes no hash, compares no tuples and promises no
//! order.
ghost use Rattle.std.specs.Prelude.{◌≡◌, ℕ, ◌+◌, ◌<◌, ◌≤◌, List, ◌∷◌, length, OnOk, OnErr, Contains};
ghost use Rattle.part_raw.specs.declared.tuple_ref.TupleRef.{TupleRef};
ghost use Rattle.mm_index.specs.Bag.{IsSameBag, AppendsBag, with_hash};

use crate::MAX_LEN;
use no_memory::NoMemory;
use part_raw::TupleRef;

/// A bag of pairs of a hash and a reference.
pub trait ExactIndex {
    // the pairs, in an order that says nothing
    ghost entries: { Self → List (ℕ × TupleRef) };

    // how many inserts are sure of their memory
    ghost room: { Self → ℕ };

    /// Makes sure of memory for `n` inserts, until `release_spares`.
    fn reserve(&mut self, n: usize) -> Result<(), NoMemory>
        requires { length (entries self.old) + n < MAX_LEN }
        ensures entries { IsSameBag (entries self.new) (entries self.old) }
        ensures reserved { OnOk result (n ≤ room self.new) }
        ensures room { room self.old ≤ room self.new };

    /// Puts one pair in. Takes no memory.
    fn insert(&mut self, hash: u32, r: TupleRef)
        requires reserved { 0 < room self.old }
        requires short { length (entries self.old) < MAX_LEN }
        ensures entries { IsSameBag (entries self.new) ((hash, r) ∷ entries self.old) }
        ensures room { room self.old ≤ room self.new + 1 };

    /// Takes one such pair out. Takes no memory.
    fn remove(&mut self, hash: u32, r: TupleRef)
        requires { Contains (entries self.old) (hash, r) }
        ensures entries { IsSameBag (entries self.old) ((hash, r) ∷ entries self.new) }
        ensures room { room self.old + 1 ≤ room self.new };

    /// Appends the references with that hash, each as often as it is held, in any order.
    fn matching(&self, hash: u32, out: &mut Vec<TupleRef>) -> Result<(), NoMemory>
        ensures ok { OnOk result (AppendsBag out.old.items out.new.items (with_hash hash (entries self.now))) }
        ensures err { OnErr result (out.new.items ≡ out.old.items) };

    /// How many pairs there are, each counted as often as it is held.
    fn len(&self) -> usize
        ensures { result ≡ length (entries self.now) };

    /// Gives back the memory that was reserved and not used. Takes no memory.
    fn release_spares(&mut self)
        ensures { IsSameBag (entries self.new) (entries self.old) };
}
