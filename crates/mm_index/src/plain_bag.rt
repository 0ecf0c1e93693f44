//! The plain hash index: pairs of a hash and a reference in a vector, in no order. Its room is the vector's capacity that
//! is not used.
ghost use Rattle.std.specs.Prelude.{◌≡◌, ◌<◌, [], length, Contains, slice_index_or};
ghost use Rattle.std.specs.Iterator.{YieldsFirst, item_count};
ghost use Rattle.mm_index.specs.Bag.{IsSameBag, with_hash};

use crate::exact_index::ExactIndex;
use no_memory::NoMemory;
use part_raw::TupleRef;
use std::alloc::Global;
use std::marker::Model;

/// Pairs in a vector, in no order. A look-up passes over all of them.
#[derive(Drop)]
pub struct PlainBag {
    pairs: Vec<(u32, TupleRef)>,
}

impl Model for PlainBag {
    ghost use Rattle.std.specs.Prelude.{◌-◌, vec_len, vec_capacity};
    ghost use Rattle.mm_index.specs.Held.{HeldPairs};

    ghost Value = { HeldPairs };

    ghost view = { λ b. record { entries = b.pairs.items; room = vec_capacity b.pairs - vec_len b.pairs } };
}

impl PlainBag {
    ghost use Rattle.mm_index.specs.Chain.{chain_rest};

    /// An empty index, which has taken no memory.
    pub fn new(alloc: Global) -> PlainBag
        ensures { result.entries ≡ [] }
    {
        PlainBag {
            pairs: Vec::new(alloc),
        }
    }

    /// The references with that hash, each as often as it is held, in any order.
    pub fn chain(&self, hash: u32) -> Chain<'_>
        ensures { IsSameBag (chain_rest result) (with_hash hash self.now.entries) }
    {
        Chain {
            hash,
            rest: self.pairs.as_slice(),
        }
    }
}

impl ExactIndex for PlainBag {
    ghost entries = { λ b. b.entries };

    ghost room = { λ b. b.room };

    fn reserve(&mut self, n: usize) -> Result<(), NoMemory> {
        self.pairs.reserve(n)?;
        Ok(())
    }

    fn insert(&mut self, hash: u32, r: TupleRef) {
        let pushed = self.pairs.push((hash, r));
        prove!(pushed.is_ok());
    }

    fn remove(&mut self, hash: u32, r: TupleRef) {
        let place = place_of(self.pairs.as_slice(), hash, r);
        self.pairs.swap_remove(place);
    }

    fn matching(&self, hash: u32, out: &mut Vec<TupleRef>) -> Result<(), NoMemory> {
        let before = out.len();
        for r in self.chain(hash) {
            if let Err(refused) = out.push(r) {
                out.truncate(before);
                return Err(NoMemory::from(refused));
            }
        }
        Ok(())
    }

    fn len(&self) -> usize {
        self.pairs.len()
    }

    fn release_spares(&mut self) {
        self.pairs.shrink_to_fit();
    }
}

// Where the pair stands first.
fn place_of(pairs: &[(u32, TupleRef)], hash: u32, r: TupleRef) -> usize
    requires { Contains pairs.now (hash, r) }
    ensures bound { result < length pairs.now }
    ensures found { slice_index_or pairs.now result (hash, r) ≡ (hash, r) }
{
    let place = pairs.iter().position(|pair| *pair == (hash, r));
    place.unwrap()
}

/// The references with one hash that are left to visit.
#[derive(Clone, Copy)]
pub struct Chain<'a> {
    hash: u32,
    rest: &'a [(u32, TupleRef)],
}

impl<'a> Iterator for Chain<'a> {
    ghost use Rattle.mm_index.specs.Chain.{chain_rest};

    type Item = TupleRef;

    ghost next_gives = { YieldsFirst chain_rest };

    ghost remaining = { item_count chain_rest };

    fn next(&mut self) -> Option<TupleRef> {
        while let Some(((held, r), rest)) = self.rest.split_first() {
            self.rest = rest;
            if *held == self.hash {
                return Some(*r);
            }
        }
        None
    }
}
