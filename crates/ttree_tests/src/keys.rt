//! Indexes of tuples that are their own keys: the key is the number of the reference.
ghost use Rattle.std.specs.Prelude.{◌≡◌, [], nat_lt, if◌then◌else◌};
ghost use Rattle.std.specs.Ordering.{nat_cmp};
ghost use Rattle.std.specs.declared.cmp.Ordering.TheVariants.{Less, Equal, Greater};

use mm_index::{MAX_LEN, OrderProbe, OrderedIndex, Probe, TupleOrder};
use no_memory::NoMemory;
use part_raw::TupleRef;
use std::alloc::Global;
use std::cmp::Ordering;
use std::marker::Model;
use ttree::TTree;

fn keyed(key: u32) -> TupleRef
    ensures { result.number ≡ key }
{
    TupleRef { number: key }
}

pub struct KeyOrder;

impl TupleOrder for KeyOrder {
    ghost use Rattle.std.proofs.Common.{◌≡◌, sym};
    ghost use Rattle.std.proofs.lemmas.Cmp.{ranked};
    ghost use Rattle.std.specs.Cmp.{nat_cmp_total};
    ghost use Rattle.std.specs.Ordering.{nat_cmp};
    ghost use Rattle.std.specs.declared.cmp.Ordering.TheVariants.{Equal};

    ghost is_sound = { λ _. Unit {0} };

    ghost covers = { λ _ _. Unit {0} };

    ghost cmp = { λ _ a b. nat_cmp a.number b.number };

    ghost is_strict = { λ _ _. record {
      antisymm = λ a b _ _. nat_cmp_total.antisymm a.number b.number;
      trans = λ a b c _ _ _ h k. nat_cmp_total.trans a.number b.number c.number h k;
      strict = λ a b _ _ e.
          let key : a.number ≡ b.number = ranked a.number b.number Equal (sym e) in
          λ i. record { number = key i };
    } };

    fn cmp(&self, a: TupleRef, b: TupleRef) -> Ordering {
        a.number.cmp(&b.number)
    }
}

// The keys from `low` to `high`.
#[derive(Drop)]
pub struct KeyRange {
    pub low: u32,
    pub high: u32,
    pub asked: u64,
}

impl Probe for KeyRange {
    ghost can_place = { λ _ _. Unit {0} };

    ghost place = { λ p r. if nat_lt r.number p.low then Less else (if nat_lt p.high r.number then Greater else Equal) };

    ghost asked = { λ p. p.asked };

    fn place(&mut self, r: TupleRef) -> Ordering {
        self.asked = self.asked.saturating_add(1);
        if r.number < self.low {
            Ordering::Less
        } else if self.high < r.number {
            Ordering::Greater
        } else {
            Ordering::Equal
        }
    }

    fn asked(&self) -> u64 {
        self.asked
    }
}

// An index that has each key once, in rising order.
#[derive(Drop)]
pub struct Keys<I: OrderedIndex> {
    pub index: I,
}

impl<I: OrderedIndex> Model for Keys<I> {
    ghost use Rattle.std.specs.Prelude.{◌≡◌, List};
    ghost use Rattle.std.specs.Ordering.{nat_cmp};
    ghost use Rattle.part_raw.specs.declared.tuple_ref.TupleRef.{TupleRef};
    ghost use Rattle.mm_index.specs.Order.{IsRising};

    ghost Value = { List TupleRef };

    ghost view = { λ k. I.items k.index };

    ghost invariant = { λ k. IsRising (λ a b. nat_cmp a.number b.number) (I.items k.index) };
}

impl<I: OrderedIndex> Keys<I> {
    pub fn new(index: I) -> Keys<I>
        requires { I.items index ≡ [] }
    {
        Keys { index }
    }

    // Takes the key out where it is there, and else puts it in.
    pub fn flip(&mut self, key: u32) -> Result<(), NoMemory> {
        let mut probe = KeyRange {
            low: key,
            high: key,
            asked: 0,
        };
        if let Some(r) = self.index.find(&mut probe) {
            self.index.remove(&mut OrderProbe::new(&KeyOrder, r));
        } else if self.index.len() < MAX_LEN {
            self.index.reserve(1)?;
            self.index
                .insert(&mut OrderProbe::new(&KeyOrder, keyed(key)));
        }
        Ok(())
    }

    // Makes sure of room for so many more.
    pub fn reserve(&mut self, n: usize) -> Result<(), NoMemory> {
        if n <= MAX_LEN {
            self.index.reserve(n)?;
        }
        Ok(())
    }

    pub fn release_spares(&mut self) {
        self.index.release_spares();
    }

    // The references with these keys.
    pub fn between(&self, alloc: Global, low: u32, high: u32) -> Result<Vec<TupleRef>, NoMemory> {
        let mut probe = KeyRange {
            low,
            high,
            asked: 0,
        };
        let mut found = Vec::new(alloc);
        self.index.range(&mut probe, &mut found)?;
        Ok(found)
    }
}

impl<const MIN: usize, const MAX: usize> Keys<TTree<MIN, MAX>> {
    pub fn try_clone(&self) -> Result<Keys<TTree<MIN, MAX>>, NoMemory> {
        Ok(Keys {
            index: self.index.try_clone()?,
        })
    }
}
