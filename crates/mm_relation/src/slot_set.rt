//! A set of slots of a store, as a bit for each. It gets memory before slots come into it, and keeps that when they have gone
//! out, so the next ones need none. It knows between which words its slots are.
ghost use Rattle.std.specs.Prelude.{◌≡◌, ℕ, ◌<◌, ◌≤◌, ◌/◌, [], true, false, length, IfOk, IsTrue, OnOk};
ghost use Rattle.mm_relation.specs.Rows.{has_slot, ChangesSlot};
ghost use Rattle.mm_relation.specs.Slots.{HasNoSlot, LieWithin};

use no_memory::NoMemory;
use std::alloc::Global;
use std::marker::Model;

pub const WORD_BITS: u32 = u64::BITS;

// A set with no slot in it keeps memory for at most so many times the slots that there are.
const MOST_WORDS_A_NEEDED_ONE: usize = 4;

/// A set of slots. It takes no memory before slots are covered.
// Bit `slot % WORD_BITS` of word `slot / WORD_BITS` is set where the slot is in the set. There may be no such word. The words
// before `start` and those from `end` on have no bit set.
#[derive(Drop)]
pub struct SlotSet {
    words: Vec<u64>,
    start: u32,
    end: u32,
}

impl Model for SlotSet {
    ghost use Rattle.std.specs.Prelude.{ℕ, List, ◌≤◌};
    ghost use Rattle.mm_relation.specs.Slots.{LieWithin};

    ghost Value = { List ℕ };

    ghost view = { λ s. s.words.items };

    ghost invariant = { λ s. LieWithin s.words.items s.start s.end × (s.end ≤ 67108864) };
}

// How many words have a bit for each of so many slots.
fn words_for(slots: u64) -> usize
    requires { slots ≤ 4294967296 }
    ensures least { (slot : ℕ) → slot < slots → slot / 64 < result }
    ensures most { result ≤ 67108864 }
{
    slots.div_ceil(u64::from(WORD_BITS)) as usize
}

impl SlotSet {
    // The set of no slot. It takes no memory.
    pub fn new(alloc: Global) -> SlotSet
        ensures { result ≡ [] }
    {
        SlotSet {
            words: Vec::new(alloc),
            start: 0,
            end: 0,
        }
    }

    // The same set, in memory of its own.
    pub fn try_clone(&self) -> Result<SlotSet, NoMemory>
        ensures { IfOk result (λ copy. copy ≡ self.now) }
    {
        Ok(SlotSet {
            words: Vec::from_slice(*self.words.allocator(), self.words.as_slice())?,
            start: self.start,
            end: self.end,
        })
    }

    // Whether a slot is in it: the slot may be any.
    #[inline]
    pub fn has(&self, slot: u32) -> bool
        ensures { result ≡ has_slot self.now slot }
    {
        match self.words.get((slot / WORD_BITS) as usize) {
            Some(word) => (*word >> (slot % WORD_BITS)) & 1 == 1,
            None => false,
        }
    }

    // Whether there is memory for a slot.
    pub fn covers(&self, slot: u32) -> bool
        ensures { result ≡ true → slot / 64 < length self.now }
    {
        ((slot / WORD_BITS) as usize) < self.words.len()
    }

    // Whether none of the slots of a word is in it.
    pub fn lacks_word(&self, place: u32) -> bool
        ensures { IsTrue result → (slot : ℕ) → slot / 64 ≡ place → has_slot self.now slot ≡ false }
    {
        match self.words.get(place as usize) {
            Some(word) => *word == 0,
            None => true,
        }
    }

    // The words between which its slots are: from the first up to the second.
    pub fn bounds(&self) -> (u32, u32)
        ensures within { LieWithin self.now result.0 result.1 }
        ensures most { result.1 ≤ 67108864 }
    {
        (self.start, self.end)
    }

    // Forgets between which words its slots were, where there are none: so the next ones alone tell.
    pub fn forget_bounds(&mut self)
        requires { HasNoSlot self.old }
        ensures { self.new ≡ self.old }
    {
        self.start = u32::MAX;
        self.end = 0;
    }

    // Puts a slot in that there is memory for.
    pub fn insert(&mut self, slot: u32)
        requires { slot / 64 < length self.old }
        ensures changes { ChangesSlot self.old self.new slot true }
        ensures covers { length self.new ≡ length self.old }
    {
        let place = slot / WORD_BITS;
        self.words[place as usize] |= 1 << (slot % WORD_BITS);
        self.start = self.start.min(place);
        self.end = self.end.max(place + 1);
    }

    // Takes a slot out.
    pub fn remove(&mut self, slot: u32)
        requires { slot / 64 < length self.old }
        ensures changes { ChangesSlot self.old self.new slot false }
        ensures covers { length self.new ≡ length self.old }
    {
        self.words[(slot / WORD_BITS) as usize] &= !(1 << (slot % WORD_BITS));
    }

    // Takes all slots out.
    pub fn clear(&mut self)
        ensures { HasNoSlot self.new }
    {
        self.words.fill(0);
        self.start = u32::MAX;
        self.end = 0;
    }

    // Makes sure of memory for so many slots. It takes some for as many again, so the next ones seldom need more.
    pub fn cover(&mut self, slots: u64) -> Result<(), NoMemory>
        requires { slots ≤ 4294967296 }
        ensures same { (slot : ℕ) → has_slot self.new slot ≡ has_slot self.old slot }
        ensures grows { length self.old ≤ length self.new }
        ensures covered { OnOk result ((slot : ℕ) → slot < slots → slot / 64 < length self.new) }
    {
        let words = words_for(slots);
        if words > self.words.len() {
            self.words.resize(words, 0)?;
        }
        Ok(())
    }

    // Gives the memory back where it is for more than four times so many slots. There is no slot in the set.
    pub fn shed(&mut self, slots: u64)
        requires few { slots ≤ 4294967296 }
        requires none { HasNoSlot self.old }
        ensures { HasNoSlot self.new }
    {
        if self.words.capacity() > words_for(slots) * MOST_WORDS_A_NEEDED_ONE {
            self.words = Vec::new(*self.words.allocator());
        }
    }
}
