//! A bit for each slot of a partition. The first that is set or clear is found a word at a time. What the bits mean is
//! the partition's affair.
ghost use Rattle.std.specs.Prelude.{◌≡◌, ◌↔◌, ℕ, ◌<◌, ◌≤◌, true, false, MatchOption, IsTrue};
ghost use Rattle.part_raw.specs.Layout.{is_set, ChangesBit};

use crate::SLOTS;

pub(crate) const WORD_BITS: u32 = u64::BITS;

const WORDS: usize = (SLOTS / WORD_BITS) as usize;

// A bit for each slot, set where the slot holds a tuple: bit `slot % WORD_BITS` of word `slot / WORD_BITS`.
#[derive(Clone, Copy)]
pub struct Bitmap {
    words: [u64; WORDS],
}

impl Bitmap {
    pub(crate) fn new() -> Bitmap
        ensures { (slot : ℕ) → slot < SLOTS → is_set result.words slot ≡ false }
    {
        Bitmap { words: [0; WORDS] }
    }

    // Whether the bit of this slot is set. There is none past the last slot.
    pub(crate) fn has(&self, slot: u32) -> bool
        ensures within { slot < SLOTS → result ≡ is_set self.now.words slot }
        ensures past { SLOTS ≤ slot → result ≡ false }
    {
        slot < SLOTS && (self.words[(slot / WORD_BITS) as usize] >> (slot % WORD_BITS)) & 1 == 1
    }

    pub(crate) fn set(&mut self, slot: u32)
        requires { slot < SLOTS }
        ensures { ChangesBit self.old.words self.new.words slot true }
    {
        self.words[(slot / WORD_BITS) as usize] |= 1 << (slot % WORD_BITS);
    }

    pub(crate) fn clear(&mut self, slot: u32)
        requires { slot < SLOTS }
        ensures { ChangesBit self.old.words self.new.words slot false }
    {
        self.words[(slot / WORD_BITS) as usize] &= !(1 << (slot % WORD_BITS));
    }

    // Whether each bit is set.
    pub(crate) fn is_full(&self) -> bool
        ensures { IsTrue result ↔ ((slot : ℕ) → slot < SLOTS → is_set self.now.words slot ≡ true) }
    {
        self.first_clear().is_none()
    }

    // Whether no bit is set.
    pub(crate) fn is_clear(&self) -> bool
        ensures { IsTrue result ↔ ((slot : ℕ) → slot < SLOTS → is_set self.now.words slot ≡ false) }
    {
        self.first_set().is_none()
    }

    // The first slot whose bit is not set, if there is one.
    pub(crate) fn first_clear(&self) -> Option<u32>
        ensures { MatchOption result ((slot : ℕ) → slot < SLOTS → is_set self.now.words slot ≡ true) (λ slot. (slot < SLOTS) × (is_set self.now.words slot ≡ false)) }
    {
        for (i, word) in self.words.iter().enumerate() {
            if *word != u64::MAX {
                return Some(i as u32 * WORD_BITS + word.trailing_ones());
            }
        }
        None
    }

    // The first slot whose bit is set, if there is one.
    pub(crate) fn first_set(&self) -> Option<u32>
        ensures { MatchOption result ((slot : ℕ) → slot < SLOTS → is_set self.now.words slot ≡ false) (λ slot. (slot < SLOTS) × (is_set self.now.words slot ≡ true)) }
    {
        for (i, word) in self.words.iter().enumerate() {
            if *word != 0 {
                return Some(i as u32 * WORD_BITS + word.trailing_zeros());
            }
        }
        None
    }
}
