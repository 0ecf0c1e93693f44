//! Slots, what has one, and the numbers of holes.

ghost use Rattle.std.specs.Prelude.{◌≡◌, ◌+◌, ◌^◌, ◌<◌, ◌≤◌, [], ◌∷◌, map, length, cond};
ghost use Rattle.std.specs.List.{flat_map};
ghost use Rattle.plain_statements.specs.declared.statement.Slot.{Slot};
ghost use Rattle.plain_statements.specs.StatementSpelling.{numbers_of};
ghost use Rattle.mm_lang.specs.Statements.{slot_symbol, slot_by, setting_by, condition_by, AreFrom};

use crate::items::{Item, assigned, compared, value};
use crate::lexemes::split_lexeme;
use crate::places::LinePlace;
use crate::stops::Stopped;
use plain_statements::{Slot, SlotCond, SlotSetting};
use std::alloc::Global;

/// An item in which a slot stands.
pub trait SlotItem: Item {
    ghost slot: { Self → Slot };

    /// Gives this number to the hole, if one stands in it, and tells whether one does.
    fn number(&mut self, number: usize) -> bool
        ensures symbols { Self.symbols self.new ≡ Self.symbols self.old }
        ensures numbers { numbers_of (slot self.new) ≡ cond result (number ∷ []) [] };
}

// A hole is read without its number.
impl Item for Slot {
    ghost symbols = { slot_by slot_symbol };

    fn read(alloc: Global, line: &[u8], place: LinePlace) -> Result<(Slot, &[u8]), Stopped> {
        let (characters, rest) = split_lexeme(line);
        if characters == b"?".as_slice() {
            return Ok((Slot::Hole(0), rest));
        }
        let value = value(alloc, characters, line, place)?;
        Ok((Slot::Given(value), rest))
    }
}

impl SlotItem for Slot {
    ghost slot = { λ s. s };

    fn number(&mut self, number: usize) -> bool {
        match self {
            Slot::Given(_) => false,
            Slot::Hole(n) => {
                *n = number;
                true
            }
        }
    }
}

impl Item for SlotSetting {
    ghost symbols = { setting_by slot_symbol };

    fn read(alloc: Global, line: &[u8], place: LinePlace) -> Result<(SlotSetting, &[u8]), Stopped> {
        let (column, slot, line) = assigned(alloc, line, place)?;
        Ok((SlotSetting { column, slot }, line))
    }
}

impl SlotItem for SlotSetting {
    ghost slot = { λ s. s.slot };

    fn number(&mut self, number: usize) -> bool {
        self.slot.number(number)
    }
}

impl Item for SlotCond {
    ghost symbols = { condition_by slot_symbol };

    fn read(alloc: Global, line: &[u8], place: LinePlace) -> Result<(SlotCond, &[u8]), Stopped> {
        let (column, op, slot, line) = compared(alloc, line, place)?;
        Ok((SlotCond { column, op, slot }, line))
    }
}

impl SlotItem for SlotCond {
    ghost slot = { λ c. c.slot };

    fn number(&mut self, number: usize) -> bool {
        self.slot.number(number)
    }
}

/// Numbers the holes from this number on, as they stand, and gives the next one.
pub fn number_holes<T: SlotItem>(items: &mut [T], first: usize) -> usize
    requires { first + length items.old < 2 ^ 64 }
    ensures symbols { map T.symbols items.new ≡ map T.symbols items.old }
    ensures numbers { AreFrom first (flat_map numbers_of (map T.slot items.new)) }
    ensures next { result ≡ first + length (flat_map numbers_of (map T.slot items.new)) }
    ensures most { result ≤ first + length items.old }
{
    let mut next = first;
    for item in items.iter_mut() {
        if item.number(next) {
            next += 1;
        }
    }
    next
}
