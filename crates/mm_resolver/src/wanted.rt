//! What is asked of the values of a statement: given ones are judged at once, and of those to come it is kept what they have to be.
ghost use Rattle.std.specs.Prelude.{◌≡◌, ◌∷◌, [], List, OnOk};
ghost use Rattle.plain_tables.specs.Effects.{Check};
ghost use Rattle.plain_statements.specs.declared.statement.Slot.TheVariants as slot;
ghost use Rattle.plain_statements.specs.Slots.{Needed, first_refusal, opened};
ghost use Rattle.mm_resolver.specs.Checks.{verdict};
ghost use Rattle.mm_resolver.specs.Wanted.{IsWantedOf, Adds, given_checks};

use crate::culprit::Culprit;
use crate::schemas::Schemas;
use no_memory::NoMemory;
use plain_statements::{Need, Resolution, Template, Want};
use plain_tables::{Place, Refusal, Sequence, Value};
use std::alloc::Global;

/// What is asked of the values of a statement: what those to come have to be, and of the given ones whether one is none that is
/// needed, and whether one that is to be stored is too long.
#[derive(Drop)]
pub struct Wanted {
    wants: Sequence<Want>,
    given_wrong: bool,
    given_past: bool,
    // how many values were asked for, which tells the number of the next one
    asked: usize,
}

impl Wanted {
    /// Nothing is asked so far. It takes no memory.
    pub fn new(alloc: Global) -> Wanted
        ensures { IsWantedOf [] result }
    {
        Wanted {
            wants: Sequence::new(alloc),
            given_wrong: false,
            given_past: false,
            asked: 0,
        }
    }

    /// How many values were asked for so far.
    pub fn asked(&self) -> usize {
        self.asked
    }

    /// Judges a given value, which is for that column.
    pub fn judge<S: Schemas>(&mut self, schemas: &S, column: Place, value: &Value, need: Need)
        ensures { Adds ((slot.Given value.now, need) ∷ []) self.old self.new }
    {
        let culprit = Culprit::Value {
            number: self.asked,
            column,
        };
        let (is_wrong, is_past) = (need.is_wrong(value), need.is_past(value));
        if is_wrong {
            schemas.blame(Refusal::WrongType, culprit);
        }
        if is_past {
            schemas.blame(Refusal::TextTooLong, culprit);
        }
        self.given_wrong |= is_wrong;
        self.given_past |= is_past;
        self.asked = self.asked.saturating_add(1);
    }

    /// Keeps what the value has to be that comes for a hole.
    pub fn want(&mut self, hole: usize, need: Need) -> Result<(), NoMemory>
        ensures { OnOk result (Adds ((slot.Hole hole, need) ∷ []) self.old self.new) }
    {
        self.asked = self.asked.saturating_add(1);
        self.wants.push(Want { hole, need })
    }

    /// Why what has these values and no others is refused, by the refusal of the checks that come last, if they refuse it.
    pub fn verdict(&self, last: Option<Refusal>) -> Result<(), Refusal>
        ensures { (needs : List Needed) (late : List Check) → IsWantedOf needs self.now → last ≡ first_refusal late → result ≡ verdict (given_checks needs late) }
    {
        if self.given_wrong {
            return Err(Refusal::WrongType);
        }
        if self.given_past {
            return Err(Refusal::TextTooLong);
        }
        match last {
            Some(refusal) => Err(refusal),
            None => Ok(()),
        }
    }

    /// What a statement means whose values these are, by the refusal of the checks that come last, if they refuse it, and by what is
    /// done. A given value that is none that is needed refuses it whatever values come.
    pub fn resolution(
        self,
        last: Option<Refusal>,
        template: Template,
    ) -> Result<Resolution, Refusal>
        ensures { (needs : List Needed) (late : List Check) → IsWantedOf needs self → last ≡ first_refusal late → result ≡ opened needs late template }
    {
        if self.given_wrong {
            return Err(Refusal::WrongType);
        }
        let last = if self.given_past {
            Some(Refusal::TextTooLong)
        } else {
            last
        };
        Ok(Resolution {
            wants: self.wants,
            last,
            template,
        })
    }
}
