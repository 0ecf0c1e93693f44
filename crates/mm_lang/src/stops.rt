//! Where the parser stops.

ghost use Rattle.std.specs.Prelude.{◌≡◌, MatchOption};

use crate::places::LinePlace;
use crate::refusal::ParseRefusal;
use plain_tables::NoMemory;
use std::alloc::AllocFailed;
use std::marker::Model;

/// Where a line stops to spell a command or a statement: at the first symbol that may not stand where it stands.
#[derive(Clone, Copy)]
pub struct Stop {
    /// How many bytes of the line are left, those of the symbol and of the blanks before it among them.
    pub left: usize,
    pub place: LinePlace,
}

/// Why a line gives no command or no statement, and where it stops if it spells none. Contracts see it as a `ParseRefusal`.
#[derive(Drop)]
pub struct Stopped {
    // none where a growth was refused
    stop: Option<Stop>,
}

impl Model for Stopped {
    ghost use Rattle.std.specs.Option.{option_map_or};
    ghost use Rattle.mm_lang.specs.declared.refusal.ParseRefusal.{ParseRefusal};
    ghost use Rattle.mm_lang.specs.declared.refusal.ParseRefusal.TheVariants as refusal;

    ghost Value = { ParseRefusal };

    ghost view = { λ s. option_map_or (λ stop. refusal.Syntax) s.stop refusal.NoMemory };
}

impl Stopped {
    /// That the symbol at the front of what is left of a line may not stand at a place.
    pub(crate) fn at(left: &[u8], place: LinePlace) -> Stopped
        ensures { result ≡ ParseRefusal.Syntax }
    {
        let left = left.len();
        Stopped {
            stop: Some(Stop { left, place }),
        }
    }

    /// That the symbol at the front of what is left of a line is refused at a place.
    pub(crate) fn by(refusal: ParseRefusal, left: &[u8], place: LinePlace) -> Stopped
        ensures { result ≡ refusal }
    {
        match refusal {
            ParseRefusal::Syntax => Stopped::at(left, place),
            ParseRefusal::NoMemory => Stopped { stop: None },
        }
    }

    /// Where the line stops, if it spells nothing.
    pub fn stop(&self) -> Option<Stop>
        ensures { MatchOption result (self.now ≡ ParseRefusal.NoMemory) (λ _. self.now ≡ ParseRefusal.Syntax) }
    {
        self.stop
    }
}

impl From<NoMemory> for Stopped {
    ghost use Rattle.mm_lang.specs.declared.refusal.ParseRefusal.TheVariants as refusal;

    ghost from_gives = { λ _ e. e ≡ refusal.NoMemory };

    fn from(_: NoMemory) -> Stopped {
        Stopped { stop: None }
    }
}

impl<T: Drop> From<AllocFailed<T>> for Stopped {
    ghost use Rattle.mm_lang.specs.declared.refusal.ParseRefusal.TheVariants as refusal;

    ghost from_gives = { λ _ e. e ≡ refusal.NoMemory };

    fn from(_: AllocFailed<T>) -> Stopped {
        Stopped { stop: None }
    }
}

impl From<Stopped> for ParseRefusal {
    ghost from_gives = { λ stopped e. e ≡ stopped };

    fn from(stopped: Stopped) -> ParseRefusal {
        match stopped.stop {
            Some(_) => ParseRefusal::Syntax,
            None => ParseRefusal::NoMemory,
        }
    }
}
