//! Why a line gives no command.

ghost use Rattle.std.specs.Prelude.{◌≡◌};

use plain_tables::{NoMemory, Refusal};
use std::alloc::{AllocError, AllocFailed};
use thiserror::Error;

/// Why a line gives no command.
#[derive(Clone, Copy, Debug, PartialEq, Eq, Error)]
pub enum ParseRefusal {
    /// The line spells no command.
    #[error("this is no command")]
    Syntax,
    /// A growth was refused, so that it isn't known what the line spells.
    #[error("no memory")]
    NoMemory,
}

impl From<NoMemory> for ParseRefusal {
    ghost use Rattle.mm_lang.specs.declared.refusal.ParseRefusal.TheVariants as refusal;

    ghost from_gives = { λ _ e. e ≡ refusal.NoMemory };

    fn from(_: NoMemory) -> ParseRefusal {
        ParseRefusal::NoMemory
    }
}

impl From<AllocError> for ParseRefusal {
    ghost use Rattle.mm_lang.specs.declared.refusal.ParseRefusal.TheVariants as refusal;

    ghost from_gives = { λ _ e. e ≡ refusal.NoMemory };

    fn from(_: AllocError) -> ParseRefusal {
        ParseRefusal::NoMemory
    }
}

impl<T: Drop> From<AllocFailed<T>> for ParseRefusal {
    ghost use Rattle.mm_lang.specs.declared.refusal.ParseRefusal.TheVariants as refusal;

    ghost from_gives = { λ _ e. e ≡ refusal.NoMemory };

    fn from(_: AllocFailed<T>) -> ParseRefusal {
        ParseRefusal::NoMemory
    }
}

impl From<ParseRefusal> for Refusal {
    ghost use Rattle.mm_lang.specs.Refusals.{refusal_of};

    ghost from_gives = { λ p r. r ≡ refusal_of p };

    fn from(refusal: ParseRefusal) -> Refusal {
        match refusal {
            ParseRefusal::Syntax => Refusal::NotACommand,
            ParseRefusal::NoMemory => Refusal::NoMemory,
        }
    }
}
