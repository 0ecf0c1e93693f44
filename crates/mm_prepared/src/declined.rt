//! Why a call on statements is declined.

use no_memory::NoMemory;

/// Why a call on statements is declined. It leaves them as they were.
#[derive(Clone, Copy)]
pub enum Declined {
    /// The number names no statement.
    NoSuchStatement,
    /// The statement has no hole of that place.
    NoSuchPlace,
    /// A growth was refused.
    NoMemory,
}

impl From<NoMemory> for Declined {
    ghost use Rattle.std.specs.Prelude.{◌≡◌};
    ghost use Rattle.mm_prepared.specs.declared.declined.Declined.TheVariants as declined;

    ghost from_gives = { λ _ e. e ≡ declined.NoMemory };

    fn from(_: NoMemory) -> Declined {
        Declined::NoMemory
    }
}
