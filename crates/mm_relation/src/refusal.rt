//! Why a row is not taken in.

use no_memory::NoMemory;

/// Why a row is not taken in. The relation is then as before, and the row is dropped.
#[derive(Clone, Copy, Debug, PartialEq, Eq)]
pub enum RowRefusal {
    /// A row with this key is there.
    KeyExists,
    /// There are 16,777,216 rows.
    Full,
    /// A growth was refused.
    NoMemory,
}

impl From<NoMemory> for RowRefusal {
    ghost use Rattle.mm_relation.specs.declared.refusal.RowRefusal.TheVariants as refusal;
    ghost use Rattle.std.specs.Prelude.{◌≡◌};

    ghost from_gives = { λ _ r. r ≡ refusal.NoMemory };

    fn from(_: NoMemory) -> RowRefusal {
        RowRefusal::NoMemory
    }
}
