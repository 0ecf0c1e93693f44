//! Why a block gives no rows.

ghost use Rattle.std.specs.Prelude.{◌≡◌};

use plain_tables::NoMemory;
use std::alloc::AllocFailed;
use thiserror::Error;

/// Why a block gives no rows.
#[derive(Clone, Copy, Debug, PartialEq, Eq, Error)]
pub enum CsvRefusal {
    /// The first record isn't the names of the columns in order, or there is none.
    #[error("this is no header of the table")]
    Header,
    /// The record of this number, counted from 1 behind the header, is the first that is no row.
    #[error("record {0} is no row of the table")]
    BadRow(u64),
    /// A growth was refused, so that it isn't known which rows the block holds.
    #[error("no memory")]
    NoMemory,
}

impl From<NoMemory> for CsvRefusal {
    ghost use Rattle.mm_csv.specs.declared.csv_refusal.CsvRefusal.TheVariants as refusal;

    ghost from_gives = { λ _ e. e ≡ refusal.NoMemory };

    fn from(_: NoMemory) -> CsvRefusal {
        CsvRefusal::NoMemory
    }
}

impl<T: Drop> From<AllocFailed<T>> for CsvRefusal {
    ghost use Rattle.mm_csv.specs.declared.csv_refusal.CsvRefusal.TheVariants as refusal;

    ghost from_gives = { λ _ e. e ≡ refusal.NoMemory };

    fn from(_: AllocFailed<T>) -> CsvRefusal {
        CsvRefusal::NoMemory
    }
}
