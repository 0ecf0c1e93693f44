//! Counts, and the digits of integers and counts.

ghost use Rattle.std.specs.Prelude.{◌≡◌, ◌++◌, ℕ, MatchOption, OnOk};
ghost use Rattle.std.specs.Fmt.{decimal, signed_decimal};
ghost use Rattle.plain_tables.specs.Spelling.{IsCount};

use crate::sink::Sink;
use itoa::Buffer;
use plain_tables::{NoMemory, magnitude};

/// The count that these characters spell, if they spell one below 2 to the 63rd.
pub fn count(characters: &[u8]) -> Option<u64>
    ensures { MatchOption result ((n : ℕ) → IsCount characters.now n → ⊥) (λ n. IsCount characters.now n) }
{
    let number = magnitude(characters)?;
    (number < 1 << 63).then_some(number)
}

/// Writes an integer, with no zeros in front.
pub fn push_integer<S: Sink>(line: &mut S, number: i64) -> Result<(), NoMemory>
    ensures { OnOk result (S.held line.new ≡ S.held line.old ++ signed_decimal number) }
{
    let mut buffer = Buffer::new();
    line.push_str(buffer.format(number))?;
    Ok(())
}

/// Writes a count, with no zeros in front.
pub fn push_count<S: Sink>(line: &mut S, number: u64) -> Result<(), NoMemory>
    ensures { OnOk result (S.held line.new ≡ S.held line.old ++ decimal number) }
{
    let mut buffer = Buffer::new();
    line.push_str(buffer.format(number))?;
    Ok(())
}
