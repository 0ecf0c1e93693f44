//! Digits, and the integers that they spell.

ghost use Rattle.std.specs.Prelude.{ℤ, ◌<◌, ◌^◌, MatchOption, SomeIff};
ghost use Rattle.std.specs.Str.Parse.{IsNumeral, digits_value};
ghost use Rattle.plain_tables.specs.Spelling.{IsInteger};

/// The number that digits write, where it is below 2 to the 64th. Zeros may stand in front.
#[inline]
pub fn magnitude(digits: &[u8]) -> Option<u64>
    ensures { SomeIff result (IsNumeral 10 digits.now × (digits_value 10 digits.now < 2 ^ 64)) (digits_value 10 digits.now) }
{
    if digits.is_empty() {
        return None;
    }
    let mut value: u64 = 0;
    for c in digits {
        if !c.is_ascii_digit() {
            return None;
        }
        value = value.checked_mul(10)?.checked_add(u64::from(*c - b'0'))?;
    }
    Some(value)
}

/// The integer that these characters spell, if they spell one of 64 bits.
#[inline]
pub fn integer(characters: &[u8]) -> Option<i64>
    ensures { MatchOption result ((z : ℤ) → IsInteger characters.now z → ⊥) (λ z. IsInteger characters.now z) }
{
    match characters.split_first() {
        Some((b'-', digits)) => 0_i64.checked_sub_unsigned(magnitude(digits)?),
        _ => 0_i64.checked_add_unsigned(magnitude(characters)?),
    }
}
