//! Hashes of what rows show.
ghost use Rattle.std.specs.Prelude.{◌≡◌, ◌*◌, ◌/◌, ◌%◌, ◌^◌};
ghost use Rattle.plain_tables.specs.Stored.{value_seen};
ghost use Rattle.project_hash.specs.Hashes as hashes;

use plain_tables::{SeenValue, StoredValue};

// What a hash is multiplied by for each number.
const FACTOR: u64 = 11_400_714_819_323_198_485;

// The integer that a link to row number 0 is seen as.
const FIRST_LINK: u64 = 1 << 63;

// A hash with a number more.
#[inline]
#[tactic(auto, unfolding(crate::specs::Hashes::with_number))]
fn with_number(hash: u64, number: u64) -> u64
    ensures { result ≡ hashes.with_number hash number }
{
    let product = (hash ^ number).wrapping_mul(FACTOR);
    product ^ (product >> 32)
}

// The number that a few bytes spell.
#[inline]
fn spelled(bytes: &[u8]) -> u64
    ensures { result ≡ hashes.spelled bytes.now }
{
    bytes.iter().fold(
        0,
        |number: u64, byte| number.wrapping_mul(256).wrapping_add(u64::from(*byte)),
    )
}

// The number that eight bytes spell.
#[inline]
#[tactic(auto, unfolding(crate::specs::Hashes::word))]
fn word(bytes: &[u8; 8]) -> u64
    ensures { result ≡ hashes.word bytes.now }
{
    u64::from_le_bytes(*bytes)
}

// A hash with the bytes of a text more, eight at a time.
#[inline]
#[tactic(auto, unfolding(crate::specs::Hashes::with_text))]
fn with_text(hash: u64, text: &[u8]) -> u64
    ensures { result ≡ hashes.with_text hash text.now }
{
    let (words, rest) = text.as_chunks::<8>();
    let hash = words
        .iter()
        .fold(hash, |hash, bytes| with_number(hash, word(bytes)));
    with_number(hash, spelled(rest))
}

// A hash with what a value holds more.
#[inline]
#[tactic(auto, unfolding(crate::specs::Hashes::with_value))]
fn with_seen(hash: u64, seen: SeenValue<'_>) -> u64
    ensures { result ≡ hashes.with_value hash (value_seen seen.entry) }
{
    match seen {
        SeenValue::Null => with_number(hash, 0),
        SeenValue::Int(z) => with_number(hash, z.cast_unsigned()),
        SeenValue::Text(text) => with_text(hash, text.as_bytes()),
        SeenValue::Link(number) => with_number(hash, FIRST_LINK + u64::from(number)),
    }
}

/// A hash with a value more.
#[inline]
pub fn with_value(hash: u64, value: &StoredValue) -> u64
    ensures { result ≡ hashes.with_value hash value.now }
{
    with_seen(hash, value.seen())
}

/// A hash in 32 bits, on each of which all of its bits bear.
#[inline]
pub fn in_32_bits(hash: u64) -> u32
    ensures { result ≡ (hash * 11400714819323198485) % 2 ^ 64 / 2 ^ 32 }
{
    (hash.wrapping_mul(FACTOR) >> 32) as u32
}
