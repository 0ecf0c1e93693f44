//! The hash of a value.

ghost use Rattle.std.specs.Prelude.{◌≡◌, ◌%◌, ◌^◌};
ghost use Rattle.std.specs.List.{fold};
ghost use Rattle.plain_tables.specs.Hashes.{with_byte, hash_of as hash_of_so};
ghost use Rattle.plain_tables.specs.Stored.{value_seen};

use crate::seen_value::SeenValue;
use crate::sought_value::SoughtValue;
use crate::stored_value::StoredValue;

// Where every hash begins.
const BEGIN: u64 = 14_695_981_039_346_656_037;

// What a hash is multiplied by for each byte.
const PRIME: u64 = 1_099_511_628_211;

// The integer that a link to row number 0 is seen as.
const FIRST_LINK: u64 = 1 << 63;

// A hash with more bytes.
fn with_bytes(hash: u64, bytes: &[u8]) -> u64
    ensures { result ≡ fold with_byte hash bytes.now }
{
    bytes.iter().fold(
        hash,
        |hash, byte| (hash ^ u64::from(*byte)).wrapping_mul(PRIME),
    )
}

// The hash of what a value holds.
#[tactic(auto, unfolding(crate::specs::Hashes::hash_of))]
fn hash_of_seen(seen: SeenValue<'_>) -> u64
    ensures { result ≡ hash_of_so (value_seen seen.entry) }
{
    match seen {
        SeenValue::Int(z) => with_bytes(with_bytes(BEGIN, &[0]), &z.to_be_bytes()),
        SeenValue::Text(text) => with_bytes(with_bytes(BEGIN, &[1]), text.as_bytes()),
        SeenValue::Null => with_bytes(BEGIN, &[2]),
        SeenValue::Link(number) => with_bytes(
            with_bytes(BEGIN, &[0]),
            &(FIRST_LINK + u64::from(number)).to_be_bytes(),
        ),
    }
}

/// The hash of a value, by FNV-1a of 64 bits. Equal values have equal hashes.
pub fn hash_of(value: &StoredValue) -> u64
    ensures { result ≡ hash_of_so value.now }
{
    hash_of_seen(value.seen())
}

/// The hash of a value that is looked for.
pub fn hash_of_sought(value: &SoughtValue<'_>) -> u64
    ensures { result ≡ hash_of_so value.now }
{
    hash_of_seen(value.seen())
}

/// The low 32 bits of a hash, which are what a hash index keeps of it.
pub fn low_bits(hash: u64) -> u32
    ensures { result ≡ hash % 2 ^ 32 }
{
    (hash % (1 << 32)) as u32
}
