//! Which bucket a hash belongs to.
//!
//! A level doubles the buckets one by one. At the level L there are `short = 4 * 2^L` buckets before its first split, and
//! the mark says how many of these were split already, each into itself and a bucket at the end:
//!
//!     bucket   0 ..  mark - 1 | mark ..  short - 1 | short .. short + mark - 1
//!              split: h mod   | not yet: h mod     | split off: h mod
//!              2 * short      | short              | 2 * short
//!
//! So a hash h belongs to `h mod short`, or where that bucket was split to `h mod (2 * short)`, which is the same bucket or
//! the one split off it. A split moves the mark on, and after the last bucket of a level the next level begins with the
//! mark at 0; a fold goes the same way back.
ghost use Rattle.std.specs.Prelude.{◌≡◌, ◌+◌, ◌*◌, ◌%◌, ◌^◌, ◌<◌, ◌≤◌};
ghost use Rattle.std.specs.Int.{IsPowerOfTwo};
ghost use Rattle.lin_hash.specs.Address.{bucket_of};

// How many buckets there are at first.
pub const FIRST_BUCKETS: usize = 4;

/// How often the number of buckets doubled, and the bucket to be split next.
#[derive(Clone, Copy, Drop)]
pub struct Address {
    pub level: u32,
    pub mark: usize,
}

impl Address {
    // The bucket of a hash: by the short modulus, or by the long one where that leads to a bucket that was
    // split.
    pub fn bucket(self, hash: u32) -> usize
        requires { self.level ≤ 30 }
        ensures { result ≡ bucket_of self.level self.mark hash }
    {
        let short = buckets_at(self.level);
        let bucket = remainder(hash, short);
        if bucket < self.mark {
            remainder(hash, 2 * short)
        } else {
            bucket
        }
    }

    // After the bucket at the mark was split.
    pub fn raised(self) -> Address
        requires low { self.level ≤ 30 }
        requires marked { self.mark < 4 * 2 ^ self.level }
        ensures next { self.mark + 1 < 4 * 2 ^ self.level → (result.level ≡ self.level) × (result.mark ≡ self.mark + 1) }
        ensures doubled { self.mark + 1 ≡ 4 * 2 ^ self.level → (result.level ≡ self.level + 1) × (result.mark ≡ 0) }
    {
        let level = self.level;
        let mark = self.mark + 1;
        if mark == buckets_at(level) {
            Address {
                level: level + 1,
                mark: 0,
            }
        } else {
            Address { level, mark }
        }
    }

    // Before the last split.
    pub fn lowered(self) -> Address
        requires low { self.level ≤ 30 }
        requires split { self.mark ≡ 0 → 0 < self.level }
        ensures back { 0 < self.mark → (result.level ≡ self.level) × (result.mark + 1 ≡ self.mark) }
        ensures halved { self.mark ≡ 0 → (result.level + 1 ≡ self.level) × (result.mark + 1 ≡ 4 * 2 ^ result.level) }
    {
        if self.mark == 0 {
            let level = self.level - 1;
            Address {
                level,
                mark: buckets_at(level) - 1,
            }
        } else {
            Address {
                level: self.level,
                mark: self.mark - 1,
            }
        }
    }
}

// How many buckets there are at a level before its first split.
fn buckets_at(level: u32) -> usize
    requires { level ≤ 30 }
    ensures { result ≡ 4 * 2 ^ level }
{
    FIRST_BUCKETS << level
}

// The remainder by a power of two, which takes no division.
fn remainder(hash: u32, modulus: usize) -> usize
    requires { IsPowerOfTwo modulus }
    ensures { result ≡ hash % modulus }
{
    hash as usize & (modulus - 1)
}
