//! How a hash stands.

/// How many references a hash has, in how many buckets they stand, and how many of them stand in the fullest bucket.
#[derive(Clone, Copy)]
pub struct HashShape {
    /// The references.
    pub items: usize,
    /// The buckets, of which there are at least four.
    pub buckets: usize,
    /// The references of the longest chain: 0 where the hash is empty.
    pub longest: usize,
}
