//! What is kept of a block that has not come whole.

use plain_tables::NoMemory;
use std::alloc::Global;
use std::marker::Model;

/// The bytes of a block that have come, with room for those that are to come.
#[derive(Drop)]
pub struct BlockBuffer {
    bytes: Vec<u8>,
    to_come: usize,
}

impl Model for BlockBuffer {
    ghost use Rattle.std.specs.Prelude.{◌+◌, ◌≤◌};
    ghost use Rattle.std.specs.Vec.{vec_capacity, vec_len};
    ghost use Rattle.mm_session.specs.Buffers.{PartOfBlock};

    ghost Value = { PartOfBlock };

    ghost view = { λ b. record { bytes = b.bytes.items; to_come = b.to_come } };

    ghost invariant = { λ b. vec_len b.bytes + b.to_come ≤ vec_capacity b.bytes };
}

impl BlockBuffer {
    ghost use Rattle.std.specs.Prelude.{◌≡◌, ◌++◌, ◌-◌, ◌≤◌, [], length, IfOk};

    /// A buffer for a block of this many bytes.
    pub fn new(alloc: Global, length: usize) -> Result<BlockBuffer, NoMemory>
        ensures { IfOk result (λ buffer. buffer ≡ record { bytes = []; to_come = length }) }
    {
        let bytes = Vec::with_capacity(alloc, length)?;
        Ok(BlockBuffer {
            bytes,
            to_come: length,
        })
    }

    /// The bytes so far.
    pub fn as_slice(&self) -> &[u8]
        ensures { result.now ≡ self.now.bytes }
    {
        self.bytes.as_slice()
    }

    /// How many bytes are to come.
    pub fn to_come(&self) -> usize
        ensures { result ≡ self.now.to_come }
    {
        self.to_come
    }

    /// Adds the next bytes.
    pub fn extend(&mut self, more: &[u8])
        requires { length more.now ≤ self.old.to_come }
        ensures bytes { self.new.bytes ≡ self.old.bytes ++ more.now }
        ensures to_come { self.new.to_come ≡ self.old.to_come - length more.now }
    {
        let _ = self.bytes.extend_from_slice(more);
        self.to_come -= more.len();
    }
}

/// Why the bytes of a block are not kept.
#[derive(Clone, Copy)]
pub enum Unkept {
    /// They pass the limit.
    TooLong,
    /// No memory was found for them.
    NoMemory,
}

/// A block that has not come whole: its bytes, or only how many are to come.
#[derive(Drop)]
pub enum PendingBlock {
    Storing(BlockBuffer),
    Counting { to_come: u64, why: Unkept },
}

impl PendingBlock {
    ghost use Rattle.std.specs.Prelude.{◌≡◌, ◌≤◌, [], length};
    ghost use Rattle.mm_session.specs.Kept.{KeepsBlock, is_too_long, to_come, with_bytes};

    /// A block of this many bytes, of which none has come. Memory is asked for if it is within the limit.
    pub fn new(alloc: Global, length: u64, limit: u64) -> PendingBlock
        ensures { KeepsBlock limit length [] result }
    {
        if length > limit {
            return PendingBlock::Counting {
                to_come: length,
                why: Unkept::TooLong,
            };
        }
        match BlockBuffer::new(alloc, length as usize) {
            Ok(buffer) => PendingBlock::Storing(buffer),
            Err(_) => PendingBlock::Counting {
                to_come: length,
                why: Unkept::NoMemory,
            },
        }
    }

    /// How many bytes are to come.
    pub fn to_come(&self) -> u64
        ensures { result ≡ to_come self.now }
    {
        match self {
            PendingBlock::Storing(buffer) => buffer.to_come() as u64,
            PendingBlock::Counting { to_come, .. } => *to_come,
        }
    }

    /// Takes the next bytes.
    pub fn extend(&mut self, more: &[u8])
        requires { length more.now ≤ to_come self.old }
        ensures { self.new ≡ with_bytes self.old more.now }
    {
        match self {
            PendingBlock::Storing(buffer) => buffer.extend(more),
            PendingBlock::Counting { to_come, .. } => *to_come -= more.len() as u64,
        }
    }

    /// Whether it passes the limit.
    pub fn is_too_long(&self) -> bool
        ensures { result ≡ is_too_long self.now }
    {
        match self {
            PendingBlock::Storing(_) => false,
            PendingBlock::Counting { why, .. } => matches!(why, Unkept::TooLong),
        }
    }
}
