//! What is kept of a request that has not come whole.

ghost use Rattle.std.specs.Prelude.{◌≡◌, ℕ, List, [], IfOk};
ghost use Rattle.mm_session.specs.Buffers.{PartOfLine, kept_of, grown, is_start};
ghost use Rattle.plain_streams.specs.Division.{IsUnbroken};
ghost use Rattle.mm_session.specs.Judging.{IsJudged};

use crate::stream::lines::{Judged, judge};
use crate::stream::pending_block::PendingBlock;
use plain_tables::NoMemory;
use std::alloc::Global;
use std::marker::Model;

// The greatest number of bytes that are kept: a line of 8,192 and a carriage return.
const ROOM: usize = 8193;

/// The bytes of a line that has not ended, or only that it is too long. It never grows.
#[derive(Drop)]
pub struct LineBuffer {
    bytes: Vec<u8>,
    is_too_long: bool,
}

impl Model for LineBuffer {
    ghost use Rattle.std.specs.Prelude.{◌≤◌, if◌then◌else◌};
    ghost use Rattle.std.specs.Vec.{vec_capacity, vec_len};
    ghost use Rattle.plain_streams.specs.Division.{IsUnbroken};
    ghost use Rattle.mm_session.specs.Buffers.{KeptLine, PartOfLine, LongLine};

    ghost Value = { KeptLine };

    ghost view = { λ b. if b.is_too_long then LongLine else PartOfLine b.bytes.items };

    ghost invariant = { λ b. (8193 ≤ vec_capacity b.bytes) × (vec_len b.bytes ≤ 8193) × IsUnbroken b.bytes.items };
}

impl LineBuffer {
    /// An empty buffer, with room for the longest line.
    pub fn new(alloc: Global) -> Result<LineBuffer, NoMemory>
        ensures { IfOk result (λ kept. kept ≡ PartOfLine []) }
    {
        let bytes = Vec::with_capacity(alloc, ROOM)?;
        Ok(LineBuffer {
            bytes,
            is_too_long: false,
        })
    }

    /// The line so far, judged as one that has ended.
    pub fn judged(&self) -> Judged<'_>
        ensures { (line : List ℕ) → self.now ≡ kept_of line → IsJudged line result }
    {
        if self.is_too_long {
            Judged::TooLong
        } else {
            judge(self.bytes.as_slice())
        }
    }

    /// Whether nothing has come of the line yet.
    pub fn is_empty(&self) -> bool
        ensures { result ≡ is_start self.now }
    {
        !self.is_too_long && self.bytes.is_empty()
    }

    /// Adds the next bytes of the line.
    pub fn extend(&mut self, more: &[u8])
        requires { IsUnbroken more.now }
        ensures { self.new ≡ grown self.old more.now }
    {
        if self.is_too_long || more.len() > ROOM - self.bytes.len() {
            self.is_too_long = true;
        } else {
            let _ = self.bytes.extend_from_slice(more);
        }
    }

    /// Begins the next line.
    pub fn clear(&mut self)
        ensures { self.new ≡ PartOfLine [] }
    {
        self.bytes.clear();
        self.is_too_long = false;
    }
}

/// What is kept of a request that has not come whole: of its line, and once the line has ended, of its block too.
#[derive(Drop)]
pub struct KeptInput {
    pub line: LineBuffer,
    pub block: Option<PendingBlock>,
}

impl KeptInput {
    ghost use Rattle.mm_session.specs.Kept.{nothing, is_nothing};

    /// Nothing, with room for the longest line.
    pub fn new(alloc: Global) -> Result<KeptInput, NoMemory>
        ensures { IfOk result (λ kept. kept ≡ nothing) }
    {
        Ok(KeptInput {
            line: LineBuffer::new(alloc)?,
            block: None,
        })
    }
    /// Whether nothing has come of a request.
    pub fn is_nothing(&self) -> bool
        ensures { result ≡ is_nothing self.now }
    {
        self.block.is_none() && self.line.is_empty()
    }
}
