//! The bytes of one answer, made whole before the first of them is written.

ghost use Rattle.std.specs.Prelude.{◌≡◌, ◌++◌, ◌+◌, ◌-◌, ◌*◌, ◌≤◌, [], length, take, drop, IsOk, IfOk, OnOk};
ghost use Rattle.std.specs.Fmt.{decimal};
ghost use Rattle.plain_tables.specs.AnswerText.{answer_text, refusal_text};
ghost use Rattle.plain_tables.specs.Effects.{Changed};

pub mod records;

use crate::answer::records::{push_changed, push_refusal};
use itoa::Buffer;
use mm_csv::ByteSink;
use mm_lang::Sink;
use plain_tables::{NoMemory, Refusal};
use std::alloc::Global;
use std::io;
use std::io::Write;
use std::marker::Model;

// The answer to one row put in, changed or taken out.
const OK_ONE: &[u8] = b"ok 1\n";

// How many bytes are few: to copy them twice is faster than to turn them where they lie.
const FEW: usize = 1024;

/// The bytes of an answer. Short ones need no memory.
#[derive(Drop)]
pub struct Answer {
    bytes: Vec<u8>,
}

impl Model for Answer {
    ghost use Rattle.std.specs.Prelude.{List, ℕ, ◌≤◌};
    ghost use Rattle.std.specs.Vec.{vec_capacity};

    ghost Value = { List ℕ };

    ghost view = { λ a. a.bytes.items };

    ghost invariant = { λ a. 64 ≤ vec_capacity a.bytes };
}

// The number that two digits are.
fn two_digits(tens: u8, ones: u8) -> u32
    ensures { result ≡ (tens - 48) * 10 + (ones - 48) }
{
    u32::from(tens.saturating_sub(b'0')) * 10 + u32::from(ones.saturating_sub(b'0'))
}

impl Answer {
    ghost use Rattle.mm_session.specs.Refused.{TellsRefusal};

    /// An empty answer, with the room that short answers need.
    pub fn new(alloc: Global) -> Result<Answer, NoMemory>
        ensures { IfOk result (λ answer. answer ≡ []) }
    {
        let bytes = Vec::with_capacity(alloc, 64)?;
        Ok(Answer { bytes })
    }

    /// The bytes so far.
    pub fn as_slice(&self) -> &[u8]
        ensures { result.now ≡ self.now }
    {
        self.bytes.as_slice()
    }

    /// How many bytes there are so far.
    pub fn len(&self) -> usize
        ensures { result ≡ length self.now }
    {
        self.bytes.len()
    }

    /// The vector of the bytes so far.
    pub fn as_vec(&self) -> &Vec<u8>
        ensures { result.now.items ≡ self.now }
    {
        &self.bytes
    }

    /// The number of the refusal that the bytes begin with, or 0 where they are no refusal's.
    pub fn refusal(&self) -> u32
        ensures { TellsRefusal self.now result }
    {
        let Some(words) = self.bytes.strip_prefix(b"error ") else {
            return 0;
        };
        match words {
            [tens, ones, ..] => two_digits(*tens, *ones),
            _ => 0,
        }
    }

    /// Lets the bytes go, and keeps their room.
    pub fn clear(&mut self)
        ensures { self.new ≡ [] }
    {
        self.bytes.clear();
    }

    /// Keeps so many bytes at most, and lets those behind them go.
    pub(crate) fn truncate(&mut self, most: usize)
        ensures { self.new ≡ take most self.old }
    {
        self.bytes.truncate(most);
    }

    /// Makes this the answer. A short text needs no memory.
    pub(crate) fn set(&mut self, text: &[u8])
        requires { length text.now ≤ 64 }
        ensures { self.new ≡ text.now }
    {
        self.bytes.clear();
        let _ = self.bytes.extend_from_slice(text);
    }

    /// Makes the number of rows that a command changed the answer. It takes no memory.
    pub(crate) fn tell_changed(&mut self, count: usize)
        ensures { self.new ≡ answer_text (Changed count) }
    {
        if count == 1 {
            self.set(OK_ONE);
            return;
        }
        self.clear();
        let _ = push_changed(self, count);
    }

    /// Makes a refusal the answer. It takes no memory.
    pub fn refuse(&mut self, refusal: Refusal)
        ensures { self.new ≡ refusal_text refusal }
    {
        self.clear();
        let _ = push_refusal(self, refusal);
    }

    /// Puts bytes at the end. While the answer is short it needs no memory.
    pub fn push(&mut self, bytes: &[u8]) -> Result<(), NoMemory>
        ensures pushed { OnOk result (self.new ≡ self.old ++ bytes.now) }
        ensures short { length self.old + length bytes.now ≤ 64 → IsOk result }
    {
        self.bytes.extend_from_slice(bytes)?;
        Ok(())
    }

    /// Puts bytes in at an index, in front of those that stand there and behind it.
    pub(crate) fn insert(&mut self, at: usize, bytes: &[u8]) -> Result<(), NoMemory>
        requires { at ≤ length self.old }
        ensures { OnOk result (self.new ≡ take at self.old ++ (bytes.now ++ drop at self.old)) }
    {
        self.bytes.extend_from_slice(bytes)?;
        self.bytes[at..].rotate_right(bytes.len());
        Ok(())
    }

    /// Puts another answer in at an index, in front of the bytes that stand there and behind it. A few bytes are moved by way of the
    /// other's room, which is faster than to turn them where they lie.
    pub(crate) fn insert_answer(&mut self, at: usize, mut front: Answer) -> Result<(), NoMemory>
        requires { at ≤ length self.old }
        ensures { OnOk result (self.new ≡ take at self.old ++ (front ++ drop at self.old)) }
    {
        if self.len() - at > FEW {
            return self.insert(at, front.as_slice());
        }
        front.push(&self.bytes[at..])?;
        self.bytes.truncate(at);
        self.push(front.as_slice())
    }

    /// Puts a number at the end, in decimal digits. While the answer is short it needs no memory.
    pub(crate) fn push_number(&mut self, n: u64) -> Result<(), NoMemory>
        ensures pushed { OnOk result (self.new ≡ self.old ++ decimal n) }
        ensures short { length self.old + length (decimal n) ≤ 64 → IsOk result }
    {
        let mut buffer = Buffer::new();
        self.push(buffer.format(n).as_bytes())
    }
}

impl Sink for Answer {
    ghost held = { λ a. a };

    fn push_str(&mut self, text: &str) -> Result<(), NoMemory> {
        self.push(text.as_bytes())
    }
}

impl ByteSink for Answer {
    ghost use Rattle.std.specs.Prelude.{Some};

    ghost contents = { λ a. Some a };

    #[inline]
    fn push_bytes(&mut self, bytes: &[u8]) -> Result<(), NoMemory> {
        self.push(bytes)
    }
}

impl Write for Answer {
    ghost use Rattle.std.specs.Prelude.{Some};

    ghost contents = { λ a. Some a };

    fn write(&mut self, buf: &[u8]) -> io::Result<usize> {
        self.bytes.extend_from_slice(buf)?;
        Ok(buf.len())
    }

    fn flush(&mut self) -> io::Result<()> {
        Ok(())
    }

    fn write_all(&mut self, buf: &[u8]) -> io::Result<()> {
        self.bytes.extend_from_slice(buf)?;
        Ok(())
    }
}
