//! Where the requests of a stream begin and end, and what of the one that comes is kept to tell why it was refused.

ghost use Rattle.std.specs.Prelude.{◌<◌, ◌≤◌, length};

use mm_session::{LONGEST_LINE, judge_line, split_line};
use plain_tables::NoMemory;
use std::alloc::Global;

// The bytes that are kept of a line: a carriage return may stand behind the longest, and one more byte tells a longer line.
const KEPT_OF_LINE: usize = LONGEST_LINE + 2;

/// Where a line stands: the number of its reader, from 0, and its own in that, from 1.
#[derive(Clone, Copy)]
pub struct FilePlace {
    pub reader: usize,
    pub line: u64,
}

/// The request that comes, and where in the stream it began.
#[derive(Drop)]
pub struct Follower {
    alloc: Global,
    longest_block: u64,
    // Where the request began, and where the next byte stands.
    begun: FilePlace,
    next: FilePlace,
    line: Vec<u8>,
    block: Vec<u8>,
    // Whether the block is kept, and how many bytes of it are to come.
    keeps_block: bool,
    to_come: u64,
}

impl Follower {
    /// At the start of a stream. No block is kept that is longer than that.
    pub fn new(alloc: Global, longest_block: u64) -> Result<Follower, NoMemory> {
        let start = FilePlace { reader: 0, line: 1 };
        Ok(Follower {
            alloc,
            longest_block,
            begun: start,
            next: start,
            line: Vec::with_capacity(alloc, KEPT_OF_LINE)?,
            block: Vec::new(alloc),
            keeps_block: true,
            to_come: 0,
        })
    }

    /// Where the request began.
    pub fn begun(&self) -> FilePlace {
        self.begun
    }

    /// The line of the request, as far as it has come.
    pub fn line(&self) -> &[u8] {
        &self.line
    }

    /// The bytes of the block that have come, if they are kept.
    pub fn block(&self) -> Option<&[u8]> {
        if self.keeps_block {
            Some(&self.block)
        } else {
            None
        }
    }

    /// Goes on with the bytes of the reader of this number.
    pub fn go_to(&mut self, reader: usize) {
        if self.next.reader != reader {
            self.next = FilePlace { reader, line: 1 };
        }
    }

    /// Goes on to the request behind the one that has ended.
    pub fn begin_next(&mut self) {
        self.line.clear();
        self.block = Vec::new(self.alloc);
        self.keeps_block = true;
    }

    fn count_lines(&mut self, more: usize) {
        self.next.line = self.next.line.saturating_add(more as u64);
    }

    // Takes bytes of the line, as far as they are kept.
    fn take_line(&mut self, bytes: &[u8]) {
        if self.line.is_empty() {
            self.begun = self.next;
        }
        let room = KEPT_OF_LINE.saturating_sub(self.line.len());
        let (front, _) = bytes.split_at(room.min(bytes.len()));
        let _ = self.line.extend_from_slice(front);
    }

    // Makes room for the block that the line asks for, if it asks for one and there is room.
    fn begin_block(&mut self) {
        self.to_come = match judge_line(&self.line) {
            Some(line) => line.asked().unwrap_or(0),
            None => 0,
        };
        if self.to_come == 0 {
            return;
        }
        self.keeps_block = false;
        if self.to_come <= self.longest_block {
            if let Ok(block) = Vec::with_capacity(self.alloc, self.to_come as usize) {
                self.block = block;
                self.keeps_block = true;
            }
        }
    }

    // Takes bytes of the block.
    fn take_block(&mut self, bytes: &[u8]) {
        self.count_lines(bytes.iter().filter(|c| **c == b'\n').count());
        self.to_come = self.to_come.saturating_sub(bytes.len() as u64);
        if self.keeps_block {
            let _ = self.block.extend_from_slice(bytes);
        }
    }

    // Takes the bytes up to the end of a line or of a block, or all where neither ends in them. It tells how many it took.
    fn take(&mut self, bytes: &[u8]) -> usize
        ensures within { result ≤ length bytes.now }
        ensures some { 0 < length bytes.now → 0 < result }
    {
        if self.to_come > 0 {
            let length = self.to_come.min(bytes.len() as u64) as usize;
            let (front, _) = bytes.split_at(length);
            self.take_block(front);
            return length;
        }
        match split_line(bytes) {
            Some((front, _)) => {
                self.take_line(front);
                self.count_lines(1);
                self.begin_block();
                front.len() + 1
            }
            None => {
                self.take_line(bytes);
                bytes.len()
            }
        }
    }

    /// Follows bytes of the request, up to its end at most.
    pub fn follow(&mut self, bytes: &[u8]) {
        let mut rest = bytes;
        while !rest.is_empty() {
            let n = self.take(rest);
            rest = rest.split_at(n).1;
        }
    }
}
