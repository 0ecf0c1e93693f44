//! Requests that come in pieces, each answered once it is whole.

use crate::answer::Answer;
use crate::execute::Executor;
use crate::fault::{NotOneRequest, ReadFault};
use crate::stream::kept::KeptInput;
use crate::stream::lines::{judge, judge_whole, split_line};
use crate::stream::pending_block::{PendingBlock, Unkept};
use mm_catalog::Catalog;
use plain_tables::NoMemory;
use plan_chooser::Policy;
use std::alloc::Global;

const BLOCK_TOO_LONG: &[u8] = b"error 12 block too long\n";

const BLOCK_CUT_SHORT: &[u8] = b"error 13 block cut short\n";

const NO_MEMORY: &[u8] = b"error 90 no memory\n";

/// Takes the bytes of a stream until a request is whole, and makes its answer. It writes nothing.
#[derive(Drop)]
pub struct Responder {
    alloc: Global,
    pub executor: Executor,
    pub kept: KeptInput,
    pub answer: Answer,
}

impl Responder {
    ghost use Rattle.std.specs.Prelude.{◌≡◌, ◌<◌, ◌+◌, [], ℕ, List, Some, None, IfOk, IsErrOf, OnOk, OnErr, IfSome, length, if◌then◌else◌, codes};
    ghost use Rattle.std.specs.Option.{option_copied};
    ghost use Rattle.plain_streams.specs.Requests.{Asks};
    ghost use Rattle.plain_streams.specs.Division.{IsUnbroken, IsWhole};
    ghost use Rattle.plain_streams.specs.Runs.{Answers, HasBlock};
    ghost use Rattle.mm_catalog.specs.Seen.{database_of};
    ghost use Rattle.mm_transactions.specs.State.{saved_of};
    ghost use Rattle.mm_session.specs.Buffers.{kept_of};
    ghost use Rattle.mm_session.specs.Kept.{KeepsBlock, nothing};
    ghost use Rattle.mm_session.specs.OneRequest.{AnswersOne};
    ghost use Rattle.mm_session.specs.Reads.{WouldChange};
    ghost use Rattle.mm_session.specs.declared.fault.ReadFault.TheVariants as read_fault;
    ghost use Rattle.mm_session.specs.Responding.{IsRest, IsRestWith, IsLoadLine, IsLineWith, Responds, Takes, Ends, waits};

    /// A responder over the tables of a catalog, to which nothing has come.
    pub fn new(alloc: Global, policy: Policy, catalog: Catalog) -> Result<Responder, NoMemory>
        ensures catalog { IfOk result (λ r. r.executor.tables.catalog ≡ catalog) }
        ensures none { IfOk result (λ r. saved_of r.executor.tables ≡ []) }
        ensures kept { IfOk result (λ r. r.kept ≡ nothing) }
    {
        Ok(Responder {
            alloc,
            executor: Executor::new(alloc, policy, catalog),
            kept: KeptInput::new(alloc)?,
            answer: Answer::new(alloc)?,
        })
    }

    // Answers the request of the line that is kept and this block. Nothing of the line is kept then.
    fn respond_kept(&mut self, block: &[u8])
        ensures answers { (line : List ℕ) → self.old.kept.line ≡ kept_of line → HasBlock self.old.executor.tables.catalog.limits (record { line = line; block = block.now })
            → Responds self.old self.new (record { line = line; block = block.now }) }
        ensures kept { self.new.kept ≡ record self.old.kept { line = kept_of [] } }
        ensures limits { self.new.executor.tables.catalog.limits ≡ self.old.executor.tables.catalog.limits }
        ensures saved { saved_of self.new.executor.tables ≡ saved_of self.old.executor.tables }
    {
        let line = self.kept.line.judged();
        self.executor.respond(&line, block, &mut self.answer);
        self.kept.line.clear();
    }

    // Answers the request of the line that is kept and a block that has come whole.
    fn end_block(&mut self, block: PendingBlock)
        requires { self.old.kept.block ≡ None }
        ensures answers { (line bytes : List ℕ) → self.old.kept.line ≡ kept_of line → Asks line (length bytes)
            → KeepsBlock self.old.executor.tables.catalog.limits.block (length bytes) bytes block
            → Responds self.old self.new (record { line = line; block = bytes }) }
        ensures kept { self.new.kept ≡ nothing }
        ensures limits { self.new.executor.tables.catalog.limits ≡ self.old.executor.tables.catalog.limits }
        ensures saved { saved_of self.new.executor.tables ≡ saved_of self.old.executor.tables }
    {
        match block {
            PendingBlock::Storing(buffer) => self.respond_kept(buffer.as_slice()),
            PendingBlock::Counting { why, .. } => {
                self.answer.set(match why {
                    Unkept::TooLong => BLOCK_TOO_LONG,
                    Unkept::NoMemory => NO_MEMORY,
                });
                self.kept.line.clear();
            }
        }
    }

    // Takes the next bytes of a block.
    fn take_block<'a>(&mut self, mut block: PendingBlock, bytes: &'a [u8]) -> Option<&'a [u8]>
        requires { self.old.kept.block ≡ None }
        ensures takes { Takes (IsRestWith self.old block) self.old self.new bytes.now (option_copied result) }
        ensures limits { self.new.executor.tables.catalog.limits ≡ self.old.executor.tables.catalog.limits }
        ensures saved { saved_of self.new.executor.tables ≡ saved_of self.old.executor.tables }
    {
        let to_come = block.to_come();
        if (bytes.len() as u64) < to_come {
            block.extend(bytes);
            self.kept.block = Some(block);
            return None;
        }
        let (last, others) = bytes.split_at(to_come as usize);
        block.extend(last);
        self.end_block(block);
        Some(others)
    }

    // Takes the bytes behind the line that is kept, which asks for a block of this length that is not there whole, or passes
    // the limit.
    fn begin_block<'a>(&mut self, length: u64, bytes: &'a [u8]) -> Option<&'a [u8]>
        requires block { self.old.kept.block ≡ None }
        requires some { 0 < length }
        ensures takes { Takes (IsLoadLine self.old length) self.old self.new bytes.now (option_copied result) }
        ensures limits { self.new.executor.tables.catalog.limits ≡ self.old.executor.tables.catalog.limits }
        ensures saved { saved_of self.new.executor.tables ≡ saved_of self.old.executor.tables }
    {
        let block = PendingBlock::new(self.alloc, length, self.executor.block_limit());
        self.take_block(block, bytes)
    }

    // Takes the end of a line, and the bytes behind its line feed. A line that came in one piece is not copied, nor is its
    // block, where that is there whole.
    fn end_line<'a>(&mut self, tail: &[u8], bytes: &'a [u8]) -> Option<&'a [u8]>
        requires block { self.old.kept.block ≡ None }
        requires unbroken { IsUnbroken tail.now }
        ensures takes { Takes (IsLineWith self.old tail.now) self.old self.new bytes.now (option_copied result) }
        ensures limits { self.new.executor.tables.catalog.limits ≡ self.old.executor.tables.catalog.limits }
        ensures saved { saved_of self.new.executor.tables ≡ saved_of self.old.executor.tables }
    {
        if self.kept.line.is_empty() {
            let line = judge(tail);
            return match self.executor.respond_in(&line, bytes, &mut self.answer) {
                Ok(others) => Some(others),
                Err(length) => {
                    self.kept.line.extend(tail);
                    self.begin_block(length, bytes)
                }
            };
        }
        self.kept.line.extend(tail);
        let line = self.kept.line.judged();
        match self.executor.respond_in(&line, bytes, &mut self.answer) {
            Ok(others) => {
                self.kept.line.clear();
                Some(others)
            }
            Err(length) => self.begin_block(length, bytes),
        }
    }

    /// Takes the bytes up to the end of a request, makes its answer, and gives the others. Where no request ends in the bytes, it
    /// takes them all.
    pub fn take<'a>(&mut self, bytes: &'a [u8]) -> Option<&'a [u8]>
        ensures takes { Takes (IsRest self.old) self.old self.new bytes.now (option_copied result) }
        ensures shorter { IfSome result (λ others. length others.now < length bytes.now + waits self.old.kept) }
        ensures limits { self.new.executor.tables.catalog.limits ≡ self.old.executor.tables.catalog.limits }
        ensures saved { saved_of self.new.executor.tables ≡ saved_of self.old.executor.tables }
    {
        if let Some(block) = self.kept.block.take() {
            return self.take_block(block, bytes);
        }
        match split_line(bytes) {
            Some((line, others)) => self.end_line(line, others),
            None => {
                self.kept.line.extend(bytes);
                None
            }
        }
    }

    // Refuses a block that passes the limit, or that the stream ends in.
    fn refuse_block(&mut self, passes: bool)
        ensures { self.new ≡ record self.old { answer = if passes then codes "error 12 block too long\n" else codes "error 13 block cut short\n" } }
    {
        self.answer.set(if passes {
            BLOCK_TOO_LONG
        } else {
            BLOCK_CUT_SHORT
        });
    }

    // Answers a line that the stream ends in, behind which no line feed and no block is.
    fn finish_line(&mut self)
        ensures answers { (line : List ℕ) → self.old.kept.line ≡ kept_of line → Responds self.old self.new (record { line = line; block = [] }) }
        ensures limits { self.new.executor.tables.catalog.limits ≡ self.old.executor.tables.catalog.limits }
        ensures saved { saved_of self.new.executor.tables ≡ saved_of self.old.executor.tables }
    {
        let line = self.kept.line.judged();
        let length = line.asked().unwrap_or(0);
        if length == 0 {
            return self.executor.respond(&line, &[], &mut self.answer);
        }
        let passes = length > self.executor.block_limit();
        self.refuse_block(passes);
    }

    /// Makes the answer to the last request, where the stream has ended in one.
    pub fn finish(&mut self)
        ensures answers { Ends self.old self.new }
        ensures limits { self.new.executor.tables.catalog.limits ≡ self.old.executor.tables.catalog.limits }
        ensures saved { saved_of self.new.executor.tables ≡ saved_of self.old.executor.tables }
    {
        match self.kept.block.take() {
            Some(block) => {
                let passes = block.is_too_long();
                self.refuse_block(passes);
            }
            None => self.finish_line(),
        }
    }

    /// Answers one request beside the stream. Of the stream it keeps what it did.
    pub fn answer_request(
        &mut self,
        line: &[u8],
        block: &[u8],
        answer: &mut Answer,
    ) -> Result<(), NotOneRequest>
        ensures ok { OnOk result (AnswersOne self.old.executor.tables.catalog.limits (database_of self.old.executor.tables.catalog) (record { line = line.now; block = block.now }) answer.new (database_of self.new.executor.tables.catalog)) }
        ensures err { OnErr result (¬ (IsWhole (record { line = line.now; block = block.now }))) }
        ensures unchanged { OnErr result ((self.new ≡ self.old) × (answer.new ≡ answer.old)) }
        ensures kept { self.new.kept ≡ self.old.kept }
        ensures limits { self.new.executor.tables.catalog.limits ≡ self.old.executor.tables.catalog.limits }
        ensures saved { saved_of self.new.executor.tables ≡ saved_of self.old.executor.tables }
    {
        let Some(judged) = judge_whole(line, block) else {
            return Err(NotOneRequest);
        };
        if block.len() as u64 > self.executor.block_limit() {
            answer.set(BLOCK_TOO_LONG);
            return Ok(());
        }
        self.executor.respond(&judged, block, answer);
        Ok(())
    }
    /// Answers one request that changes no tables.
    pub fn read_request(
        &self,
        line: &[u8],
        block: &[u8],
        answer: &mut Answer,
    ) -> Result<(), ReadFault>
        ensures ok { OnOk result (AnswersOne self.now.executor.tables.catalog.limits (database_of self.now.executor.tables.catalog) (record { line = line.now; block = block.now }) answer.new (database_of self.now.executor.tables.catalog)) }
        ensures err { IsErrOf result read_fault.NotOneRequest → ¬ (IsWhole (record { line = line.now; block = block.now })) }
        ensures changes { IsErrOf result read_fault.Changes → WouldChange (database_of self.now.executor.tables.catalog) (record { line = line.now; block = block.now }) }
        ensures unchanged { OnErr result (answer.new ≡ answer.old) }
    {
        let Some(judged) = judge_whole(line, block) else {
            return Err(ReadFault::NotOneRequest);
        };
        if block.len() as u64 > self.executor.block_limit() {
            answer.set(BLOCK_TOO_LONG);
            return Ok(());
        }
        let reading = self.executor.reading();
        match reading.respond(self.executor.tables.catalog(), &judged, block, answer) {
            Ok(()) => Ok(()),
            Err(_) => Err(ReadFault::Changes),
        }
    }
}
