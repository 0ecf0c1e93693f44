//! Where answers go, and readers that are read once they have gone.

ghost use Rattle.std.specs.Prelude.{◌≡◌, ℕ, List, Option, None, Some, [], true, take, IfOk, OnOk, OnErr};
ghost use Rattle.std.specs.Borrow.{GName};
ghost use Rattle.std.specs.Io.{ReadsAtMost};
ghost use Rattle.std.specs.Io.KnownBytes.{Appends, Keeps, ReadConsumes};
ghost use Rattle.mm_session.specs.Turns.{AddsTurn, KeepsTurns, Turn};
ghost use Rattle.mm_session.specs.Writing.{AppendsFront};

use crate::stream::writing::{WriteFault, write_whole};
use std::alloc::Global;
use std::io;
use std::io::{BufWriter, Read, Write};

/// A writer of answers, which is known to hold nothing back once it is flushed.
pub trait Outlet {
    // the bytes that were written, where they are known
    ghost contents: { Self → Option (List ℕ) };

    // nothing is held back
    ghost is_flushed: { Self → Type 0 };

    // the reference by which a writer is lent, if it is
    ghost name: { Self → Option GName } = { λ _. None };

    /// Writes all the bytes.
    fn put(&mut self, bytes: &[u8]) -> Result<(), WriteFault>
        ensures ok { OnOk result (Appends (contents self.old) (contents self.new) bytes.now) }
        ensures fault { OnErr result (AppendsFront (contents self.old) (contents self.new) bytes.now) }
        ensures name { name self.new ≡ name self.old };

    /// Lets go of all that is held back.
    fn flush_all(&mut self) -> Result<(), WriteFault>
        ensures flushed { OnOk result (is_flushed self.new) }
        ensures bytes { Keeps (contents self.old) (contents self.new) }
        ensures name { name self.new ≡ name self.old };
}

impl<W: Write + Drop> Outlet for BufWriter<W, Global> {
    ghost use Rattle.std.specs.Io.Buffered.{writer_buffer, writer_contents};

    ghost contents = { writer_contents W.contents };

    ghost is_flushed = { λ w. writer_buffer w ≡ [] };

    fn put(&mut self, bytes: &[u8]) -> Result<(), WriteFault> {
        write_whole(self, bytes)
    }

    fn flush_all(&mut self) -> Result<(), WriteFault> {
        match self.flush() {
            Ok(()) => Ok(()),
            Err(_) => Err(WriteFault),
        }
    }
}

/// Any writer, lent, and whether it was flushed since the last bytes were put into it.
#[derive(Drop)]
pub struct Lent<'a, W> {
    pub writer: &'a mut W,
    pub is_flushed: bool,
}

impl<W: Write> Outlet for Lent<'_, W> {
    ghost contents = { λ lent. W.contents lent.writer.now };

    ghost is_flushed = { λ lent. lent.is_flushed ≡ true };

    ghost name = { λ lent. Some lent.writer.ghost_name };

    fn put(&mut self, bytes: &[u8]) -> Result<(), WriteFault> {
        self.is_flushed = false;
        write_whole(self.writer, bytes)
    }

    fn flush_all(&mut self) -> Result<(), WriteFault> {
        if self.writer.flush().is_err() {
            return Err(WriteFault);
        }
        self.is_flushed = true;
        Ok(())
    }
}

/// A reader that is read only while an outlet holds nothing back.
pub trait PromptRead<O: Outlet> {
    // the bytes that reads will give, where they are known
    ghost to_come: { Self → Option (List ℕ) };

    // what the outlet held at each read, and what came, where that is known
    ghost turns: { Self → Option (List Turn) } = { λ _. None };

    /// Reads as `Read` does, once all answers have left.
    fn read_when_flushed(&mut self, outlet: &O, buf: &mut [u8]) -> io::Result<usize>
        requires prompt { O.is_flushed outlet.now }
        ensures bound { ReadsAtMost result buf.new }
        ensures bytes { ReadConsumes (to_come self.old) (to_come self.new) result buf.new }
        ensures turn { IfOk result (λ n. AddsTurn (turns self.old) (turns self.new) (O.contents outlet.now, take n buf.new)) }
        ensures no_turn { OnErr result (KeepsTurns (turns self.old) (turns self.new)) };
}

impl<R: Read, O: Outlet> PromptRead<O> for R {
    ghost to_come = { R.remaining };

    fn read_when_flushed(&mut self, _: &O, buf: &mut [u8]) -> io::Result<usize> {
        self.read(buf)
    }
}
