//! Several readers as one stream of lines.

ghost use Rattle.std.specs.Prelude.{◌≡◌, ◌+◌, ◌<◌, Ok, length, take, map, false, vec_len, MatchResult};
ghost use Rattle.std.specs.Io.{ReadsAtMost};
ghost use Rattle.std.specs.Io.KnownBytes.{Consumes, Keeps};
ghost use Rattle.mm_batch.specs.Joining.{left, joined_known};

use std::io;
use std::io::Read;

/// A reader that reads several, one behind the other.
pub trait Parts {
    /// The number of the reader that the last bytes are of. A line feed between two is of the first.
    fn given(&self) -> usize;
}

/// Readers, one read behind the other. Where the bytes of one end inside a line and another stands behind it, a line feed comes
/// between them.
#[derive(Drop)]
pub struct Joined<R> {
    readers: Vec<R>,
    // The reader that is read, and the one that the last bytes are of.
    place: usize,
    given: usize,
    // Whether the bytes so far end inside a line.
    is_inside: bool,
}

impl<R> Joined<R> {
    /// The reader that is read, if there is one left.
    pub fn current(&self) -> Option<&R> {
        self.readers.get(self.place)
    }
}

impl<R> Parts for Joined<R> {
    fn given(&self) -> usize {
        self.given
    }
}

impl<R: Read> Joined<R> {
    /// The stream of these readers, of which nothing is read yet.
    pub fn new(readers: Vec<R>) -> Joined<R>
        ensures { left R.remaining result ≡ joined_known false (map R.remaining readers.items) }
    {
        Joined {
            readers,
            place: 0,
            given: 0,
            is_inside: false,
        }
    }

    // Reads from the reader at hand, and gives 0 where that has ended and the next one is at hand.
    fn read_current(&mut self, buf: &mut [u8]) -> io::Result<usize>
        requires here { self.old.place < vec_len self.old.readers }
        requires room { 0 < length buf.old }
        ensures bound { ReadsAtMost result buf.new }
        ensures bytes { MatchResult result (λ n. Consumes (left R.remaining self.old) (left R.remaining self.new) (take n buf.new))
            (λ _. Keeps (left R.remaining self.old) (left R.remaining self.new)) }
        ensures ended { result ≡ Ok 0 → self.new.place ≡ self.old.place + 1 }
        ensures length { vec_len self.new.readers ≡ vec_len self.old.readers }
        ensures buffer { length buf.new ≡ length buf.old }
    {
        let n = self.readers[self.place].read(buf)?;
        if n > 0 {
            self.given = self.place;
            self.is_inside = buf[n - 1] != b'\n';
            return Ok(n);
        }
        self.place += 1;
        if self.is_inside && self.place < self.readers.len() {
            self.is_inside = false;
            buf[0] = b'\n';
            return Ok(1);
        }
        Ok(0)
    }
}

impl<R: Read> Read for Joined<R> {
    ghost remaining = { left R.remaining };

    fn read(&mut self, buf: &mut [u8]) -> io::Result<usize> {
        if buf.is_empty() {
            return Ok(0);
        }
        for _ in self.place..self.readers.len() {
            let n = self.read_current(buf)?;
            if n > 0 {
                return Ok(n);
            }
        }
        Ok(0)
    }
}
