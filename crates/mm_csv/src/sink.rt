//! Where records go.

ghost use Rattle.std.specs.Prelude.{ℕ, List, Option, OnOk};
ghost use Rattle.std.specs.Io.KnownBytes.{Appends};

use plain_tables::NoMemory;

/// What records can be written to. It takes all bytes, unless a growth is refused.
pub trait ByteSink {
    // the bytes that it holds, where they are known
    ghost contents: { Self → Option (List ℕ) };

    /// Puts bytes behind what it holds.
    fn push_bytes(&mut self, bytes: &[u8]) -> Result<(), NoMemory>
        ensures { OnOk result (Appends (contents self.old) (contents self.new) bytes.now) };
}

impl ByteSink for Vec<u8> {
    ghost use Rattle.std.specs.Prelude.{Some};

    ghost contents = { λ v. Some v.items };

    fn push_bytes(&mut self, bytes: &[u8]) -> Result<(), NoMemory> {
        self.extend_from_slice(bytes)?;
        Ok(())
    }
}
