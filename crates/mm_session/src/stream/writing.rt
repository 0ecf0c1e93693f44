//! Writing that says how much went out before it failed.

ghost use Rattle.std.specs.Prelude.{OnOk, OnErr};
ghost use Rattle.std.specs.Io.KnownBytes.{Appends};
ghost use Rattle.mm_session.specs.Writing.{AppendsFront};

use std::io::Write;

/// A write answered an error or took no byte.
#[derive(Clone, Copy)]
pub struct WriteFault;

/// Writes all the bytes, in as many writes as the writer takes.
pub fn write_whole<W: Write>(w: &mut W, bytes: &[u8]) -> Result<(), WriteFault>
    ensures ok { OnOk result (Appends (W.contents w.old) (W.contents w.new) bytes.now) }
    ensures fault { OnErr result (AppendsFront (W.contents w.old) (W.contents w.new) bytes.now) }
{
    let mut rest = bytes;
    while !rest.is_empty() {
        match w.write(rest) {
            Ok(0) | Err(_) => return Err(WriteFault),
            Ok(n) => rest = rest.split_at(n).1,
        }
    }
    Ok(())
}
