//! A writer that fails where a test wants it to.

use plain_tables::NoMemory;
use std::alloc::Global;
use std::io;
use std::io::Write;

/// Takes so many bytes and then fails. It needs no memory for them.
#[derive(Drop)]
pub struct Page {
    pub got: Vec<u8>,
    pub room: usize,
    flushes: bool,
}

impl Page {
    pub fn new(alloc: Global, room: usize, flushes: bool) -> Result<Page, NoMemory> {
        let got = Vec::with_capacity(alloc, room)?;
        Ok(Page { got, room, flushes })
    }
}

impl Write for Page {
    fn write(&mut self, buf: &[u8]) -> io::Result<usize> {
        let most = buf.len().min(self.room);
        if most == 0 {
            return Err(io::Error::from(io::ErrorKind::Other));
        }
        self.got.extend_from_slice(&buf[..most])?;
        self.room -= most;
        Ok(most)
    }

    fn flush(&mut self) -> io::Result<()> {
        if self.flushes {
            Ok(())
        } else {
            Err(io::Error::from(io::ErrorKind::Other))
        }
    }
}
