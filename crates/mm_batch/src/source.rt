//! What a stream is read from, opened when the stream reaches it.

ghost use Rattle.std.specs.Io.{ReadsAtMost};

use crate::fault::SourceFault;
use crate::load::{LoadRequest, load_request};
use crate::quotes::odd_quotes;
use mm_lang::is_whole_name;
use plain_tables::LONGEST_BLOCK;
use std::fs::File;
use std::io;
use std::io::{Read, Stdin};

/// Where a source is to be found.
#[derive(Clone, Copy)]
pub enum Origin<'a> {
    /// Standard input.
    Input,
    /// A file of command lines.
    Commands { path: &'a str },
    /// A CSV file, to be loaded into a table.
    Load { table: &'a str, path: &'a str },
}

impl<'a> Origin<'a> {
    /// What a word names: standard input by `-`, and else a file of command lines.
    pub fn of_word(word: &'a str) -> Origin<'a> {
        if word == "-" {
            return Origin::Input;
        }
        Origin::Commands { path: word }
    }

    /// The load that a word names as TABLE=FILE, if TABLE can be the name of a table.
    pub fn of_load(word: &'a str) -> Option<Origin<'a>> {
        let (table, path) = word.split_once('=')?;
        if !is_whole_name(table.as_bytes()) {
            return None;
        }
        Some(Origin::Load { table, path })
    }

    /// The name of the file, if it is one.
    pub fn path(&self) -> Option<&'a str> {
        match *self {
            Origin::Input => None,
            Origin::Commands { path } | Origin::Load { path, .. } => Some(path),
        }
    }
}

// What a source is read from.
#[derive(Drop)]
enum Opened {
    Waiting,
    Input(Stdin),
    File(File),
    Load(LoadRequest),
    Ended,
}

/// A source of a stream. It gives no byte once it has ended.
#[derive(Drop)]
pub struct Source<'a> {
    rt: &'a HostRuntime,
    origin: Origin<'a>,
    // Whether a CSV file with odd quote marks can't be read.
    is_strict: bool,
    opened: Opened,
    fault: Option<SourceFault>,
}

// The bytes of a file, which is to be the block of a load.
fn read_block(rt: &HostRuntime, path: &str) -> Result<Vec<u8>, SourceFault> {
    let mut block = Vec::new(rt.alloc());
    File::open(rt, path)?
        .take(u64::from(LONGEST_BLOCK) + 1)
        .read_to_end(&mut block)?;
    if block.len() as u64 > u64::from(LONGEST_BLOCK) {
        return Err(SourceFault::TooLong);
    }
    Ok(block)
}

impl<'a> Source<'a> {
    /// A source that is not opened yet. Where it is a CSV file with odd quote marks, it can't be read if it is strict, and else
    /// standard error is told of the first.
    pub fn new(rt: &'a HostRuntime, origin: Origin<'a>, is_strict: bool) -> Source<'a> {
        Source {
            rt,
            origin,
            is_strict,
            opened: Opened::Waiting,
            fault: None,
        }
    }

    /// Where it is to be found.
    pub fn origin(&self) -> Origin<'a> {
        self.origin
    }

    /// Why a read failed, if one did.
    pub fn fault(&self) -> Option<SourceFault> {
        self.fault
    }

    // Looks for odd quote marks in a CSV file.
    fn check_quotes(&self, path: &str, csv: &[u8]) -> Result<(), SourceFault> {
        let Some(odd) = odd_quotes(csv) else {
            return Ok(());
        };
        if self.is_strict {
            return Err(SourceFault::OddQuotes(odd));
        }
        let _ = eprintln!(self.rt; "mmdb: {path}: {odd}");
        Ok(())
    }

    fn open(&self) -> Result<Opened, SourceFault> {
        match self.origin {
            Origin::Input => Ok(Opened::Input(self.rt.stdin())),
            Origin::Commands { path } => Ok(Opened::File(File::open(self.rt, path)?)),
            Origin::Load { table, path } => {
                let block = read_block(self.rt, path)?;
                self.check_quotes(path, &block)?;
                Ok(Opened::Load(load_request(self.rt.alloc(), table, block)?))
            }
        }
    }

    fn read_opened(&mut self, buf: &mut [u8]) -> io::Result<usize>
        ensures { ReadsAtMost result buf.new }
    {
        match &mut self.opened {
            Opened::Waiting | Opened::Ended => Ok(0),
            Opened::Input(input) => input.read(buf),
            Opened::File(file) => file.read(buf),
            Opened::Load(request) => request.read(buf),
        }
    }

    fn read_next(&mut self, buf: &mut [u8]) -> Result<usize, SourceFault>
        ensures { ReadsAtMost result buf.new }
    {
        if matches!(&self.opened, Opened::Waiting) {
            self.opened = self.open()?;
        }
        let n = self.read_opened(buf)?;
        if n == 0 {
            self.opened = Opened::Ended;
        }
        Ok(n)
    }
}

impl Read for Source<'_> {
    fn read(&mut self, buf: &mut [u8]) -> io::Result<usize> {
        match self.read_next(buf) {
            Ok(n) => Ok(n),
            Err(fault) => {
                self.fault = Some(fault);
                Err(io::Error::from(io::ErrorKind::Other))
            }
        }
    }
}
