//! The commands that statements were last filled to, by the numbers of these. They are kept for their room, so that a statement that
//! is executed again needs none for what it is filled to; what they say is of no use to anyone.

use no_memory::NoMemory;
use plain_tables::Resolved;
use std::alloc::Global;
use std::mem::replace;

/// A command for each of so many numbers, and one for all the others.
#[derive(Drop)]
pub struct Commands {
    kept: Vec<Resolved>,
    spare: Resolved,
}

impl Commands {
    /// None is kept. It takes no memory.
    pub fn new(alloc: Global) -> Commands {
        Commands {
            kept: Vec::new(alloc),
            spare: Resolved::Tables,
        }
    }

    // Makes one place more.
    fn add_place(&mut self) -> Result<(), NoMemory> {
        Ok(self.kept.push(Resolved::Tables)?)
    }

    /// Makes a place for the command of a number, as far as there is memory.
    pub fn make_place(&mut self, number: usize) {
        for _ in self.kept.len()..=number {
            if self.add_place().is_err() {
                return;
            }
        }
    }

    /// The command of a number, to be filled: its own where it has a place, or the one that all others share.
    pub fn at(&mut self, number: usize) -> &mut Resolved {
        match self.kept.get_mut(number) {
            Some(command) => command,
            None => &mut self.spare,
        }
    }

    /// Gives the room of a number's command back.
    pub fn empty(&mut self, number: usize) {
        if let Some(command) = self.kept.get_mut(number) {
            drop(replace(command, Resolved::Tables));
        }
    }
}
