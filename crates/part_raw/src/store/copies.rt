//! The copy of a store, partition by partition.
ghost use Rattle.std.specs.Prelude.{◌≡◌, ◌<◌, ◌≤◌, IfOk, [], false, true};
ghost use Rattle.part_raw.specs.Layout.{IsPartition};
ghost use Rattle.part_raw.specs.Rows.{IsLaid, rows_in};
ghost use Rattle.part_raw.specs.Open.{AreKept};
ghost use Rattle.part_raw.specs.Copies.{AreFirst};

use super::{Occupancy, Partitions};
use crate::MAX_WIDTH;
use crate::block::Block;
use crate::copying::{TryClone, copy_block};
use crate::counts::copy_counts;
use crate::partition::discard;
use no_memory::NoMemory;
use std::alloc::Global;

impl<T: TryClone> Partitions<T> {
    /// A store of its own with a copy of each tuple under the same reference, and with the same counts and free slots. It
    /// takes the memory of the copy, and gives all of it back where it runs out.
    pub fn try_clone(&self) -> Result<Partitions<T>, NoMemory>
        ensures { IfOk result (λ copy. copy ≡ self.now) }
    {
        let occupancies = Vec::from_slice(self.alloc, self.occupancies.as_slice())?;
        let counts = copy_counts(&self.counts, self.alloc)?;
        let blocks = copy_blocks(&self.blocks, &self.occupancies, self.width, self.alloc)?;
        Ok(Partitions {
            alloc: self.alloc,
            width: self.width,
            blocks,
            counts,
            occupancies,
            slots: self.slots,
            free: self.free,
            first_open: self.first_open,
            next_bare: self.next_bare,
            spare: self.spare,
            counted: self.counted,
        })
    }
}

// The blocks of these partitions, each copied.
fn copy_blocks<T: TryClone>(
    blocks: &Vec<Block<T>>,
    occupancies: &Vec<Occupancy>,
    width: usize,
    alloc: Global,
) -> Result<Vec<Block<T>>, NoMemory>
    requires wide { (0 < width) × (width ≤ MAX_WIDTH) }
    requires kept { AreKept width blocks.now.items occupancies.now.items }
    ensures { IfOk result (λ copies. copies.items ≡ blocks.now.items) }
{
    let mut copies = Vec::with_capacity(alloc, blocks.len())?;
    for part in 0..blocks.len() {
        match copy_place(&occupancies[part], &blocks[part], width, alloc) {
            Ok(copy) => copies.push_reserved(copy),
            Err(refused) => {
                discard_blocks(copies, occupancies, width);
                return Err(refused);
            }
        }
    }
    Ok(copies)
}

// The block of a partition, copied, where it has one.
fn copy_place<T: TryClone>(
    occupancy: &Occupancy,
    block: &Block<T>,
    width: usize,
    alloc: Global,
) -> Result<Block<T>, NoMemory>
    requires wide { (0 < width) × (width ≤ MAX_WIDTH) }
    requires laid { occupancy.now.has_block ≡ true → IsLaid width block.now }
    requires bits { occupancy.now.has_block ≡ true → IsPartition occupancy.now.held.words (rows_in width block.now) }
    requires bare { occupancy.now.has_block ≡ false → block.now ≡ [] }
    ensures { IfOk result (λ copy. copy ≡ block.now) }
{
    if occupancy.has_block {
        copy_block(occupancy.held, block, width, alloc)
    } else {
        Ok(block.bare())
    }
}

// Drops what the blocks of the first partitions hold, and gives their memory back.
fn discard_blocks<T: Drop>(mut blocks: Vec<Block<T>>, occupancies: &Vec<Occupancy>, width: usize)
    requires wide { (0 < width) × (width ≤ MAX_WIDTH) }
    requires first { AreFirst width blocks.items occupancies.now.items }
{
    while let Some(block) = blocks.pop() {
        let occupancy = occupancies[blocks.len()];
        if occupancy.has_block {
            discard(occupancy.held, block, width);
        } else {
            block.let_go();
        }
    }
    blocks.destroy_empty();
}
