//! Copies of cells, of the cells of a row, and of a block. Where memory runs out, what was copied so far is dropped.
ghost use Rattle.std.specs.Prelude.{◌≡◌, ℕ, ◌+◌, ◌*◌, ◌<◌, ◌≤◌, None, IfOk, OnErr, OnOk, length, slice_index_or};
ghost use Rattle.part_raw.specs.Rows.{rows_in, put_run, IsLaid};
ghost use Rattle.part_raw.specs.Layout.{IsPartition};

use crate::bitmap::Bitmap;
use crate::block::Block;
use crate::partition::discard;
use crate::row::drop_row;
use crate::{MAX_WIDTH, SLOTS};
use no_memory::NoMemory;
use std::alloc::Global;

/// A cell of which a copy can be made. The copy may take memory, and is as the cell.
pub trait TryClone: Drop {
    /// The copy.
    fn try_clone(&self, alloc: Global) -> Result<Self, NoMemory>
        ensures { IfOk result (λ copy. copy ≡ self.now) };
}

// Copies the values into empty places, from this one on. Without memory for them all the places are empty again.
fn copy_row<T: TryClone>(
    block: &mut Block<T>,
    from: usize,
    row: &[T],
    alloc: Global,
) -> Result<(), NoMemory>
    requires few { length block.old ≤ SLOTS * MAX_WIDTH }
    requires within { from + length row.now ≤ length block.old }
    requires empty { (i : ℕ) → i < length row.now → slice_index_or block.old (from + i) None ≡ None }
    ensures ok { OnOk result (block.new ≡ put_run block.old from row.now) }
    ensures err { OnErr result (block.new ≡ block.old) }
{
    for i in 0..row.len() {
        match row[i].try_clone(alloc) {
            Ok(copy) => block.write(from + i, copy),
            Err(refused) => {
                drop_row(block, from, i);
                return Err(refused);
            }
        }
    }
    Ok(())
}

// A block with copies of the rows that these bits tell of.
pub(crate) fn copy_block<T: TryClone>(
    held: Bitmap,
    block: &Block<T>,
    width: usize,
    alloc: Global,
) -> Result<Block<T>, NoMemory>
    requires wide { (0 < width) × (width ≤ MAX_WIDTH) }
    requires laid { IsLaid width block.now }
    requires bits { IsPartition held.words (rows_in width block.now) }
    ensures { IfOk result (λ copy. copy ≡ block.now) }
{
    let mut copy = Block::new(alloc, SLOTS as usize * width)?;
    let mut copied = Bitmap::new();
    for slot in 0..SLOTS {
        if !held.has(slot) {
            continue;
        }
        let from = slot as usize * width;
        if let Err(refused) = copy_row(&mut copy, from, block.run(from, width), alloc) {
            discard(copied, copy, width);
            return Err(refused);
        }
        copied.set(slot);
    }
    Ok(copy)
}
