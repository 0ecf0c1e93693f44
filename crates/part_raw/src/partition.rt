//! A partition: its block and the bitmap that tells which of its slots hold a tuple. What changes one changes both.
ghost use Rattle.std.specs.Prelude.{◌≡◌, ◌<◌, ◌≤◌, [], None, Some, length, slice_index_or, slice_set, List, IsSome, ◌*◌};
ghost use Rattle.std.specs.Vec.{vec_capacity};
ghost use Rattle.part_raw.specs.Rows.{rows_in, IsLaid};
ghost use Rattle.part_raw.specs.Layout.{IsPartition, vacancies};

use crate::bitmap::Bitmap;
use crate::block::Block;
use crate::row::{drop_row, read_row, write_row};
use crate::{MAX_WIDTH, SLOTS};

// Moves the cells into the first free slot.
pub(crate) fn fill<T>(held: &mut Bitmap, block: &mut Block<T>, cells: &mut Vec<T>) -> u32
    requires wide { (0 < length cells.old.items) × (length cells.old.items ≤ MAX_WIDTH) }
    requires laid { IsLaid (length cells.old.items) block.old }
    requires bits { IsPartition held.old.words (rows_in (length cells.old.items) block.old) }
    requires free { 0 < vacancies (rows_in (length cells.old.items) block.old) }
    ensures laid { IsLaid (length cells.old.items) block.new }
    ensures bits { IsPartition held.new.words (rows_in (length cells.old.items) block.new) }
    ensures slot { result < SLOTS }
    ensures fresh { slice_index_or (rows_in (length cells.old.items) block.old) result None ≡ None }
    ensures slots { rows_in (length cells.old.items) block.new ≡ slice_set (rows_in (length cells.old.items) block.old) result (Some cells.old.items) }
    ensures moved { cells.new.items ≡ [] }
    ensures capacity { vec_capacity cells.new ≡ vec_capacity cells.old }
{
    let slot = match held.first_clear() {
        Some(slot) => slot,
        None => unreachable!(),
    };
    held.set(slot);
    let width = cells.len();
    write_row(block, slot as usize * width, cells);
    slot
}

// Moves the cells of the slot into a vector that has room for them.
pub(crate) fn vacate<T>(
    held: &mut Bitmap,
    block: &mut Block<T>,
    slot: u32,
    width: usize,
    cells: &mut Vec<T>,
)
    requires wide { (0 < width) × (width ≤ MAX_WIDTH) }
    requires laid { IsLaid width block.old }
    requires bits { IsPartition held.old.words (rows_in width block.old) }
    requires held { IsSome (slice_index_or (rows_in width block.old) slot None) }
    requires empty { cells.old.items ≡ [] }
    requires room { width ≤ vec_capacity cells.old }
    ensures laid { IsLaid width block.new }
    ensures bits { IsPartition held.new.words (rows_in width block.new) }
    ensures row { slice_index_or (rows_in width block.old) slot None ≡ Some cells.new.items }
    ensures slots { rows_in width block.new ≡ slice_set (rows_in width block.old) slot None }
    ensures capacity { vec_capacity cells.new ≡ vec_capacity cells.old }
{
    held.clear(slot);
    read_row(block, slot as usize * width, width, cells);
}

// Drops the cells of the slot.
pub(crate) fn empty<T: Drop>(held: &mut Bitmap, block: &mut Block<T>, slot: u32, width: usize)
    requires wide { (0 < width) × (width ≤ MAX_WIDTH) }
    requires laid { IsLaid width block.old }
    requires bits { IsPartition held.old.words (rows_in width block.old) }
    requires held { IsSome (slice_index_or (rows_in width block.old) slot None) }
    ensures laid { IsLaid width block.new }
    ensures bits { IsPartition held.new.words (rows_in width block.new) }
    ensures slots { rows_in width block.new ≡ slice_set (rows_in width block.old) slot None }
{
    held.clear(slot);
    drop_row(block, slot as usize * width, width);
}

// Puts another value into the row of the slot, and gives the one that was there.
pub(crate) fn exchange<T>(
    block: &mut Block<T>,
    slot: u32,
    width: usize,
    column: usize,
    value: T,
) -> T
    requires wide { (0 < width) × (width ≤ MAX_WIDTH) }
    requires laid { IsLaid width block.old }
    requires column { column < width }
    requires held { IsSome (slice_index_or (rows_in width block.old) slot None) }
    ensures laid { IsLaid width block.new }
    ensures value { (cells : List T) → slice_index_or (rows_in width block.old) slot None ≡ Some cells → result ≡ slice_index_or cells column result }
    ensures slots { (cells : List T) → slice_index_or (rows_in width block.old) slot None ≡ Some cells
        → rows_in width block.new ≡ slice_set (rows_in width block.old) slot (Some (slice_set cells column value)) }
{
    let place = slot as usize * width + column;
    let old = block.read(place);
    block.write(place, value);
    old
}

// Drops each tuple that is held, and gives the memory back.
pub(crate) fn discard<T: Drop>(mut held: Bitmap, mut block: Block<T>, width: usize)
    requires wide { (0 < width) × (width ≤ MAX_WIDTH) }
    requires laid { IsLaid width block }
    requires bits { IsPartition held.words (rows_in width block) }
{
    while let Some(slot) = held.first_set() {
        empty(&mut held, &mut block, slot, width);
    }
    block.release(SLOTS as usize * width);
    block.let_go();
}
