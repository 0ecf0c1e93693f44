//! A row's values, moved into the places of a slot and out of them, one by one.
ghost use Rattle.std.specs.Prelude.{◌≡◌, ℕ, ◌+◌, ◌*◌, ◌<◌, ◌≤◌, [], None, Some, IsSome, length, slice_index_or};
ghost use Rattle.std.specs.Vec.{vec_capacity};
ghost use Rattle.part_raw.specs.Rows.{window, row_of, put_run, clear_run};

use crate::block::Block;
use crate::{MAX_WIDTH, SLOTS};

// Moves the values into empty places, from this one on. The vector keeps its memory.
pub(crate) fn write_row<T>(block: &mut Block<T>, from: usize, row: &mut Vec<T>)
    requires few { length block.old ≤ SLOTS * MAX_WIDTH }
    requires within { from + length row.old.items ≤ length block.old }
    requires empty { (i : ℕ) → i < length row.old.items → slice_index_or block.old (from + i) None ≡ None }
    ensures places { block.new ≡ put_run block.old from row.old.items }
    ensures moved { row.new.items ≡ [] }
    ensures capacity { vec_capacity row.new ≡ vec_capacity row.old }
{
    while let Some(value) = row.pop() {
        block.write(from + row.len(), value);
    }
}

// Moves the values of these places into a vector that has room for them.
pub(crate) fn read_row<T>(block: &mut Block<T>, from: usize, width: usize, row: &mut Vec<T>)
    requires few { length block.old ≤ SLOTS * MAX_WIDTH }
    requires within { from + width ≤ length block.old }
    requires held { IsSome (row_of (window from width block.old)) }
    requires empty { row.old.items ≡ [] }
    requires room { width ≤ vec_capacity row.old }
    ensures row { row_of (window from width block.old) ≡ Some row.new.items }
    ensures places { block.new ≡ clear_run block.old from width }
    ensures capacity { vec_capacity row.new ≡ vec_capacity row.old }
{
    for i in 0..width {
        let value = block.read(from + i);
        row.push_reserved(value);
    }
}

// Drops the values of these places.
pub(crate) fn drop_row<T: Drop>(block: &mut Block<T>, from: usize, width: usize)
    requires few { length block.old ≤ SLOTS * MAX_WIDTH }
    requires within { from + width ≤ length block.old }
    requires held { IsSome (row_of (window from width block.old)) }
    ensures { block.new ≡ clear_run block.old from width }
{
    for i in 0..width {
        drop(block.read(from + i));
    }
}
