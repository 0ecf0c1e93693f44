//! Ten thousand random inserts and removes in a T-tree, and in a sorted vector beside it.
ghost use Rattle.std.specs.Prelude.{◌≤◌};

use crate::keys::{KeyRange, Keys};
use mm_index::{OrderedIndex, SortedVec};
use no_memory::NoMemory;
use std::alloc::Global;
use ttree::TTree;

fn keys_from(low: u32) -> KeyRange {
    KeyRange {
        low,
        high: u32::MAX,
        asked: 0,
    }
}

// Whether walks over both give the same keys, all of them and those from that one on.
fn walk_alike<const MIN: usize, const MAX: usize>(
    tree: &Keys<TTree<MIN, MAX>>,
    sorted: &Keys<SortedVec>,
    low: u32,
) -> bool {
    let mut one = tree.index.walk_from(&mut keys_from(low));
    let other = sorted.index.walk_from(&mut keys_from(low));
    tree.index.walk().eq(sorted.index.walk()) && one.eq(other)
}

// Whether both have the same keys, by walks and in the range of 500 keys from that one on.
fn agree<const MIN: usize, const MAX: usize>(
    alloc: Global,
    tree: &Keys<TTree<MIN, MAX>>,
    sorted: &Keys<SortedVec>,
    low: u32,
) -> Result<bool, NoMemory> {
    let high = low.saturating_add(499);
    let one = tree.between(alloc, low, high)?;
    let other = sorted.between(alloc, low, high)?;
    Ok(walk_alike(tree, sorted, low) && one.as_slice() == other.as_slice())
}

// A key that is held, mostly where the keys are to become fewer, or any below 5,000.
fn drawn_key(sorted: &SortedVec, drawn: u32, fewer: bool) -> u32 {
    let is_held = drawn % 8 < if fewer { 7 } else { 1 };
    let drawn = drawn / 8;
    let len = sorted.len();
    let held = if is_held && len > 0 {
        sorted.walk().nth(drawn as usize % len)
    } else {
        None
    };
    held.map_or(drawn % 5_000, |r| r.number)
}

// The first step after which the two did not agree, of 10,000 in four waves: each begins with more inserts than removes,
// and ends with more removes.
fn first_wrong<const MIN: usize, const MAX: usize>(alloc: Global) -> Result<Option<u32>, NoMemory>
    requires some { 1 ≤ MIN }
    requires ordered { MIN ≤ MAX }
    requires two { 2 ≤ MAX }
{
    let mut tree: Keys<TTree<MIN, MAX>> = Keys::new(TTree::new(alloc));
    let mut sorted = Keys::new(SortedVec::new(alloc));
    let mut seed = 1986u64;
    for step in 0..10_000u32 {
        seed = seed
            .wrapping_mul(6_364_136_223_846_793_005)
            .wrapping_add(1_442_695_040_888_963_407);
        let drawn = (seed >> 33) as u32;
        let key = drawn_key(&sorted.index, drawn, step % 2_500 >= 1_250);
        tree.flip(key)?;
        sorted.flip(key)?;
        if step % 10 == 9 && !agree(alloc, &tree, &sorted, key)? {
            return Ok(Some(step));
        }
    }
    Ok(None)
}

#[test]
fn ten_thousand_toggles(rt: HostRuntime) {
    assert!(rt; first_wrong::<1, 2>(rt.alloc()) == Ok(None));
    assert!(rt; first_wrong::<2, 3>(rt.alloc()) == Ok(None));
    assert!(rt; first_wrong::<30, 32>(rt.alloc()) == Ok(None));
}
