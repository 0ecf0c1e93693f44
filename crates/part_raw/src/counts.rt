//! The counts of a store: for each partition the numbers of its slots, where the store keeps any.
ghost use Rattle.std.specs.Prelude.{◌≡◌, ◌<◌, [], IfOk, slice_index, slice_index_or, slice_set};
ghost use Rattle.part_raw.specs.Counted.{zeros};

use crate::SLOTS;
use std::alloc::{AllocError, Global};
use std::marker::Model;

const COUNTS: usize = SLOTS as usize;

// A number for each slot of a partition, and none for a partition with no slot. That of a slot that holds no tuple says
// nothing.
#[derive(Drop)]
pub struct Counts {
    numbers: Option<Box<[u64; COUNTS]>>,
}

impl Model for Counts {
    ghost use Rattle.std.specs.Prelude.{List, ℕ, [], ◌≡◌, length, option_map, unwrap_or, IfSome};

    ghost Value = { List ℕ };

    ghost view = { λ c. unwrap_or (option_map (λ b. b.value) c.numbers) [] };

    ghost invariant = { λ c. IfSome c.numbers (λ b. length b.value ≡ 256) };
}

impl Counts {
    // Those of a partition with slots, or with none. Each is 0.
    pub(crate) fn new(alloc: Global, has_slots: bool) -> Result<Counts, AllocError>
        ensures { IfOk result (λ counts. counts ≡ zeros has_slots) }
    {
        if !has_slots {
            return Ok(Counts::none());
        }
        let numbers = Box::new(alloc, [0; COUNTS])?;
        Ok(Counts {
            numbers: Some(numbers),
        })
    }

    // Those of a partition with no slot.
    pub(crate) fn none() -> Counts
        ensures { result ≡ [] }
    {
        Counts { numbers: None }
    }

    // The same numbers.
    fn try_clone(&self, alloc: Global) -> Result<Counts, AllocError>
        ensures { IfOk result (λ copy. copy ≡ self.now) }
    {
        match &self.numbers {
            Some(numbers) => Ok(Counts {
                numbers: Some(Box::new(alloc, **numbers)?),
            }),
            None => Ok(Counts::none()),
        }
    }

    // The count of a slot, which is not read here: 0 where there is none.
    fn at(&self, slot: u32) -> &u64
        requires { slot < SLOTS }
        ensures { result.now ≡ slice_index self.now slot }
    {
        match &self.numbers {
            Some(numbers) => &numbers[slot as usize],
            None => &0,
        }
    }

    // Sets the count of a slot, where there is one.
    fn set(&mut self, slot: u32, n: u64)
        requires { slot < SLOTS }
        ensures { self.new ≡ slice_set self.old slot n }
    {
        if let Some(numbers) = &mut self.numbers {
            numbers[slot as usize] = n;
        }
    }
}

// The count of a slot of a partition: 0 where none is kept.
pub(crate) fn count_at(counts: &Vec<Counts>, part: u32, slot: u32) -> &u64
    requires { slot < SLOTS }
    ensures { result.now ≡ slice_index (slice_index_or counts.now.items part []) slot }
{
    match counts.get(part as usize) {
        Some(numbers) => numbers.at(slot),
        None => &0,
    }
}

// Sets the count of a slot of a partition, where it is kept.
pub(crate) fn set_count_at(counts: &mut Vec<Counts>, part: u32, slot: u32, n: u64)
    requires { slot < SLOTS }
    ensures { counts.new.items ≡ slice_set counts.old.items part (slice_set (slice_index_or counts.old.items part []) slot n) }
{
    if let Some(numbers) = counts.get_mut(part as usize) {
        numbers.set(slot, n);
    }
}

// Puts others in the place of a partition's counts, where there are counts of partitions.
pub(crate) fn set_counts(counts: &mut Vec<Counts>, part: usize, others: Counts)
    ensures { counts.new.items ≡ slice_set counts.old.items part others }
{
    if let Some(numbers) = counts.get_mut(part) {
        *numbers = others;
    }
}

// The counts of each partition, copied.
pub(crate) fn copy_counts(counts: &Vec<Counts>, alloc: Global) -> Result<Vec<Counts>, AllocError>
    ensures { IfOk result (λ copies. copies.items ≡ counts.now.items) }
{
    let mut copies = Vec::with_capacity(alloc, counts.len())?;
    for numbers in counts {
        copies.push_reserved(numbers.try_clone(alloc)?);
    }
    Ok(copies)
}
