//! Ten thousand random changes of a linear hash, of a hash of rows, and of the plain bag beside them; what a linear hash
//! holds; and what a copy of a hash of rows has.
ghost use Rattle.std.specs.Prelude.{Contains, IfOk};
ghost use Rattle.std.specs.Bool.{OnTrue};

use lin_hash::{LinHash, RowHash};
use mm_index::{ExactIndex, MAX_LEN, PlainBag};
use no_memory::NoMemory;
use part_raw::{MAX_TUPLES, TupleRef};
use std::alloc::Global;
use std::test::Fail;

fn numbered(number: u32) -> TupleRef {
    TupleRef { number }
}

fn reserve<E: ExactIndex>(index: &mut E, n: usize) -> Result<(), NoMemory> {
    if n < MAX_LEN && index.len() < MAX_LEN - n {
        index.reserve(n)
    } else {
        Ok(())
    }
}

fn add<E: ExactIndex>(index: &mut E, hash: u32, r: TupleRef) -> Result<(), NoMemory> {
    if index.len() >= MAX_LEN - 1 {
        return Ok(());
    }
    index.reserve(1)?;
    if index.len() < MAX_LEN {
        index.insert(hash, r);
    }
    Ok(())
}

// Puts a row in where it stands under no hash.
fn add_row(index: &mut RowHash, hash: u32, r: TupleRef) -> Result<(), NoMemory> {
    if u64::from(r.number) >= MAX_TUPLES {
        return Ok(());
    }
    index.reserve(1)?;
    index.cover(r)?;
    if index.len() < MAX_LEN && !index.holds(r) {
        index.insert(hash, r);
    }
    Ok(())
}

fn holds<E: ExactIndex>(alloc: Global, index: &E, hash: u32, r: TupleRef) -> Result<bool, NoMemory>
    ensures { IfOk result (λ held. OnTrue held (Contains (E.entries index.now) (hash, r))) }
{
    let mut found = Vec::new(alloc);
    index.matching(hash, &mut found)?;
    if found.as_slice().contains(&r) {
        Ok(true)
    } else {
        Ok(false)
    }
}

// Removes a pair where it is there.
fn take<E: ExactIndex>(
    alloc: Global,
    index: &mut E,
    hash: u32,
    r: TupleRef,
) -> Result<(), NoMemory> {
    if holds(alloc, index, hash, r)? {
        index.remove(hash, r);
    }
    Ok(())
}

// The numbers of references, in rising order.
fn sorted(alloc: Global, refs: &[TupleRef]) -> Result<Vec<u32>, NoMemory> {
    let mut numbers: Vec<u32> = refs.iter().map(|r| r.number).collect(alloc)?;
    numbers.sort_unstable();
    Ok(numbers)
}

// The numbers of the references with a hash, in rising order.
fn numbers<E: ExactIndex>(alloc: Global, index: &E, hash: u32) -> Result<Vec<u32>, NoMemory> {
    let mut found = Vec::new(alloc);
    index.matching(hash, &mut found)?;
    sorted(alloc, found.as_slice())
}

// The same pairs in a linear hash, in a hash of rows, in a plain bag and in a list, and how many buckets each hash is to have.
#[derive(Drop)]
struct Beside {
    pairs: LinHash,
    rows: RowHash,
    plain: PlainBag,
    held: Vec<(u32, TupleRef)>,
    buckets: usize,
}

impl Beside {
    fn new(alloc: Global) -> Beside {
        Beside {
            pairs: LinHash::new(alloc),
            rows: RowHash::new(alloc),
            plain: PlainBag::new(alloc),
            held: Vec::new(alloc),
            buckets: 4,
        }
    }

    // Puts a pair in. Where there are then more than twice as many as buckets, there is a bucket more.
    fn add(&mut self, hash: u32, r: TupleRef) -> Result<(), NoMemory> {
        add(&mut self.pairs, hash, r)?;
        add_row(&mut self.rows, hash, r)?;
        add(&mut self.plain, hash, r)?;
        self.held.push((hash, r))?;
        if self.held.len() > self.buckets.saturating_mul(2) {
            self.buckets = self.buckets.saturating_add(1);
        }
        Ok(())
    }

    // Takes the pair at a place out, to which the last one comes, and gives its hash. Where there are then fewer than half as
    // many as buckets, and more than four buckets, there is a bucket fewer.
    fn take_at(&mut self, alloc: Global, drawn: usize) -> Result<Option<u32>, NoMemory> {
        let Some(place) = drawn.checked_rem(self.held.len()) else {
            return Ok(None);
        };
        let (hash, r) = self.held.swap_remove(place);
        take(alloc, &mut self.pairs, hash, r)?;
        take(alloc, &mut self.plain, hash, r)?;
        if self.rows.holds(r) {
            self.rows.remove(r);
        }
        if self.held.len().saturating_mul(2) < self.buckets && self.buckets > 4 {
            self.buckets = self.buckets.saturating_sub(1);
        }
        Ok(Some(hash))
    }

    // Whether all have as many pairs as the list, and the hashes their buckets.
    fn has_its_size(&self) -> bool {
        let sizes = [self.pairs.len(), self.rows.len(), self.plain.len()];
        let buckets = [self.pairs.buckets(), self.rows.buckets()];
        sizes == [self.held.len(); 3] && buckets == [self.buckets; 2]
    }

    // Whether the hash has the same references in all.
    fn agrees(&self, alloc: Global, hash: u32) -> Result<bool, NoMemory> {
        let mut found = Vec::new(alloc);
        self.rows.matching(hash, &mut found)?;
        let rows = sorted(alloc, found.as_slice())?;
        let pairs = numbers(alloc, &self.pairs, hash)?;
        let plain = numbers(alloc, &self.plain, hash)?;
        Ok(rows.as_slice() == plain.as_slice() && pairs.as_slice() == plain.as_slice())
    }
}

fn next_seed(seed: u64) -> u64 {
    seed.wrapping_mul(6_364_136_223_846_793_005)
        .wrapping_add(1_442_695_040_888_963_407)
}

// Changes in four waves, each of which begins with more inserts than removes, and ends with more removes. The hashes lie
// below a limit. After each change the sizes are compared, and what has the hash that was met.
fn agrees_throughout(alloc: Global, limit: u32) -> Result<bool, NoMemory> {
    let mut all = Beside::new(alloc);
    let mut seed = 1986;
    for step in 0..10_000u32 {
        seed = next_seed(seed);
        let drawn = (seed >> 33) as u32;
        let inserts = if step % 2_500 < 1_500 { 7 } else { 1 };
        let mut hash = drawn.checked_rem(limit).unwrap_or(drawn);
        if drawn % 8 < inserts {
            all.add(hash, numbered(step))?;
        } else {
            hash = all.take_at(alloc, drawn as usize)?.unwrap_or(hash);
        }
        if !all.has_its_size() || !all.agrees(alloc, hash)? {
            return Ok(false);
        }
    }
    Ok(true)
}

#[test]
fn few_hashes_beside_the_plain_bag(rt: HostRuntime) {
    assert!(rt; agrees_throughout(rt.alloc(), 5) == Ok(true));
}

#[test]
fn many_hashes_beside_the_plain_bag(rt: HostRuntime) {
    assert!(rt; agrees_throughout(rt.alloc(), 1_000_000_007) == Ok(true));
}

fn fill(index: &mut LinHash) -> Result<(), NoMemory> {
    for number in 0..1_000 {
        add(index, number % 7, numbered(number))?;
    }
    Ok(())
}

fn empty(alloc: Global, index: &mut LinHash) -> Result<(), NoMemory> {
    for number in 0..1_000 {
        take(alloc, index, number % 7, numbered(number))?;
    }
    index.release_spares();
    Ok(())
}

/// A linear hash fills and empties, twice. It names the moments at which `tests/test_given_back.py` compares what is held.
#[test]
fn hash_nodes_are_given_back(rt: HostRuntime) -> Result<(), Fail> {
    let mut index = LinHash::new(rt.alloc());
    println!(rt; "held: nothing")?;
    fill(&mut index)?;
    empty(rt.alloc(), &mut index)?;
    println!(rt; "held: emptied")?;
    fill(&mut index)?;
    index.release_spares();
    println!(rt; "held: full")?;
    reserve(&mut index, 1_000)?;
    println!(rt; "held: reserved")?;
    index.release_spares();
    println!(rt; "held: released")?;
    empty(rt.alloc(), &mut index)?;
    println!(rt; "held: emptied again")?;
    drop(index);
    println!(rt; "held: dropped")?;
    Ok(())
}

// The rows with a hash, in rising order.
fn rows_of(alloc: Global, index: &RowHash, hash: u32) -> Result<Vec<u32>, NoMemory> {
    let mut found = Vec::new(alloc);
    index.matching(hash, &mut found)?;
    sorted(alloc, found.as_slice())
}

#[test]
fn a_copy_of_a_row_hash_stands_alone(rt: HostRuntime) -> Result<(), Fail> {
    let mut index = RowHash::new(rt.alloc());
    for number in 0..600 {
        add_row(&mut index, number % 7, numbered(number))?;
    }
    let mut copy = index.try_clone()?;
    assert!(&rt; copy.len() == 600 && copy.buckets() == index.buckets());
    assert!(&rt; copy.heads() == index.heads());
    assert!(&rt;
        rows_of(rt.alloc(), &copy, 3)?.as_slice() == rows_of(rt.alloc(), &index, 3)?.as_slice()
    );
    let r = numbered(3);
    assert!(&rt; copy.holds(r));
    copy.remove(r);
    add_row(&mut index, 5, numbered(600))?;
    assert!(&rt; !copy.holds(r) && !copy.holds(numbered(600)) && copy.len() == 599);
    assert!(&rt; index.holds(r) && index.holds(numbered(600)) && index.len() == 601);
    assert!(&rt;
        rows_of(rt.alloc(), &index, 3)?.len() == 86 && rows_of(rt.alloc(), &copy, 3)?.len() == 85
    );
    Ok(())
}

#[test]
fn a_copy_of_an_empty_row_hash_is_empty(rt: HostRuntime) -> Result<(), Fail> {
    let index = RowHash::new(rt.alloc());
    let mut copy = index.try_clone()?;
    assert!(&rt; copy.len() == 0 && copy.heads() == 0 && copy.buckets() == 4);
    add_row(&mut copy, 1, numbered(0))?;
    assert!(&rt; copy.len() == 1 && index.len() == 0);
    Ok(())
}
