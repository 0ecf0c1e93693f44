//! Stores of worked tuples: how often a cell is dropped, what is given back, and what a copy has.

use no_memory::NoMemory;
use part_raw::{MAX_TUPLES, Partitions, TryClone, TupleRef};
use std::alloc::Global;
use std::cell::Cell;
use std::process::Abort;
use std::test::Fail;

/// A cell that counts its drops.
struct Counted<'a> {
    drops: &'a Cell<u64>,
}

impl Drop for Counted<'_> {
    fn drop(self) {
        let Counted { drops } = self;
        drops.set(drops.get().wrapping_add(1));
    }
}

/// Puts so many tuples of three cells in, and removes each third of them.
fn fill_and_thin<'a>(
    rt: &impl Abort,
    alloc: Global,
    store: &mut Partitions<Counted<'a>>,
    drops: &'a Cell<u64>,
    count: u32,
) -> Result<(), NoMemory> {
    let mut cells = Vec::new(alloc);
    for number in 0..count {
        assert!(rt; store.len() < MAX_TUPLES);
        store.reserve()?;
        for _ in 0..3 {
            cells.push(Counted { drops })?;
        }
        assert!(rt; cells.len() == store.width());
        let r = store.put(&mut cells);
        if number % 3 == 0 {
            assert!(rt; store.holds(r));
            store.remove(r);
        }
    }
    Ok(())
}

#[test]
fn each_cell_is_dropped_once(rt: HostRuntime) -> Result<(), Fail> {
    let drops = Cell::new(0);
    let mut store = Partitions::new(rt.alloc(), 3);
    fill_and_thin(&rt, rt.alloc(), &mut store, &drops, 600)?;
    assert!(&rt; store.len() == 400 && drops.get() == 600);
    drop(store);
    assert!(&rt; drops.get() == 1_800);
    Ok(())
}

/// Puts the numbers below `count` in, each as a tuple.
fn put_numbers(
    rt: &impl Abort,
    alloc: Global,
    store: &mut Partitions<u64>,
    count: u64,
) -> Result<(), NoMemory> {
    let mut cells = Vec::new(alloc);
    for number in 0..count {
        assert!(rt; store.len() < MAX_TUPLES);
        cells.push(number)?;
        store.reserve()?;
        assert!(rt; cells.len() == store.width());
        store.put(&mut cells);
    }
    Ok(())
}

/// Removes the tuples of these slots.
fn remove_between(rt: &impl Abort, store: &mut Partitions<u64>, from: u32, to: u32) {
    for number in from..to {
        let r = TupleRef { number };
        assert!(rt; store.holds(r));
        store.remove(r);
    }
}

#[test]
fn what_is_given_back_is_free_no_more(rt: HostRuntime) -> Result<(), Fail> {
    let mut store = Partitions::new(rt.alloc(), 1);
    put_numbers(&rt, rt.alloc(), &mut store, 1_024)?;
    remove_between(&rt, &mut store, 256, 768);
    store.shed_spares(511);
    assert!(&rt; store.free() == 0 && store.slots() == 1_024);
    put_numbers(&rt, rt.alloc(), &mut store, 1)?;
    assert!(&rt; store.free() == 255 && store.slots() == 1_024);
    remove_between(&rt, &mut store, 768, 1_024);
    store.release_spares();
    assert!(&rt; store.free() == 255 && store.slots() == 512);
    Ok(())
}

/// Many slots come in as few partitions as they need, and are filled in their order.
#[test]
fn many_slots_are_reserved_at_once(rt: HostRuntime) -> Result<(), Fail> {
    let mut store = Partitions::new(rt.alloc(), 1);
    put_numbers(&rt, rt.alloc(), &mut store, 200)?;
    assert!(&rt; store.len() == 200);
    store.reserve_many(1_000)?;
    assert!(&rt; store.free() == 1_080 && store.slots() == 1_280);
    let mut cells = Vec::new(rt.alloc());
    for number in 200..1_200 {
        cells.push(u64::from(number))?;
        assert!(&rt; store.free() > 0 && cells.len() == store.width());
        assert!(&rt; store.put(&mut cells).number == number);
    }
    Ok(())
}

/// It names the moments at which `tests/test_given_back.py` compares what is held.
#[test]
fn counts_are_forgotten(rt: HostRuntime) -> Result<(), Fail> {
    let mut store = Partitions::<u64>::new(rt.alloc(), 1);
    println!(rt; "held: nothing")?;
    assert!(&rt; store.len() < MAX_TUPLES);
    store.reserve()?;
    println!(rt; "held: uncounted")?;
    assert!(&rt; !store.is_counted());
    store.keep_counts()?;
    println!(rt; "held: counted")?;
    store.forget_counts();
    println!(rt; "held: forgotten")?;
    store.release_spares();
    println!(rt; "held: released")?;
    Ok(())
}

/// Of three partitions the one in the middle goes and comes again. It names the moments at which
/// `tests/test_given_back.py` compares what is held.
#[test]
fn counts_go_with_their_partition(rt: HostRuntime) -> Result<(), Fail> {
    println!(rt; "held: nothing")?;
    for counted in [false, true] {
        let kept = if counted { "counted" } else { "uncounted" };
        let mut store = Partitions::new(rt.alloc(), 1);
        put_numbers(&rt, rt.alloc(), &mut store, 768)?;
        if counted {
            store.keep_counts()?;
        }
        println!(rt; "held: {kept}, full")?;
        remove_between(&rt, &mut store, 256, 512);
        store.release_spares();
        println!(rt; "held: {kept}, without the second")?;
        put_numbers(&rt, rt.alloc(), &mut store, 256)?;
        println!(rt; "held: {kept}, full again")?;
    }
    println!(rt; "held: nothing again")?;
    Ok(())
}

impl<'a> TryClone for Counted<'a> {
    fn try_clone(&self, _alloc: Global) -> Result<Counted<'a>, NoMemory> {
        Ok(Counted { drops: self.drops })
    }
}

/// A cell that is copied as it stands.
#[derive(Drop)]
struct Number(u64);

impl TryClone for Number {
    fn try_clone(&self, _alloc: Global) -> Result<Number, NoMemory> {
        Ok(Number(self.0))
    }
}

/// Puts a number in.
fn put_number(
    rt: &impl Abort,
    alloc: Global,
    store: &mut Partitions<Number>,
    number: u64,
) -> Result<TupleRef, NoMemory> {
    let mut cells = Vec::new(alloc);
    assert!(rt; store.len() < MAX_TUPLES);
    cells.push(Number(number))?;
    store.reserve()?;
    assert!(rt; cells.len() == store.width());
    Ok(store.put(&mut cells))
}

/// The number under a reference.
fn number_at(rt: &impl Abort, store: &Partitions<Number>, number: u32) -> Option<u64> {
    let r = TupleRef { number };
    assert!(rt; store.holds(r));
    store.get(r).first().map(|cell| cell.0)
}

#[test]
fn a_copy_stands_alone(rt: HostRuntime) -> Result<(), Fail> {
    let mut store = Partitions::new(rt.alloc(), 1);
    for number in 0..300 {
        put_number(&rt, rt.alloc(), &mut store, number)?;
    }
    store.keep_counts()?;
    let r = TupleRef { number: 299 };
    assert!(&rt; store.holds(r) && store.is_counted());
    store.set_count(r, 7);
    let mut copy = store.try_clone()?;
    assert!(&rt; copy.len() == 300 && copy.free() == 212 && copy.holds(r));
    assert!(&rt; *copy.count(r) == 7 && number_at(&rt, &copy, 255) == Some(255));
    copy.remove(r);
    let put = put_number(&rt, rt.alloc(), &mut copy, 1_000)?;
    assert!(&rt; number_at(&rt, &copy, put.number) == Some(1_000));
    assert!(&rt; number_at(&rt, &store, 299) == Some(299) && store.len() == 300);
    Ok(())
}

#[test]
fn a_copy_of_an_empty_store_is_empty(rt: HostRuntime) -> Result<(), Fail> {
    let store = Partitions::<Number>::new(rt.alloc(), 2);
    let mut copy = store.try_clone()?;
    assert!(&rt; copy.len() == 0 && copy.slots() == 0 && copy.width() == 2);
    copy.reserve()?;
    assert!(&rt; copy.free() == 256 && store.free() == 0);
    Ok(())
}

/// Of three partitions the one in the middle has given its memory back.
#[test]
fn the_cells_of_a_copy_are_its_own(rt: HostRuntime) -> Result<(), Fail> {
    let drops = Cell::new(0);
    let mut store = Partitions::new(rt.alloc(), 3);
    fill_and_thin(&rt, rt.alloc(), &mut store, &drops, 768)?;
    for number in 256..512 {
        let r = TupleRef { number };
        if store.holds(r) {
            store.remove(r);
        }
    }
    store.release_spares();
    let copy = store.try_clone()?;
    let before = drops.get();
    assert!(&rt; copy.len() == store.len() && copy.slots() == store.slots());
    let cells = 3 * copy.len();
    drop(copy);
    assert!(&rt; drops.get() == before.wrapping_add(cells));
    drop(store);
    Ok(())
}

/// A cell of which so many copies can be made, and that counts its drops.
struct Scarce<'a> {
    left: &'a Cell<u64>,
    drops: &'a Cell<u64>,
}

impl Drop for Scarce<'_> {
    fn drop(self) {
        let Scarce { left: _, drops } = self;
        drops.set(drops.get().wrapping_add(1));
    }
}

impl<'a> TryClone for Scarce<'a> {
    fn try_clone(&self, alloc: Global) -> Result<Scarce<'a>, NoMemory> {
        let left = self.left.get();
        if left == 0 {
            // No memory is as large.
            let _room: Vec<u64> = Vec::with_capacity(alloc, usize::MAX)?;
        }
        self.left.set(left.wrapping_sub(1));
        Ok(Scarce {
            left: self.left,
            drops: self.drops,
        })
    }
}

/// Copies end within a row, between two, within a second block, and not at all.
#[test]
fn a_copy_that_fails_drops_what_it_had(rt: HostRuntime) -> Result<(), Fail> {
    let left = Cell::new(0);
    let drops = Cell::new(0);
    let mut store = Partitions::new(rt.alloc(), 2);
    let mut cells = Vec::new(rt.alloc());
    for _ in 0..300 {
        assert!(&rt; store.len() < MAX_TUPLES);
        store.reserve()?;
        for _ in 0..2 {
            cells.push(Scarce {
                left: &left,
                drops: &drops,
            })?;
        }
        assert!(&rt; cells.len() == store.width());
        store.put(&mut cells);
    }
    for copies in [0, 1, 2, 3, 511, 512, 513, 599] {
        left.set(copies);
        drops.set(0);
        assert!(&rt; store.try_clone().is_err() && drops.get() == copies);
    }
    left.set(600);
    drops.set(0);
    assert!(&rt; store.try_clone().is_ok() && drops.get() == 600);
    Ok(())
}
