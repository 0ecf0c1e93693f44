//! Trees that are built from below, of so many references: their lists beside the vector that was handed in, and their shapes.

use no_memory::NoMemory;
use part_raw::TupleRef;
use std::alloc::Global;
use ttree::{ABREAST, Leading, TableTree, TreeShape};

// How many references, and how high a tree of how many nodes holds them.
const SIZES: [TreeShape; 8] = [
    TreeShape {
        height: 0,
        nodes: 0,
        items: 0,
    },
    TreeShape {
        height: 1,
        nodes: 1,
        items: 1,
    },
    TreeShape {
        height: 1,
        nodes: 1,
        items: 32,
    },
    TreeShape {
        height: 2,
        nodes: 2,
        items: 33,
    },
    TreeShape {
        height: 2,
        nodes: 2,
        items: 64,
    },
    TreeShape {
        height: 2,
        nodes: 3,
        items: 65,
    },
    TreeShape {
        height: 6,
        nodes: 32,
        items: 1_000,
    },
    TreeShape {
        height: 9,
        nodes: 313,
        items: 10_000,
    },
];

// Every third number, from 0 on.
fn rising_refs(alloc: Global, count: usize) -> Result<Vec<TupleRef>, NoMemory> {
    let mut refs = Vec::new(alloc);
    let mut number = 0u32;
    for _ in 0..count {
        refs.push(TupleRef { number })?;
        number = number.wrapping_add(3);
    }
    Ok(refs)
}

// Whether a tree that is built of so many references has them in their order, and stands as it should.
fn is_built(alloc: Global, wanted: TreeShape) -> Result<bool, NoMemory> {
    let refs = rising_refs(alloc, wanted.items)?;
    if refs.len() > 10_000 {
        return Ok(false);
    }
    let tree = TableTree::from_slice(alloc, refs.as_slice())?;
    let same = tree.walk().eq(refs.as_slice().iter().copied());
    Ok(same && tree.shape() == wanted && tree.spares() == 0)
}

#[test]
fn trees_are_built_of_so_many_references(rt: HostRuntime) {
    for wanted in SIZES {
        assert_eq!(rt; is_built(rt.alloc(), wanted), Ok(true));
    }
}

// References begin with their numbers.
struct Numbers;

impl Leading for Numbers {
    ghost can_read = { λ _ _. Unit {0} };

    fn number(&self, r: TupleRef) -> i64 {
        i64::from(r.number)
    }
}

// Sixteen numbers that a tree of every third number below 3,000 has. The first is the least of its node, where no search side by side
// ends.
const HELD: [i64; ABREAST] = [
    0, 186, 372, 558, 744, 930, 1_116, 1_302, 1_488, 1_674, 1_860, 2_046, 2_232, 2_418, 2_604,
    2_790,
];

// Sixteen that it doesn't have.
const ABSENT: [i64; ABREAST] = [
    1, 187, 373, 559, 745, 931, 1_117, 1_303, 1_489, 1_675, 1_861, 2_047, 2_233, 2_419, 2_605,
    2_791,
];

// How many searches side by side find such numbers in that tree.
fn found(alloc: Global, sought: &[i64]) -> Result<usize, NoMemory> {
    let refs = rising_refs(alloc, 1_000)?;
    if refs.len() > 1_000 {
        return Ok(0);
    }
    let tree = TableTree::from_slice(alloc, refs.as_slice())?;
    Ok(tree.warm(&Numbers, sought))
}

#[test]
fn searches_side_by_side_find_what_is_held(rt: HostRuntime) {
    assert_eq!(rt; found(rt.alloc(), &HELD), Ok(15));
    assert_eq!(rt; found(rt.alloc(), &ABSENT), Ok(0));
}

#[test]
fn searches_that_read_the_same_are_left_out(rt: HostRuntime) {
    for number in [-1, 1, 186, 2_997, 3_000] {
        assert_eq!(rt; found(rt.alloc(), &[number; ABREAST]), Ok(0));
    }
}
