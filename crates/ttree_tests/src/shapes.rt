//! Worked runs of inserts and removals: the shapes of the trees.

use crate::keys::Keys;
use mm_index::OrderedIndex;
use no_memory::NoMemory;
use std::alloc::Global;
use ttree::TTree;

// Keys that are put in, or taken out where they are there, and the tree after that: its height, how many keys it has, and
// some of its nodes, each by the path from the root. Where the path leads to no node, there are no keys.
struct Step {
    flipped: &'static [u32],
    height: usize,
    len: usize,
    nodes: &'static [(&'static str, &'static [u32])],
}

// Each run begins with an empty tree.
const RUNS: [&[Step]; 6] = [
    // A slide and a double rotation on the left; then inserts that turn nothing.
    &[
        Step {
            flipped: &[10, 20, 30, 1, 2, 3, 5],
            height: 2,
            len: 7,
            nodes: &[
                ("", &[2, 3, 5]),
                ("L", &[1]),
                ("R", &[10, 20, 30]),
                ("LL", &[]),
                ("LR", &[]),
                ("RL", &[]),
                ("RR", &[]),
            ],
        },
        Step {
            flipped: &[4, 6, 15],
            height: 3,
            len: 10,
            nodes: &[
                ("", &[3, 4, 5]),
                ("L", &[1, 2]),
                ("R", &[15, 20, 30]),
                ("RL", &[6, 10]),
                ("RLL", &[]),
                ("RLR", &[]),
                ("LL", &[]),
                ("LR", &[]),
                ("RR", &[]),
            ],
        },
    ],
    // The same on the right.
    &[Step {
        flipped: &[10, 20, 30, 60, 50, 40, 35],
        height: 2,
        len: 7,
        nodes: &[
            ("", &[35, 40, 50]),
            ("L", &[10, 20, 30]),
            ("R", &[60]),
            ("LL", &[]),
            ("LR", &[]),
            ("RL", &[]),
            ("RR", &[]),
        ],
    }],
    // A single rotation on the left.
    &[Step {
        flipped: &[10, 9, 8, 7, 6, 5, 4, 3, 2, 1],
        height: 3,
        len: 10,
        nodes: &[
            ("", &[5, 6, 7]),
            ("L", &[2, 3, 4]),
            ("R", &[8, 9, 10]),
            ("LL", &[1]),
            ("LLL", &[]),
            ("LLR", &[]),
            ("LR", &[]),
            ("RL", &[]),
            ("RR", &[]),
        ],
    }],
    // A single rotation on the right; then a leaf is freed, and the root turns.
    &[
        Step {
            flipped: &[1, 2, 3, 4, 5, 6, 7, 8, 9, 10],
            height: 3,
            len: 10,
            nodes: &[
                ("", &[4, 5, 6]),
                ("L", &[1, 2, 3]),
                ("R", &[7, 8, 9]),
                ("RR", &[10]),
                ("RRL", &[]),
                ("RRR", &[]),
                ("RL", &[]),
                ("LL", &[]),
                ("LR", &[]),
            ],
        },
        Step {
            flipped: &[1, 2, 3],
            height: 2,
            len: 7,
            nodes: &[
                ("", &[7, 8, 9]),
                ("L", &[4, 5, 6]),
                ("R", &[10]),
                ("LL", &[]),
                ("LR", &[]),
                ("RL", &[]),
                ("RR", &[]),
            ],
        },
    ],
    // An internal node borrows; then a leaf is freed, and the root turns.
    &[
        Step {
            flipped: &[1, 2, 3, 4, 5, 6, 7, 8, 9, 10],
            height: 3,
            len: 10,
            nodes: &[
                ("", &[4, 5, 6]),
                ("L", &[1, 2, 3]),
                ("R", &[7, 8, 9]),
                ("RL", &[]),
                ("RR", &[10]),
            ],
        },
        Step {
            flipped: &[5, 4, 6],
            height: 3,
            len: 7,
            nodes: &[("", &[2, 3]), ("L", &[1]), ("R", &[7, 8, 9]), ("RR", &[10])],
        },
        Step {
            flipped: &[3],
            height: 2,
            len: 6,
            nodes: &[
                ("", &[7, 8, 9]),
                ("L", &[1, 2]),
                ("R", &[10]),
                ("LL", &[]),
                ("LR", &[]),
                ("RL", &[]),
                ("RR", &[]),
            ],
        },
    ],
    // A half-leaf takes its leaf.
    &[
        Step {
            flipped: &[10, 20, 30, 1, 2, 3, 5],
            height: 2,
            len: 7,
            nodes: &[("", &[2, 3, 5]), ("L", &[1]), ("R", &[10, 20, 30])],
        },
        Step {
            flipped: &[5, 3],
            height: 2,
            len: 5,
            nodes: &[
                ("", &[1, 2]),
                ("L", &[]),
                ("R", &[10, 20, 30]),
                ("RL", &[]),
                ("RR", &[]),
            ],
        },
        Step {
            flipped: &[30, 20],
            height: 1,
            len: 3,
            nodes: &[("", &[1, 2, 10]), ("L", &[]), ("R", &[])],
        },
        Step {
            flipped: &[2, 1, 10],
            height: 0,
            len: 0,
            nodes: &[("", &[])],
        },
    ],
];

// Whether the node at the end of the path has these keys.
fn is_at(tree: &TTree<2, 3>, path: &str, keys: &[u32]) -> bool {
    let mut look = tree.look();
    for step in path.as_bytes() {
        if *step == b'L' && look.has_left() {
            look.down_left();
        } else if *step == b'R' && look.has_right() {
            look.down_right();
        } else {
            return keys.is_empty();
        }
    }
    look.items()
        .iter()
        .map(|r| r.number)
        .eq(keys.iter().copied())
}

fn has_nodes(tree: &TTree<2, 3>, nodes: &[(&str, &[u32])]) -> bool {
    for (path, keys) in nodes {
        if !is_at(tree, *path, *keys) {
            return false;
        }
    }
    true
}

fn flip_all(tree: &mut Keys<TTree<2, 3>>, keys: &[u32]) -> Result<(), NoMemory> {
    for key in keys {
        tree.flip(*key)?;
    }
    Ok(())
}

// The number of the first step after which the tree has another shape.
fn first_misshapen(alloc: Global, steps: &[Step]) -> Result<Option<usize>, NoMemory> {
    let mut tree = Keys::new(TTree::new(alloc));
    for (number, step) in steps.iter().enumerate() {
        flip_all(&mut tree, step.flipped)?;
        let has_size = tree.index.height() == step.height && tree.index.len() == step.len;
        if !has_size || !has_nodes(&tree.index, step.nodes) {
            return Ok(Some(number));
        }
    }
    Ok(None)
}

#[test]
fn trees_have_their_shapes(rt: HostRuntime) {
    for run in RUNS {
        assert_eq!(rt; first_misshapen(rt.alloc(), run), Ok(None));
    }
}

// Whether a tree is as it should be after a step.
fn stands(tree: &TTree<2, 3>, step: &Step) -> bool {
    tree.height() == step.height && tree.len() == step.len && has_nodes(tree, step.nodes)
}

// Whether a tree stands as its copy is changed, and another copy of it as the tree is changed.
fn are_apart(tree: &mut Keys<TTree<2, 3>>, step: &Step) -> Result<bool, NoMemory> {
    let mut changed = tree.try_clone()?;
    flip_all(&mut changed, step.flipped)?;
    if !stands(&tree.index, step) {
        return Ok(false);
    }
    let kept = tree.try_clone()?;
    let had = (tree.index.nodes(), tree.index.spares());
    flip_all(tree, step.flipped)?;
    let both = tree.index.walk().eq(changed.index.walk());
    let has = (kept.index.nodes(), kept.index.spares());
    *tree = kept;
    Ok(both && has == had && stands(&tree.index, step))
}

// The number of the first step after which a copy of the tree has another shape, or shares a change.
fn first_miscopied(alloc: Global, steps: &[Step]) -> Result<Option<usize>, NoMemory> {
    let mut tree = Keys::new(TTree::new(alloc).try_clone()?);
    for (number, step) in steps.iter().enumerate() {
        flip_all(&mut tree, step.flipped)?;
        if !are_apart(&mut tree, step)? {
            return Ok(Some(number));
        }
    }
    Ok(None)
}

#[test]
fn copies_have_their_shapes(rt: HostRuntime) {
    for run in RUNS {
        assert_eq!(rt; first_miscopied(rt.alloc(), run), Ok(None));
    }
}
