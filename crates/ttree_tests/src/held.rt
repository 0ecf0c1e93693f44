//! A T-tree that fills and empties, twice. It names the moments at which `tests/test_given_back.py` compares what is held.

use crate::keys::Keys;
use no_memory::NoMemory;
use std::test::Fail;
use ttree::TTree;

type Tree = Keys<TTree<30, 32>>;

// Puts the keys below 1,000 in, in a scattered order, or takes them out where they are there.
fn flip_all(tree: &mut Tree) -> Result<(), NoMemory> {
    for number in 0..1_000 {
        tree.flip(number * 67 % 1_000)?;
    }
    Ok(())
}

#[test]
fn t_tree_nodes_are_given_back(rt: HostRuntime) -> Result<(), Fail> {
    let mut tree = Keys::new(TTree::new(rt.alloc()));
    println!(rt; "held: nothing")?;
    flip_all(&mut tree)?;
    flip_all(&mut tree)?;
    tree.release_spares();
    println!(rt; "held: emptied")?;
    flip_all(&mut tree)?;
    tree.release_spares();
    println!(rt; "held: full")?;
    let copy = tree.try_clone()?;
    println!(rt; "held: copied")?;
    drop(copy);
    tree.reserve(1_000)?;
    println!(rt; "held: reserved")?;
    tree.release_spares();
    println!(rt; "held: released")?;
    flip_all(&mut tree)?;
    tree.release_spares();
    println!(rt; "held: emptied again")?;
    drop(tree);
    println!(rt; "held: dropped")?;
    Ok(())
}
