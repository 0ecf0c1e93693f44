//! How a vector grows.
ghost use Rattle.std.specs.Prelude.{◌≡◌, ◌≤◌, vec_len, vec_capacity, OnOk};
ghost use Rattle.lin_hash.specs.Held.{StaysOrDoubles};

use no_memory::NoMemory;

// The first memory of a vector is for so many elements at least.
const FIRST_CAPACITY: usize = 4;

// Makes sure of memory for so many elements. Where it has to grow, it comes to twice as much at least: so all growths
// together move no more elements than there is memory for in the end.
pub fn reserve_by_doubling<T>(elements: &mut Vec<T>, wanted: usize) -> Result<(), NoMemory>
    ensures items { elements.new.items ≡ elements.old.items }
    ensures len { vec_len elements.new ≡ vec_len elements.old }
    ensures ok { OnOk result (wanted ≤ vec_capacity elements.new) }
    ensures grown { StaysOrDoubles (vec_capacity elements.old) (vec_capacity elements.new) }
    ensures enough { wanted ≤ vec_capacity elements.old → vec_capacity elements.new ≡ vec_capacity elements.old }
{
    let capacity = elements.capacity();
    if wanted > capacity {
        let doubled = wanted.max(2 * capacity).max(FIRST_CAPACITY);
        elements.reserve_exact(doubled - elements.len())?;
    }
    Ok(())
}
