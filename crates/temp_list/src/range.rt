//! The rows in the range of a probe. Few of them are read: the places never fall along a tree's list, so where the last of some
//! neighbours is in the range, those before it are.
ghost use Rattle.std.specs.Prelude.{◌≡◌, ◌≢◌, ◌≤◌, ◌++◌, All, IfSome, OnOk, OnErr, drop, length, take};
ghost use Rattle.std.specs.List.{AllWithin};
ghost use Rattle.std.specs.declared.cmp.Ordering.{Ordering};
ghost use Rattle.mm_index.specs.Asking.{IsOnlyAsked};
ghost use Rattle.mm_index.specs.Range.{NeverFalls, from_range, in_range};
ghost use Rattle.mm_relation.specs.Changes.{HasTree, list_of, tree_on};
ghost use Rattle.ttree.specs.Held.{rest_of};
ghost use Rattle.ttree.specs.Warming.{IsWay};

use mm_relation::{Probe, Relation, Walk, Way};
use no_memory::NoMemory;
use part_raw::TupleRef;
use plain_tables::ColumnNumber;

// So many rows are taken at most before one of them is read.
const MOST_TAKEN: usize = 64;

// Appends so many rows of a walk, or all that are left. At an error nothing is appended.
fn take_some(walk: &mut Walk<'_>, most: usize, out: &mut Vec<TupleRef>) -> Result<(), NoMemory>
    ensures taken { OnOk result (out.new.items ≡ out.old.items ++ take most (rest_of walk.old)) }
    ensures rest { OnOk result (rest_of walk.new ≡ drop most (rest_of walk.old)) }
    ensures err { OnErr result (out.new.items ≡ out.old.items) }
{
    out.reserve(most)?;
    for _ in 0..most {
        let Some(r) = walk.next() else {
            break;
        };
        out.push_reserved(r);
    }
    Ok(())
}

// How many of some neighbours, none of which stands below the range, are in it. The last is asked about first.
fn count_in_range<P: Probe>(probe: &mut P, refs: &[TupleRef]) -> usize
    requires sound { P.is_sound probe.old }
    requires placed { All (P.can_place probe.old) refs.now }
    requires in_order { NeverFalls (P.place probe.old) refs.now }
    requires begun { All (λ r. P.place probe.old r ≢ Ordering.Less) refs.now }
    ensures within { result ≤ length refs.now }
    ensures found { AllWithin (λ r. P.place probe.old r ≡ Ordering.Equal) refs.now 0 result }
    ensures above { AllWithin (λ r. P.place probe.old r ≡ Ordering.Greater) refs.now result (length refs.now) }
    ensures probe { IsOnlyAsked P.is_sound P.can_place P.place P.asked probe.old probe.new }
{
    let mut low = 0;
    let mut high = refs.len();
    let mut at = high.saturating_sub(1);
    while low < high {
        if probe.place(refs[at]).is_eq() {
            low = at + 1;
        } else {
            high = at;
        }
        at = low + (high - low) / 2;
    }
    low
}

// The rows from the first that isn't below the probe's range, in the order of a column with a tree. A search of the tree may have gone
// side by side with others.
fn walk_range<'a, P: Probe>(
    relation: &'a Relation,
    column: ColumnNumber,
    way: Option<&Way<'a>>,
    probe: &mut P,
) -> Walk<'a>
    requires has_tree { HasTree relation.now column.0 }
    requires way { IfSome way (λ w. IsWay (tree_on relation.now column.0) w.now) }
    requires sound { P.is_sound probe.old }
    requires placed { All (P.can_place probe.old) (list_of relation.now column.0) }
    requires in_order { NeverFalls (P.place probe.old) (list_of relation.now column.0) }
    ensures rest { rest_of result ≡ from_range (P.place probe.old) (list_of relation.now column.0) }
    ensures probe { IsOnlyAsked P.is_sound P.can_place P.place P.asked probe.old probe.new }
{
    match way {
        Some(way) => relation.walk_column_from_way(column, way, probe),
        None => relation.walk_column(column, probe),
    }
}

/// Appends the rows that are in the probe's range, in the order of a column with a tree. A search of the tree may have gone side by
/// side with others. At an error nothing is appended.
///
/// Of the rows behind the first it takes as many as it has found so far, and reads the last of them.
pub fn append_range<P: Probe>(
    relation: &Relation,
    column: ColumnNumber,
    way: Option<&Way<'_>>,
    probe: &mut P,
    out: &mut Vec<TupleRef>,
) -> Result<(), NoMemory>
    requires has_tree { HasTree relation.now column.0 }
    requires way { IfSome way (λ w. IsWay (tree_on relation.now column.0) w.now) }
    requires sound { P.is_sound probe.old }
    requires placed { All (P.can_place probe.old) (list_of relation.now column.0) }
    requires in_order { NeverFalls (P.place probe.old) (list_of relation.now column.0) }
    ensures ok { OnOk result (out.new.items ≡ out.old.items ++ in_range (P.place probe.old) (list_of relation.now column.0)) }
    ensures err { OnErr result (out.new.items ≡ out.old.items) }
{
    let before = out.len();
    out.reserve(MOST_TAKEN)?;
    let mut walk = walk_range(relation, column, way, probe);
    let mut found: usize = 0;
    loop {
        let start = out.len();
        let most = found.clamp(1, MOST_TAKEN);
        if let Err(refused) = take_some(&mut walk, most, out) {
            out.truncate(before);
            return Err(refused);
        }
        let more = count_in_range(probe, &out[start..]);
        out.truncate(start + more);
        if more < most {
            return Ok(());
        }
        found += more;
    }
}
