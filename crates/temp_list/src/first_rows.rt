//! The first rows of one table that pass tests, in the order of their keys, so many at most.
ghost use Rattle.std.specs.Prelude.{◌≡◌, ◌<◌, IsSome, OnOk, length, take};
ghost use Rattle.std.specs.FinMap as finite;
ghost use Rattle.std.specs.Ordering.{is_gt};
ghost use Rattle.mm_relation.specs.State.{IsCurrent, linked_keys};
ghost use Rattle.temp_list.specs.Ranges.{place_between as place_between_so};
ghost use Rattle.temp_list.specs.Reading.{AreSound, OfRelation, HasColumns, value_in, passing as passing_so};

use crate::bounds_probe::{BoundsProbe, place_between};
use crate::search::{passes_all, read};
use mm_relation::laws::a_relation_is_kept;
use mm_relation::{Relation, Relations};
use no_memory::NoMemory;
use part_raw::TupleRef;
use plain_tables::{ColumnNumber, TableNumber, Test};

// The column of the key.
const KEY: ColumnNumber = ColumnNumber(0);

// Whether the key of a row stands above the bounds that tests set on it.
fn is_above<R: Relations>(tables: &R, relation: &Relation, r: TupleRef, tests: &[Test]) -> bool
    requires held { IsSome (finite.get relation.now.rows r) }
    requires current { IsCurrent (linked_keys relation.now.targets (R.tables tables.now)) relation.now }
    requires key { 0 < length relation.now.schema.columns }
    ensures { result ≡ is_gt (place_between_so 0 tests.now (value_in (R.tables tables.now) relation.now 0 r)) }
{
    place_between(KEY, tests, read(tables, relation, r, KEY)).is_gt()
}

// Makes the vector the first rows that pass the tests.
fn first_passing<R: Relations>(
    tables: &R,
    relation: &Relation,
    tests: &[Test],
    most: usize,
    found: &mut Vec<TupleRef>,
) -> Result<(), NoMemory>
    requires current { IsCurrent (linked_keys relation.now.targets (R.tables tables.now)) relation.now }
    requires columns { HasColumns relation.now tests.now }
    requires key { 0 < length relation.now.schema.columns }
    ensures { OnOk result (found.new.items ≡ take most (passing_so (R.tables tables.now) relation.now tests.now)) }
{
    a_relation_is_kept(relation);
    found.clear();
    let mut probe = BoundsProbe {
        tables,
        relation,
        column: KEY,
        tests,
        asked: 0,
    };
    for r in relation.walk_column(KEY, &mut probe) {
        if found.len() >= most || is_above(tables, relation, r, tests) {
            break;
        }
        if passes_all(tables, relation, r, tests) {
            found.push(r)?;
        }
    }
    Ok(())
}

/// Makes the vector the first rows of a table that pass the tests, in the order of their keys, so many at most. What the vector had is let
/// go, and its room is kept. A failure may leave any rows there.
///
/// The tree of the key is walked from the first row that no bound on the key keeps out, up to the last that is found, or to the first that
/// stands above the bounds.
pub fn find_first_rows<R: Relations>(
    tables: &R,
    table: TableNumber,
    tests: &[Test],
    most: usize,
    found: &mut Vec<TupleRef>,
) -> Result<(), NoMemory>
    requires sound { AreSound (R.tables tables.now) }
    requires there { table.0 < length (R.tables tables.now) }
    requires columns { OfRelation (R.tables tables.now) table.0 (λ s. HasColumns s tests.now) }
    requires key { OfRelation (R.tables tables.now) table.0 (λ s. 0 < length s.schema.columns) }
    ensures { OnOk result (OfRelation (R.tables tables.now) table.0 (λ s. found.new.items ≡ take most (passing_so (R.tables tables.now) s tests.now))) }
{
    let relation = tables.at(table);
    first_passing(tables, relation, tests, most, found)
}
