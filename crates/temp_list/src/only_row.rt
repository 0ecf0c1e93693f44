//! The row of a table that passes tests, where there is one at most: it is found with no list of rows, and takes no memory.
ghost use Rattle.std.specs.Prelude.{◌≡◌, ℕ, IfSome, IsSome, position};
ghost use Rattle.std.specs.Option.{option_to_list};
ghost use Rattle.mm_relation.specs.State.{IsCurrent, linked_keys};
ghost use Rattle.plan_chooser.specs.Plans.{Fits};
ghost use Rattle.plan_chooser.specs.declared.plans.SelectPlan.TheVariants as plans;
ghost use Rattle.temp_list.specs.OnlyRow.{AskForOneRow, AsksForKey, AsksForValue, is_for_key};
ghost use Rattle.temp_list.specs.Reading.{HasColumns, passing};

use crate::range_probe::RangeProbe;
use crate::search::{passes_all, read};
use crate::standing::passes;
use mm_relation::laws::a_relation_is_kept;
use mm_relation::{ColumnNumber, Relation, Relations};
use part_raw::TupleRef;
use plain_tables::{Op, Test, hash_of_sought, low_bits};
use plan_chooser::SelectPlan;

// How many rows that an index gives may fail a test before a list of them all is the better way, which reads each of them once.
const MOST_FAILING: usize = 8;

// The row that passes the tests, of which one asks for its key. There is one at most.
fn only_by_key<R: Relations>(
    tables: &R,
    relation: &Relation,
    tests: &[Test],
    n: usize,
) -> Option<TupleRef>
    requires current { IsCurrent (linked_keys relation.now.targets (R.tables tables.now)) relation.now }
    requires columns { HasColumns relation.now tests.now }
    requires key { AsksForKey tests.now n }
    ensures { passing (R.tables tables.now) relation.now tests.now ≡ option_to_list result }
{
    a_relation_is_kept(relation);
    let r = relation.find_key(&tests[n].value.sought())?;
    // (the row has the key, so it passes that test)
    if tests.len() > 1 && !passes_all(tables, relation, r, tests) {
        return None;
    }
    Some(r)
}

// By the hash on the column of a test: the row that passes, or that there is none. None where there may be more.
fn only_by_hash<R: Relations>(
    tables: &R,
    relation: &Relation,
    tests: &[Test],
    n: usize,
) -> Option<Option<TupleRef>>
    requires current { IsCurrent (linked_keys relation.now.targets (R.tables tables.now)) relation.now }
    requires columns { HasColumns relation.now tests.now }
    requires fits { Fits relation.now tests.now (plans.Hash n) }
    ensures { IfSome result (λ row. passing (R.tables tables.now) relation.now tests.now ≡ option_to_list row) }
{
    a_relation_is_kept(relation);
    let test = &tests[n];
    let hash = low_bits(hash_of_sought(&test.value.sought()));
    let mut found = None;
    let mut failing = 0;
    for r in relation.chain_of(test.column, hash) {
        if passes_all(tables, relation, r, tests) {
            if found.replace(r).is_some() {
                return None;
            }
        } else if failing < MOST_FAILING {
            failing += 1;
        } else {
            return None;
        }
    }
    Some(found)
}

// By the tree on the column of a test, which asks for one value: the row that passes, or that there is none. None where there may
// be more.
fn only_by_tree<R: Relations>(
    tables: &R,
    relation: &Relation,
    tests: &[Test],
    n: usize,
) -> Option<Option<TupleRef>>
    requires current { IsCurrent (linked_keys relation.now.targets (R.tables tables.now)) relation.now }
    requires columns { HasColumns relation.now tests.now }
    requires fits { Fits relation.now tests.now (plans.Tree n) }
    requires value { AsksForValue tests.now n }
    ensures { IfSome result (λ row. passing (R.tables tables.now) relation.now tests.now ≡ option_to_list row) }
{
    a_relation_is_kept(relation);
    let test = &tests[n];
    let sought = test.value.sought();
    let mut probe = RangeProbe {
        tables,
        relation,
        column: test.column,
        op: Op::Eq,
        sought: &sought,
        asked: 0,
    };
    let mut found = None;
    let mut failing = 0;
    for r in relation.walk_column(test.column, &mut probe) {
        if passes_all(tables, relation, r, tests) {
            if found.replace(r).is_some() {
                return None;
            }
        } else if !passes(read(tables, relation, r, test.column), test) {
            break;
        } else if failing < MOST_FAILING {
            failing += 1;
        } else {
            return None;
        }
    }
    Some(found)
}

// The row that passes the tests, of which one asks for its key: the first that does in the order of the keys.
fn only_by_scan<R: Relations>(tables: &R, relation: &Relation, tests: &[Test]) -> Option<TupleRef>
    requires current { IsCurrent (linked_keys relation.now.targets (R.tables tables.now)) relation.now }
    requires columns { HasColumns relation.now tests.now }
    requires key { (n : ℕ) × AsksForKey tests.now n }
    ensures { passing (R.tables tables.now) relation.now tests.now ≡ option_to_list result }
{
    a_relation_is_kept(relation);
    for r in relation.walk() {
        if passes_all(tables, relation, r, tests) {
            return Some(r);
        }
    }
    None
}

// Whether a test asks for the row of one key.
fn asks_for_key(test: &Test) -> bool
    ensures { result ≡ is_for_key test.now }
{
    matches!(test.op, Op::Eq) && test.column.0 == 0
}

// The leftmost test that asks for the row of one key.
#[tactic(auto, using(crate::proofs::OnlyRow::leftmost_asks))]
fn key_test(tests: &[Test]) -> Option<usize>
    ensures first { result ≡ position is_for_key tests.now }
    ensures asks { IfSome result (AsksForKey tests.now) }
{
    tests.iter().position(asks_for_key)
}

// By a plan: the row that passes, or that there is none. None where there may be more.
fn only_by_plan<R: Relations>(
    tables: &R,
    relation: &Relation,
    plan: SelectPlan,
    tests: &[Test],
) -> Option<Option<TupleRef>>
    requires current { IsCurrent (linked_keys relation.now.targets (R.tables tables.now)) relation.now }
    requires columns { HasColumns relation.now tests.now }
    requires fits { Fits relation.now tests.now plan }
    ensures { IfSome result (λ row. passing (R.tables tables.now) relation.now tests.now ≡ option_to_list row) }
{
    match plan {
        SelectPlan::Scan => None,
        SelectPlan::Hash(n) => only_by_hash(tables, relation, tests, n),
        SelectPlan::Tree(n) => {
            let test = &tests[n];
            if !matches!(test.op, Op::Eq) {
                None
            } else if test.column.0 == 0 {
                Some(only_by_key(tables, relation, tests, n))
            } else {
                only_by_tree(tables, relation, tests, n)
            }
        }
    }
}

/// The row of a table that passes the tests, where it is shown that there is one at most: `Some(None)` where there is none. None
/// where there may be more. It takes no memory.
///
/// It is shown wherever a test asks for the key, whatever the plan is. By an index it also is where a test asks for one value, and
/// few of the rows that have this value fail another test.
pub fn find_only_row<R: Relations>(
    tables: &R,
    relation: &Relation,
    plan: SelectPlan,
    tests: &[Test],
) -> Option<Option<TupleRef>>
    requires current { IsCurrent (linked_keys relation.now.targets (R.tables tables.now)) relation.now }
    requires columns { HasColumns relation.now tests.now }
    requires fits { Fits relation.now tests.now plan }
    ensures only { IfSome result (λ row. passing (R.tables tables.now) relation.now tests.now ≡ option_to_list row) }
    ensures by_key { AskForOneRow tests.now → IsSome result }
{
    let found = only_by_plan(tables, relation, plan, tests);
    if found.is_some() {
        return found;
    }
    let n = key_test(tests)?;
    Some(match plan {
        SelectPlan::Scan => only_by_scan(tables, relation, tests),
        SelectPlan::Hash(_) | SelectPlan::Tree(_) => only_by_key(tables, relation, tests, n),
    })
}

/// The row of a table that passes the one test there is, if that asks for the key and no hash on the key is the shorter way:
/// `Some(None)` where there is none. Else None. It needs no plan, and takes no memory.
#[inline]
pub fn find_row_of_key<R: Relations>(
    tables: &R,
    relation: &Relation,
    tests: &[Test],
) -> Option<Option<TupleRef>>
    requires current { IsCurrent (linked_keys relation.now.targets (R.tables tables.now)) relation.now }
    requires columns { HasColumns relation.now tests.now }
    ensures { IfSome result (λ row. passing (R.tables tables.now) relation.now tests.now ≡ option_to_list row) }
{
    if tests.len() == 1 && asks_for_key(&tests[0]) && !relation.has_hash(ColumnNumber(0)) {
        Some(only_by_key(tables, relation, tests, 0))
    } else {
        None
    }
}
