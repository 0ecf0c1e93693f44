//! The plan of a select, and of the search for the rows that an update or a delete is about.
ghost use Rattle.std.specs.Prelude.{◌≡◌, IfSome, position};
ghost use Rattle.plan_chooser.specs.Plans.{Fits, hash_serves, tree_serves};
ghost use Rattle.plan_chooser.specs.Choosing.{auto_select, select_plan};

use crate::plans::SelectPlan;
use crate::policy::Policy;
use mm_relation::Relation;
use plain_tables::{Op, Test};

// Whether a hash serves a test.
fn is_served_by_hash(relation: &Relation, test: &Test) -> bool
    ensures { result ≡ hash_serves relation.now test.now }
{
    matches!(test.op, Op::Eq) && relation.has_hash(test.column)
}

// Whether a tree serves a test.
fn is_served_by_tree(relation: &Relation, test: &Test) -> bool
    ensures { result ≡ tree_serves relation.now test.now }
{
    !matches!(test.op, Op::Ne) && relation.has_tree(test.column)
}

// The leftmost test that a hash serves.
#[tactic(auto, using(crate::proofs::Choices::leftmost_passes))]
fn first_by_hash(relation: &Relation, tests: &[Test]) -> Option<usize>
    ensures first { result ≡ position (hash_serves relation.now) tests.now }
    ensures fits { IfSome result (λ n. Fits relation.now tests.now (SelectPlan.Hash n)) }
{
    tests
        .iter()
        .position(|test| is_served_by_hash(relation, test))
}

// The leftmost test that a tree serves.
#[tactic(auto, using(crate::proofs::Choices::leftmost_passes))]
fn first_by_tree(relation: &Relation, tests: &[Test]) -> Option<usize>
    ensures first { result ≡ position (tree_serves relation.now) tests.now }
    ensures fits { IfSome result (λ n. Fits relation.now tests.now (SelectPlan.Tree n)) }
{
    tests
        .iter()
        .position(|test| is_served_by_tree(relation, test))
}

// By a hash, else by a tree, else through all rows.
fn plan_select(relation: &Relation, tests: &[Test]) -> SelectPlan
    ensures chosen { result ≡ auto_select relation.now tests.now }
    ensures fits { Fits relation.now tests.now result }
{
    if let Some(test) = first_by_hash(relation, tests) {
        SelectPlan::Hash(test)
    } else if let Some(test) = first_by_tree(relation, tests) {
        SelectPlan::Tree(test)
    } else {
        SelectPlan::Scan
    }
}

/// Chooses how the rows of a table that pass tests are found. It takes no memory.
pub fn choose_select(policy: Policy, relation: &Relation, tests: &[Test]) -> SelectPlan
    ensures chosen { result ≡ select_plan policy relation.now tests.now }
    ensures fits { Fits relation.now tests.now result }
{
    match policy {
        Policy::Scan => SelectPlan::Scan,
        Policy::Tree => match first_by_tree(relation, tests) {
            Some(test) => SelectPlan::Tree(test),
            None => plan_select(relation, tests),
        },
        Policy::Auto | Policy::Hash | Policy::Merge => plan_select(relation, tests),
    }
}
