//! The rows of a table that pass tests, by the plan that the policy picks.

ghost use Rattle.std.specs.Prelude.{◌≡◌, IfOk, IsOk};
ghost use Rattle.std.specs.Option.{option_to_list};
ghost use Rattle.plain_tables.specs.ResolvedLaws.{OfTable, AreTests};
ghost use Rattle.mm_catalog.specs.Seen.{database_of};
ghost use Rattle.temp_list.specs.OnlyRow.{AskForOneRow};
ghost use Rattle.mm_session.specs.Passing.{ArePassing};

use mm_catalog::Catalog;
use mm_catalog::laws::a_catalog_is_consistent;
use mm_relation::{Relations, TupleRef};
use no_memory::NoMemory;
use plain_tables::{TableNumber, Test};
use plan_chooser::{Policy, choose_select};
use smallvec::SmallVec;
use std::alloc::Global;
use temp_list::{find_only_row, find_row_of_key, find_rows};

/// Rows that a change is about. One takes no memory.
pub type FoundRows = SmallVec<TupleRef, 1>;

// A row that was found, or none.
fn one_row(alloc: Global, found: Option<TupleRef>) -> FoundRows
    ensures { result.items ≡ option_to_list found }
{
    let mut rows = SmallVec::new(alloc);
    if let Some(r) = found {
        rows.push_reserved(r);
    }
    rows
}

/// The rows of a table that pass the tests, in any order. Where a test asks for the key it takes no memory.
pub fn rows_passing(
    alloc: Global,
    policy: Policy,
    catalog: &Catalog,
    table: TableNumber,
    tests: &[Test],
) -> Result<FoundRows, NoMemory>
    requires { OfTable table (database_of catalog.now) (λ t. AreTests (database_of catalog.now) t tests.now) }
    ensures passing { IfOk result (λ rows. ArePassing catalog.now table.0 tests.now rows.items) }
    ensures by_key { AskForOneRow tests.now → IsOk result }
{
    a_catalog_is_consistent(catalog);
    let relation = catalog.at(table);
    if !matches!(policy, Policy::Scan)
        && let Some(row) = find_row_of_key(catalog, relation, tests)
    {
        return Ok(one_row(alloc, row));
    }
    let plan = choose_select(policy, relation, tests);
    if let Some(row) = find_only_row(catalog, relation, plan, tests) {
        return Ok(one_row(alloc, row));
    }
    let rows = find_rows(alloc, catalog, table, plan, tests)?;
    Ok(SmallVec::from_vec(rows))
}
