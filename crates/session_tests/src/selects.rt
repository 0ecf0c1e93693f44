//! The list that a select makes.
use mm_catalog::Catalog;
use mm_catalog::laws::a_catalog_is_consistent;
use mm_session::Session;
use no_memory::NoMemory;
use plain_tables::TableNumber;
use plan_chooser::{Policy, SelectPlan};
use std::alloc::Global;
use std::io::sink;
use std::process::Abort;
use std::test::Fail;
use temp_list::{TempList, select};

// The rows of the first table, all of them.
fn all_rows(alloc: Global, rt: &impl Abort, catalog: &Catalog) -> Result<TempList, NoMemory> {
    a_catalog_is_consistent(catalog);
    assert!(rt; catalog.table_count() > 0);
    select(alloc, catalog, TableNumber(0), SelectPlan::Scan, &[])
}

// A body of `select` that gives up meets its contract, and fails this test.
#[test]
fn a_select_lists_the_rows_that_pass(rt: HostRuntime) -> Result<(), Fail> {
    let mut session = Session::new(rt.alloc(), Policy::Auto)?;
    session.feed(
        b"table t (id int)\ninsert t (1)\ninsert t (2)\n",
        &mut sink(),
    )?;
    let list = all_rows(rt.alloc(), &rt, session.catalog())?;
    assert_eq!(&rt; list.len(), 2);
    assert_eq!(&rt; list.sources().len(), 1);
    Ok(())
}
