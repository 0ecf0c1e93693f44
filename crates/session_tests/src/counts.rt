//! How often a join asks for a relation.
//!
//! No contract counts what a join compares. But each value that is read through a link asks for a relation. A join of a
//! thousand rows with a thousand that compares every pair asks a million times. One that takes an index, a hash or the links
//! themselves asks far less often.
ghost use Rattle.session_tests.specs.Linked.{AreJoinable};

use crate::linked::{Link, find_link};
use join_ops::{hash_join, precomputed, tree_join, tree_merge};
use mm_catalog::Catalog;
use mm_relation::{Relation, Relations};
use mm_session::{Session, SessionFault};
use no_memory::NoMemory;
use plain_tables::TableNumber;
use plan_chooser::Policy;
use std::alloc::Global;
use std::cell::Cell;
use std::io::sink;
use std::test::Fail;
use temp_list::TempList;

// How many rows each table has.
const ROWS: u64 = 1_000;

// More than this is no join by an index, a hash or links.
const MANY: u64 = 200_000;

// The methods that don't compare every pair.
#[derive(Clone, Copy, Debug)]
enum Method {
    Hash,
    Tree,
    Merge,
    Links,
}

// The relations of a catalog, and how often they were asked for.
#[derive(Drop)]
struct Counting<'a> {
    catalog: &'a Catalog,
    calls: Cell<u64>,
}

impl<'a> Relations for Counting<'a> {
    ghost tables = { λ c. c.catalog.now.relations };

    fn at(&self, table: TableNumber) -> &Relation {
        self.calls.set(self.calls.get().saturating_add(1));
        self.catalog.at(table)
    }
}

// The lines are done.
fn run(session: &mut Session, lines: &str) -> Result<(), SessionFault> {
    session.feed(lines.as_bytes(), &mut sink())
}

// Declares both tables, and puts rows in: each fourth department has four employees.
fn fill(rt: &HostRuntime, session: &mut Session) -> Result<(), Fail> {
    run(
        session,
        "table dept (id int)\ntable emp (id int, dept ref dept)\nindex emp dept tree\n",
    )?;
    for n in 0..ROWS {
        let lines = format!(in rt.alloc(); "insert dept ({n})\ninsert emp ({n}, {})\n", n - n % 4)?;
        run(session, lines.as_str())?;
    }
    Ok(())
}

// What a method makes of two tables.
fn join(
    alloc: Global,
    tables: &Counting<'_>,
    method: Method,
    link: &Link<'_>,
) -> Result<TempList, NoMemory>
    requires { AreJoinable tables.now.catalog.now.relations link.now.key link.now.reference }
{
    let outer = &link.key;
    let inner = &link.reference;
    match method {
        Method::Hash => hash_join(alloc, tables, outer, inner),
        Method::Tree => tree_join(alloc, tables, outer, inner),
        Method::Merge => tree_merge(alloc, tables, outer, inner),
        Method::Links => precomputed(alloc, tables, outer, inner),
    }
}

// Where one of these methods has the body of the one that compares every pair, its contract is still met, and this test
// fails. It was tried so with the merge of two trees.
#[test]
fn joins_by_an_index_compare_few_pairs(rt: HostRuntime) -> Result<(), Fail> {
    let mut session = Session::new(rt.alloc(), Policy::Auto)?;
    fill(&rt, &mut session)?;
    let catalog = session.catalog();
    let link = find_link(&rt, catalog);
    for method in [Method::Hash, Method::Tree, Method::Merge, Method::Links] {
        let counting = Counting {
            catalog,
            calls: Cell::new(0),
        };
        let list = join(rt.alloc(), &counting, method, &link)?;
        assert_eq!(&rt; list.len() as u64, ROWS);
        assert!(&rt; counting.calls.get() < MANY, "{method:?}");
    }
    Ok(())
}
