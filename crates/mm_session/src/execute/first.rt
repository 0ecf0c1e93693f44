//! The first rows that a select shows, so many at most.
//!
//! Of a table alone no more rows are looked at than it takes to find these, where its rows are walked in the order of their keys. Where
//! an index finds the rows, and where tables are joined or rows are told apart, all are found, and the first are shown.

ghost use Rattle.std.specs.Prelude.{◌≡◌, ◌<◌, IfErr, IfOk, IsErrOf, IsTrue, OnOk, length, take};
ghost use Rattle.plain_tables.specs.Doing.{done, headings, joined_tables};
ghost use Rattle.plain_tables.specs.ResolvedLaws.{IsMeant};
ghost use Rattle.plain_tables.specs.declared.resolved.Resolved.TheVariants as resolved;
ghost use Rattle.mm_catalog.specs.Seen.{database_of};
ghost use Rattle.mm_cells.specs.Reading.{AreFull};
ghost use Rattle.mm_cells.specs.Values.{values_of};
ghost use Rattle.temp_list.specs.Reading.{OfRelation};
ghost use Rattle.temp_list.specs.Selecting.{AreSelected};
ghost use Rattle.mm_session.specs.First.{ShowsFirst, ShowsFirstRows};
ghost use Rattle.mm_session.specs.Planned.{FitsFirst};
ghost use Rattle.mm_session.specs.Rooms.{IsBounded};
ghost use Rattle.mm_session.specs.Sinks.{PutsRows};
ghost use Rattle.mm_session.specs.Walked.{IsOrdered, rows_shown};

use super::ReadExecutor;
use super::only_row::shown_width;
use super::rows::{push_each, push_front};
use super::sink::{RowSink, ShownCells};
use crate::fault::SelectFault;
use crate::room::SelectRoom;
use mm_catalog::Catalog;
use mm_catalog::laws::a_catalog_is_consistent;
use mm_cells::Cells;
use mm_interrupts::Interrupts;
use mm_relation::{Relation, Relations, TupleRef};
use no_memory::NoMemory;
use plain_tables::{Query, Test};
use plan_chooser::SelectPlan;
use std::mem;
use temp_list::{find_first_rows, most_sorted};

// How many rows a look at each slot may find, so that to sort them is sooner done than to walk the tree of the key to the first so many.
// Where more are found among these slots, a walk meets as many as it needs in an eighth of as many rows.
fn most_gathered(relation: &Relation, tests: &[Test], most: usize) -> u64 {
    most_sorted(relation, tests).min((most as u64).saturating_mul(8))
}

// Whether a test is on the key.
fn is_on_key(tests: &[Test], n: usize) -> bool {
    match tests.get(n) {
        Some(test) => test.column.0 == 0,
        None => false,
    }
}

impl ReadExecutor {
    // Makes the rows of a room those of the one table of a query that pass, each once, in any order, and tells whether it did: not where
    // a walk of the tree of the key finds the first of them sooner. A failure may leave any rows there.
    fn find_unwalked(
        &self,
        catalog: &Catalog,
        query: &Query,
        plan: SelectPlan,
        most: usize,
        room: &mut SelectRoom,
    ) -> Result<bool, NoMemory>
        requires meant { IsMeant catalog.now.limits (database_of catalog.now) (resolved.Select query.now) }
        requires fits { FitsFirst catalog.now query.now plan }
        ensures { IfOk result (λ found. IsTrue found → OfRelation catalog.now.relations query.now.source.table.0 (λ s. AreSelected catalog.now.relations s query.now.source.tests room.new.rows.items)) }
    {
        a_catalog_is_consistent(catalog);
        let relation = catalog.at(query.source.table);
        let tests = query.source.tests.as_slice();
        match plan {
            SelectPlan::Scan => {
                self.find_few(catalog, query, most_gathered(relation, tests, most), room)
            }
            SelectPlan::Tree(n) if is_on_key(tests, n) => Ok(false),
            _ => {
                self.find_first(catalog, query, plan, room)?;
                Ok(true)
            }
        }
    }

    // Makes the rows of a room the first of the one table of a query that pass, in the order of their keys. A failure may leave any rows
    // there.
    fn find_front(
        &self,
        catalog: &Catalog,
        query: &Query,
        plan: SelectPlan,
        most: usize,
        room: &mut SelectRoom,
    ) -> Result<(), NoMemory>
        requires meant { IsMeant catalog.now.limits (database_of catalog.now) (resolved.Select query.now) }
        requires ordered { IsOrdered query.now }
        requires fits { FitsFirst catalog.now query.now plan }
        ensures { OnOk result (ShowsFirstRows catalog.now query.now most room.new.rows.items) }
    {
        a_catalog_is_consistent(catalog);
        if self.find_unwalked(catalog, query, plan, most, room)? {
            self.put_in_order(catalog, query, room)?;
            room.rows.truncate(most);
            return Ok(());
        }
        let table = query.source.table;
        let tests = query.source.tests.as_slice();
        find_first_rows(catalog, table, tests, most, &mut room.rows)
    }

    // Puts the first rows of one table that a select shows into a sink, and tells how many columns they have.
    fn push_front_found<'a, S: RowSink<'a>>(
        &self,
        catalog: &'a Catalog,
        query: &Query,
        most: usize,
        rows: &[TupleRef],
        sink: &mut S,
    ) -> Result<usize, S::Fault>
        requires meant { IsMeant catalog.now.limits (database_of catalog.now) (resolved.Select query.now) }
        requires shows { ShowsFirstRows catalog.now query.now most rows.now }
        ensures shown { OnOk result (PutsRows S.received sink.old sink.new (take most (rows_shown catalog.now query.now))) }
        ensures declined { IfErr result (S.declines sink.new) }
        ensures columns { IfOk result (λ columns. columns ≡ length (headings (joined_tables (database_of catalog.now) query.now.source query.now.joins) query.now.shown)) }
    {
        a_catalog_is_consistent(catalog);
        let relation = catalog.at(query.source.table);
        push_each(sink, catalog, relation, rows, &query.shown)?;
        Ok(shown_width(relation, &query.shown))
    }

    // Puts the first rows that a select shows into a sink, of a list of all, and tells how many columns they have.
    fn push_front_listed<'a, S: RowSink<'a>>(
        &self,
        catalog: &'a Catalog,
        query: &Query,
        plan: SelectPlan,
        most: usize,
        room: &mut SelectRoom,
        sink: &mut S,
    ) -> Result<usize, S::Fault>
        requires meant { IsMeant catalog.now.limits (database_of catalog.now) (resolved.Select query.now) }
        requires fits { FitsFirst catalog.now query.now plan }
        ensures shown { OnOk result (PutsRows S.received sink.old sink.new (take most (rows_shown catalog.now query.now))) }
        ensures declined { IfErr result (S.declines sink.new) }
        ensures columns { IfOk result (λ columns. columns ≡ length (headings (joined_tables (database_of catalog.now) query.now.source query.now.joins) query.now.shown)) }
    {
        let members = self.found(catalog, query, plan, room, sink)?;
        let list = self.as_shown(catalog, query, members)?;
        push_front(sink, catalog, &list, list.columns(), most)?;
        Ok(list.columns().len())
    }

    // Puts the first rows that a select shows into a sink, so many at most, and tells how many columns they have.
    fn push_first<'a, S: RowSink<'a>>(
        &self,
        catalog: &'a Catalog,
        query: &Query,
        most: usize,
        room: &mut SelectRoom,
        sink: &mut S,
    ) -> Result<usize, S::Fault>
        requires { IsMeant catalog.now.limits (database_of catalog.now) (resolved.Select query.now) }
        ensures shown { OnOk result (PutsRows S.received sink.old sink.new (take most (rows_shown catalog.now query.now))) }
        ensures declined { IfErr result (S.declines sink.new) }
        ensures columns { IfOk result (λ columns. columns ≡ length (headings (joined_tables (database_of catalog.now) query.now.source query.now.joins) query.now.shown)) }
    {
        let plan = self.choose_first(catalog, query);
        if query.distinct || !query.joins.is_empty() {
            return self.push_front_listed(catalog, query, plan, most, room, sink);
        }
        self.find_front(catalog, query, plan, most, room)?;
        self.push_front_found(catalog, query, most, room.rows.as_slice(), sink)
    }

    /// Makes the cells the values of the first rows that a select shows, so many at most, a row behind the other, and tells how many
    /// columns each row has. A failure may leave any cells there; `TooLong` comes only if their texts have 4 GiB or more then. The rows
    /// are found in the room.
    pub fn first_values(
        &self,
        catalog: &Catalog,
        query: &Query,
        most: usize,
        room: &mut SelectRoom,
        cells: &mut Cells,
        interrupts: Interrupts<'_>,
    ) -> Result<usize, SelectFault>
        requires { IsMeant catalog.now.limits (database_of catalog.now) (resolved.Select query.now) }
        ensures shown { IfOk result (λ columns. ShowsFirst (done catalog.now.limits (database_of catalog.now) (resolved.Select query.now)).outcome most columns (values_of cells.new)) }
        ensures some { IfOk result (λ columns. 0 < columns) }
        ensures too_long { IsErrOf result SelectFault.TooLong → AreFull (values_of cells.new) }
        ensures room { IsBounded room.new }
    {
        a_catalog_is_consistent(catalog);
        cells.clear();
        let mut shown = ShownCells {
            cells: mem::replace(cells, Cells::new(self.alloc)),
            interrupts,
        };
        let columns = self.push_first(catalog, query, most, room, &mut shown);
        *cells = shown.cells;
        room.empty();
        columns
    }
}
