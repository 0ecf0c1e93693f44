//! A select of one table that shows each list of values once: they are told apart as rows are found, and no list of these is kept.

ghost use Rattle.std.specs.Prelude.{◌≡◌, IfErr, IfOk, OnOk, length};
ghost use Rattle.plain_tables.specs.Doing.{headings, joined_tables};
ghost use Rattle.mm_catalog.specs.Seen.{database_of};
ghost use Rattle.mm_session.specs.Sinks.{PutsRows};
ghost use Rattle.mm_session.specs.Walked.{IsScan, rows_shown};

use super::ReadExecutor;
use super::rows::push_list;
use super::sink::RowSink;
use mm_catalog::Catalog;
use mm_catalog::laws::a_catalog_is_consistent;
use plain_tables::Query;
use project_hash::distinct_of_table;

impl ReadExecutor {
    /// Puts what a select shows of the rows of its one table that pass into a sink, each list of values once, and tells how many
    /// columns they have.
    pub fn push_scanned<'a, S: RowSink<'a>>(
        &self,
        catalog: &'a Catalog,
        query: &Query,
        sink: &mut S,
    ) -> Result<usize, S::Fault>
        requires scan { IsScan catalog.now query.now }
        ensures shown { OnOk result (PutsRows S.received sink.old sink.new (rows_shown catalog.now query.now)) }
        ensures declined { IfErr result (S.declines sink.new) }
        ensures columns { IfOk result (λ columns. columns ≡ length (headings (joined_tables (database_of catalog.now) query.now.source query.now.joins) query.now.shown)) }
    {
        a_catalog_is_consistent(catalog);
        let table = query.source.table;
        let tests = query.source.tests.as_slice();
        let places = self.places_of(catalog, &[table], &query.shown)?;
        let list = distinct_of_table(self.alloc, catalog, table, tests, places)?;
        push_list(sink, catalog, &list, list.columns())?;
        Ok(list.columns().len())
    }
}
