//! A select of one table whose rows were found: they are put into the order of their keys, and what is shown of them is taken from where
//! they lie. No list is made.

ghost use Rattle.std.specs.Prelude.{◌≡◌, IfErr, IfOk, OnOk, length};
ghost use Rattle.plain_tables.specs.Doing.{headings, joined_tables};
ghost use Rattle.plain_tables.specs.ResolvedLaws.{IsMeant};
ghost use Rattle.plain_tables.specs.declared.resolved.Resolved.TheVariants as resolved;
ghost use Rattle.mm_catalog.specs.Seen.{database_of};
ghost use Rattle.temp_list.specs.Reading.{OfRelation};
ghost use Rattle.temp_list.specs.Selecting.{AreSelected};
ghost use Rattle.mm_session.specs.OnlyRow.{ShowsRows};
ghost use Rattle.mm_session.specs.Sinks.{PutsRows};
ghost use Rattle.mm_session.specs.Walked.{IsOrdered, rows_shown};

use super::ReadExecutor;
use super::only_row::shown_width;
use super::rows::push_each;
use super::sink::RowSink;
use crate::room::SelectRoom;
use mm_catalog::Catalog;
use mm_catalog::laws::a_catalog_is_consistent;
use mm_relation::{Relations, TupleRef};
use no_memory::NoMemory;
use plain_tables::Query;

impl ReadExecutor {
    /// Puts the rows that a select of one table found into the order in which it shows them. A failure may leave any rows in the room.
    pub fn put_in_order(
        &self,
        catalog: &Catalog,
        query: &Query,
        room: &mut SelectRoom,
    ) -> Result<(), NoMemory>
        requires meant { IsMeant catalog.now.limits (database_of catalog.now) (resolved.Select query.now) }
        requires ordered { IsOrdered query.now }
        requires rows { OfRelation catalog.now.relations query.now.source.table.0 (λ s. AreSelected catalog.now.relations s query.now.source.tests room.old.rows.items) }
        ensures { OnOk result (ShowsRows catalog.now query.now room.new.rows.items) }
    {
        a_catalog_is_consistent(catalog);
        let relation = catalog.at(query.source.table);
        room.sorter.sort(relation, &mut room.rows)
    }

    // Puts the rows that a select of one table shows into a sink, and tells how many columns they have.
    fn push_rows_found<'a, S: RowSink<'a>>(
        &self,
        catalog: &'a Catalog,
        query: &Query,
        rows: &[TupleRef],
        sink: &mut S,
    ) -> Result<usize, S::Fault>
        requires meant { IsMeant catalog.now.limits (database_of catalog.now) (resolved.Select query.now) }
        requires shows { ShowsRows catalog.now query.now rows.now }
        ensures shown { OnOk result (PutsRows S.received sink.old sink.new (rows_shown catalog.now query.now)) }
        ensures declined { IfErr result (S.declines sink.new) }
        ensures columns { IfOk result (λ columns. columns ≡ length (headings (joined_tables (database_of catalog.now) query.now.source query.now.joins) query.now.shown)) }
    {
        a_catalog_is_consistent(catalog);
        let relation = catalog.at(query.source.table);
        push_each(sink, catalog, relation, rows, &query.shown)?;
        Ok(shown_width(relation, &query.shown))
    }

    /// Puts the rows that a select of one table found into a sink, in the order in which it shows them, and tells how many columns they
    /// have.
    pub fn push_found<'a, S: RowSink<'a>>(
        &self,
        catalog: &'a Catalog,
        query: &Query,
        room: &mut SelectRoom,
        sink: &mut S,
    ) -> Result<usize, S::Fault>
        requires meant { IsMeant catalog.now.limits (database_of catalog.now) (resolved.Select query.now) }
        requires ordered { IsOrdered query.now }
        requires rows { OfRelation catalog.now.relations query.now.source.table.0 (λ s. AreSelected catalog.now.relations s query.now.source.tests room.old.rows.items) }
        ensures shown { OnOk result (PutsRows S.received sink.old sink.new (rows_shown catalog.now query.now)) }
        ensures declined { IfErr result (S.declines sink.new) }
        ensures columns { IfOk result (λ columns. columns ≡ length (headings (joined_tables (database_of catalog.now) query.now.source query.now.joins) query.now.shown)) }
    {
        self.put_in_order(catalog, query, room)?;
        self.push_rows_found(catalog, query, room.rows.as_slice(), sink)
    }
}
