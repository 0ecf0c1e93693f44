//! A select that is not answered in bytes: the values that it shows are put into cells, until it is asked to end.

ghost use Rattle.std.specs.Prelude.{◌≡◌, ◌<◌, [], IfErr, IfOk, IsErrOf, IsTrue, OnOk, length};
ghost use Rattle.std.specs.List.{flat_map};
ghost use Rattle.plain_tables.specs.Doing.{done, headings, joined_tables};
ghost use Rattle.plain_tables.specs.ResolvedLaws.{IsMeant};
ghost use Rattle.plain_tables.specs.declared.resolved.Resolved.TheVariants as resolved;
ghost use Rattle.mm_catalog.specs.Seen.{database_of};
ghost use Rattle.mm_cells.specs.Reading.{AreFull};
ghost use Rattle.mm_cells.specs.Values.{values_of};
ghost use Rattle.mm_session.specs.Changing.{ShowsValues};
ghost use Rattle.mm_session.specs.Planned.{FitsFirst};
ghost use Rattle.mm_session.specs.Rooms.{IsBounded};
ghost use Rattle.mm_session.specs.Sinks.{PutsRows};
ghost use Rattle.mm_session.specs.Walked.{IsOrdered, rows_shown};

use super::ReadExecutor;
use super::sink::{RowSink, ShownCells};
use crate::fault::SelectFault;
use crate::room::SelectRoom;
use mm_catalog::Catalog;
use mm_catalog::laws::a_catalog_is_consistent;
use mm_cells::Cells;
use mm_interrupts::Interrupts;
use plain_tables::Query;
use plan_chooser::SelectPlan;
use std::mem;

// Whether a select is of one table, whose rows an index finds, and shows them in the order of their keys.
fn is_searched(query: &Query, first: SelectPlan) -> bool
    ensures { IsTrue result → IsOrdered query.now }
{
    !query.distinct && query.joins.is_empty() && !matches!(first, SelectPlan::Scan)
}

impl ReadExecutor {
    // Puts the rows that a select shows into a sink, of which no look tells that there is one at most. Those of its first table are found so.
    fn push_rest<'a, S: RowSink<'a>>(
        &self,
        catalog: &'a Catalog,
        query: &Query,
        first: SelectPlan,
        room: &mut SelectRoom,
        sink: &mut S,
    ) -> Result<usize, S::Fault>
        requires meant { IsMeant catalog.now.limits (database_of catalog.now) (resolved.Select query.now) }
        requires fits { FitsFirst catalog.now query.now first }
        ensures shown { OnOk result (PutsRows S.received sink.old sink.new (rows_shown catalog.now query.now)) }
        ensures declined { IfErr result (S.declines sink.new) }
        ensures columns { IfOk result (λ columns. columns ≡ length (headings (joined_tables (database_of catalog.now) query.now.source query.now.joins) query.now.shown)) }
    {
        if is_searched(query, first) {
            return self.push_several(catalog, query, first, room, sink);
        }
        self.push_planned(catalog, query, first, room, sink)
    }

    // Puts the values that a select shows into empty cells, until it is asked to end. The rows of its first table are found so.
    fn fill(
        &self,
        catalog: &Catalog,
        query: &Query,
        first: SelectPlan,
        room: &mut SelectRoom,
        cells: &mut Cells,
        interrupts: Interrupts<'_>,
    ) -> Result<usize, SelectFault>
        requires meant { IsMeant catalog.now.limits (database_of catalog.now) (resolved.Select query.now) }
        requires fits { FitsFirst catalog.now query.now first }
        requires empty { values_of cells.old ≡ [] }
        ensures shown { IfOk result (λ columns. (columns ≡ length (headings (joined_tables (database_of catalog.now) query.now.source query.now.joins) query.now.shown)) × (values_of cells.new ≡ flat_map (λ row. row) (rows_shown catalog.now query.now))) }
        ensures too_long { IsErrOf result SelectFault.TooLong → AreFull (values_of cells.new) }
    {
        let mut shown = ShownCells {
            cells: mem::replace(cells, Cells::new(self.alloc)),
            interrupts,
        };
        let columns = self.push_rest(catalog, query, first, room, &mut shown);
        *cells = shown.cells;
        columns
    }

    /// Makes the cells the values that a select shows, a row behind the other, and tells how many columns each row has. A failure
    /// may leave any cells there; `TooLong` comes only if their texts have 4 GiB or more then. The rows are found in the room.
    ///
    /// A select that shows one row at most is too short to be asked to end: its row is put straight into the cells.
    pub fn select_values(
        &self,
        catalog: &Catalog,
        query: &Query,
        room: &mut SelectRoom,
        cells: &mut Cells,
        interrupts: Interrupts<'_>,
    ) -> Result<usize, SelectFault>
        requires { IsMeant catalog.now.limits (database_of catalog.now) (resolved.Select query.now) }
        ensures shown { IfOk result (λ columns. ShowsValues (done catalog.now.limits (database_of catalog.now) (resolved.Select query.now)).outcome columns (values_of cells.new)) }
        ensures some { IfOk result (λ columns. 0 < columns) }
        ensures too_long { IsErrOf result SelectFault.TooLong → AreFull (values_of cells.new) }
        ensures room { IsBounded room.new }
    {
        a_catalog_is_consistent(catalog);
        cells.clear();
        let first = self.choose_first(catalog, query);
        if is_searched(query, first) {
            if let Some(row) = self.only_row(catalog, query, first) {
                room.empty();
                return Ok(self.push_only(catalog, query, row, cells)?);
            }
        }
        let columns = self.fill(catalog, query, first, room, cells, interrupts);
        room.empty();
        columns
    }
}
