//! A select whose rows are found once, and shown page by page.

ghost use Rattle.std.specs.Prelude.{◌≡◌, ◌≢◌, ◌∷◌, IfErr, IfOk, IsErrOf, drop, length, take};
ghost use Rattle.std.specs.List.{flat_map};
ghost use Rattle.plain_tables.specs.Doing.{done};
ghost use Rattle.plain_tables.specs.Joining.{members_of};
ghost use Rattle.plain_tables.specs.ResolvedLaws.{IsMeant};
ghost use Rattle.plain_tables.specs.declared.resolved.Resolved.TheVariants as resolved;
ghost use Rattle.mm_catalog.specs.Seen.{database_of};
ghost use Rattle.mm_cells.specs.Reading.{AreFull};
ghost use Rattle.mm_cells.specs.Values.{values_of};
ghost use Rattle.mm_session.specs.Found.{HasFound, values_found};
ghost use Rattle.mm_session.specs.Members.{HasMembers, joined_numbers};
ghost use Rattle.mm_session.specs.Rooms.{IsBounded};
ghost use Rattle.mm_session.specs.Shown.{CanShow};
ghost use Rattle.mm_session.specs.declared.fault.SelectFault.TheVariants as fault;

use super::ReadExecutor;
use super::planned::QueryPlan;
use super::rows::push_page;
use crate::fault::SelectFault;
use crate::found_rows::FoundRows;
use crate::room::SelectRoom;
use mm_catalog::Catalog;
use mm_catalog::laws::a_catalog_is_consistent;
use mm_cells::{CellFault, Cells};
use mm_interrupts::{Interrupts, Progress};
use plain_tables::Query;
use plan_chooser::SelectPlan;
use temp_list::TempList;

// A search for rows, until it is asked to end.
#[derive(Clone, Copy)]
struct Finding<'i> {
    interrupts: Interrupts<'i>,
}

impl<'i> Progress for Finding<'i> {
    ghost use Rattle.std.proofs.Common.{rules};
    ghost use Rattle.mm_session.specs.declared.fault.SelectFault.TheVariants as fault;

    type Fault = SelectFault;

    ghost ends = { λ now why. why ≢ fault.TooLong };

    ghost out_of_memory = { Prim.search rules };

    #[inline(always)]
    fn go_on(&self) -> Result<(), SelectFault> {
        Ok(self.interrupts.check()?)
    }
}

impl ReadExecutor {
    // The members of a query as a list, by its plan: from the rows of its first table that a plan finds, or from two whole tables.
    fn find_members<'i>(
        &self,
        catalog: &Catalog,
        query: &Query,
        room: &mut SelectRoom,
        finding: &Finding<'i>,
    ) -> Result<TempList, SelectFault>
        requires { IsMeant catalog.now.limits (database_of catalog.now) (resolved.Select query.now) }
        ensures found { IfOk result (HasMembers catalog.now (query.now.source.table.0 ∷ joined_numbers query.now.joins) (members_of (database_of catalog.now) query.now.source query.now.joins)) }
        ensures declined { IfErr result (λ why. why ≢ fault.TooLong) }
    {
        a_catalog_is_consistent(catalog);
        let first = self.choose_first(catalog, query);
        if query.joins.is_empty() {
            return self.found(catalog, query, first, room, finding);
        }
        match self.plan_joined(catalog, query, first)? {
            QueryPlan::WholeTables(join) => self.join_whole(catalog, query, &join, finding),
            _ => self.found(catalog, query, first, room, finding),
        }
    }

    /// Finds the rows that a select shows, in their order. It never ends by `TooLong`. The room is left as it was found.
    pub fn find_shown(
        &self,
        catalog: &Catalog,
        query: &Query,
        room: &mut SelectRoom,
        interrupts: Interrupts<'_>,
    ) -> Result<FoundRows, SelectFault>
        requires { IsMeant catalog.now.limits (database_of catalog.now) (resolved.Select query.now) }
        ensures found { IfOk result (HasFound (done catalog.now.limits (database_of catalog.now) (resolved.Select query.now)).outcome catalog.now) }
        ensures declined { IfErr result (λ why. why ≢ fault.TooLong) }
        ensures room { IsBounded room.new }
    {
        let members = self.find_members(catalog, query, room, &Finding { interrupts });
        room.empty();
        let list = self.as_shown(catalog, query, members?)?;
        Ok(FoundRows { list })
    }

    /// Makes the cells the values of found rows, a row behind the other: of those behind the first `from`, so many at most. It tells how
    /// many columns each has.
    pub fn show_found(
        &self,
        catalog: &Catalog,
        found: &FoundRows,
        from: usize,
        most: usize,
        cells: &mut Cells,
    ) -> Result<usize, CellFault>
        requires { CanShow catalog.now found.now.list }
        ensures columns { IfOk result (λ columns. columns ≡ length found.now.list.columns) }
        ensures shown { IfOk result (λ _. values_of cells.new ≡ flat_map (λ row. row) (take most (drop from (values_found catalog.now found.now)))) }
        ensures too_long { IsErrOf result CellFault.TooLong → AreFull (values_of cells.new) }
    {
        cells.clear();
        let list = &found.list;
        push_page(cells, catalog, list, list.columns(), from, most)?;
        Ok(list.columns().len())
    }
}
