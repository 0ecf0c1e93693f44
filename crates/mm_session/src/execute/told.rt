//! The plan of a select, told: what can be known of how it goes before a row is read.

ghost use Rattle.std.specs.Prelude.{◌≡◌, ◌<◌, IfOk, length, map};
ghost use Rattle.std.specs.List.{All};
ghost use Rattle.plain_tables.specs.ResolvedLaws.{HasPlace, IsMeant};
ghost use Rattle.plain_tables.specs.declared.resolved.Resolved.TheVariants as resolved;
ghost use Rattle.plan_chooser.specs.Plans.{HasColumn};
ghost use Rattle.mm_catalog.specs.Seen.{database_of};
ghost use Rattle.mm_session.specs.Batched.{source_numbers};
ghost use Rattle.mm_session.specs.Members.{IsSourceOf, tables_at};
ghost use Rattle.mm_session.specs.Told.{AreNextJoins, IsNextJoin, IsNextPlan, IsPlanOf, IsWayOf, way_of as way_told};

use super::ReadExecutor;
use super::batched::sources_of;
use super::planned::{QueryPlan, plan_alone};
use super::query::{outer_side, side};
use mm_catalog::Catalog;
use mm_catalog::laws::a_catalog_is_consistent;
use no_memory::NoMemory;
use plain_tables::{Joined, Query, TableNumber};
use plan_chooser::{JoinInput, JoinPlan, NextJoinPlan, Policy, SelectPlan, choose_next_join};

/// Which way a select goes.
#[derive(Clone, Copy)]
pub enum Way {
    /// An index finds rows of one table. One row is shown from where it lies, and more are a list.
    Search(SelectPlan),
    /// No index finds rows of one table. Few are a list, and many are shown in batches.
    Walk,
    /// No index finds rows of one table, of which each list of values is shown once. They are told apart as they are found.
    DistinctScan,
    /// An index finds the rows of the first table. What is joined to them is a list.
    Found(SelectPlan),
    /// No index finds rows of the first table. It is joined with the second as a whole, and what is joined is a list.
    WholeTables(JoinPlan),
    /// No index finds rows of the first table. A batch of them is joined and shown before the next is gathered.
    Batches,
}

/// How the rows so far are joined with one table more. They are few if there are at least twice as many rows in that table.
#[derive(Clone, Copy)]
pub struct NextJoin {
    pub few: NextJoinPlan,
    pub many: NextJoinPlan,
}

/// The plan of a select: its way, and how each of its joins is made from the rows so far. By `WholeTables` the first join isn't.
#[derive(Drop)]
pub struct ToldPlan {
    pub way: Way,
    pub joins: Vec<NextJoin>,
}

// The way of a plan.
fn way_of(plan: &QueryPlan<'_>) -> Way
    ensures { result ≡ way_told plan.now }
{
    match plan {
        QueryPlan::Search(plan) => Way::Search(*plan),
        QueryPlan::Walk => Way::Walk,
        QueryPlan::DistinctScan => Way::DistinctScan,
        QueryPlan::Found(plan) => Way::Found(*plan),
        QueryPlan::WholeTables(first) => Way::WholeTables(first.plan),
        QueryPlan::Batches(_) => Way::Batches,
    }
}

// How rows are joined with one table more, whatever their number is.
fn next_join(policy: Policy, outer: &JoinInput<'_>, inner: &JoinInput<'_>) -> NextJoin
    requires { HasColumn outer.now }
    ensures { IsNextPlan policy outer.now inner.now result }
{
    let half = inner.relation.len() / 2;
    NextJoin {
        few: choose_next_join(policy, 0, outer, inner),
        many: choose_next_join(policy, half as usize + 1, outer, inner),
    }
}

impl ReadExecutor {
    // How a join is made from the rows so far. The sources are of these tables.
    fn tell_join(&self, catalog: &Catalog, sources: &[TableNumber], join: &Joined) -> NextJoin
        requires sources { All (λ n. n < length catalog.now.relations) (map (λ t. t.0) sources.now) }
        requires place { HasPlace (tables_at catalog.now (map (λ t. t.0) sources.now)) join.now.outer }
        requires inner { IsSourceOf catalog.now join.now.source join.now.inner }
        ensures { IsNextJoin self.now.policy catalog.now (map (λ t. t.0) sources.now) join.now result }
    {
        a_catalog_is_consistent(catalog);
        let outer = outer_side(catalog, sources, join);
        let inner = side(catalog, &join.source, join.inner);
        next_join(self.policy, &outer, &inner)
    }

    // How each join of a query is made from the rows so far.
    fn tell_joins(&self, catalog: &Catalog, query: &Query) -> Result<Vec<NextJoin>, NoMemory>
        requires { IsMeant catalog.now.limits (database_of catalog.now) (resolved.Select query.now) }
        ensures { IfOk result (λ joins. AreNextJoins self.now.policy catalog.now (source_numbers query.now) query.now.joins joins.items) }
    {
        a_catalog_is_consistent(catalog);
        let sources = sources_of(self.alloc, query)?;
        let mut joins = Vec::new(self.alloc);
        for join in query.joins.as_slice() {
            joins.push(self.tell_join(catalog, &sources, join))?;
        }
        Ok(joins)
    }

    // The way that the policy chooses for a select.
    fn tell_way(&self, catalog: &Catalog, query: &Query) -> Result<Way, NoMemory>
        requires { IsMeant catalog.now.limits (database_of catalog.now) (resolved.Select query.now) }
        ensures { IfOk result (IsWayOf self.now.policy catalog.now query.now) }
    {
        let first = self.choose_first(catalog, query);
        if query.joins.is_empty() {
            return Ok(way_of(&plan_alone(query, first)));
        }
        let plan = self.plan_joined(catalog, query, first)?;
        Ok(way_of(&plan))
    }

    /// The plan that `push_select` follows, told.
    pub fn tell_plan(&self, catalog: &Catalog, query: &Query) -> Result<ToldPlan, NoMemory>
        requires { IsMeant catalog.now.limits (database_of catalog.now) (resolved.Select query.now) }
        ensures { IfOk result (IsPlanOf self.now.policy catalog.now query.now) }
    {
        let way = self.tell_way(catalog, query)?;
        let joins = self.tell_joins(catalog, query)?;
        Ok(ToldPlan { way, joins })
    }
}
