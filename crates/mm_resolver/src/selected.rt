//! The items, conditions and joins of a select by the numbers of their tables and columns.
ghost use Rattle.std.specs.Prelude.{◌≡◌, ◌≢◌, ◌<◌, Bool, Some, false, true, map, OnOk, IfOk, IfErr, IfSome, length, slice_get, slice_set, zip};
ghost use Rattle.std.specs.List.{enumerate_from};
ghost use Rattle.plain_tables.specs.declared.refusal.Refusal.TheVariants as refusal;
ghost use Rattle.plain_tables.specs.Queries.{named_items, place_meant, places_meant};
ghost use Rattle.plain_tables.specs.Resolving.{shown_of};
ghost use Rattle.plain_tables.specs.Effects.{misses};
ghost use Rattle.plain_statements.specs.Laws.{Refuses};
ghost use Rattle.plain_statements.specs.Slots.{slot_condition_names, condition_needs};
ghost use Rattle.plain_statements.specs.declared.resolution.SlotSource.{SlotSource as PlainSlotSource};
ghost use Rattle.plain_statements.specs.declared.resolution.Template.TheVariants as template;
ghost use Rattle.plain_statements.specs.declared.statement.Statement.TheVariants as statement;
ghost use Rattle.mm_resolver.specs.Naming.{columns_of_all};
ghost use Rattle.mm_resolver.specs.Select.{IsScopeOf, RefusesSelects};
ghost use Rattle.mm_resolver.specs.Slots.{slot_joined_by, slot_query, slot_source_on, untested_slots, with_slot_test};
ghost use Rattle.mm_resolver.specs.Wanted.{Adds, IsFound};

use crate::checks::check_joined;
use crate::culprit::Culprit;
use crate::late::select_late;
use crate::named_table::NamedTable;
use crate::names::{Name, column};
use crate::schemas::{Schemas, named_table};
use crate::scope::Scope;
use crate::slots::place_condition;
use crate::slotted::AsCondition;
use crate::wanted::Wanted;
use no_memory::NoMemory;
use plain_tables::{ColName, Items, Join, Place, Refusal, Sequence, Shown, Text};
use std::alloc::Global;

// Puts a test behind the others of a source.
fn add_test<C: AsCondition>(
    sources: &mut [C::Source],
    source: usize,
    test: C::Test,
) -> Result<(), NoMemory>
    requires { source < length sources.old }
    ensures { OnOk result ((before : PlainSlotSource) → slice_get (map C.as_source sources.old) source ≡ Some before → map C.as_source sources.new ≡ slice_set (map C.as_source sources.old) source (with_slot_test before (C.as_test test))) }
{
    C::add_test(&mut sources[source], test)
}

// Tables as sources that no condition is on.
fn untested_sources<C: AsCondition>(
    alloc: Global,
    tables: &[NamedTable<'_>],
) -> Result<Vec<C::Source>, NoMemory>
    ensures { IfOk result (λ sources. map C.as_source sources.items ≡ map untested_slots tables.now) }
{
    let mut sources = Vec::with_capacity(alloc, tables.len())?;
    for table in tables {
        sources.push(C::untested(alloc, table.table))?;
    }
    Ok(sources)
}

/// What can be named in a select from the table of that name and those that are joined with it, and the columns of its
/// joins. A table that isn't there is told before a join that names no two columns.
pub fn scope_of<'a, S: Schemas>(
    schemas: &'a S,
    table: &Text,
    joins: &[Join],
) -> Result<Scope<'a>, Refusal>
    ensures found { IfOk result (IsScopeOf (S.database schemas.now) table.now joins.now) }
    ensures refused { IfErr result (λ e. e ≢ refusal.NoMemory → RefusesSelects (S.database schemas.now) table.now joins.now e) }
{
    let mut scope = Scope::of(
        schemas.allocator(),
        named_table(schemas, table, Culprit::Table)?,
    )?;
    let mut missed = false;
    for (number, join) in joins.iter().enumerate() {
        let own = named_table(schemas, &join.table, Culprit::Join(number))?;
        let named = scope.join(schemas, number, own, join)?;
        missed |= !named;
    }
    if missed {
        return Err(Refusal::NoSuchColumn);
    }
    Ok(scope)
}

/// Tables as sources, each with the conditions on it as tests, in their order. It adds what the values of the conditions have to be.
pub fn sources<S: Schemas, C: AsCondition>(
    schemas: &S,
    tables: &[NamedTable<'_>],
    conditions: Sequence<C>,
    wanted: &mut Wanted,
) -> Result<Sequence<C::Source>, Refusal>
    ensures sources { IfOk result (λ sources. map C.as_source sources ≡ map (slot_source_on (columns_of_all tables.now) (map C.as_condition conditions)) (enumerate_from 0 tables.now)) }
    ensures wanted { OnOk result (Adds (condition_needs (S.database schemas.now) (columns_of_all tables.now) (map C.as_condition conditions)) wanted.old wanted.new) }
    ensures named { OnOk result (misses (columns_of_all tables.now) (slot_condition_names (map C.as_condition conditions)) ≡ false) }
    ensures refused { IfErr result (λ e. e ≢ refusal.NoMemory → e ≡ refusal.NoSuchColumn) }
    ensures missed { IfErr result (λ e. e ≢ refusal.NoMemory → misses (columns_of_all tables.now) (slot_condition_names (map C.as_condition conditions)) ≡ true) }
{
    let mut sources = untested_sources::<C>(schemas.allocator(), tables)?;
    for condition in conditions.into_vec() {
        let place = place_condition(schemas, tables, &condition, wanted)?;
        add_test::<C>(sources.as_mut_slice(), place.source, condition.at(place))?;
    }
    Ok(Sequence::from_vec(sources))
}

/// A select whose names are found: what it shows, its sources, what is asked of the values that these are tested by, and why it is
/// refused once they are right.
#[derive(Drop)]
pub struct Selection<S, J> {
    pub shown: Shown,
    pub source: S,
    pub joins: Sequence<J>,
    pub wanted: Wanted,
    pub last: Option<Refusal>,
}

/// The select of these items from the table of that name and those that are joined with it, under these conditions.
pub fn find_selection<S: Schemas, C: AsCondition>(
    schemas: &S,
    items: Items,
    table: &Text,
    joins: &[Join],
    conditions: Sequence<C>,
) -> Result<Selection<C::Source, C::Joined>, Refusal>
    ensures found { IfOk result (λ f. (distinct : Bool) → IsFound (S.database schemas.now) (statement.Select distinct items table.now joins.now (map C.as_condition conditions)) f.wanted f.last (template.Select (slot_query distinct f.shown (C.as_source f.source) (map C.as_joined f.joins)))) }
    ensures refused { IfErr result (λ e. e ≢ refusal.NoMemory → (distinct : Bool) → Refuses (S.database schemas.now) (statement.Select distinct items table.now joins.now (map C.as_condition conditions)) e) }
{
    let scope = scope_of(schemas, table, joins)?;
    let shown = scope.shown(schemas, items)?;
    let last = select_late(schemas, &shown, conditions.len(), scope.sides.len());
    let mut wanted = Wanted::new(schemas.allocator());
    let mut sources = sources(schemas, &scope.tables, conditions, &mut wanted)?;
    check_joined(schemas, &scope, &shown)?;
    let source = sources.remove(0);
    let joins = scope.joins::<C>(sources)?;
    Ok(Selection {
        shown,
        source,
        joins,
        wanted,
        last,
    })
}

impl<'a> Scope<'a> {
    // The place of the column that a name means.
    fn place(&self, name: &ColName) -> Option<Place>
        ensures meant { result ≡ place_meant (columns_of_all self.now.tables.items) name.now }
        ensures within { IfSome result (λ place. place.source < length self.now.tables.items) }
    {
        let named = column(&self.tables, Name::of(name))?;
        Some(named.place)
    }

    // The places of the columns that names mean. Names that mean none are left out.
    fn places_meant(&self, alloc: Global, names: &[ColName]) -> Result<Vec<Place>, NoMemory>
        ensures { IfOk result (λ places. places.items ≡ places_meant (columns_of_all self.now.tables.items) names.now) }
    {
        let places = names
            .iter()
            .filter_map(|name| self.place(name))
            .collect(alloc)?;
        Ok(places)
    }

    // The first of these names that means no column.
    fn missed(&self, names: &[ColName]) -> Culprit {
        let number = names.iter().position(|name| self.place(name).is_none());
        Culprit::Item(number.unwrap_or(0))
    }

    /// The columns that items show.
    pub fn shown<S: Schemas>(&self, schemas: &S, items: Items) -> Result<Shown, Refusal>
        ensures shown { IfOk result (λ shown. shown ≡ shown_of (columns_of_all self.now.tables.items) items) }
        ensures named { IfOk result (λ _. misses (columns_of_all self.now.tables.items) (named_items items) ≡ false) }
        ensures refused { IfErr result (λ e. e ≢ refusal.NoMemory → e ≡ refusal.NoSuchColumn) }
        ensures missed { IfErr result (λ e. e ≢ refusal.NoMemory → misses (columns_of_all self.now.tables.items) (named_items items) ≡ true) }
    {
        let Items::Named(names) = items else {
            return Ok(Shown::All);
        };
        let names = names.as_slice();
        let places = self.places_meant(schemas.allocator(), names)?;
        if places.len() < names.len() {
            schemas.blame(Refusal::NoSuchColumn, self.missed(names));
            return Err(Refusal::NoSuchColumn);
        }
        Ok(Shown::Columns(Sequence::from_vec(places)))
    }

    /// The sources behind the first, each joined by the columns of its join.
    pub fn joins<C: AsCondition>(
        self,
        sources: Sequence<C::Source>,
    ) -> Result<Sequence<C::Joined>, NoMemory>
        ensures { IfOk result (λ joins. map C.as_joined joins ≡ map (λ s. slot_joined_by s.0 s.1) (zip (map C.as_source sources) self.entry.sides.items)) }
    {
        let sources = sources.into_vec();
        let mut joins = Vec::new(*sources.allocator());
        for (source, sides) in sources.into_iter().zip(self.sides) {
            joins.push(C::join(source, sides.outer.place, sides.inner.place.column))?;
        }
        Ok(Sequence::from_vec(joins))
    }
}
