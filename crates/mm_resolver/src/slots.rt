//! The values of rows, conditions and settings, and what stands in their place: the places of the columns that they are for, and what
//! they have to be. Each name is sought once.
ghost use Rattle.std.specs.Prelude.{◌≡◌, ◌≢◌, ◌<◌, ◌∷◌, [], false, true, map, None, Some, OnOk, IfOk, IfErr, length};
ghost use Rattle.plain_tables.specs.declared.refusal.Refusal.TheVariants as refusal;
ghost use Rattle.plain_tables.specs.Effects.{misses};
ghost use Rattle.plain_tables.specs.Queries.{place_meant};
ghost use Rattle.plain_statements.specs.Slots.{slot_condition_names, slot_setting_name, slot_tests_of, slot_assignments_of, row_needs, setting_needs, condition_needs};
ghost use Rattle.mm_resolver.specs.Naming.{columns_of_all};
ghost use Rattle.mm_resolver.specs.Wanted.{IsWantedOf, Adds};

use crate::culprit::Culprit;
use crate::named_table::NamedTable;
use crate::names::{Name, column};
use crate::schemas::Schemas;
use crate::slotted::{AsCondition, AsSetting, AsSlot};
use crate::types::{compared_need, stored_need};
use crate::wanted::Wanted;
use no_memory::NoMemory;
use plain_tables::{Column, ColumnNumber, Place, Refusal, Sequence};

/// What is asked of the values of a row for a table of these columns.
pub fn row_wanted<S: Schemas, V: AsSlot>(
    schemas: &S,
    columns: &[Column],
    row: &[V],
) -> Result<Wanted, NoMemory>
    ensures { IfOk result (IsWantedOf (row_needs (S.database schemas.now) columns.now (map V.as_slot row.now))) }
{
    let mut wanted = Wanted::new(schemas.allocator());
    for (column, value) in columns.iter().zip(row) {
        let place = Place {
            source: 0,
            column: ColumnNumber(wanted.asked()),
        };
        let need = stored_need(schemas, &column.kind);
        value.want(schemas, place, need, &mut wanted)?;
    }
    Ok(wanted)
}

/// Where the column of a condition stands. It adds what the value of the condition has to be.
pub fn place_condition<S: Schemas, C: AsCondition>(
    schemas: &S,
    tables: &[NamedTable<'_>],
    condition: &C,
    wanted: &mut Wanted,
) -> Result<Place, Refusal>
    ensures place { IfOk result (λ place. place_meant (columns_of_all tables.now) (C.as_condition condition.now).column ≡ Some place) }
    ensures within { IfOk result (λ place. place.source < length tables.now) }
    ensures wanted { OnOk result (Adds (condition_needs (S.database schemas.now) (columns_of_all tables.now) (C.as_condition condition.now ∷ [])) wanted.old wanted.new) }
    ensures refused { IfErr result (λ e. e ≢ refusal.NoMemory → e ≡ refusal.NoSuchColumn) }
    ensures missed { IfErr result (λ e. e ≢ refusal.NoMemory → place_meant (columns_of_all tables.now) (C.as_condition condition.now).column ≡ None) }
{
    let Some(named) = column(tables, Name::of(condition.column())) else {
        schemas.blame(Refusal::NoSuchColumn, Culprit::Name(wanted.asked()));
        return Err(Refusal::NoSuchColumn);
    };
    let need = compared_need(schemas, &named.column.kind, condition.op());
    condition.want(schemas, named.place, need, wanted)?;
    Ok(named.place)
}

// Where the column of a setting stands. It adds what the value that is set has to be.
fn place_setting<S: Schemas, A: AsSetting>(
    schemas: &S,
    tables: &[NamedTable<'_>],
    setting: &A,
    wanted: &mut Wanted,
) -> Result<Place, Refusal>
    ensures place { IfOk result (λ place. place_meant (columns_of_all tables.now) (slot_setting_name (A.as_setting setting.now)) ≡ Some place) }
    ensures wanted { OnOk result (Adds (setting_needs (S.database schemas.now) (columns_of_all tables.now) (A.as_setting setting.now ∷ [])) wanted.old wanted.new) }
    ensures refused { IfErr result (λ e. e ≢ refusal.NoMemory → e ≡ refusal.NoSuchColumn) }
    ensures missed { IfErr result (λ e. e ≢ refusal.NoMemory → place_meant (columns_of_all tables.now) (slot_setting_name (A.as_setting setting.now)) ≡ None) }
{
    let Some(named) = column(tables, Name::bare(setting.name())) else {
        schemas.blame(Refusal::NoSuchColumn, Culprit::Name(wanted.asked()));
        return Err(Refusal::NoSuchColumn);
    };
    let need = stored_need(schemas, &named.column.kind);
    setting.want(schemas, named.place, need, wanted)?;
    Ok(named.place)
}

/// The conditions on these tables as tests, in their order. It adds what their values have to be.
pub fn tests<S: Schemas, C: AsCondition>(
    schemas: &S,
    tables: &[NamedTable<'_>],
    conditions: Sequence<C>,
    wanted: &mut Wanted,
) -> Result<Sequence<C::Test>, Refusal>
    ensures tests { IfOk result (λ tests. map C.as_test tests ≡ slot_tests_of (columns_of_all tables.now) (map C.as_condition conditions)) }
    ensures wanted { OnOk result (Adds (condition_needs (S.database schemas.now) (columns_of_all tables.now) (map C.as_condition conditions)) wanted.old wanted.new) }
    ensures named { OnOk result (misses (columns_of_all tables.now) (slot_condition_names (map C.as_condition conditions)) ≡ false) }
    ensures refused { IfErr result (λ e. e ≢ refusal.NoMemory → e ≡ refusal.NoSuchColumn) }
    ensures missed { IfErr result (λ e. e ≢ refusal.NoMemory → misses (columns_of_all tables.now) (slot_condition_names (map C.as_condition conditions)) ≡ true) }
{
    let conditions = conditions.into_vec();
    let mut tests = Vec::with_capacity(schemas.allocator(), conditions.len()).map_err(
        NoMemory::from,
    )?;
    for condition in conditions {
        let place = place_condition(schemas, tables, &condition, wanted)?;
        tests.push(condition.at(place)).map_err(NoMemory::from)?;
    }
    Ok(Sequence::from_vec(tests))
}

/// The settings of columns of these tables as assignments, in their order. It adds what their values have to be.
pub fn assignments<S: Schemas, A: AsSetting>(
    schemas: &S,
    tables: &[NamedTable<'_>],
    settings: Sequence<A>,
    wanted: &mut Wanted,
) -> Result<Sequence<A::Assignment>, Refusal>
    ensures assignments { IfOk result (λ set. map A.as_assignment set ≡ slot_assignments_of (columns_of_all tables.now) (map A.as_setting settings)) }
    ensures wanted { OnOk result (Adds (setting_needs (S.database schemas.now) (columns_of_all tables.now) (map A.as_setting settings)) wanted.old wanted.new) }
    ensures named { OnOk result (misses (columns_of_all tables.now) (map slot_setting_name (map A.as_setting settings)) ≡ false) }
    ensures refused { IfErr result (λ e. e ≢ refusal.NoMemory → e ≡ refusal.NoSuchColumn) }
    ensures missed { IfErr result (λ e. e ≢ refusal.NoMemory → misses (columns_of_all tables.now) (map slot_setting_name (map A.as_setting settings)) ≡ true) }
{
    let settings = settings.into_vec();
    let mut assignments = Vec::with_capacity(schemas.allocator(), settings.len()).map_err(
        NoMemory::from,
    )?;
    for setting in settings {
        let place = place_setting(schemas, tables, &setting, wanted)?;
        assignments.push(setting.at(place)).map_err(NoMemory::from)?;
    }
    Ok(Sequence::from_vec(assignments))
}
