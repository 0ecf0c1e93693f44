//! The checks that need no row, of commands whose names are resolved.
ghost use Rattle.std.specs.Prelude.{◌≡◌, ◌==◌, ◌||◌, take, not, is_some, length, nat_lt, nat_le};
ghost use Rattle.std.specs.List.{list_any};
ghost use Rattle.plain_tables.specs.Databases.{table_named};
ghost use Rattle.plain_tables.specs.Effects as effects;
ghost use Rattle.plain_tables.specs.References as plain;
ghost use Rattle.plain_tables.specs.Resolving as resolving;
ghost use Rattle.mm_resolver.specs.Naming as resolve;
ghost use Rattle.mm_resolver.specs.Checks.{verdict};
ghost use Rattle.mm_resolver.specs.Select.{asks_too_much as asks_too_much_so, joined_rest};
ghost use Rattle.plain_tables.specs.Queries.{same_place};

use crate::culprit::Culprit;
use crate::repeats::repeats_name;
use crate::schemas::Schemas;
use crate::scope::Scope;
use crate::types::{referred, refers_into, sides_are_mistyped};
use plain_tables::{Column, Place, Refusal, Schema, Shown, Text};

/// The most tables that there may be.
pub const MOST_TABLES: usize = 64;

/// The most columns that a table may have.
pub const MOST_COLUMNS: usize = 16;

/// The most columns that a select may name.
pub const MOST_ITEMS: usize = 16;

/// The most conditions that a command may have.
pub const MOST_CONDITIONS: usize = 8;

/// The most joins that a select may have.
pub const MOST_JOINS: usize = 3;

// Whether the key's column refers to a table.
fn key_refers(columns: &[Column]) -> bool
    ensures { result ≡ list_any (λ c. is_some (plain.referred c.kind)) (take 1 columns.now) }
{
    match columns.first() {
        Some(key) => referred(key).is_some(),
        None => false,
    }
}

fn shows_place(place: Place, places: &[Place]) -> bool
    ensures { result ≡ list_any (same_place place) places.now }
{
    places.iter().any(|other| place.source == other.source && place.column.0 == other.column.0)
}

// Whether a column is shown twice.
fn repeats_place<S: Schemas>(schemas: &S, places: &[Place]) -> bool
    ensures { result ≡ effects.repeats same_place places.now }
{
    let mut rest = places;
    while let Some((first, others)) = rest.split_first() {
        if shows_place(*first, others) {
            schemas.blame(Refusal::ColumnNamedTwice, Culprit::Shown(*first));
            return true;
        }
        rest = others;
    }
    false
}

// The places of the columns that are shown by their names.
fn shown_places(shown: &Shown) -> &[Place]
    ensures { result.now ≡ resolve.shown_places shown.now }
{
    match shown {
        Shown::All => &[],
        Shown::Columns(places) => places.as_slice(),
    }
}

/// Whether there are more than the most that there may be. The culprit is then to blame.
pub fn are_too_many<S: Schemas>(schemas: &S, count: usize, most: usize, culprit: Culprit) -> bool
    ensures { result ≡ nat_lt most count }
{
    if count <= most {
        return false;
    }
    schemas.blame(Refusal::TooMany, culprit);
    true
}

/// Whether a select names more items, conditions or joins than it may.
pub fn asks_too_much<S: Schemas>(
    schemas: &S,
    shown: &Shown,
    conditions: usize,
    joins: usize,
) -> bool
    ensures { result ≡ asks_too_much_so shown.now conditions joins }
{
    let items = shown_places(shown).len();
    are_too_many(schemas, items, MOST_ITEMS, Culprit::Items)
        || are_too_many(schemas, conditions, MOST_CONDITIONS, Culprit::Conditions)
        || are_too_many(schemas, joins, MOST_JOINS, Culprit::Joins)
}

// Whether a column refers to a table that isn't there.
fn refers_to_missing<S: Schemas>(schemas: &S, columns: &[Column]) -> bool
    ensures { result ≡ list_any (λ c. not (plain.refers_into (S.database schemas.now) c)) columns.now }
{
    match columns
        .iter()
        .position(|column| !refers_into(schemas, column))
    {
        Some(number) => {
            schemas.blame(Refusal::NoSuchTable, Culprit::Column(number));
            true
        }
        None => false,
    }
}

pub fn has_table<S: Schemas>(schemas: &S, name: &Text) -> bool
    ensures { result ≡ is_some (table_named name.now (S.database schemas.now)) }
{
    schemas.table_number(name).is_some()
}

// Whether these columns are too many for a table, or one more table is.
fn is_full<S: Schemas>(schemas: &S, columns: &[Column]) -> bool
    ensures { result ≡ (nat_lt 16 (length columns.now) || nat_le 64 (length (S.database schemas.now))) }
{
    if are_too_many(schemas, columns.len(), MOST_COLUMNS, Culprit::Columns) {
        return true;
    }
    if schemas.table_count() < MOST_TABLES {
        return false;
    }
    schemas.blame(Refusal::TooMany, Culprit::Tables);
    true
}

/// The tables that are referred to are there, the name is new, no column is named twice, the key refers to no table, and
/// there is room for so many columns and for the table.
pub fn check_table<S: Schemas>(schemas: &S, name: &Text, schema: &Schema) -> Result<(), Refusal>
    ensures { result ≡ verdict (resolving.table_checks (S.database schemas.now) name.now schema.now) }
{
    let columns = schema.columns.as_slice();
    if refers_to_missing(schemas, columns) {
        return Err(Refusal::NoSuchTable);
    }
    if has_table(schemas, name) {
        schemas.blame(Refusal::TableExists, Culprit::Table);
        return Err(Refusal::TableExists);
    }
    if repeats_name(schemas, columns) {
        return Err(Refusal::ColumnNamedTwice);
    }
    if key_refers(columns) {
        schemas.blame(Refusal::WrongType, Culprit::Key);
        return Err(Refusal::WrongType);
    }
    if is_full(schemas, columns) {
        return Err(Refusal::TooMany);
    }
    Ok(())
}

/// No column is shown twice, no table named twice, and the two columns of each join are of one type. The join that names a table
/// twice was blamed when it was made.
pub fn check_joined<S: Schemas>(
    schemas: &S,
    scope: &Scope<'_>,
    shown: &Shown,
) -> Result<(), Refusal>
    ensures { result ≡ verdict (joined_rest (S.database schemas.now) scope.now shown.now) }
{
    if repeats_place(schemas, shown_places(shown)) {
        return Err(Refusal::ColumnNamedTwice);
    }
    if scope.tables.len() <= scope.sides.len() {
        return Err(Refusal::TableNamedTwice);
    }
    if sides_are_mistyped(schemas, scope.sides.as_slice()) {
        return Err(Refusal::WrongType);
    }
    Ok(())
}
