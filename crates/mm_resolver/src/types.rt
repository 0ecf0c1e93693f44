//! The types of columns and values.
ghost use Rattle.std.specs.Prelude.{◌≡◌};
ghost use Rattle.std.specs.List.{list_any};
ghost use Rattle.std.specs.Option.{option_and_then, option_copied};
ghost use Rattle.plain_tables.specs.Databases.{table_named};
ghost use Rattle.plain_tables.specs.Resolving as resolving;
ghost use Rattle.plain_tables.specs.References as plain;
ghost use Rattle.plain_statements.specs.Slots as slots;
ghost use Rattle.mm_resolver.specs.Select.{sides_differ};

use crate::culprit::Culprit;
use crate::schemas::Schemas;
use crate::scope::Sides;
use plain_statements::Need;
use plain_tables::{BaseKind, ColKind, Column, Op, Place, Refusal, Text};

/// The name of the table that a column refers to.
pub fn referred(column: &Column) -> Option<&Text>
    ensures { option_copied result ≡ plain.referred column.now.kind }
{
    match &column.kind {
        ColKind::Int | ColKind::Text => None,
        ColKind::Ref(table) => Some(table),
        ColKind::RefOrNull(table) => Some(table),
    }
}

// The type of a column's values, unless it refers to a table.
fn own_type(kind: &ColKind) -> Option<BaseKind>
    ensures { result ≡ plain.own_type kind.now }
{
    match kind {
        ColKind::Int => Some(BaseKind::Int),
        ColKind::Text => Some(BaseKind::Text),
        ColKind::Ref(_) | ColKind::RefOrNull(_) => None,
    }
}

fn takes_null(kind: &ColKind) -> bool
    ensures { result ≡ plain.takes_null kind.now }
{
    matches!(kind, ColKind::RefOrNull(_))
}

// Whether two types are one. Where one is none, they aren't.
fn same_type(left: Option<BaseKind>, right: Option<BaseKind>) -> bool
    ensures { result ≡ plain.same_type left right }
{
    matches!(
        (left, right),
        (Some(BaseKind::Int), Some(BaseKind::Int)) | (Some(BaseKind::Text), Some(BaseKind::Text))
    )
}

// Whether an operator asks for an order, in which a null has no place.
fn asks_order(op: Op) -> bool
    ensures { result ≡ resolving.asks_order op }
{
    match op {
        Op::Eq | Op::Ne => false,
        Op::Lt | Op::Le | Op::Gt | Op::Ge => true,
    }
}

/// Whether the table that a column refers to is there, if it refers to one.
pub fn refers_into<S: Schemas>(schemas: &S, column: &Column) -> bool
    ensures { result ≡ plain.refers_into (S.database schemas.now) column.now }
{
    match referred(column) {
        Some(name) => schemas.table_number(name).is_some(),
        None => true,
    }
}

// The type of the keys of the table of that name.
fn key_type<S: Schemas>(schemas: &S, name: &Text) -> Option<BaseKind>
    ensures { result ≡ option_and_then plain.key_type (table_named name.now (S.database schemas.now)) }
{
    let table = schemas.table_number(name)?;
    let key = schemas.columns(table).first()?;
    own_type(&key.kind)
}

/// The type of a column's values. A reference column's are keys of the table that it refers to.
pub fn type_of<S: Schemas>(schemas: &S, kind: &ColKind) -> Option<BaseKind>
    ensures { result ≡ plain.type_of (S.database schemas.now) kind.now }
{
    match kind {
        ColKind::Int | ColKind::Text => own_type(kind),
        ColKind::Ref(table) => key_type(schemas, table),
        ColKind::RefOrNull(table) => key_type(schemas, table),
    }
}

/// What a value has to be that is stored in a column of this kind.
pub fn stored_need<S: Schemas>(schemas: &S, kind: &ColKind) -> Need
    ensures { result ≡ slots.stored_need (S.database schemas.now) kind.now }
{
    Need {
        base: type_of(schemas, kind),
        null: takes_null(kind),
        stored: true,
    }
}

/// What a value has to be that the values of a column of this kind are compared with.
pub fn compared_need<S: Schemas>(schemas: &S, kind: &ColKind, op: Op) -> Need
    ensures { result ≡ slots.compared_need (S.database schemas.now) kind.now op }
{
    Need {
        base: type_of(schemas, kind),
        null: takes_null(kind) && !asks_order(op),
        stored: false,
    }
}

// Whether the two columns of a join are of different types.
fn differ_in_type<S: Schemas>(schemas: &S, sides: &Sides<'_>) -> bool
    ensures { result ≡ sides_differ (S.database schemas.now) sides.now }
{
    !same_type(
        type_of(schemas, &sides.outer.column.kind),
        type_of(schemas, &sides.inner.column.kind),
    )
}

// The columns of the join of that number, to be blamed. No table is named twice, so its own stands behind as many others.
fn sides_of(join: usize, sides: &Sides<'_>) -> Culprit {
    Culprit::Sides {
        outer: sides.outer.place,
        inner: Place {
            source: join.saturating_add(1),
            column: sides.inner.place.column,
        },
    }
}

/// Whether the two columns of one of the joins are of different types.
pub fn sides_are_mistyped<S: Schemas>(schemas: &S, sides: &[Sides<'_>]) -> bool
    ensures { result ≡ list_any (sides_differ (S.database schemas.now)) sides.now }
{
    match sides.iter().position(|join| differ_in_type(schemas, join)) {
        Some(join) => {
            schemas.blame(Refusal::WrongType, sides_of(join, &sides[join]));
            true
        }
        None => false,
    }
}
