//! Empty texts in references that take nulls. A load makes nulls of them, so an update for each stands behind the load of its row.

ghost use Rattle.std.specs.Prelude.{◌≡◌, ◌++◌, ◌<◌, ◌↔◌, ◌∷◌, ◌&&◌, ℕ, [], Some, None, Contains, IfErr, IfOk, IsSome, IsTrue, OnOk, false, length, map, slice_get};
ghost use Rattle.std.specs.FinMap as finite;
ghost use Rattle.std.specs.List.{All, flat_map};
ghost use Rattle.part_raw.specs.declared.tuple_ref.TupleRef.{TupleRef as PlainRef};
ghost use Rattle.plain_tables.specs.Stored.{link_number};
ghost use Rattle.mm_catalog.specs.Picked.{seen_values};
ghost use Rattle.mm_session.specs.Listing.{command_lines};
ghost use Rattle.mm_session.specs.Saving.{HasLineFeed, IsUnspellable, emptying, emptying_at, emptyings, is_empty_text, takes_null};
ghost use Rattle.mm_session.specs.SavedRows.{IsStopped};

use crate::answer::Answer;
use crate::saving::SaveFault;
use mm_catalog::Catalog;
use mm_catalog::laws::a_catalog_is_consistent;
use mm_lang::print;
use mm_relation::laws::a_relation_is_kept;
use mm_relation::{Relation, TupleRef};
use no_memory::NoMemory;
use plain_tables::{
    ColKind, ColName, Column, ColumnNumber, Command, Cond, Op, SeenValue, Sequence, Setting,
    StoredValue, Text, Value,
};
use std::alloc::Global;

/// A copy of a value of a row, which is no link.
pub fn copied(alloc: Global, value: &StoredValue) -> Result<Value, NoMemory>
    requires { link_number value.now ≡ None }
    ensures { IfOk result (λ copy. copy ≡ value.now) }
{
    Ok(match value.seen() {
        SeenValue::Null => Value::Null,
        SeenValue::Int(z) => Value::Int(z),
        SeenValue::Text(text) => Value::Text(Text::from_str(alloc, text)?),
        SeenValue::Link(_) => unreachable!(),
    })
}

// Whether a column takes nulls.
fn may_be_null(column: &Column) -> bool
    ensures { result ≡ takes_null column.now.kind }
{
    matches!(&column.kind, ColKind::RefOrNull(_))
}

// Whether one of the columns takes nulls.
fn any_may_be_null(columns: &[Column]) -> bool
    ensures { result ≡ false → All (λ column. takes_null column.kind ≡ false) columns.now }
{
    for column in columns {
        if may_be_null(column) {
            return true;
        }
    }
    false
}

// Whether a value in a column is the empty text in a reference that takes nulls.
fn is_emptied(column: &Column, value: &StoredValue) -> bool
    ensures { result ≡ takes_null column.now.kind && is_empty_text value.now }
{
    match value.seen() {
        SeenValue::Text(text) => may_be_null(column) && text.is_empty(),
        _ => false,
    }
}

// Whether a value has a line feed in it.
fn has_line_feed(value: &StoredValue) -> bool
    ensures { IsTrue result ↔ HasLineFeed value.now }
{
    match value.seen() {
        SeenValue::Text(text) => text.as_bytes().contains(&b'\n'),
        _ => false,
    }
}

// The setting of a column to the empty text.
fn emptying_setting(alloc: Global, column: &str) -> Result<Sequence<Setting>, NoMemory>
    ensures { IfOk result (λ settings. settings ≡ record { column = column.now; value = Value.Text [] } ∷ []) }
{
    let mut settings = Sequence::new(alloc);
    settings.push(Setting {
        column: Text::from_str(alloc, column)?,
        value: Value::Text(Text::from_str(alloc, "")?),
    })?;
    Ok(settings)
}

// The condition that the column of a name is a value.
fn equal_condition(alloc: Global, name: &str, value: Value) -> Result<Sequence<Cond>, NoMemory>
    ensures { IfOk result (λ conditions. conditions ≡ record { column = record { table = None; column = name.now }; op = Op.Eq; value = value } ∷ []) }
{
    let mut conditions = Sequence::new(alloc);
    let column = ColName {
        table: None,
        column: Text::from_str(alloc, name)?,
    };
    conditions.push(Cond {
        column,
        op: Op::Eq,
        value,
    })?;
    Ok(conditions)
}

// The line that sets a column to the empty text in the row of a key.
fn push_emptying(
    alloc: Global,
    answer: &mut Answer,
    table: &str,
    column: &str,
    name: &str,
    key: &StoredValue,
) -> Result<(), NoMemory>
    requires { link_number key.now ≡ None }
    ensures { OnOk result (answer.new ≡ answer.old ++ command_lines (emptying table.now column.now name.now key.now ∷ [])) }
{
    let command = Command::Update {
        table: Text::from_str(alloc, table)?,
        settings: emptying_setting(alloc, column)?,
        conditions: equal_condition(alloc, name, copied(alloc, key)?)?,
    };
    let line = print(alloc, &command)?;
    answer.push(line.as_bytes())?;
    answer.push(b"\n")
}

// The line for a value in a column, where it is such a text.
fn push_emptied(
    alloc: Global,
    answer: &mut Answer,
    table: &str,
    name: &str,
    key: &StoredValue,
    column: &Column,
    value: &StoredValue,
) -> Result<(), SaveFault>
    requires { link_number key.now ≡ None }
    ensures put { OnOk result (answer.new ≡ answer.old ++ command_lines (emptying_at table.now name.now key.now (column.now, value.now))) }
    ensures spelled { OnOk result (0 < length (emptying_at table.now name.now key.now (column.now, value.now)) → ¬ (HasLineFeed key.now)) }
    ensures stopped { IfErr result (IsStopped (HasLineFeed key.now × (0 < length (emptying_at table.now name.now key.now (column.now, value.now))))) }
{
    if !is_emptied(column, value) {
        return Ok(());
    }
    if has_line_feed(key) {
        return Err(SaveFault::Unspellable);
    }
    push_emptying(alloc, answer, table, column.name.as_str(), name, key)?;
    Ok(())
}

// The lines for a row.
fn push_row_emptied(
    alloc: Global,
    answer: &mut Answer,
    table: &str,
    catalog: &Catalog,
    relation: &Relation,
    r: TupleRef,
) -> Result<(), SaveFault>
    requires lent { (n : ℕ) × (slice_get catalog.now.relations n ≡ Some relation.now) }
    requires held { IsSome (finite.get relation.now.rows r) }
    ensures put { OnOk result (answer.new ≡ answer.old ++ command_lines (emptyings table.now relation.now.schema.columns (seen_values catalog.now relation.now r))) }
    ensures spelled { OnOk result (¬ (IsUnspellable table.now relation.now.schema.columns (seen_values catalog.now relation.now r))) }
    ensures stopped { IfErr result (IsStopped (IsUnspellable table.now relation.now.schema.columns (seen_values catalog.now relation.now r))) }
{
    a_catalog_is_consistent(catalog);
    a_relation_is_kept(relation);
    let columns = relation.schema().columns.as_slice();
    let name = columns[0].name.as_str();
    let key = relation.key(r);
    let row = relation.row(r);
    for number in 0..columns.len() {
        let column = &columns[number];
        let value = row.value(ColumnNumber(number), catalog);
        push_emptied(alloc, answer, table, name, key, column, value)?;
    }
    Ok(())
}

/// A line for each empty text in a reference that takes nulls, of these rows. Where no column takes nulls, no row is looked at.
pub fn push_all_emptied(
    alloc: Global,
    answer: &mut Answer,
    table: &str,
    catalog: &Catalog,
    relation: &Relation,
    rows: &[TupleRef],
) -> Result<(), SaveFault>
    requires lent { (n : ℕ) × (slice_get catalog.now.relations n ≡ Some relation.now) }
    requires held { All (λ r. IsSome (finite.get relation.now.rows r)) rows.now }
    ensures put { OnOk result (answer.new ≡ answer.old ++ command_lines (flat_map (emptyings table.now relation.now.schema.columns) (map (seen_values catalog.now relation.now) rows.now))) }
    ensures spelled { OnOk result (All (λ r. ¬ (IsUnspellable table.now relation.now.schema.columns (seen_values catalog.now relation.now r))) rows.now) }
    ensures stopped { IfErr result (IsStopped ((r : PlainRef) × Contains rows.now r × IsUnspellable table.now relation.now.schema.columns (seen_values catalog.now relation.now r))) }
{
    if !any_may_be_null(relation.schema().columns.as_slice()) {
        return Ok(());
    }
    for r in rows {
        push_row_emptied(alloc, answer, table, catalog, relation, *r)?;
    }
    Ok(())
}
