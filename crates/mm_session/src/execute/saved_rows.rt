//! The pieces of a dump that have rows. They go on behind a row, by one search of the tree of the key.

ghost use Rattle.std.specs.Prelude.{◌≡◌, ◌<◌, ◌≤◌, ◌∷◌, ℕ, [], List, None, Some, IfErr, IfOk, IsSome, IsSomeAnd, OnOk, length, map, slice_get, take};
ghost use Rattle.std.specs.FinMap as finite;
ghost use Rattle.std.specs.List.{All};
ghost use Rattle.plain_tables.specs.Stored.{link_number};
ghost use Rattle.mm_catalog.specs.Picked.{HoldsRows, seen_values};
ghost use Rattle.mm_catalog.specs.Seen.{database_of};
ghost use Rattle.temp_list.specs.Reading.{OfRelation};
ghost use Rattle.mm_session.specs.SavedRows.{HaveRoom, IsFilled, IsHeld, IsNotFound, IsStopped, tests_behind as tests_behind_so};
ghost use Rattle.mm_session.specs.Saving.{AreUnspellable, IsDeclined, IsPiece, IsPlace, IsUnspellable, OfTableAt, block_of, rows_behind, rows_text};
ghost use Rattle.mm_session.specs.declared.saving.SavePlace.TheVariants as place;

use super::blocks::{insert_load_line, names_of, push_record};
use super::emptied::{copied, push_all_emptied};
use super::sink::Records;
use crate::answer::Answer;
use crate::saving::{SaveFault, SavePlace};
use mm_catalog::Catalog;
use mm_catalog::laws::a_catalog_is_consistent;
use mm_csv::RecordWriter;
use mm_relation::{Relation, Relations, TupleRef};
use no_memory::NoMemory;
use plain_tables::{ColumnNumber, Op, StoredValue, TableNumber, Test};
use std::alloc::Global;
use std::mem;
use temp_list::find_first_rows;

// No piece has more rows, so none takes long.
const MOST_ROWS: usize = 16_384;

// The one test that the key is above this one.
fn above_key(alloc: Global, key: &StoredValue) -> Result<Vec<Test>, NoMemory>
    requires { link_number key.now ≡ None }
    ensures { IfOk result (λ tests. tests.items ≡ record { column = record { 0 = 0 }; op = Op.Gt; value = key.now } ∷ []) }
{
    let mut tests = Vec::new(alloc);
    tests.push(Test {
        column: ColumnNumber(0),
        op: Op::Gt,
        value: copied(alloc, key)?,
    })?;
    Ok(tests)
}

// The tests that the rows behind one pass. Behind none there are no tests.
fn tests_behind(
    alloc: Global,
    catalog: &Catalog,
    relation: &Relation,
    after: Option<TupleRef>,
) -> Result<Vec<Test>, SaveFault>
    requires { (n : ℕ) × (slice_get catalog.now.relations n ≡ Some relation.now) }
    ensures made { IfOk result (λ tests. tests.items ≡ tests_behind_so catalog.now relation.now after) }
    ensures held { OnOk result (IsHeld relation.now after) }
    ensures not_found { IfErr result (IsNotFound relation.now after) }
{
    a_catalog_is_consistent(catalog);
    let Some(r) = after else {
        return Ok(Vec::new(alloc));
    };
    if !relation.holds(r) {
        return Err(SaveFault::NoSuchPlace);
    }
    Ok(above_key(alloc, relation.key(r))?)
}

// The first rows behind one, in the order of their keys.
fn find_behind(
    alloc: Global,
    catalog: &Catalog,
    table: TableNumber,
    after: Option<TupleRef>,
) -> Result<Vec<TupleRef>, SaveFault>
    requires { table.0 < length (database_of catalog.now) }
    ensures found { IfOk result (λ rows. OfRelation catalog.now.relations table.0 (λ s. rows.items ≡ take 16384 (rows_behind catalog.now s after))) }
    ensures there { OnOk result (IsPlace catalog.now (place.Rows table after)) }
    ensures declined { IfErr result (IsDeclined catalog.now (place.Rows table after)) }
{
    a_catalog_is_consistent(catalog);
    let tests = tests_behind(alloc, catalog, catalog.at(table), after)?;
    let mut rows = Vec::new(alloc);
    find_first_rows(catalog, table, tests.as_slice(), MOST_ROWS, &mut rows)?;
    Ok(rows)
}

// Puts the records of rows behind those that are written, up to the first that has no room within the limit. Of the first rows, which have
// room, it tells how many they are and where they end.
fn push_fitting<'a>(
    records: &mut Records<'a>,
    limit: usize,
    catalog: &'a Catalog,
    relation: &'a Relation,
    rows: &[TupleRef],
) -> Result<(usize, usize), NoMemory>
    requires ended { records.old.part ≡ [] }
    requires some { 0 < length relation.now.schema.columns }
    requires held { All (λ r. IsSome (finite.get relation.now.rows r)) rows.now }
    requires lent { (n : ℕ) × (slice_get catalog.now.relations n ≡ Some relation.now) }
    ensures { IfOk result (λ fit. (front : List ℕ) → records.old.bytes ≡ Some front → IsSomeAnd records.new.bytes (λ whole. HaveRoom limit front whole (map (seen_values catalog.now relation.now) rows.now) fit.0 fit.1)) }
{
    let mut end = records.written().len();
    for number in 0..rows.len() {
        push_record(records, catalog, relation, rows[number])?;
        let all = records.written().len();
        if all > limit {
            return Ok((number, end));
        }
        end = all;
    }
    Ok((rows.len(), end))
}

// Makes an empty answer the block of the first of these rows, as many as have room in it, and tells how many they are.
fn fill_block(
    alloc: Global,
    catalog: &Catalog,
    table: TableNumber,
    rows: &[TupleRef],
    answer: &mut Answer,
) -> Result<usize, NoMemory>
    requires there { table.0 < length (database_of catalog.now) }
    requires held { HoldsRows catalog.now table.0 rows.now }
    requires empty { answer.old ≡ [] }
    ensures filled { IfOk result (λ count. OfRelation catalog.now.relations table.0 (λ s. IsFilled catalog.now s rows.now answer.new count)) }
    ensures few { IfOk result (λ count. count ≤ length rows.now) }
{
    a_catalog_is_consistent(catalog);
    let relation = catalog.at(table);
    let limit = catalog.limits().block as usize;
    let names = names_of(alloc, relation.schema().columns.as_slice())?;
    let mut writer = RecordWriter::new(alloc, mem::replace(answer, Answer::new(alloc)?));
    writer.push_names(&names)?;
    let mut records = Records::new(alloc, writer, names.len())?;
    let (count, end) = push_fitting(&mut records, limit, catalog, relation, rows)?;
    let (whole, _) = records.finish()?;
    *answer = whole;
    answer.truncate(end);
    Ok(count)
}

// Puts the line that loads the block of these rows in front of it, and their updates behind it.
fn put_around(
    alloc: Global,
    catalog: &Catalog,
    table: TableNumber,
    rows: &[TupleRef],
    answer: &mut Answer,
) -> Result<(), SaveFault>
    requires there { table.0 < length (database_of catalog.now) }
    requires held { HoldsRows catalog.now table.0 rows.now }
    ensures made { OnOk result (OfTableAt catalog.now table (λ t s. answer.old ≡ block_of t.columns (map (seen_values catalog.now s) rows.now) → answer.new ≡ rows_text t.name t.columns (map (seen_values catalog.now s) rows.now))) }
    ensures spelled { OnOk result (OfTableAt catalog.now table (λ t s. All (λ r. ¬ (IsUnspellable t.name t.columns (seen_values catalog.now s r))) rows.now)) }
    ensures stopped { IfErr result (λ why. OfTableAt catalog.now table (λ t s. IsStopped (AreUnspellable catalog.now t s rows.now) why)) }
{
    a_catalog_is_consistent(catalog);
    let name = catalog.table_name(table);
    insert_load_line(alloc, name, 0, answer)?;
    push_all_emptied(alloc, answer, name, catalog, catalog.at(table), rows)
}

/// Makes an empty answer the piece of a dump with the next rows of a table, and tells where the save goes on.
pub fn save_rows(
    alloc: Global,
    catalog: &Catalog,
    table: TableNumber,
    after: Option<TupleRef>,
    answer: &mut Answer,
) -> Result<Option<SavePlace>, SaveFault>
    requires table { table.0 < length (database_of catalog.now) }
    requires empty { answer.old ≡ [] }
    ensures there { OnOk result (IsPlace catalog.now (place.Rows table after)) }
    ensures piece { IfOk result (IsPiece catalog.now (place.Rows table after) answer.new) }
    ensures declined { IfErr result (IsDeclined catalog.now (place.Rows table after)) }
{
    a_catalog_is_consistent(catalog);
    let found = find_behind(alloc, catalog, table, after)?;
    let rows = found.as_slice();
    if rows.is_empty() {
        return Ok(Some(SavePlace::Indexes { table }));
    }
    let count = fill_block(alloc, catalog, table, rows, answer)?;
    if count == 0 {
        return Err(SaveFault::RowTooLong);
    }
    put_around(alloc, catalog, table, &rows[..count], answer)?;
    Ok(Some(SavePlace::Rows {
        table,
        after: Some(rows[count - 1]),
    }))
}
