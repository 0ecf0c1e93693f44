//! Rows that are put into a sink, value by value, from where they lie.

ghost use Rattle.std.specs.Prelude.{◌≡◌, ◌∷◌, ◌<◌, ℕ, [], Some, IsSome, IfErr, OnOk, length, map, slice_get, slice_index_or, drop, take};
ghost use Rattle.std.specs.FinMap as finite;
ghost use Rattle.std.specs.List.{All};
ghost use Rattle.mm_catalog.specs.Picked.{seen_values};
ghost use Rattle.temp_list.specs.Lists.{IsOver, IsRowOver, HasPlace};
ghost use Rattle.mm_session.specs.OnlyRow.{columns_shown, values_shown};
ghost use Rattle.mm_session.specs.Shown.{placed_values};
ghost use Rattle.mm_session.specs.Sinks.{PutsValues, PutsRows};
ghost use Rattle.mm_session.specs.Walked.{shown_row, AreColumns};

use super::sink::RowSink;
use mm_catalog::Catalog;
use mm_catalog::laws::a_catalog_is_consistent;
use mm_relation::laws::a_relation_is_kept;
use mm_relation::{Relation, Relations, TupleRef};
use plain_tables::{ColumnNumber, Place, Shown, TableNumber};
use temp_list::TempList;

/// Puts the values at these places of a row of one table behind those of the row that the sink has.
#[inline]
pub fn push_placed<'a, S: RowSink<'a>>(
    sink: &mut S,
    catalog: &'a Catalog,
    relation: &'a Relation,
    r: TupleRef,
    places: &[Place],
) -> Result<(), S::Fault>
    requires lent { (n : ℕ) × (slice_get catalog.now.relations n ≡ Some relation.now) }
    requires held { IsSome (finite.get relation.now.rows r) }
    requires columns { AreColumns relation.now places.now }
    ensures put { OnOk result (PutsValues S.received sink.old sink.new (shown_row catalog.now relation.now places.now r)) }
    ensures declined { IfErr result (S.declines sink.new) }
{
    a_catalog_is_consistent(catalog);
    a_relation_is_kept(relation);
    let row = relation.row(r);
    for place in places {
        sink.push_value(row.value(place.column, catalog))?;
    }
    Ok(())
}

/// Puts the values of a row of one table, of all its columns, behind those of the row that the sink has.
#[inline]
pub fn push_whole<'a, S: RowSink<'a>>(
    sink: &mut S,
    catalog: &'a Catalog,
    relation: &'a Relation,
    r: TupleRef,
) -> Result<(), S::Fault>
    requires lent { (n : ℕ) × (slice_get catalog.now.relations n ≡ Some relation.now) }
    requires held { IsSome (finite.get relation.now.rows r) }
    ensures put { OnOk result (PutsValues S.received sink.old sink.new (seen_values catalog.now relation.now r)) }
    ensures declined { IfErr result (S.declines sink.new) }
{
    a_catalog_is_consistent(catalog);
    a_relation_is_kept(relation);
    let row = relation.row(r);
    for column in 0..relation.schema().columns.len() {
        sink.push_value(row.value(ColumnNumber(column), catalog))?;
    }
    Ok(())
}

// Puts the values that are shown of a row of one table behind those of the row that the sink has.
#[inline]
fn push_columns<'a, S: RowSink<'a>>(
    sink: &mut S,
    catalog: &'a Catalog,
    relation: &'a Relation,
    r: TupleRef,
    shown: &Shown,
) -> Result<(), S::Fault>
    requires lent { (n : ℕ) × (slice_get catalog.now.relations n ≡ Some relation.now) }
    requires held { IsSome (finite.get relation.now.rows r) }
    requires columns { All (λ column. column.0 < length relation.now.schema.columns) (columns_shown (length relation.now.schema.columns) shown.now) }
    ensures put { OnOk result (PutsValues S.received sink.old sink.new (values_shown catalog.now relation.now shown.now r)) }
    ensures declined { IfErr result (S.declines sink.new) }
{
    match shown {
        Shown::All => push_whole(sink, catalog, relation, r),
        Shown::Columns(places) => push_placed(sink, catalog, relation, r, places.as_slice()),
    }
}

/// Puts a row of one table into a sink: the values that are shown of it.
#[inline]
pub fn push_shown<'a, S: RowSink<'a>>(
    sink: &mut S,
    catalog: &'a Catalog,
    relation: &'a Relation,
    r: TupleRef,
    shown: &Shown,
) -> Result<(), S::Fault>
    requires lent { (n : ℕ) × (slice_get catalog.now.relations n ≡ Some relation.now) }
    requires held { IsSome (finite.get relation.now.rows r) }
    requires columns { All (λ column. column.0 < length relation.now.schema.columns) (columns_shown (length relation.now.schema.columns) shown.now) }
    requires some { 0 < length (columns_shown (length relation.now.schema.columns) shown.now) }
    ensures put { OnOk result (PutsRows S.received sink.old sink.new (values_shown catalog.now relation.now shown.now r ∷ [])) }
    ensures declined { IfErr result (S.declines sink.new) }
{
    push_columns(sink, catalog, relation, r, shown)?;
    sink.end_row()
}

/// Puts rows of one table into a sink: of each the values that are shown. At each it goes on, or ends.
pub fn push_each<'a, S: RowSink<'a>>(
    sink: &mut S,
    catalog: &'a Catalog,
    relation: &'a Relation,
    rows: &[TupleRef],
    shown: &Shown,
) -> Result<(), S::Fault>
    requires lent { (n : ℕ) × (slice_get catalog.now.relations n ≡ Some relation.now) }
    requires held { All (λ r. IsSome (finite.get relation.now.rows r)) rows.now }
    requires columns { All (λ column. column.0 < length relation.now.schema.columns) (columns_shown (length relation.now.schema.columns) shown.now) }
    requires some { 0 < length (columns_shown (length relation.now.schema.columns) shown.now) }
    ensures put { OnOk result (PutsRows S.received sink.old sink.new (map (values_shown catalog.now relation.now shown.now) rows.now)) }
    ensures declined { IfErr result (S.declines sink.new) }
{
    for r in rows {
        sink.go_on()?;
        push_shown(sink, catalog, relation, *r, shown)?;
    }
    Ok(())
}

// Puts a row of a list over one table into a sink: the values at these places. Its row is looked up once.
#[inline]
fn push_single<'a, S: RowSink<'a>>(
    sink: &mut S,
    catalog: &'a Catalog,
    table: TableNumber,
    r: TupleRef,
    places: &[Place],
) -> Result<(), S::Fault>
    requires there { table.0 < length catalog.now.relations }
    requires row { IsRowOver catalog.now.relations (table.0 ∷ []) (r ∷ []) }
    requires places { All (HasPlace catalog.now.relations (table.0 ∷ [])) places.now }
    requires some { 0 < length places.now }
    ensures put { OnOk result (PutsRows S.received sink.old sink.new (placed_values catalog.now (table.0 ∷ []) places.now (r ∷ []) ∷ [])) }
    ensures declined { IfErr result (S.declines sink.new) }
{
    a_catalog_is_consistent(catalog);
    push_placed(sink, catalog, catalog.at(table), r, places)?;
    sink.end_row()
}

// Puts a row of a list over any sources into a sink: the values at these places.
fn push_joined<'a, S: RowSink<'a>>(
    sink: &mut S,
    catalog: &'a Catalog,
    list: &TempList,
    row: usize,
    places: &[Place],
) -> Result<(), S::Fault>
    requires over { IsOver catalog.now.relations list.now }
    requires places { All (HasPlace catalog.now.relations list.now.sources) places.now }
    requires some { 0 < length places.now }
    requires row { row < length list.now.rows }
    ensures put { OnOk result (PutsRows S.received sink.old sink.new (placed_values catalog.now list.now.sources places.now (slice_index_or list.now.rows row []) ∷ [])) }
    ensures declined { IfErr result (S.declines sink.new) }
{
    a_catalog_is_consistent(catalog);
    for place in places {
        sink.push_value(list.place_value(catalog, row, *place))?;
    }
    sink.end_row()
}

// Puts a row of a list into a sink: the values at these places.
fn push_row<'a, S: RowSink<'a>>(
    sink: &mut S,
    catalog: &'a Catalog,
    list: &TempList,
    row: usize,
    places: &[Place],
) -> Result<(), S::Fault>
    requires over { IsOver catalog.now.relations list.now }
    requires places { All (HasPlace catalog.now.relations list.now.sources) places.now }
    requires some { 0 < length places.now }
    requires row { row < length list.now.rows }
    ensures put { OnOk result (PutsRows S.received sink.old sink.new (placed_values catalog.now list.now.sources places.now (slice_index_or list.now.rows row []) ∷ [])) }
    ensures declined { IfErr result (S.declines sink.new) }
{
    a_catalog_is_consistent(catalog);
    match list.sources() {
        [table] => push_single(sink, catalog, *table, list.row(row)[0], places),
        _ => push_joined(sink, catalog, list, row, places),
    }
}

/// Puts some rows of a list into a sink: those behind the first `from`, so many at most, and of each the values at these places. At each
/// it goes on, or ends.
pub fn push_page<'a, S: RowSink<'a>>(
    sink: &mut S,
    catalog: &'a Catalog,
    list: &TempList,
    places: &[Place],
    from: usize,
    most: usize,
) -> Result<(), S::Fault>
    requires over { IsOver catalog.now.relations list.now }
    requires places { All (HasPlace catalog.now.relations list.now.sources) places.now }
    requires some { 0 < length places.now }
    ensures put { OnOk result (PutsRows S.received sink.old sink.new (map (placed_values catalog.now list.now.sources places.now) (take most (drop from list.now.rows)))) }
    ensures declined { IfErr result (S.declines sink.new) }
{
    let behind = list.len().saturating_sub(from);
    for row in 0..most.min(behind) {
        sink.go_on()?;
        push_row(sink, catalog, list, from + row, places)?;
    }
    Ok(())
}

/// Puts the first rows of a list into a sink, so many at most: of each the values at these places. At each it goes on, or ends.
pub fn push_front<'a, S: RowSink<'a>>(
    sink: &mut S,
    catalog: &'a Catalog,
    list: &TempList,
    places: &[Place],
    most: usize,
) -> Result<(), S::Fault>
    requires over { IsOver catalog.now.relations list.now }
    requires places { All (HasPlace catalog.now.relations list.now.sources) places.now }
    requires some { 0 < length places.now }
    ensures put { OnOk result (PutsRows S.received sink.old sink.new (map (placed_values catalog.now list.now.sources places.now) (take most list.now.rows))) }
    ensures declined { IfErr result (S.declines sink.new) }
{
    push_page(sink, catalog, list, places, 0, most)
}

/// Puts the rows of a list into a sink: of each the values at these places.
pub fn push_list<'a, S: RowSink<'a>>(
    sink: &mut S,
    catalog: &'a Catalog,
    list: &TempList,
    places: &[Place],
) -> Result<(), S::Fault>
    requires over { IsOver catalog.now.relations list.now }
    requires places { All (HasPlace catalog.now.relations list.now.sources) places.now }
    requires some { 0 < length places.now }
    ensures put { OnOk result (PutsRows S.received sink.old sink.new (map (placed_values catalog.now list.now.sources places.now) list.now.rows)) }
    ensures declined { IfErr result (S.declines sink.new) }
{
    push_front(sink, catalog, list, places, list.len())
}
