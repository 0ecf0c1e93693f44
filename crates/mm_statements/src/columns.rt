//! The columns of what a select shows, by its resolution alone: of each its name, after its table's, and the number of its kind.
ghost use Rattle.std.specs.Prelude.{◌≡◌, ◌++◌, ◌<◌, Some, length, pos, slice_get, IfErr, OnOk};
ghost use Rattle.std.specs.List.{flat_map};
ghost use Rattle.plain_tables.specs.Tables.{Table};
ghost use Rattle.plain_tables.specs.declared.refusal.Refusal.TheVariants as refusal;
ghost use Rattle.mm_catalog.specs.Seen.{database_of};
ghost use Rattle.mm_cells.specs.Values.{values_of};
ghost use Rattle.mm_session.specs.Columns.{kind_number};
ghost use Rattle.mm_statements.specs.Columns.{column_of, column_placed, columns_of_query, columns_of_table, source_tables};

use mm_catalog::Catalog;
use mm_cells::{CellFault, Cells, INTEGER, TEXT};
use plain_statements::SlotQuery;
use plain_tables::{BaseKind, Column, Place, Refusal, Shown, TableNumber};

// The number of a kind of values.
fn number_of(kind: Option<BaseKind>) -> i64
    ensures { result ≡ pos (kind_number kind) }
{
    match kind {
        Some(BaseKind::Text) => i64::from(TEXT),
        Some(BaseKind::Int) | None => i64::from(INTEGER),
    }
}

// Appends the name of a column of a table and the number of its kind.
fn push_column(
    cells: &mut Cells,
    catalog: &Catalog,
    table: TableNumber,
    column: &Column,
) -> Result<(), CellFault>
    requires { table.0 < length (database_of catalog.now) }
    ensures { OnOk result ((t : Table) → slice_get (database_of catalog.now) table.0 ≡ Some t → values_of cells.new ≡ values_of cells.old ++ column_of (database_of catalog.now) t column.now) }
{
    cells.push_name(catalog.table_name(table), column.name.as_str())?;
    cells.push_integer(number_of(catalog.type_of(&column.kind)))?;
    Ok(())
}

// Appends all columns of a table, if it is there.
fn push_table(cells: &mut Cells, catalog: &Catalog, table: TableNumber) -> Result<(), CellFault>
    ensures { OnOk result (values_of cells.new ≡ values_of cells.old ++ columns_of_table (database_of catalog.now) table) }
{
    if table.0 >= catalog.table_count() {
        return Ok(());
    }
    for column in catalog.columns(table) {
        push_column(cells, catalog, table, column)?;
    }
    Ok(())
}

// Appends all columns of the tables of a query.
fn push_tables(cells: &mut Cells, catalog: &Catalog, query: &SlotQuery) -> Result<(), CellFault>
    ensures { OnOk result (values_of cells.new ≡ values_of cells.old ++ flat_map (columns_of_table (database_of catalog.now)) (source_tables query.now)) }
{
    push_table(cells, catalog, query.source.table)?;
    for join in query.joins.as_slice() {
        push_table(cells, catalog, join.source.table)?;
    }
    Ok(())
}

// The table that a query joins as the one of this number.
fn source_table(query: &SlotQuery, source: usize) -> Option<TableNumber>
    ensures { result ≡ slice_get (source_tables query.now) source }
{
    if source == 0 {
        return Some(query.source.table);
    }
    let join = query.joins.as_slice().get(source - 1)?;
    Some(join.source.table)
}

// Appends the column at a place of a query's tables, if it is there.
fn push_place(
    cells: &mut Cells,
    catalog: &Catalog,
    query: &SlotQuery,
    place: Place,
) -> Result<(), CellFault>
    ensures { OnOk result (values_of cells.new ≡ values_of cells.old ++ column_placed (database_of catalog.now) (source_tables query.now) place) }
{
    let Some(table) = source_table(query, place.source) else {
        return Ok(());
    };
    if table.0 >= catalog.table_count() {
        return Ok(());
    }
    let Some(column) = catalog.columns(table).get(place.column.0) else {
        return Ok(());
    };
    push_column(cells, catalog, table, column)
}

// Appends the columns at these places of a query's tables.
fn push_places(
    cells: &mut Cells,
    catalog: &Catalog,
    query: &SlotQuery,
    places: &[Place],
) -> Result<(), CellFault>
    ensures { OnOk result (values_of cells.new ≡ values_of cells.old ++ flat_map (column_placed (database_of catalog.now) (source_tables query.now)) places.now) }
{
    for place in places {
        push_place(cells, catalog, query, *place)?;
    }
    Ok(())
}

// Appends the columns that a query shows, as far as cells have numbers for their names.
fn push_shown(cells: &mut Cells, catalog: &Catalog, query: &SlotQuery) -> Result<(), CellFault>
    ensures { OnOk result (values_of cells.new ≡ values_of cells.old ++ columns_of_query (database_of catalog.now) query.now) }
{
    match &query.shown {
        Shown::All => push_tables(cells, catalog, query),
        Shown::Columns(places) => push_places(cells, catalog, query, places.as_slice()),
    }
}

/// Appends the columns that a query shows of the tables of a catalog. It reads no value. A line is too short to name columns for 4 GiB of
/// text, so the one refusal is 90.
pub fn push_columns(cells: &mut Cells, catalog: &Catalog, query: &SlotQuery) -> Result<(), Refusal>
    ensures pushed { OnOk result (values_of cells.new ≡ values_of cells.old ++ columns_of_query (database_of catalog.now) query.now) }
    ensures no_memory { IfErr result (λ why. why ≡ refusal.NoMemory) }
{
    match push_shown(cells, catalog, query) {
        Ok(()) => Ok(()),
        Err(_) => Err(Refusal::NoMemory),
    }
}
