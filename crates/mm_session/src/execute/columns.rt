//! The columns of what a select shows, as cells.

ghost use Rattle.std.specs.Prelude.{◌≡◌, ◌++◌, ◌<◌, length, map, pos, string_bytes, OnOk};
ghost use Rattle.std.specs.List.{All};
ghost use Rattle.plain_tables.specs.ResolvedLaws.{IsMeant};
ghost use Rattle.plain_tables.specs.declared.resolved.Resolved.TheVariants as resolved;
ghost use Rattle.mm_catalog.specs.Seen.{database_of};
ghost use Rattle.mm_cells.specs.Values.{values_of};
ghost use Rattle.mm_csv.specs.FullNames.{full_name_text};
ghost use Rattle.temp_list.specs.Lists.{HasPlace};
ghost use Rattle.mm_session.specs.Columns.{kind_number, kind_at, column_told, columns_told};
ghost use Rattle.mm_session.specs.Members.{tables_at};

use super::ReadExecutor;
use super::batched::sources_of;
use super::select::full_name;
use mm_catalog::Catalog;
use mm_catalog::laws::a_catalog_is_consistent;
use mm_cells::{CellFault, Cells, INTEGER, TEXT};
use mm_csv::FullName;
use mm_relation::Relations;
use no_memory::NoMemory;
use plain_tables::{BaseKind, Place, Query, TableNumber};

// Makes the text a full name.
fn write_name(text: &mut String, name: FullName<'_>) -> Result<(), NoMemory>
    ensures { OnOk result (string_bytes text.new ≡ full_name_text name.entry) }
{
    text.clear();
    text.push_str(name.table)?;
    text.push_str(".")?;
    text.push_str(name.column)?;
    Ok(())
}

// The number of a kind of values.
fn number_of(kind: Option<BaseKind>) -> i64
    ensures { result ≡ pos (kind_number kind) }
{
    match kind {
        Some(BaseKind::Text) => i64::from(TEXT),
        Some(BaseKind::Int) | None => i64::from(INTEGER),
    }
}

// The kind of the values at a place of sources.
fn kind(catalog: &Catalog, sources: &[TableNumber], place: Place) -> Option<BaseKind>
    requires sources { All (λ n. n < length catalog.now.relations) (map (λ t. t.0) sources.now) }
    requires place { HasPlace catalog.now.relations (map (λ t. t.0) sources.now) place }
    ensures { result ≡ kind_at (database_of catalog.now) (tables_at catalog.now (map (λ t. t.0) sources.now)) place }
{
    a_catalog_is_consistent(catalog);
    let columns = catalog
        .at(sources[place.source])
        .schema()
        .columns
        .as_slice();
    catalog.type_of(&columns[place.column.0].kind)
}

// Puts the name of the column at a place of sources and the number of its kind behind the others. The text is for every name.
fn push_column(
    cells: &mut Cells,
    text: &mut String,
    catalog: &Catalog,
    sources: &[TableNumber],
    place: Place,
) -> Result<(), CellFault>
    requires sources { All (λ n. n < length catalog.now.relations) (map (λ t. t.0) sources.now) }
    requires place { HasPlace catalog.now.relations (map (λ t. t.0) sources.now) place }
    ensures { OnOk result (values_of cells.new ≡ values_of cells.old ++ column_told (database_of catalog.now) (tables_at catalog.now (map (λ t. t.0) sources.now)) place) }
{
    write_name(text, full_name(catalog, sources, place))?;
    cells.push_text(text.as_str())?;
    cells.push_integer(number_of(kind(catalog, sources, place)))?;
    Ok(())
}

impl ReadExecutor {
    /// Makes the cells the columns of what a select shows: of each its name, behind its table's, and then the number of the kind of
    /// its values: 1 of integers, 2 of texts. A failure may leave any cells there.
    pub fn columns(
        &self,
        catalog: &Catalog,
        query: &Query,
        cells: &mut Cells,
    ) -> Result<(), CellFault>
        requires { IsMeant catalog.now.limits (database_of catalog.now) (resolved.Select query.now) }
        ensures { OnOk result (values_of cells.new ≡ columns_told (database_of catalog.now) query.now) }
    {
        a_catalog_is_consistent(catalog);
        let sources = sources_of(self.alloc, query)?;
        let places = self.places_of(catalog, &sources, &query.shown)?;
        let mut text = String::new(self.alloc);
        cells.clear();
        for place in &places {
            push_column(cells, &mut text, catalog, &sources, *place)?;
        }
        Ok(())
    }
}
