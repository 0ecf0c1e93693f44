//! A table that a command names, whose columns it can name.
ghost use Rattle.std.specs.Prelude.{◌≡◌, ◌≢◌, true, Some, None, IfSome, IfOk, IfErr, map};
ghost use Rattle.std.specs.List.{AllPairs, filter};
ghost use Rattle.std.specs.Option.{option_map, option_map_or, option_copied, option_to_list};
ghost use Rattle.std.specs.Str.{bytes_eq};
ghost use Rattle.plain_tables.specs.declared.refusal.Refusal.TheVariants.{NoSuchColumn};
ghost use Rattle.plain_tables.specs.Queries.{fits as fits_so, place_meant};

use crate::culprit::Culprit;
use crate::names::{Name, NamedColumn, column};
use crate::schemas::Schemas;
use plain_tables::{Column, ColumnNumber, Place, Refusal, TableNumber, Text};
use std::slice::from_ref;

/// A table that a command names: its number, its name and its columns, which can be named.
#[derive(Clone, Copy)]
pub struct NamedTable<'a> {
    pub table: TableNumber,
    pub name: &'a str,
    pub columns: &'a [Column],
    ghost apart: { AllPairs (λ c d. c.name ≢ d.name) columns.now },
}

impl<'a> NamedTable<'a> {
    ghost use Rattle.mm_resolver.specs.Naming.{columns_of, in_table, bare, written, own_place, source_columns, placed, as_found};

    // Whether the table goes by the name before a column's, if one is written.
    fn is_own(&self, table: Option<&Text>) -> bool
        ensures { result ≡ option_map_or (λ name. bytes_eq name self.now.name.now) (option_copied table.entry) true }
    {
        match table {
            Some(table) => table.as_bytes() == self.name.as_bytes(),
            None => true,
        }
    }

    // Whether a name fits a column.
    fn fits(&self, column: &Column, name: Name<'_>) -> bool
        ensures { result ≡ fits_so (written name.entry) (in_table self.now.name.now column.now) }
    {
        name.column.as_bytes() == column.name.as_bytes() && self.is_own(name.table)
    }

    /// The column that a name fits, where this is the table that is joined as the one of that number. It fits no two, since
    /// the columns differ in their names.
    pub fn column(&self, source: usize, name: Name<'_>) -> Option<NamedColumn<'a>>
        ensures found { map placed (filter (fits_so (written name.entry)) (source_columns (source, self.now))) ≡ option_to_list (option_map as_found result) }
        ensures at { IfSome result (λ named. named.place.source ≡ source) }
    {
        let number = self
            .columns
            .iter()
            .position(|column| self.fits(column, name))?;
        Some(NamedColumn {
            place: Place {
                source,
                column: ColumnNumber(number),
            },
            column: &self.columns[number],
        })
    }

    /// The column that a name means in a command on this table alone.
    pub fn place(&self, name: Name<'_>) -> Option<ColumnNumber>
        ensures { option_map own_place result ≡ place_meant (columns_of self.now) (written name.entry) }
    {
        let named = column(from_ref(self), name)?;
        Some(named.place.column)
    }

    /// The column of that name, which an index is on.
    pub fn own_column<S: Schemas>(&self, schemas: &S, name: &Text) -> Result<ColumnNumber, Refusal>
        ensures found { IfOk result (λ column. place_meant (columns_of self.now) (bare name.now) ≡ Some (own_place column)) }
        ensures refused { IfErr result (λ e. e ≡ NoSuchColumn) }
        ensures missed { IfErr result (λ _. place_meant (columns_of self.now) (bare name.now) ≡ None) }
    {
        match self.place(Name::bare(name)) {
            Some(column) => Ok(column),
            None => {
                schemas.blame(Refusal::NoSuchColumn, Culprit::IndexColumn);
                Err(Refusal::NoSuchColumn)
            }
        }
    }
}
