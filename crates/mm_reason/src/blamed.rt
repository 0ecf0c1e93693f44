//! What the resolver blames for a refusal, in words.

use crate::blocks::{why_no_header, why_no_row_at};
use crate::parts::{IndexPart, Name, Parts};
use crate::tables::{Seen, column_at, no_table, table_named, tables_of, why_no_column};
use crate::told::{Reason, Told, about, tell};
use crate::values::{why_long, why_mistyped};
use crate::{declaring, joins};
use mm_catalog::{Catalog, MOST_CONDITIONS, MOST_ITEMS, MOST_JOINS};
use mm_resolver::Culprit;
use no_memory::NoMemory;
use plain_tables::{Join, Place, Refusal};
use std::alloc::Global;

/// A refusal of a command of these parts with the block behind its line, and the tables as they were then.
#[derive(Drop)]
pub struct Blamed<'a> {
    pub alloc: Global,
    pub catalog: &'a Catalog,
    pub parts: Parts<'a>,
    pub block: &'a [u8],
    pub refusal: Refusal,
}

impl<'a> Blamed<'a> {
    // The tables that the command names.
    fn tables(&self) -> Result<Vec<Seen<'a>>, NoMemory> {
        tables_of(self.alloc, self.catalog, self.parts.table, self.parts.joins)
    }

    // Why a name means no column.
    fn no_column(&self, name: Option<Name<'_>>) -> Reason {
        let Some(name) = name else {
            return Ok(None);
        };
        let tables = self.tables()?;
        Ok(Some(Told::of(why_no_column(self.alloc, &tables, name)?)))
    }

    fn of_table(&self) -> Reason {
        let name = self.parts.table;
        match self.refusal {
            Refusal::NoSuchTable => no_table(self.alloc, self.catalog, name),
            Refusal::TableExists => {
                let name = name.as_str();
                tell(format!(in self.alloc; "there is a table {name}"))
            }
            Refusal::TableIsReferenced => declaring::referenced(self.alloc, self.catalog, name),
            _ => Ok(None),
        }
    }

    fn of_column(&self, number: usize) -> Reason {
        match self.parts.columns.get(number) {
            Some(column) => declaring::column(self.alloc, self.catalog, column, self.refusal),
            None => Ok(None),
        }
    }

    // That the key refers to a table where it is declared, and else that it is set.
    fn of_key(&self) -> Reason {
        if !self.parts.columns.is_empty() {
            return declaring::referring_key(self.alloc, self.parts.columns);
        }
        let Some(table) = table_named(self.catalog, self.parts.table) else {
            return Ok(None);
        };
        let Some(key) = table.columns.first() else {
            return Ok(None);
        };
        let (name, key) = (table.name, key.name.as_str());
        tell(format!(in self.alloc; "{key} is the key of {name}, and no key is set"))
    }

    fn of_index(&self, culprit: Culprit, index: IndexPart<'_>) -> Reason {
        let table = self.parts.table;
        match culprit {
            Culprit::IndexColumn => self.no_column(Some(Name::bare(index.column))),
            Culprit::KeyTree => declaring::key_tree(self.alloc, table, index),
            _ => declaring::index(self.alloc, table, index, self.refusal),
        }
    }

    fn of_row(&self) -> Reason {
        let Some(table) = table_named(self.catalog, self.parts.table) else {
            return Ok(None);
        };
        let (name, wanted, given) = (table.name, table.columns.len(), self.parts.values.len());
        tell(format!(in self.alloc;
            "a row of {name} has a value for each column: {wanted}, not {given}"
        ))
    }

    fn of_block(&self) -> Reason {
        let Some(table) = table_named(self.catalog, self.parts.table) else {
            return Ok(None);
        };
        match self.refusal {
            Refusal::BadHeader => why_no_header(self.alloc, &table, self.block),
            Refusal::BadRecord { record } => {
                why_no_row_at(self.alloc, self.catalog, &table, self.block, record)
            }
            _ => Ok(None),
        }
    }

    // Why a name means no column, or that a column is set twice.
    fn of_name(&self, number: usize) -> Reason {
        let name = self.parts.names.get(number).copied();
        if self.refusal == Refusal::NoSuchColumn {
            return self.no_column(name);
        }
        let Some(name) = name else {
            return Ok(None);
        };
        let column = name.column.as_str();
        tell(format!(in self.alloc; "column {column} is set twice"))
    }

    fn of_value(&self, number: usize, place: Place) -> Reason {
        let tables = self.tables()?;
        let (Some((table, column)), Some(value)) = (
            column_at(&tables, place),
            self.parts.values.get(number),
        ) else {
            return Ok(None);
        };
        let why = if self.refusal == Refusal::TextTooLong {
            why_long(self.alloc, column, value)
        } else {
            why_mistyped(self.alloc, table, column, value)
        };
        about(why, number)
    }

    fn of_shown(&self, place: Place) -> Reason {
        let tables = self.tables()?;
        let Some((table, column)) = column_at(&tables, place) else {
            return Ok(None);
        };
        let (table, column) = (table.name, column.name.as_str());
        tell(format!(in self.alloc; "{table}.{column} is shown twice"))
    }

    fn of_join(&self, number: usize) -> Reason {
        let Some((before, join)) = joins::at(self.parts.joins, number) else {
            return Ok(None);
        };
        match self.refusal {
            Refusal::NoSuchTable => no_table(self.alloc, self.catalog, &join.table),
            Refusal::TableNamedTwice => joins::repeated(self.alloc, join),
            _ => self.unjoined(before, join),
        }
    }

    // Why a join behind these names no two columns.
    fn unjoined(&self, before: &[Join], join: &Join) -> Reason {
        let (catalog, table) = (self.catalog, self.parts.table);
        joins::unjoined(self.alloc, catalog, &self.tables()?, table, before, join)
    }

    fn too_many(&self, count: usize, things: &str, most: usize) -> Reason {
        tell(format!(in self.alloc; "there are {count} {things}, and at most {most} are allowed"))
    }

    /// Why the command is refused so, where this is to blame.
    pub fn reason(&self, culprit: Culprit) -> Reason {
        let parts = &self.parts;
        match culprit {
            Culprit::Table => self.of_table(),
            Culprit::Column(number) => self.of_column(number),
            Culprit::Key => self.of_key(),
            Culprit::IndexColumn | Culprit::Index | Culprit::KeyTree => match parts.index {
                Some(index) => self.of_index(culprit, index),
                None => Ok(None),
            },
            Culprit::Row => self.of_row(),
            Culprit::Block => self.of_block(),
            Culprit::Name(number) => self.of_name(number),
            Culprit::Value { number, column } => self.of_value(number, column),
            Culprit::Item(number) => self.no_column(parts.items.get(number).map(Name::of)),
            Culprit::Shown(place) => self.of_shown(place),
            Culprit::Join(number) => self.of_join(number),
            Culprit::Sides { outer, inner } => {
                joins::mistyped(self.alloc, self.catalog, &self.tables()?, outer, inner)
            }
            Culprit::Columns => declaring::too_many_columns(self.alloc, parts.columns.len()),
            Culprit::Tables => declaring::too_many_tables(self.alloc),
            Culprit::Items => self.too_many(parts.items.len(), "items", MOST_ITEMS),
            Culprit::Conditions => self.too_many(parts.conditions, "conditions", MOST_CONDITIONS),
            Culprit::Joins => self.too_many(parts.joins.len(), "joins", MOST_JOINS),
        }
    }
}
