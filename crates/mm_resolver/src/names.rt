//! Names of columns, and the column that one means, among those of one table and more.
ghost use Rattle.std.specs.Prelude.{◌≡◌, ◌<◌, IfSome, length};
ghost use Rattle.std.specs.Option.{option_map};
ghost use Rattle.plain_tables.specs.Queries.{column_meant, side_name};
ghost use Rattle.mm_resolver.specs.Naming.{bare, columns_of_all, written, placed, as_found};

use crate::named_table::NamedTable;
use plain_tables::{ColName, Column, JoinSide, Place, Text};

/// A column's name, and the name of its table where one is written before it.
#[derive(Clone, Copy)]
pub struct Name<'a> {
    pub table: Option<&'a Text>,
    pub column: &'a Text,
}

/// A column that a name means, and its place among the tables of the command.
#[derive(Clone, Copy)]
pub struct NamedColumn<'a> {
    pub place: Place,
    pub column: &'a Column,
}

impl<'a> Name<'a> {
    /// The name in a condition or an item.
    pub fn of(name: &'a ColName) -> Name<'a>
        ensures { written result ≡ name.now }
    {
        Name {
            table: name.table.as_ref(),
            column: &name.column,
        }
    }

    /// The name on a side of a join.
    pub fn of_side(side: &'a JoinSide) -> Name<'a>
        ensures { written result ≡ side_name side.now }
    {
        Name {
            table: Some(&side.table),
            column: &side.column,
        }
    }

    /// A name with no table's before it.
    pub fn bare(column: &'a Text) -> Name<'a>
        ensures { written result ≡ bare column.now }
    {
        Name {
            table: None,
            column,
        }
    }
}

/// The column that a name means in a command on these tables, where it fits just one of theirs.
pub fn column<'a>(tables: &[NamedTable<'a>], name: Name<'_>) -> Option<NamedColumn<'a>>
    ensures meant { option_map as_found result ≡ option_map placed (column_meant (columns_of_all tables.now) (written name.entry)) }
    ensures within { IfSome result (λ named. named.place.source < length tables.now) }
{
    let mut found = None;
    for (source, table) in tables.iter().enumerate() {
        if let Some(named) = table.column(source, name) {
            if found.is_some() {
                return None;
            }
            found = Some(named);
        }
    }
    found
}
