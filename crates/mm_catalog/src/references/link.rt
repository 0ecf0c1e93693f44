//! Links: the rows that the cells of a row name.
ghost use Rattle.std.specs.Prelude.{◌≡◌, ◌<◌, length};
ghost use Rattle.std.specs.Option.{option_map};
ghost use Rattle.mm_catalog.specs.Counted.{linked_of};
ghost use Rattle.mm_catalog.specs.Linked.{target_at, link_at};

use mm_relation::{ColumnNumber, Relation, RowView, TableNumber, TupleRef};

/// A link: the table that it leads into, and the row that it names.
#[derive(Clone, Copy, Drop)]
pub struct Link {
    pub table: TableNumber,
    pub to: TupleRef,
}

/// The number of the table that the links of a column lead into.
pub fn target_number(relation: &Relation, column: ColumnNumber) -> Option<usize>
    requires { column.0 < length relation.now.targets }
    ensures { result ≡ target_at relation.now.targets column.0 }
{
    relation.target(column).map(|table| table.0)
}

/// The link that a row of a relation has in a column.
pub fn link_in(relation: &Relation, row: &RowView<'_>, column: ColumnNumber) -> Option<Link>
    requires { column.0 < length relation.now.targets }
    ensures { option_map linked_of result ≡ link_at relation.now.targets row.now.row column.0 }
{
    let table = relation.target(column)?;
    let to = row.link(column)?;
    Some(Link { table, to })
}
