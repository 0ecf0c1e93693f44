//! Two tables of which one refers to the other, as the joins ask for them.
ghost use Rattle.std.specs.Prelude.{◌≡◌};
ghost use Rattle.mm_relation.specs.Changes.{HasTree};
ghost use Rattle.join_ops.specs.Joins.{IsThere};
ghost use Rattle.session_tests.specs.Linked.{AreJoinable};

use mm_catalog::Catalog;
use mm_catalog::laws::a_catalog_is_consistent;
use mm_relation::{Relation, Relations};
use plain_tables::{ColumnNumber, TableNumber};
use plan_chooser::JoinInput;
use std::process::Abort;

/// The key of a table, and a column of another that refers to it.
#[derive(Clone, Copy)]
pub struct Link<'a> {
    pub key: JoinInput<'a>,
    pub reference: JoinInput<'a>,
}

// A column of a table as a side of a join, without tests.
fn side<'a>(
    rt: &impl Abort,
    catalog: &'a Catalog,
    table: TableNumber,
    column: ColumnNumber,
) -> JoinInput<'a>
    ensures table { result.table ≡ table }
    ensures column { result.column ≡ column }
    ensures there { IsThere catalog.now.relations result }
{
    assert!(rt; table.0 < catalog.table_count());
    a_catalog_is_consistent(catalog);
    let relation = catalog.at(table);
    assert!(rt; column.0 < relation.schema().columns.len());
    JoinInput {
        table,
        relation,
        column,
        tests: &[],
    }
}

// A tree stands on the column.
fn has_tree(rt: &impl Abort, relation: &Relation, column: ColumnNumber)
    ensures { HasTree relation.now column.0 }
{
    assert!(rt; relation.has_tree(column));
}

/// The link of the second table's second column. A tree stands on it.
pub fn find_link<'a>(rt: &impl Abort, catalog: &'a Catalog) -> Link<'a>
    ensures { AreJoinable catalog.now.relations result.key result.reference }
{
    a_catalog_is_consistent(catalog);
    let reference = side(rt, catalog, TableNumber(1), ColumnNumber(1));
    has_tree(rt, reference.relation, reference.column);
    let target = reference.relation.target(reference.column);
    let key = side(rt, catalog, target.expect(rt, "no target"), ColumnNumber(0));
    Link { key, reference }
}
