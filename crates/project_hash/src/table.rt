//! A row of a table, which is what some of its columns show of it.
ghost use Rattle.std.specs.Prelude.{◌≡◌, ◌∷◌, [], ◌<◌, IsSome};
ghost use Rattle.std.specs.FinMap as finite;
ghost use Rattle.project_hash.specs.Table.{CanRead};

use crate::values::ShowsValues;
use mm_relation::{Relation, Relations};
use part_raw::TupleRef;
use plain_tables::{Place, StoredValue, TableNumber};
use std::marker::Model;
use temp_list::search::read;

/// A table, and the columns of it that are shown.
#[derive(Drop)]
pub(crate) struct ShownTable<'a, R: Relations> {
    pub tables: &'a R,
    pub table: TableNumber,
    pub relation: &'a Relation,
    pub places: &'a [Place],
}

impl<'a, R: Relations> Model for ShownTable<'a, R> {
    ghost use Rattle.project_hash.specs.Table.{TableState, table_code};
    ghost use Rattle.mm_relation.specs.contracts.relation.Relation.{the_row as relation_row};
    ghost use Rattle.plain_tables.specs.contracts.numbers.Place.{the_row as place_row};

    ghost Value = { TableState };

    ghost coded = { table_code relation_row.coded place_row.coded };

    ghost view = { λ t. record {
      relations = R.tables t.tables.now;
      table = t.table.0;
      relation = t.relation.now;
      places = t.places.now;
    } };
}

/// A row of a table, seen as its reference and the values that are shown of it. The values are read where they lie.
#[derive(Drop)]
pub(crate) struct TableRow<'a, R: Relations> {
    table: &'a ShownTable<'a, R>,
    reference: TupleRef,
}

impl<'a, R: Relations> Model for TableRow<'a, R> {
    ghost use Rattle.project_hash.specs.Shown.{ShownState};
    ghost use Rattle.project_hash.specs.Table.{IsRowOf, row_state};

    ghost Value = { ShownState };

    ghost view = { λ r. row_state r.table.now r.reference };

    ghost invariant = { λ r. IsRowOf r.table.now r.reference };
}

impl<'a, R: Relations> TableRow<'a, R> {
    ghost use Rattle.project_hash.specs.Table.{row_state};

    /// The row under this reference.
    pub fn new(table: &'a ShownTable<'a, R>, reference: TupleRef) -> TableRow<'a, R>
        requires can_read { CanRead table.now }
        requires held { IsSome (finite.get table.now.relation.rows reference) }
        ensures { result ≡ row_state table.now reference }
    {
        TableRow { table, reference }
    }

    /// Its reference.
    pub fn reference(&self) -> TupleRef
        ensures { self.now.references ≡ result ∷ [] }
    {
        self.reference
    }
}

impl<'a, R: Relations> ShowsValues for TableRow<'a, R> {
    ghost values = { λ r. r.values };

    fn width(&self) -> usize {
        let table = self.table;
        table.places.len()
    }

    fn value(&self, column: usize) -> &StoredValue {
        let table = self.table;
        read(
            table.tables,
            table.relation,
            self.reference,
            table.places[column].column,
        )
    }
}
