//! A row of a list, which is what the list shows of it.
ghost use Rattle.std.specs.Prelude.{◌≡◌, ◌<◌, length};

use crate::values::ShowsValues;
use mm_relation::Relations;
use part_raw::TupleRef;
use plain_tables::StoredValue;
use std::cmp::Ordering;
use std::hash::{Hash, Hasher};
use std::marker::Model;
use temp_list::TempList;

/// A row of a list, seen as its references and the values that are shown of it. Two such rows are compared by these values,
/// first column first, and are equal where they are shown alike. The values are read where they lie.
#[derive(Drop)]
pub(crate) struct ShownRow<'a, R: Relations> {
    tables: &'a R,
    list: &'a TempList,
    place: usize,
}

impl<'a, R: Relations> Model for ShownRow<'a, R> {
    ghost use Rattle.project_hash.specs.Shown.{ShownState, IsOfList, state_at};

    ghost Value = { ShownState };

    ghost view = { λ r. state_at (R.tables r.tables.now) r.list.now r.place };

    ghost invariant = { λ r. IsOfList (R.tables r.tables.now) r.list.now r.place };
}

impl<'a, R: Relations> ShownRow<'a, R> {
    ghost use Rattle.temp_list.specs.Reading.{AreSound};
    ghost use Rattle.temp_list.specs.Lists.{IsOver};
    ghost use Rattle.project_hash.specs.Shown.{state_at};

    /// The row at this place of a list.
    pub fn new(tables: &'a R, list: &'a TempList, place: usize) -> ShownRow<'a, R>
        requires sound { AreSound (R.tables tables.now) }
        requires over { IsOver (R.tables tables.now) list.now }
        requires within { place < length list.now.rows }
        ensures { result ≡ state_at (R.tables tables.now) list.now place }
    {
        ShownRow {
            tables,
            list,
            place,
        }
    }

    /// Its references, one for each source.
    pub fn references(&self) -> &'a [TupleRef]
        ensures { result.now ≡ self.now.references }
    {
        self.list.row(self.place)
    }
}

impl<'a, R: Relations> ShowsValues for ShownRow<'a, R> {
    ghost values = { λ r. r.values };

    fn width(&self) -> usize {
        self.list.columns().len()
    }

    fn value(&self, column: usize) -> &StoredValue {
        self.list.value(self.tables, self.place, column)
    }
}

impl<'a, R: Relations> PartialEq for ShownRow<'a, R> {
    ghost use Rattle.std.specs.Ordering.{eq_by_cmp, on};
    ghost use Rattle.std.specs.Cmp.{partial_equiv_from_equiv, eq_by_cmp_equiv};
    ghost use Rattle.std.proofs.lemmas.Cmp.{on_total};
    ghost use Rattle.project_hash.specs.Distinct.{values_cmp, values_cmp_total};

    ghost eq = { eq_by_cmp (on (λ r. r.values) values_cmp) };

    ghost laws = { partial_equiv_from_equiv (eq_by_cmp_equiv (on_total (λ r. r.values) values_cmp_total)) };

    fn eq(&self, other: &ShownRow<'a, R>) -> bool {
        self.compare(other).is_eq()
    }
}

impl<'a, R: Relations> Eq for ShownRow<'a, R> {
    ghost use Rattle.std.specs.Cmp.{eq_by_cmp_equiv};
    ghost use Rattle.std.proofs.lemmas.Cmp.{on_total};
    ghost use Rattle.project_hash.specs.Distinct.{values_cmp_total};

    ghost laws = { eq_by_cmp_equiv (on_total (λ r. r.values) values_cmp_total) };
}

impl<'a, R: Relations> PartialOrd for ShownRow<'a, R> {
    ghost use Rattle.std.specs.Ordering.{as_partial_cmp, on};
    ghost use Rattle.std.specs.Cmp.{partial_order_from_total};
    ghost use Rattle.std.proofs.lemmas.Cmp.{on_total};
    ghost use Rattle.project_hash.specs.Distinct.{values_cmp, values_cmp_total};

    ghost partial_cmp = { as_partial_cmp (on (λ r. r.values) values_cmp) };

    ghost laws = { partial_order_from_total (on_total (λ r. r.values) values_cmp_total) };

    fn partial_cmp(&self, other: &ShownRow<'a, R>) -> Option<Ordering> {
        Some(self.compare(other))
    }
}

impl<'a, R: Relations> Ord for ShownRow<'a, R> {
    ghost use Rattle.std.specs.Ordering.{on};
    ghost use Rattle.std.specs.Cmp.Rules.{comparing};
    ghost use Rattle.std.proofs.Common.{rules};
    ghost use Rattle.std.proofs.lemmas.Cmp.{on_total};
    ghost use Rattle.project_hash.specs.Distinct.{values_cmp, values_cmp_total};

    ghost cmp = { on (λ r. r.values) values_cmp };

    ghost total = { on_total (λ r. r.values) values_cmp_total };

    ghost matches_partial_cmp = { Prim.search (comparing, rules) };

    ghost matches_eq = { Prim.search (comparing, rules) };

    fn cmp(&self, other: &ShownRow<'a, R>) -> Ordering {
        self.compare(other)
    }
}

impl<'a, R: Relations> Hash for ShownRow<'a, R> {
    ghost use Rattle.std.specs.Hash as fed;
    ghost use Rattle.project_hash.specs.Hashes.{hash_of_values};
    ghost use Rattle.project_hash.specs.Alike.{hashed_alike};

    ghost hash_input = { λ r. fed.u32 (hash_of_values r.values) };

    ghost respects_eq = { hashed_alike };

    fn hash<H: Hasher>(&self, state: &mut H) {
        state.write_u32(self.shown_hash());
    }
}
