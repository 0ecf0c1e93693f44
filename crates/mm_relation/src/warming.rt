//! Searches of a tree that go side by side. Rows that are about to go are sought so, and their own searches then find all in the caches.
//! So are the values that a join looks for, and the keys that the rows of a load name.
ghost use Rattle.std.specs.Prelude.{◌≡◌, ◌≢◌, ◌≤◌, ℤ, FitsSigned, All, Some, IsSome, IfSome, IfNone};
ghost use Rattle.std.specs.FinMap as finite;
ghost use Rattle.std.specs.declared.cmp.Ordering.{Ordering};
ghost use Rattle.std.specs.Int.{w64};
ghost use Rattle.plain_tables.specs.declared.value.Value.TheVariants.{Int};
ghost use Rattle.mm_index.specs.Asking.{IsOnlyAsked};
ghost use Rattle.mm_index.specs.Range.{NeverFalls, from_range};
ghost use Rattle.mm_relation.specs.Changes.{HasTree, list_of, tree_on};
ghost use Rattle.mm_relation.specs.IntegerKeys.{has_integer_keys};
ghost use Rattle.mm_relation.specs.Reading.{key_at};
ghost use Rattle.mm_relation.specs.State.{tree_list};
ghost use Rattle.part_raw.specs.declared.tuple_ref.TupleRef.{TupleRef};
ghost use Rattle.ttree.specs.Held.{rest_of};
ghost use Rattle.ttree.specs.Warming.{AreWays, IsWay};

use crate::laws::a_relation_is_kept;
use crate::relation::Relation;
use crate::rows::Rows;
use crate::stored_cell::SeenCell;
use crate::tree::Walk;
use mm_index::Probe;
use part_raw::TupleRef;
use plain_tables::{ColKind, ColumnNumber, SeenValue, SoughtValue, StoredValue, Value};
use ttree::{ABREAST, Leading};

/// One search of a tree that went side by side with others, and sixteen of them.
pub type Way<'a> = ttree::Way<'a, { ttree::MOST_ITEMS }>;

pub type Ways<'a> = ttree::Ways<'a, { ttree::MOST_ITEMS }>;

// Of a table with fewer rows so much is in the processor's caches that reading ahead costs more than it spares.
const LEAST_ROWS: u64 = 200_000;

// So few rows are not worth it either.
const LEAST_ABREAST: usize = 4;

// What rows have in a column, if these are integers. Another value has no number that tells its place, and null stands first.
#[derive(Drop)]
struct ColumnNumbers<'a> {
    rows: &'a Rows,
    column: ColumnNumber,
}

impl<'a> Leading for ColumnNumbers<'a> {
    ghost can_read = { λ n r. IsSome (finite.get n.rows.now.tuples r) };

    #[inline]
    fn number(&self, r: TupleRef) -> i64 {
        let Some(cell) = self.rows.cells(r).get(self.column.0) else {
            return i64::MIN;
        };
        match cell.seen() {
            SeenCell::Held(value) => number_of(value),
            SeenCell::Link { to: _ } => i64::MIN,
        }
    }
}

/// An integer as it is, and the least of all for any other value.
#[inline]
pub fn number_of(value: &StoredValue) -> i64 {
    match value.seen() {
        SeenValue::Int(number) => number,
        SeenValue::Null | SeenValue::Text(_) | SeenValue::Link(_) => i64::MIN,
    }
}

impl Relation {
    /// Whether the keys are integers.
    pub fn has_integer_keys(&self) -> bool
        ensures { result ≡ has_integer_keys self.now.schema.columns }
    {
        match self.schema.columns.as_slice().first() {
            Some(column) => matches!(column.kind, ColKind::Int),
            None => false,
        }
    }

    /// The key of a row, where it is an integer and the reference leads to a row.
    #[inline]
    pub fn integer_key(&self, r: TupleRef) -> Option<i64>
        ensures key { IfSome result (λ key. key_at self.now.rows r ≡ Some (Int key)) }
        ensures none { IfNone result ((key : ℤ) → FitsSigned w64 key → key_at self.now.rows r ≢ Some (Int key)) }
    {
        match self.key_if_held(r)?.seen() {
            SeenValue::Int(key) => Some(key),
            SeenValue::Null | SeenValue::Text(_) | SeenValue::Link(_) => None,
        }
    }

    // The keys of the first sixteen of these rows, and 0 for what is no integer.
    fn keys_of(&self, rows: &[TupleRef]) -> [i64; ABREAST] {
        let mut keys = [0; ABREAST];
        for (place, r) in rows.iter().enumerate() {
            if let (Some(key), Some(read)) = (keys.get_mut(place), self.integer_key(*r)) {
                *key = read;
            }
        }
        keys
    }

    /// Reads what taking out rows of a list reads in the tree of the keys, for sixteen rows side by side, and tells how many of these
    /// it found. It does so if the place in the list is the first of sixteen, the table has many rows and their keys are integers.
    pub fn warm(&self, rows: &[TupleRef], place: usize) -> usize
        ensures { result ≤ ABREAST }
    {
        if !place.is_multiple_of(ABREAST) || self.len() < LEAST_ROWS || !self.has_integer_keys() {
            return 0;
        }
        match rows.get(place..) {
            Some(rest) if rest.len() >= LEAST_ABREAST => self.warm_keys(rest),
            _ => 0,
        }
    }

    // The same for the first rows of a list.
    fn warm_keys(&self, rows: &[TupleRef]) -> usize
        ensures { result ≤ ABREAST }
    {
        a_relation_is_kept(self);
        let keys = self.keys_of(rows.get(..ABREAST).unwrap_or(rows));
        self.by_key.warm(&self.numbers_in(ColumnNumber(0)), &keys)
    }

    // What the rows have in a column.
    fn numbers_in(&self, column: ColumnNumber) -> ColumnNumbers<'_>
        ensures { result.rows.now.tuples ≡ self.now.rows }
    {
        ColumnNumbers {
            rows: &self.rows,
            column,
        }
    }

    /// Whether it pays to search the tree on a column for many numbers side by side: the table has many rows, and integers there.
    pub fn goes_abreast(&self, column: ColumnNumber) -> bool {
        match self.schema.columns.as_slice().get(column.0) {
            Some(declared) => self.len() >= LEAST_ROWS && matches!(declared.kind, ColKind::Int),
            None => false,
        }
    }

    /// Searches the tree on a column for these sixteen numbers side by side. There are no such searches if most would read the same.
    pub fn search_many(&self, column: ColumnNumber, sought: &[i64]) -> Option<Ways<'_>>
        requires has_tree { HasTree self.now column.0 }
        requires held { All (λ r. IsSome (finite.get self.now.rows r)) (list_of self.now column.0) }
        ensures { IfSome result (AreWays (tree_on self.now column.0)) }
    {
        self.tree(column)
            .search_many(&self.numbers_in(column), sought)
    }

    /// As `walk_column`, where a search of the tree went side by side with others.
    pub fn walk_column_from_way<'a, P: Probe>(
        &'a self,
        column: ColumnNumber,
        way: &Way<'a>,
        probe: &mut P,
    ) -> Walk<'a>
        requires has_tree { HasTree self.now column.0 }
        requires way { IsWay (tree_on self.now column.0) way.now }
        requires sound { P.is_sound probe.old }
        requires placed { All (P.can_place probe.old) (list_of self.now column.0) }
        requires in_order { NeverFalls (P.place probe.old) (list_of self.now column.0) }
        ensures rest { rest_of result ≡ from_range (P.place probe.old) (list_of self.now column.0) }
        ensures probe { IsOnlyAsked P.is_sound P.can_place P.place P.asked probe.old probe.new }
    {
        self.tree(column).walk_from_way(way, probe)
    }

    // A row in the probe's range, where a search of the tree of the keys went side by side with others.
    fn find_by_way<P: Probe>(&self, way: &Way<'_>, probe: &mut P) -> Option<TupleRef>
        requires way { IsWay self.now.by_key way.now }
        requires sound { P.is_sound probe.old }
        requires placed { All (P.can_place probe.old) (tree_list self.now.by_key) }
        requires in_order { NeverFalls (P.place probe.old) (tree_list self.now.by_key) }
        ensures found { IfSome result (λ r. P.place probe.old r ≡ Ordering.Equal) }
        ensures none { IfNone result (All (λ r. P.place probe.old r ≢ Ordering.Equal) (tree_list self.now.by_key)) }
    {
        self.by_key.find_by_way(way, probe)
    }

    /// As `find_key`, where a search of the tree of the keys went side by side with others.
    pub fn find_key_by_way(&self, way: &Way<'_>, key: &SoughtValue<'_>) -> Option<TupleRef>
        requires { IsWay self.now.by_key way.now }
        ensures found { IfSome result (λ r. key_at self.now.rows r ≡ Some key.now) }
        ensures none { IfNone result ((r : TupleRef) → key_at self.now.rows r ≢ Some key.now) }
    {
        a_relation_is_kept(self);
        let mut search = self.key_search(key);
        self.find_by_way(way, &mut search)
    }

    /// The rows that have these sixteen keys, searched side by side, as guesses: a look at a row's key tells whether it has that key
    /// still. There are none if searches side by side don't pay.
    pub fn guess_rows(&self, keys: &[i64; ABREAST]) -> Option<[Option<TupleRef>; ABREAST]> {
        if !self.goes_abreast(ColumnNumber(0)) {
            return None;
        }
        a_relation_is_kept(self);
        let ways = self
            .by_key
            .search_many(&self.numbers_in(ColumnNumber(0)), keys)?;
        let mut rows = [None; ABREAST];
        for (place, key) in keys.iter().enumerate() {
            let sought = Value::Int(*key);
            if let (Some(way), Some(row)) = (ways.get(place), rows.get_mut(place)) {
                *row = self.find_key_by_way(way, &sought.sought());
            }
        }
        Some(rows)
    }
}
