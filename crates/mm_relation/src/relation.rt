//! The rows of one table.
ghost use Rattle.std.specs.Prelude.{◌≡◌, ◌≢◌, ◌+◌, ◌*◌, ◌++◌, ◌-◌, ◌^◌, [], Contains, ◌<◌, ◌≤◌, All, true, false, Some, IsOk, IsSome, IsTrue, IfSome, IfNone, IfOk, OnOk, OnErr, length, map};
ghost use Rattle.std.specs.Bool.{OnTrue, OnFalse};
ghost use Rattle.part_raw.specs.TupleRefs.{part_of};

use crate::change::{change_all, copies_for};
use crate::index::IndexOn;
use crate::indexes::{hash_on, is_declared, reserve, tree_on};
use crate::laws::a_relation_is_kept;
use crate::numbers::DeclaredIndex;
use crate::parts::{displace, make_room, place, settle_indexes};
use crate::probe::{KeyProbe, KeySearch};
use crate::referring::{count_down, count_up};
use crate::refusal::RowRefusal;
use crate::relations::{Links, Relations};
use crate::rows::Rows;
use crate::stored_cell::{SeenCell, StoredCell};
use crate::tree::{Tree, Walk};
use crate::view::RowView;
use lin_hash::{HashShape, RowChain, RowHash};
use mm_index::Probe;
use no_memory::NoMemory;
use part_raw::{MAX_TUPLES, TupleRef};
use plain_tables::{
    ColumnNumber, IndexKind, MOST_ROWS, Schema, Sequence, SoughtValue, StoredValue,
};
use std::alloc::Global;
use std::marker::Model;
use ttree::{TreeShape, table_tree_shape};

/// The rows of one table in a store of their own, under the tree of their keys and every declared index.
pub struct Relation {
    pub(crate) schema: Schema,
    pub(crate) targets: Vec<Option<usize>>,
    pub(crate) declared: Vec<DeclaredIndex>,
    pub(crate) rows: Rows,
    pub(crate) by_key: Tree,
    pub(crate) indexes: Sequence<IndexOn>,
    // The number of the newest change of its rows, which its owner gives it.
    pub(crate) version: u64,
}

impl Drop for Relation {
    fn drop(self) {
        let Relation {
            schema: _,
            targets: _,
            declared: _,
            rows: _,
            by_key: _,
            indexes: _,
            version: _,
        } = self;
    }
}

impl Model for Relation {
    ghost use Rattle.mm_relation.specs.State.{RelationState, state_code, IsKept};
    ghost use Rattle.mm_relation.specs.Owing.{HasOwed};
    ghost use Rattle.mm_relation.specs.Seen.{state};
    ghost use Rattle.plain_tables.specs.contracts.schema.Schema.{the_row as schema_row};
    ghost use Rattle.mm_relation.specs.contracts.numbers.DeclaredIndex.{the_row as index_row};
    ghost use Rattle.std.specs.Prelude.{◌≡◌, length};
    ghost use Rattle.plain_tables.specs.contracts.value.Value.{the_row as value_row};
    ghost use Rattle.mm_relation.specs.contracts.row.Cell.{the_row as cell_row};
    ghost use Rattle.mm_relation.specs.Rows.{row_code};

    ghost Value = { RelationState };

    ghost coded = { state_code schema_row.coded index_row.coded (row_code value_row.coded cell_row.coded) };

    ghost view = { λ r. state r.rows.aside r.schema r.targets.items r.declared.items r.rows.tuples r.by_key.tree r.indexes };

    // The store has a cell in a row for each column, and the indexes have memory for the rows that are owed.
    ghost invariant = { λ r. IsKept (state r.rows.aside r.schema r.targets.items r.declared.items r.rows.tuples r.by_key.tree r.indexes) × (r.rows.width ≡ length r.schema.columns) × HasOwed r.rows.aside.owed r.rows.aside.hidden r.by_key r.indexes };
}

impl Relation {
    ghost use Rattle.std.specs.FinMap as finite;
    ghost use Rattle.std.specs.List.{AllPairs};
    ghost use Rattle.mm_relation.specs.Rows.{HaveNoReferrers, StartsWithKey, referrers_at, row_of};
    ghost use Rattle.std.specs.Option.{option_cmp};
    ghost use Rattle.plain_tables.specs.Values.{value_cmp};
    ghost use Rattle.mm_relation.specs.Reading.{Keys, key_at, value_at, cell_value};
    ghost use Rattle.mm_relation.specs.State.{IsReadable, IsCurrent, HasKey, linked_keys, no_keys, tree_list};
    ghost use Rattle.mm_relation.specs.Changes.{IsInserted, IsRemoved, IsChanged, IsToldRightly, HasTree, HasHash, has_tree_on, has_hash_on, has_declared_on, tree_on, list_of, entries_of, buckets_of, with_referrers};
    ghost use Rattle.mm_relation.specs.Searching.{most_compared};
    ghost use Rattle.mm_relation.specs.Settings.{link_set};
    ghost use Rattle.ttree.specs.Shape.{HasShape, IsWellShaped};
    ghost use Rattle.std.specs.declared.cmp.Ordering.{Ordering};
    ghost use Rattle.mm_index.specs.Asking.{IsOnlyAsked, counted};
    ghost use Rattle.mm_index.specs.Bag.{IsSameBag, with_hash};
    ghost use Rattle.mm_index.specs.Range.{NeverFalls, from_range, in_range};
    ghost use Rattle.ttree.specs.Held.{rest_of, height};
    ghost use Rattle.lin_hash.specs.RowRest.{row_chain_rest};
    ghost use Rattle.lin_hash.specs.Shape.{HasHashShape};

    /// The key of a row.
    pub fn key(&self, r: TupleRef) -> &StoredValue
        requires { IsSome (finite.get self.now.rows r) }
        ensures { key_at self.now.rows r ≡ Some result.now }
    {
        self.rows.key(r)
    }

    /// The key of a row, where the reference leads to one.
    pub fn key_if_held(&self, r: TupleRef) -> Option<&StoredValue>
        ensures held { IfSome result (λ key. key_at self.now.rows r ≡ Some key.now) }
        ensures none { IfNone result (key_at self.now.rows r ≡ None) }
    {
        if self.rows.holds(r) {
            Some(self.key(r))
        } else {
            None
        }
    }

    /// Whether a row is under this reference, which may be any.
    pub fn holds(&self, r: TupleRef) -> bool
        ensures { result ≡ finite.contains_key self.now.rows r }
    {
        self.rows.holds(r)
    }

    /// Whether a row is under each reference into this partition of the store, which may be any. It may say no where a row is owed or
    /// was. It spares who reads all rows a look at each slot.
    pub fn fills(&self, part: u32) -> bool
        ensures { IsTrue result → (r : TupleRef) → part_of r ≡ part → IsSome (finite.get self.now.rows r) }
    {
        self.rows.fills(part)
    }

    /// The number of slots for rows, free or not. The number of each row's reference is below it. Rows whose numbers are
    /// neighbours lie side by side, so who needs no order reads them in that of these numbers.
    pub fn slots(&self) -> u64
        ensures most { result ≤ MAX_TUPLES }
        ensures within { (r : TupleRef) → IsSome (finite.get self.now.rows r) → r.number < result }
    {
        self.rows.slots()
    }

    /// A row, lent without a copy.
    pub fn row(&self, r: TupleRef) -> RowView<'_>
        requires { IsSome (finite.get self.now.rows r) }
        ensures row { finite.get self.now.rows r ≡ Some result.row }
        ensures referrers { result.referrers ≡ referrers_at self.now.referrers r }
        ensures targets { result.targets ≡ self.now.targets }
    {
        RowView {
            cells: self.rows.cells(r),
            referrers: self.rows.referrers(r),
            targets: self.targets.as_slice(),
        }
    }

    /// How many rows there are.
    pub fn len(&self) -> u64
        ensures value { result ≡ finite.len self.now.rows }
        ensures most { result ≤ 16777216 }
    {
        self.rows.len()
    }

    /// Its columns.
    pub fn schema(&self) -> &Schema
        ensures { result.now ≡ self.now.schema }
    {
        &self.schema
    }

    /// Its declared indexes, in the order of their declaration. The tree of the key is none of them.
    pub fn declared(&self) -> &[DeclaredIndex]
        ensures { result.now ≡ self.now.declared }
    {
        self.declared.as_slice()
    }

    /// Whether an index of this kind is declared on a column.
    pub fn has_declared(&self, column: ColumnNumber, kind: IndexKind) -> bool
        ensures { result ≡ has_declared_on self.now column.0 kind }
    {
        is_declared(self.indexes.as_slice(), DeclaredIndex { column, kind })
    }

    /// Whether a tree stands on a column: the key's own, or a declared one.
    pub fn has_tree(&self, column: ColumnNumber) -> bool
        ensures { result ≡ has_tree_on self.now column.0 }
    {
        column.0 == 0 || self.has_declared(column, IndexKind::Tree)
    }

    /// Whether a hash stands on a column.
    pub fn has_hash(&self, column: ColumnNumber) -> bool
        ensures { result ≡ has_hash_on self.now column.0 }
    {
        self.has_declared(column, IndexKind::Hash)
    }

    /// All rows, in the order of their keys.
    pub fn walk(&self) -> Walk<'_>
        ensures { rest_of result ≡ tree_list self.now.by_key }
    {
        self.by_key.walk()
    }

    // The tree on a column.
    pub(crate) fn tree(&self, column: ColumnNumber) -> &Tree
        requires { HasTree self.now column.0 }
        ensures { result.now.tree ≡ tree_on self.now column.0 }
    {
        if column.0 == 0 {
            return &self.by_key;
        }
        tree_on(self.indexes.as_slice(), column)
    }

    /// How the tree on a column stands: the key's own, or the first declared one. No node has more than 32 references, each
    /// with two children at least 30, and each with one child at least 31 together with it.
    pub fn tree_shape(&self, column: ColumnNumber) -> TreeShape
        requires { HasTree self.now column.0 }
        ensures told { HasShape (tree_on self.now column.0) result }
        ensures kept { IsWellShaped 30 32 (tree_on self.now column.0) }
        // Where a declared tree has the rows, as that of the key always has, its height is logarithmic in them.
        ensures key { column.0 ≡ 0 → result.items ≡ finite.len self.now.rows }
        ensures declared { (keys : Keys) → IsCurrent keys self.now → result.items ≡ finite.len self.now.rows }
    {
        a_relation_is_kept(self);
        table_tree_shape(self.tree(column))
    }

    // The hash on a column.
    fn hash(&self, column: ColumnNumber) -> &RowHash
        requires { HasHash self.now column.0 }
        ensures entries { result.now.entries ≡ entries_of self.now column.0 }
        ensures buckets { result.now.buckets ≡ buckets_of self.now column.0 }
    {
        hash_on(self.indexes.as_slice(), column)
    }

    /// How the hash on a column stands, the first declared one: its references, its buckets, and the longest chain of a bucket.
    pub fn hash_shape(&self, column: ColumnNumber) -> HashShape
        requires { HasHash self.now column.0 }
        ensures told { HasHashShape (entries_of self.now column.0) result }
        ensures buckets { result.buckets ≡ buckets_of self.now column.0 }
        // It has each row once.
        ensures rows { (keys : Keys) → IsCurrent keys self.now → result.items ≡ finite.len self.now.rows }
    {
        a_relation_is_kept(self);
        self.hash(column).shape()
    }

    /// The rows in the order of a column with a tree, from the first that does not stand below the probe's range.
    pub fn walk_column<P: Probe>(&self, column: ColumnNumber, probe: &mut P) -> Walk<'_>
        requires has_tree { HasTree self.now column.0 }
        requires sound { P.is_sound probe.old }
        requires placed { All (P.can_place probe.old) (list_of self.now column.0) }
        requires in_order { NeverFalls (P.place probe.old) (list_of self.now column.0) }
        ensures rest { rest_of result ≡ from_range (P.place probe.old) (list_of self.now column.0) }
        ensures probe { IsOnlyAsked P.is_sound P.can_place P.place P.asked probe.old probe.new }
        ensures most_asked { P.asked probe.new ≤ P.asked probe.old + most_compared (tree_on self.now column.0) }
    {
        self.tree(column).walk_from(probe)
    }

    /// Appends the rows that are in the probe's range, in the order of a column with a tree. At an error nothing is appended.
    pub fn range_column<P: Probe>(
        &self,
        column: ColumnNumber,
        probe: &mut P,
        out: &mut Vec<TupleRef>,
    ) -> Result<(), NoMemory>
        requires has_tree { HasTree self.now column.0 }
        requires sound { P.is_sound probe.old }
        requires placed { All (P.can_place probe.old) (list_of self.now column.0) }
        requires in_order { NeverFalls (P.place probe.old) (list_of self.now column.0) }
        ensures ok { OnOk result (out.new.items ≡ out.old.items ++ in_range (P.place probe.old) (list_of self.now column.0)) }
        ensures err { OnErr result (out.new.items ≡ out.old.items) }
        ensures probe { IsOnlyAsked P.is_sound P.can_place P.place P.asked probe.old probe.new }
        // Beyond one search it asks once for each row that it appends, and once more.
        ensures most_asked { OnOk result (P.asked probe.new ≤ P.asked probe.old + most_compared (tree_on self.now column.0) + length (in_range (P.place probe.old) (list_of self.now column.0)) + 1) }
    {
        self.tree(column).range(probe, out)
    }

    /// The rows whose value in a column with a hash has this hash modulo 2^32, in any order.
    pub fn chain_of(&self, column: ColumnNumber, hash: u32) -> RowChain<'_>
        requires { HasHash self.now column.0 }
        ensures { IsSameBag (row_chain_rest result) (with_hash hash (entries_of self.now column.0)) }
    {
        self.hash(column).chain(hash)
    }

    /// A row in the probe's range, by one search of the tree of the key.
    pub fn find<P: Probe>(&self, probe: &mut P) -> Option<TupleRef>
        requires sound { P.is_sound probe.old }
        requires placed { All (P.can_place probe.old) (tree_list self.now.by_key) }
        requires in_order { NeverFalls (P.place probe.old) (tree_list self.now.by_key) }
        ensures held { IfSome result (Contains (tree_list self.now.by_key)) }
        ensures found { IfSome result (λ r. P.place probe.old r ≡ Ordering.Equal) }
        ensures none { IfNone result (All (λ r. P.place probe.old r ≢ Ordering.Equal) (tree_list self.now.by_key)) }
        ensures probe { IsOnlyAsked P.is_sound P.can_place P.place P.asked probe.old probe.new }
        ensures asks { 0 < finite.len self.now.rows → counted (P.asked probe.old) ≤ P.asked probe.new }
        ensures most_asked { P.asked probe.new ≤ P.asked probe.old + most_compared self.now.by_key }
    {
        self.by_key.find(probe)
    }

    /// A probe for the row with this key, which was not asked yet. Handed to `find`, it tells afterwards how many rows' keys
    /// were compared.
    pub fn key_probe<'a>(&'a self, key: &'a SoughtValue<'a>) -> KeyProbe<'a>
        ensures rows { result.rows.now.tuples ≡ self.now.rows }
        ensures sought { result.sought.now ≡ key.now }
        ensures asked { result.asked ≡ 0 }
        // It can be asked of each row, and its places never fall along the tree of the key.
        ensures placed { All (λ r. IsSome (value_at no_keys 0 result.rows.now.tuples r)) (tree_list self.now.by_key) }
        ensures in_order { NeverFalls (λ r. option_cmp value_cmp (value_at no_keys 0 result.rows.now.tuples r) (Some result.sought.now)) (tree_list self.now.by_key) }
    {
        KeyProbe {
            rows: &self.rows,
            sought: key,
            asked: 0,
        }
    }

    // A probe for the row with this key, which doesn't count the rows whose keys it compares.
    pub(crate) fn key_search<'a>(&'a self, key: &'a SoughtValue<'a>) -> KeySearch<'a>
        ensures rows { result.rows.now.tuples ≡ self.now.rows }
        ensures sought { result.sought.now ≡ key.now }
        ensures placed { All (λ r. IsSome (value_at no_keys 0 result.rows.now.tuples r)) (tree_list self.now.by_key) }
        ensures in_order { NeverFalls (λ r. option_cmp value_cmp (value_at no_keys 0 result.rows.now.tuples r) (Some result.sought.now)) (tree_list self.now.by_key) }
    {
        KeySearch {
            rows: &self.rows,
            sought: key,
        }
    }

    /// The row with this key.
    pub fn find_key(&self, key: &SoughtValue<'_>) -> Option<TupleRef>
        ensures found { IfSome result (λ r. key_at self.now.rows r ≡ Some key.now) }
        ensures none { IfNone result ((r : TupleRef) → key_at self.now.rows r ≢ Some key.now) }
    {
        a_relation_is_kept(self);
        let mut search = self.key_search(key);
        self.find(&mut search)
    }

    /// The row with this key, and how many rows' keys were compared with it.
    pub fn find_key_counted(&self, key: &SoughtValue<'_>) -> (Option<TupleRef>, u64)
        ensures found { IfSome result.0 (λ r. key_at self.now.rows r ≡ Some key.now) }
        ensures none { IfNone result.0 ((r : TupleRef) → key_at self.now.rows r ≢ Some key.now) }
        ensures asks { 0 < finite.len self.now.rows → 1 ≤ result.1 }
        ensures most { result.1 ≤ most_compared self.now.by_key }
        ensures bound { result.1 ≤ 2 * height self.now.by_key + 6 }
    {
        a_relation_is_kept(self);
        let mut probe = self.key_probe(key);
        let found = self.find(&mut probe);
        (found, probe.asked())
    }

    /// Whether a row has the key of the row of these cells.
    pub fn has_key_of(&self, cells: &[StoredCell]) -> bool
        requires { StartsWithKey cells.now }
        ensures has { OnTrue result (HasKey self.now.rows (row_of cells.now).key) }
        ensures has_not { OnFalse result (HasKey self.now.rows (row_of cells.now).key → ⊥) }
    {
        match cells[0].seen() {
            SeenCell::Held(key) => self.find_key(&key.sought()).is_some(),
            SeenCell::Link { to: _ } => unreachable!(),
        }
    }

    /// Takes the row of these cells in, under every index, with no links to it so far. The cells are gone either way, and the
    /// vector keeps its memory.
    pub fn insert_row<R: Relations>(
        &mut self,
        others: &R,
        cells: &mut Vec<StoredCell>,
    ) -> Result<TupleRef, RowRefusal>
        requires starts { StartsWithKey cells.old.items }
        requires width { length cells.old.items ≡ length self.old.targets }
        requires readable { IsReadable (linked_keys self.old.targets (R.tables others.now)) (length self.old.targets) (row_of cells.old.items) }
        requires current { IsCurrent (linked_keys self.old.targets (R.tables others.now)) self.old }
        ensures inserted { IfOk result (λ r. IsInserted self.old self.new r (row_of cells.old.items)) }
        ensures current { IsCurrent (linked_keys self.old.targets (R.tables others.now)) self.new }
        ensures unchanged { OnErr result (self.new ≡ self.old) }
        ensures told { IsToldRightly self.old (row_of cells.old.items).key result }
        ensures moved { cells.new.items ≡ [] }
    {
        if self.rows.len() >= u64::from(MOST_ROWS) {
            let there = self.has_key_of(cells.as_slice());
            cells.clear();
            return Err(if there {
                RowRefusal::KeyExists
            } else {
                RowRefusal::Full
            });
        }
        if make_room(&mut self.rows, &mut self.by_key, &mut self.indexes).is_err() {
            cells.clear();
            return Err(RowRefusal::NoMemory);
        }
        let links = Links {
            targets: self.targets.as_slice(),
            others,
        };
        place(
            &mut self.rows,
            &mut self.by_key,
            &mut self.indexes,
            &links,
            cells,
        )
    }

    /// Takes a row out. It takes no memory.
    pub fn remove_row<R: Relations>(&mut self, others: &R, r: TupleRef)
        requires held { IsSome (finite.get self.old.rows r) }
        requires current { IsCurrent (linked_keys self.old.targets (R.tables others.now)) self.old }
        ensures removed { IsRemoved self.old self.new r }
        ensures current { IsCurrent (linked_keys self.old.targets (R.tables others.now)) self.new }
    {
        let links = Links {
            targets: self.targets.as_slice(),
            others,
        };
        displace(
            &mut self.rows,
            &mut self.by_key,
            &mut self.indexes,
            &links,
            r,
        );
    }

    /// Whether the numbers of links that name its rows are kept. Where they are not, no link names a row.
    pub fn is_counted(&self) -> bool
        ensures value { result ≡ self.now.counted }
        ensures none { result ≡ false → HaveNoReferrers self.now.rows self.now.referrers }
    {
        self.rows.is_counted()
    }

    /// Makes memory for the numbers of links that name its rows, also for rows to come. Where they are kept already, nothing
    /// is done.
    pub fn keep_counts(&mut self) -> Result<(), NoMemory>
        ensures ok { OnOk result (self.new ≡ record self.old { counted = true }) }
        ensures err { OnErr result (self.new ≡ self.old) }
        ensures had { IsTrue self.old.counted → IsOk result }
    {
        self.rows.keep_counts()
    }

    /// Gives the memory of these numbers back, each of which is 0. It takes no memory.
    pub fn forget_counts(&mut self)
        requires { HaveNoReferrers self.old.rows self.old.referrers }
        ensures { self.new ≡ record self.old { counted = false } }
    {
        self.rows.forget_counts();
    }

    /// So many links more name a row, where these numbers are kept. It takes no memory.
    pub fn add_referrers(&mut self, r: TupleRef, n: u64)
        requires held { IsSome (finite.get self.old.rows r) }
        requires counted { IsTrue self.old.counted }
        requires room { referrers_at self.old.referrers r + n < 2 ^ 64 }
        ensures added { self.new ≡ with_referrers self.old r (referrers_at self.old.referrers r + n) }
        ensures current { (keys : Keys) → IsCurrent keys self.old → IsCurrent keys self.new }
    {
        count_up(&mut self.rows, r, n);
    }

    /// So many links fewer name a row, where these numbers are kept. It takes no memory.
    pub fn sub_referrers(&mut self, r: TupleRef, n: u64)
        requires held { IsSome (finite.get self.old.rows r) }
        requires counted { IsTrue self.old.counted }
        requires enough { n ≤ referrers_at self.old.referrers r }
        ensures taken { self.new ≡ with_referrers self.old r (referrers_at self.old.referrers r - n) }
        ensures current { (keys : Keys) → IsCurrent keys self.old → IsCurrent keys self.new }
    {
        count_down(&mut self.rows, r, n);
    }

    /// Sets cells in each of these rows. All are changed, or, where no memory is found, none. The values are moved to the last
    /// row, and copied for each other. So the change of one row copies none.
    pub fn change_rows<R: Relations>(
        &mut self,
        alloc: Global,
        others: &R,
        rs: &[TupleRef],
        sets: &mut [(ColumnNumber, StoredCell)],
    ) -> Result<(), NoMemory>
        requires held { All (λ r. IsSome (finite.get self.old.rows r)) rs.now }
        requires once { AllPairs (λ q r. q ≢ r) rs.now }
        requires columns { All (λ s. s.0.0 < length self.old.targets) sets.old }
        requires not_the_key { All (λ s. 0 < s.0.0) sets.old }
        requires readable { All (λ s. IsSome (cell_value (linked_keys self.old.targets (R.tables others.now)) s.0.0 s.1)) sets.old }
        requires current { IsCurrent (linked_keys self.old.targets (R.tables others.now)) self.old }
        ensures changed { OnOk result (IsChanged self.old self.new rs.now sets.old) }
        ensures current { IsCurrent (linked_keys self.old.targets (R.tables others.now)) self.new }
        ensures unchanged { OnErr result (self.new ≡ self.old) }
        ensures links { map link_set sets.new ≡ map link_set sets.old }
    {
        let mut copies = copies_for(alloc, sets, rs.len().saturating_sub(1))?;
        let owed = self.rows.owed() as usize;
        reserve(&mut self.indexes, owed + rs.len(), owed.max(1))?;
        let links = Links {
            targets: self.targets.as_slice(),
            others,
        };
        change_all(
            &mut self.rows,
            &mut self.indexes,
            &links,
            rs,
            sets,
            &mut copies,
        );
        settle_indexes(&self.rows, &mut self.indexes);
        Ok(())
    }
}
