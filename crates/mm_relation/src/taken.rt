//! An index that is taken out of a relation whole, and put back with no memory.
//!
//! ```text
//!  take_index  ──▶  DroppedIndex: the index, its place, two empty lists   ──▶  put_index
//! ```
//!
//! The lists of a relation may have grown or been made anew meanwhile, and nothing is known of their memory. So what is taken
//! out brings its own: lists into which all declared indexes are moved as it is put back.
ghost use Rattle.std.specs.Prelude.{ℕ, ◌≡◌, ◌<◌, ◌≤◌, [], IsTrue, IfOk, OnErr, filter, insert, length, take, vec_capacity};
ghost use Rattle.std.specs.List.{list_any};
ghost use Rattle.mm_relation.specs.Declaring.{is_index, is_kind, without_first};
ghost use Rattle.mm_relation.specs.Indexes.{declaration_of, kind_in};
ghost use Rattle.mm_relation.specs.Taken.{IsFirst, count_of};

use crate::building::first_index;
use crate::declare::first_declared;
use crate::index::IndexOn;
use crate::numbers::DeclaredIndex;
use crate::relation::Relation;
use no_memory::NoMemory;
use plain_tables::{ColumnNumber, IndexKind, Sequence};
use std::marker::Model;
use std::mem;

/// An index that was taken out of a relation, and all that putting it back needs.
#[derive(Drop)]
pub struct DroppedIndex {
    // Its place among the declared indexes.
    place: usize,
    on: IndexOn,
    // Two empty lists, with memory for as many declared indexes as there were.
    declared: Vec<DeclaredIndex>,
    indexes: Vec<IndexOn>,
}

impl Model for DroppedIndex {
    ghost use Rattle.std.specs.Prelude.{◌≡◌, [], vec_capacity};
    ghost use Rattle.mm_relation.specs.Taken.{DroppedState, dropped_code};
    ghost use Rattle.mm_relation.specs.contracts.index.IndexOn.{the_row as on_row};

    ghost Value = { DroppedState };

    ghost coded = { dropped_code on_row.coded };

    ghost view = { λ d. record { place = d.place; on = d.on; places = vec_capacity d.declared } };

    ghost invariant = { λ d. (d.declared.items ≡ []) × (d.indexes.items ≡ []) × (vec_capacity d.indexes ≡ vec_capacity d.declared) };
}

// Takes out the first declaration like this one, and tells its place.
fn take_declared(declared: &mut Vec<DeclaredIndex>, index: DeclaredIndex) -> usize
    requires { IsTrue (list_any (is_index index) declared.old.items) }
    ensures first { IsFirst (is_index index) declared.old.items result index }
    ensures rest { declared.new.items ≡ without_first (is_index index) declared.old.items }
{
    let Some(place) = first_declared(declared.as_slice(), index) else {
        unreachable!();
    };
    declared.remove(place);
    place
}

// Takes out the first index like this one.
fn take_first(indexes: &mut Sequence<IndexOn>, index: DeclaredIndex) -> IndexOn
    requires { IsTrue (list_any (λ on. is_index index (declaration_of on)) indexes.old) }
    ensures first { (place : ℕ) × IsFirst (λ on. is_index index (declaration_of on)) indexes.old place result }
    ensures rest { indexes.new ≡ without_first (λ on. is_index index (declaration_of on)) indexes.old }
{
    let Some(place) = first_index(indexes.as_slice(), index) else {
        unreachable!();
    };
    indexes.remove(place)
}

// How many of these declarations are of a kind.
fn count_of(declared: &[DeclaredIndex], kind: IndexKind) -> usize
    ensures { result ≡ count_of kind declared.now }
{
    declared.iter().filter(|d| d.kind == kind).count()
}

// The place behind so many indexes of a kind.
fn place_behind(indexes: &[IndexOn], count: usize, kind: IndexKind) -> usize
    requires { count ≤ length (filter (λ on. is_kind kind (kind_in on.index)) indexes.now) }
    ensures within { result ≤ length indexes.now }
    ensures behind { length (filter (λ on. is_kind kind (kind_in on.index)) (take result indexes.now)) ≡ count }
{
    if count == 0 {
        return 0;
    }
    let Some((first, rest)) = indexes.split_first() else {
        unreachable!();
    };
    let is_one = first.declaration().kind == kind;
    1 + place_behind(rest, count - usize::from(is_one), kind)
}

// Puts an item at its place in a list, whose items are moved into a list that has room for them.
fn put_at<T: Drop>(list: &mut Vec<T>, room: Vec<T>, place: usize, item: T)
    requires empty { room.items ≡ [] }
    requires within { place ≤ length list.old.items }
    requires enough { length list.old.items < vec_capacity room }
    ensures { list.new.items ≡ insert list.old.items place item }
{
    let mut room = room;
    if room.append(list).is_err() || room.insert(place, item).is_err() {
        unreachable!();
    }
    *list = room;
}

impl Relation {
    ghost use Rattle.mm_relation.specs.Changes.{has_declared_on};
    ghost use Rattle.mm_relation.specs.Declaring.{declaration};
    ghost use Rattle.mm_relation.specs.Reading.{Keys};
    ghost use Rattle.mm_relation.specs.State.{IsCurrent};
    ghost use Rattle.mm_relation.specs.Taken.{HasPlaceFor, IsServedBy, IsTaken, with_index};

    /// Takes out the first index of this kind on this column, with all that putting it back needs. It takes memory for two lists
    /// of the declared indexes, and none that grows with the rows.
    pub fn take_index(
        &mut self,
        column: ColumnNumber,
        kind: IndexKind,
    ) -> Result<DroppedIndex, NoMemory>
        requires { IsTrue (has_declared_on self.old column.0 kind) }
        ensures taken { IfOk result (λ d. IsTaken self.old self.new (declaration column kind) d) }
        ensures unchanged { OnErr result (self.new ≡ self.old) }
    {
        let alloc = *self.declared.allocator();
        let count = self.declared.len();
        let declared = Vec::with_capacity(alloc, count)?;
        let indexes = Vec::with_capacity(alloc, count)?;
        let index = DeclaredIndex { column, kind };
        let place = take_declared(&mut self.declared, index);
        let on = take_first(&mut self.indexes, index);
        Ok(DroppedIndex {
            place,
            on,
            declared,
            indexes,
        })
    }

    /// Puts an index back at its place among the declared ones. It takes no memory.
    pub fn put_index(&mut self, index: DroppedIndex)
        requires { HasPlaceFor self.old index }
        ensures put { self.new ≡ with_index self.old index }
        ensures current { (keys : Keys) → IsCurrent keys self.old → IsServedBy keys self.old index → IsCurrent keys self.new }
    {
        let DroppedIndex {
            place,
            on,
            declared,
            indexes,
        } = index;
        let declaration = on.declaration();
        let behind = count_of(&self.declared[..place], declaration.kind);
        let at = place_behind(self.indexes.as_slice(), behind, declaration.kind);
        put_at(&mut self.declared, declared, place, declaration);
        let none = Sequence::new(*self.declared.allocator());
        let mut all = mem::replace(&mut self.indexes, none).into_vec();
        put_at(&mut all, indexes, at, on);
        self.indexes = Sequence::from_vec(all);
    }
}
