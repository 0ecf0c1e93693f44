//! A table that is taken out of a catalog whole, and put back with no memory.
//!
//! ```text
//!  room_for_table ──▶ TableRoom
//!                        │
//!                 take_table_out ──▶ DroppedTable: its number, its name, its relation, the room ──▶ put_table_back
//! ```
//!
//! The lists of a catalog may have grown or been made anew meanwhile, and nothing is known of their memory. So the table
//! brings lists into which all names and relations are moved as it is put back. It has no rows, so no link and no number of
//! referrers changes.
ghost use Rattle.std.specs.Prelude.{◌≡◌, ◌<◌, ◌≤◌, [], IfOk, false, insert, length, vec_capacity};
ghost use Rattle.std.specs.FinMap as finite;
ghost use Rattle.std.specs.List.{list_any};
ghost use Rattle.std.specs.String.{string_eq};
ghost use Rattle.indexmap.specs.IndexSet.{spare};

use crate::catalog::Catalog;
use crate::renumbering::{Renumbering, renumber_from};
use indexmap::IndexSet;
use mm_relation::Relation;
use no_memory::NoMemory;
use plain_tables::TableNumber;
use std::marker::Model;

/// Memory for the names and the relations of so many tables.
#[derive(Drop)]
pub struct TableRoom {
    names: IndexSet<String>,
    relations: Vec<Relation>,
}

impl Model for TableRoom {
    ghost use Rattle.std.specs.Prelude.{◌≡◌, ◌≤◌, ℕ, [], vec_capacity};
    ghost use Rattle.std.specs.Coded.{coded_ℕ};
    ghost use Rattle.indexmap.specs.IndexSet.{spare};

    ghost Value = { ℕ };

    ghost coded = { coded_ℕ };

    ghost view = { λ r. vec_capacity r.relations };

    ghost invariant = { λ r. (r.names.keys ≡ []) × (r.relations.items ≡ []) × (vec_capacity r.relations ≤ spare r.names) };
}

/// A table that was taken out of a catalog, and all that putting it back needs.
#[derive(Drop)]
pub struct DroppedTable {
    number: TableNumber,
    name: String,
    relation: Relation,
    room: TableRoom,
}

impl Model for DroppedTable {
    ghost use Rattle.std.specs.String.{string_bytes};
    ghost use Rattle.mm_catalog.specs.DroppedTables.{DroppedTableState, dropped_table_code};
    ghost use Rattle.mm_relation.specs.contracts.relation.Relation.{the_row as relation_row};

    ghost Value = { DroppedTableState };

    ghost coded = { dropped_table_code relation_row.coded };

    ghost view = { λ d. record { number = d.number.0; name = string_bytes d.name; relation = d.relation; places = d.room } };
}

// Puts a name at its place among others, which are moved into a set that has room for them.
fn put_name(names: &mut IndexSet<String>, room: IndexSet<String>, place: usize, name: String)
    requires empty { room.keys ≡ [] }
    requires within { place ≤ length names.old.keys }
    requires enough { length names.old.keys < spare room }
    requires new { list_any (string_eq name) names.old.keys ≡ false }
    ensures { names.new.keys ≡ insert names.old.keys place name }
{
    // `len` is called for its clause that no name is there twice.
    let _count = names.len();
    let mut room = room;
    let Ok(()) = room.append(names) else {
        unreachable!();
    };
    let Ok(_) = room.shift_insert(place, name) else {
        unreachable!();
    };
    *names = room;
}

// Puts a relation at its place among others, which are moved into a list that has room for them.
fn put_relation(
    relations: &mut Vec<Relation>,
    room: Vec<Relation>,
    place: usize,
    relation: Relation,
)
    requires empty { room.items ≡ [] }
    requires within { place ≤ length relations.old.items }
    requires enough { length relations.old.items < vec_capacity room }
    ensures { relations.new.items ≡ insert relations.old.items place relation }
{
    let mut room = room;
    if room.append(relations).is_err() || room.insert(place, relation).is_err() {
        unreachable!();
    }
    *relations = room;
}

impl Catalog {
    ghost use Rattle.plain_tables.specs.ResolvedLaws.{IsMeant};
    ghost use Rattle.plain_tables.specs.declared.resolved.Resolved.TheVariants as resolved;
    ghost use Rattle.std.specs.Prelude.{Some, slice_get};
    ghost use Rattle.mm_relation.specs.State.{RelationState};
    ghost use Rattle.mm_catalog.specs.Changes.{IsDone};
    ghost use Rattle.mm_catalog.specs.DroppedTables.{CanHaveTable, HasTableLess, with_table};
    ghost use Rattle.mm_catalog.specs.Outline.{IsOutline, outline_of};
    ghost use Rattle.mm_catalog.specs.Seen.{database_of};

    /// Memory for the lists of names and of relations as long as they are.
    pub fn room_for_table(&self) -> Result<TableRoom, NoMemory>
        ensures { IfOk result (λ room. room ≡ length self.now.relations) }
    {
        let alloc = self.allocator();
        let count = self.relations.len();
        let names = IndexSet::with_capacity(alloc, count)?;
        let relations = Vec::with_capacity(alloc, count)?;
        Ok(TableRoom { names, relations })
    }

    /// Takes out a table that has no rows and to which no column refers. Those behind it move up. It takes no memory, and never
    /// fails.
    pub fn take_table_out(&mut self, table: TableNumber, room: TableRoom) -> DroppedTable
        requires meant { IsMeant self.old.limits (database_of self.old) (resolved.DropTable table) }
        requires empty { (s : RelationState) → slice_get self.old.relations table.0 ≡ Some s → s.rows ≡ finite.empty }
        requires room { length self.old.relations ≤ room }
        ensures done { IsDone self.old self.new (resolved.DropTable table) }
        ensures taken { HasTableLess (outline_of self.old) (outline_of self.new) result }
    {
        let relation = self.relations.remove(table.0);
        let Some(name) = self.names.shift_remove_index(table.0) else {
            unreachable!();
        };
        renumber_from(
            self.relations.as_mut_slice(),
            table,
            Renumbering::Gone(table),
        );
        DroppedTable {
            number: table,
            name,
            relation,
            room,
        }
    }

    /// Puts a table back at its number, where a catalog can have it. Those from there on move down. It takes no memory, and never
    /// fails.
    pub fn put_table_back(&mut self, table: DroppedTable)
        requires can { CanHaveTable (outline_of self.old) table }
        requires stands { IsOutline (with_table table (outline_of self.old)) }
        ensures { outline_of self.new ≡ with_table table (outline_of self.old) }
    {
        let DroppedTable {
            number,
            name,
            relation,
            room,
        } = table;
        let TableRoom { names, relations } = room;
        renumber_from(
            self.relations.as_mut_slice(),
            number,
            Renumbering::Back(number),
        );
        put_name(&mut self.names, names, number.0, name);
        put_relation(&mut self.relations, relations, number.0, relation);
    }
}
