//! Rows that are owed: each can come back as it was, with no memory. A row that is hidden comes back as it is shown again,
//! and one that is changed as its cells are set to what they were.
//!
//! ```text
//!  owe(1)  ──▶  hide_row     ──▶  show_row, which owes one fewer       or settle_all
//!  owe(1)  ──▶  change_rows  ──▶  change_back, which owes one fewer    or forgive(1), settle_all
//! ```
//!
//! As long as rows are owed each index keeps its memory, and what other calls take is beside that. Once nothing is owed,
//! what is spare is given back.
ghost use Rattle.std.specs.Prelude.{◌≡◌, ◌+◌, ◌-◌, ◌<◌, ◌≤◌, Some, IsSome, IfOk, OnOk, OnErr, All, length, map, slice_get};

use crate::change::change_last;
use crate::parts::{make_ready, restore, settle, withdraw};
use crate::relation::Relation;
use crate::relations::{Links, Relations};
use crate::stored_cell::StoredCell;
use no_memory::NoMemory;
use part_raw::TupleRef;
use plain_tables::ColumnNumber;
use std::alloc::Global;

impl Relation {
    ghost use Rattle.std.specs.FinMap as finite;
    ghost use Rattle.mm_relation.specs.Rows.{Row, referrers_at};
    ghost use Rattle.mm_relation.specs.Reading.{cell_value};
    ghost use Rattle.mm_relation.specs.State.{HasKey, IsReadable, IsCurrent, linked_keys};
    ghost use Rattle.mm_relation.specs.Changes.{IsHidden, IsShown, IsChangedBack};
    ghost use Rattle.mm_relation.specs.Settings.{link_set};

    /// How many rows it owes.
    pub fn owed(&self) -> u64
        ensures value { result ≡ self.now.owed }
        ensures few { result ≤ 16777216 }
        ensures hidden { finite.len self.now.hidden ≤ result }
    {
        self.rows.owed()
    }

    /// Owes so many rows more: makes sure that as many can be hidden, or changed, and later come back, with no memory.
    pub fn owe(&mut self, n: u64) -> Result<(), NoMemory>
        requires { self.old.owed + n ≤ 16777216 }
        ensures owed { OnOk result (self.new ≡ record self.old { owed = self.old.owed + n }) }
        ensures unchanged { OnErr result (self.new ≡ self.old) }
    {
        make_ready(&mut self.by_key, &mut self.indexes, self.rows.owed() + n)?;
        self.rows.owe(n)
    }

    /// So many rows are owed no longer, and none of them is hidden. It takes no memory, and gives back what is spare where
    /// nothing is owed then.
    pub fn forgive(&mut self, n: u64)
        requires { n + finite.len self.old.hidden ≤ self.old.owed }
        ensures { self.new ≡ record self.old { owed = self.old.owed - n } }
    {
        self.rows.forgive(n);
        settle(&mut self.rows, &mut self.by_key, &mut self.indexes);
    }

    /// Hides a row that no link names, where more are owed than are hidden. It keeps its reference, and goes out of every
    /// index. It takes no memory.
    pub fn hide_row<R: Relations>(&mut self, others: &R, r: TupleRef)
        requires held { IsSome (finite.get self.old.rows r) }
        requires unnamed { referrers_at self.old.referrers r ≡ 0 }
        requires owed { finite.len self.old.hidden < self.old.owed }
        requires current { IsCurrent (linked_keys self.old.targets (R.tables others.now)) self.old }
        ensures hidden { (row : Row) → finite.get self.old.rows r ≡ Some row → IsHidden self.old self.new r row }
        ensures current { IsCurrent (linked_keys self.old.targets (R.tables others.now)) self.new }
    {
        let links = Links {
            targets: self.targets.as_slice(),
            others,
        };
        withdraw(
            &mut self.rows,
            &mut self.by_key,
            &mut self.indexes,
            &links,
            r,
        );
    }

    /// Shows a hidden row again, under every index, with no links that name it. One row fewer is owed then. It takes no
    /// memory.
    pub fn show_row<R: Relations>(&mut self, others: &R, r: TupleRef)
        requires hidden { IsSome (finite.get self.old.hidden r) }
        requires new_key { (row : Row) → finite.get self.old.hidden r ≡ Some row → HasKey self.old.rows row.key → ⊥ }
        requires readable { (row : Row) → finite.get self.old.hidden r ≡ Some row → IsReadable (linked_keys self.old.targets (R.tables others.now)) (length self.old.targets) row }
        requires few { finite.len self.old.rows < 16777216 }
        requires current { IsCurrent (linked_keys self.old.targets (R.tables others.now)) self.old }
        ensures shown { (row : Row) → finite.get self.old.hidden r ≡ Some row → IsShown self.old self.new r row }
        ensures current { IsCurrent (linked_keys self.old.targets (R.tables others.now)) self.new }
    {
        self.rows.hidden_are_apart();
        let links = Links {
            targets: self.targets.as_slice(),
            others,
        };
        restore(
            &mut self.rows,
            &mut self.by_key,
            &mut self.indexes,
            &links,
            r,
        );
        self.rows.forgive(1);
        settle(&mut self.rows, &mut self.by_key, &mut self.indexes);
    }

    /// Drops all hidden rows for good, and owes none. It takes no memory, and gives back what is spare. Where no row is owed
    /// it does nothing.
    pub fn settle_all(&mut self)
        ensures { self.new ≡ record self.old { hidden = finite.empty; owed = 0 } }
    {
        let owed = self.rows.owed();
        if owed == 0 {
            return;
        }
        self.rows.clear_hidden();
        self.rows.forgive(owed);
        settle(&mut self.rows, &mut self.by_key, &mut self.indexes);
    }

    /// Sets cells in one row, to which the values are moved, where more rows are owed than are hidden. One row fewer is owed
    /// then. It takes no memory.
    pub fn change_back<R: Relations>(
        &mut self,
        others: &R,
        r: TupleRef,
        sets: &mut [(ColumnNumber, StoredCell)],
    )
        requires held { IsSome (finite.get self.old.rows r) }
        requires columns { All (λ s. s.0.0 < length self.old.targets) sets.old }
        requires not_the_key { All (λ s. 0 < s.0.0) sets.old }
        requires readable { All (λ s. IsSome (cell_value (linked_keys self.old.targets (R.tables others.now)) s.0.0 s.1)) sets.old }
        requires owed { finite.len self.old.hidden < self.old.owed }
        requires current { IsCurrent (linked_keys self.old.targets (R.tables others.now)) self.old }
        ensures changed { IsChangedBack self.old self.new r sets.old }
        ensures current { IsCurrent (linked_keys self.old.targets (R.tables others.now)) self.new }
        ensures links { map link_set sets.new ≡ map link_set sets.old }
    {
        let links = Links {
            targets: self.targets.as_slice(),
            others,
        };
        change_last(&mut self.rows, &mut self.indexes, &links, r, sets);
        self.rows.forgive(1);
        settle(&mut self.rows, &mut self.by_key, &mut self.indexes);
    }

    /// A copy of a row's cell in a column beside the key. One of an integer, of a link or of a text of at most 14 bytes takes no
    /// memory.
    pub fn cell_copy(
        &self,
        alloc: Global,
        r: TupleRef,
        column: ColumnNumber,
    ) -> Result<StoredCell, NoMemory>
        requires held { IsSome (finite.get self.now.rows r) }
        requires column { (0 < column.0) × (column.0 < length self.now.targets) }
        ensures { IfOk result (λ copy. (row : Row) → finite.get self.now.rows r ≡ Some row → slice_get row.cells (column.0 - 1) ≡ Some copy) }
    {
        self.rows.cells(r)[column.0].copied(alloc)
    }
}
