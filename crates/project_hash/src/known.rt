//! Rows of a table of which no two are shown alike.
ghost use Rattle.std.specs.Prelude.{◌≡◌, ◌+◌, ◌^◌, ◌<◌, ◌≤◌, [], IsSome, OnOk};
ghost use Rattle.std.specs.List.{list_any};
ghost use Rattle.std.specs.FinMap as finite;
ghost use Rattle.std.specs.Prelude.{vec_len};
ghost use Rattle.indexmap.specs.IndexSet.{insert_key};
ghost use Rattle.project_hash.specs.Hashes.{hash_of_values};
ghost use Rattle.project_hash.specs.Known.{AreKnown, row_states};
ghost use Rattle.project_hash.specs.Shown.{alike};
ghost use Rattle.project_hash.specs.Table.{CanRead, row_state};

use crate::table::{ShownTable, TableRow};
use crate::values::ShowsValues;
use lin_hash::LinHash;
use mm_index::ExactIndex;
use mm_relation::Relations;
use no_memory::NoMemory;
use part_raw::TupleRef;
use std::alloc::Global;

/// Rows that are shown differently, in the order in which they came, and under the hashes of what is shown of them.
#[derive(Drop)]
pub(crate) struct Known {
    rows: Vec<TupleRef>,
    by_hash: LinHash,
}

impl Known {
    /// No rows.
    pub fn new(alloc: Global) -> Known
        ensures rows { result.rows.items ≡ [] }
        ensures by_hash { result.by_hash.entries ≡ [] }
    {
        Known {
            rows: Vec::new(alloc),
            by_hash: LinHash::new(alloc),
        }
    }

    /// The rows.
    pub fn into_rows(self) -> Vec<TupleRef>
        ensures { result.items ≡ self.rows.items }
    {
        self.rows
    }

    // Whether a row is known that is shown as this one. Its hash leads to few rows, and their values decide.
    fn has_alike<'a, R: Relations>(
        &self,
        table: &'a ShownTable<'a, R>,
        row: &TableRow<'a, R>,
        hash: u32,
    ) -> bool
        requires can_read { CanRead table.now }
        requires known { AreKnown table.now self.now.rows.items self.now.by_hash.entries }
        requires hash { hash ≡ hash_of_values row.now.values }
        ensures { result ≡ list_any (alike row.now) (row_states table.now self.now.rows.items) }
    {
        for r in self.by_hash.chain(hash) {
            let other = TableRow::new(table, r);
            if row.is_alike(&other) {
                return true;
            }
        }
        false
    }

    /// A row more, unless one is known that is shown as it is.
    pub fn keep<'a, R: Relations>(
        &mut self,
        table: &'a ShownTable<'a, R>,
        r: TupleRef,
    ) -> Result<(), NoMemory>
        requires can_read { CanRead table.now }
        requires held { IsSome (finite.get table.now.relation.rows r) }
        requires known { AreKnown table.now self.old.rows.items self.old.by_hash.entries }
        requires few { vec_len self.old.rows + 1 < 2 ^ 32 }
        ensures known { OnOk result (AreKnown table.now self.new.rows.items self.new.by_hash.entries) }
        ensures rows { OnOk result (row_states table.now self.new.rows.items ≡ insert_key alike (row_states table.now self.old.rows.items) (row_state table.now r)) }
        ensures count { OnOk result (vec_len self.new.rows ≤ vec_len self.old.rows + 1) }
    {
        let row = TableRow::new(table, r);
        let hash = row.shown_hash();
        if self.has_alike(table, &row, hash) {
            return Ok(());
        }
        self.by_hash.reserve(1)?;
        self.rows.push(r)?;
        self.by_hash.insert(hash, r);
        Ok(())
    }
}
