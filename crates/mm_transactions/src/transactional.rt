//! A catalog with transactions.
ghost use Rattle.std.specs.Prelude.{Bool, true, ◌≡◌, ◌≢◌, ◌⊎◌, ◌<◌, ◌≤◌, [], IsOk, IfErr, Ok, OnOk, OnErr, length, map};
ghost use Rattle.std.specs.List.{AllPairs};

use crate::log::UndoLog;
use crate::no_transaction::NoTransaction;
use mm_catalog::Catalog;
use mm_catalog::laws::a_catalog_is_consistent;
use no_memory::NoMemory;
use part_raw::TupleRef;
use plain_tables::{
    Assignment, ColumnNumber, IndexKind, Limits, Refusal, RowList, Schema, TableNumber, Text, Value,
};
use std::alloc::Global;
use std::marker::Model;

/// Tables by name, and the transactions that are open over them.
pub struct TransactionalCatalog {
    catalog: Catalog,
    log: UndoLog,
}

impl Drop for TransactionalCatalog {
    fn drop(self) {
        let TransactionalCatalog { catalog: _, log: _ } = self;
    }
}

impl Model for TransactionalCatalog {
    ghost use Rattle.plain_tables.specs.contracts.numbers.ColumnNumber.{the_row as column_row};
    ghost use Rattle.mm_relation.specs.contracts.numbers.DeclaredIndex.{the_row as index_row};
    ghost use Rattle.mm_relation.specs.contracts.row.Cell.{the_row as cell_row};
    ghost use Rattle.mm_relation.specs.contracts.taken.DroppedIndex.{the_row as dropped_row};
    ghost use Rattle.mm_catalog.specs.contracts.catalog.Catalog.{the_row as catalog_row};
    ghost use Rattle.mm_catalog.specs.contracts.dropped_table.DroppedTable.{the_row as table_row};
    ghost use Rattle.mm_transactions.specs.Parts.{change_code};
    ghost use Rattle.mm_transactions.specs.State.{TransactionalState, IsUndoable, state_code};

    ghost Value = { TransactionalState };

    ghost coded = { state_code catalog_row.coded (change_code column_row.coded cell_row.coded table_row.coded index_row.coded dropped_row.coded) };

    ghost view = { λ t. record { catalog = t.catalog; changes = t.log.changes; marks = t.log.marks } };

    ghost invariant = { λ t. IsUndoable t.catalog t.log.changes t.log.marks };
}

impl TransactionalCatalog {
    ghost use Rattle.plain_tables.specs.Doing.{done};
    ghost use Rattle.plain_tables.specs.ResolvedLaws.{AreAssignable, IsMeant, OfTable, emptied};
    ghost use Rattle.plain_tables.specs.Transactions.{begun, committed, rolled_back};
    ghost use Rattle.plain_tables.specs.declared.resolved.Resolved.TheVariants as resolved;
    ghost use Rattle.mm_catalog.specs.Changes.{IsDone, HasEffect, IsRefusedFor, IsDeclinedFor};
    ghost use Rattle.mm_catalog.specs.Picked.{ArePicked, HoldsRows};
    ghost use Rattle.mm_catalog.specs.Seen.{database_of};
    ghost use Rattle.mm_catalog.specs.Settled.{settled_catalog};
    ghost use Rattle.plain_tables.specs.Doing as doing;
    ghost use Rattle.plain_tables.specs.Effects.{Refused};
    ghost use Rattle.plain_tables.specs.Tables.{Row};
    ghost use Rattle.mm_transactions.specs.Log.{AreSettled};
    ghost use Rattle.mm_transactions.specs.State.{saved_of, transactional_of};

    /// No tables, under these limits, and no transaction. It takes no memory.
    pub fn new(alloc: Global, limits: Limits) -> TransactionalCatalog
        requires { limits.rows ≤ 16777216 }
        ensures empty { database_of result.catalog ≡ [] }
        ensures limits { result.catalog.limits ≡ limits }
        ensures none { saved_of result ≡ [] }
    {
        TransactionalCatalog {
            catalog: Catalog::new(alloc, limits),
            log: UndoLog::new(alloc),
        }
    }

    /// The tables of a catalog, and no transaction. It takes no memory.
    pub fn over(alloc: Global, catalog: Catalog) -> TransactionalCatalog
        ensures catalog { result.catalog ≡ catalog }
        ensures none { saved_of result ≡ [] }
    {
        TransactionalCatalog {
            catalog,
            log: UndoLog::new(alloc),
        }
    }

    /// The tables as they are, lent.
    pub fn catalog(&self) -> &Catalog
        ensures { result.now ≡ self.now.catalog }
    {
        &self.catalog
    }

    /// How many transactions are open.
    pub fn transactions(&self) -> usize
        ensures { result ≡ length (saved_of self.now) }
    {
        self.log.depth()
    }

    /// Counts a change of the table of this number. Where there is none, it is a change of which tables there are. No call that
    /// changes tables does so by itself.
    pub fn note_change(&mut self, table: TableNumber)
        ensures { self.new ≡ self.old }
    {
        self.catalog.note_change(table);
    }

    /// Counts a change of each table, and of which tables there are.
    pub fn note_all_changed(&mut self)
        ensures { self.new ≡ self.old }
    {
        self.catalog.note_all_changed();
    }

    /// Begins a transaction, in those that are open.
    pub fn begin(&mut self) -> Result<(), NoMemory>
        ensures catalog { self.new.catalog ≡ self.old.catalog }
        ensures begun { OnOk result (transactional_of self.new ≡ begun (transactional_of self.old)) }
        ensures unchanged { OnErr result (self.new ≡ self.old) }
    {
        a_catalog_is_consistent(&self.catalog);
        self.log.open()
    }

    /// Ends the innermost transaction, and keeps what was done in it. The outermost drops the rows that it hides. It takes no
    /// memory.
    pub fn commit(&mut self) -> Result<(), NoTransaction>
        ensures catalog { AreSettled self.old.catalog self.new.catalog }
        ensures dropped { OnOk result (saved_of self.new ≡ [] → self.new.catalog ≡ settled_catalog self.old.catalog) }
        ensures open { OnOk result (saved_of self.old ≢ []) }
        ensures committed { OnOk result (transactional_of self.new ≡ committed (transactional_of self.old)) }
        ensures none { OnErr result (saved_of self.old ≡ []) }
        ensures unchanged { OnErr result (self.new ≡ self.old) }
    {
        let Some(_) = self.log.close() else {
            return Err(NoTransaction);
        };
        self.log.settle(&mut self.catalog);
        Ok(())
    }

    /// Ends the innermost transaction, and undoes what was done in it: the database is the one that it began with. It tells
    /// whether which tables there are, and their columns, stayed as they were, which is so where none was declared or dropped.
    /// It takes no memory.
    pub fn rollback(&mut self) -> Result<bool, NoTransaction>
        ensures limits { self.new.catalog.limits ≡ self.old.catalog.limits }
        ensures open { OnOk result (saved_of self.old ≢ []) }
        ensures rolled_back { OnOk result (transactional_of self.new ≡ rolled_back (transactional_of self.old)) }
        ensures tables { result ≡ Ok true → map emptied (database_of self.new.catalog) ≡ map emptied (database_of self.old.catalog) }
        ensures none { OnErr result (saved_of self.old ≡ []) }
        ensures unchanged { OnErr result (self.new ≡ self.old) }
    {
        let Some(mark) = self.log.close() else {
            return Err(NoTransaction);
        };
        let kept = self.log.undo_to(&mut self.catalog, mark);
        self.log.forget();
        a_catalog_is_consistent(&self.catalog);
        Ok(kept)
    }

    /// Puts a row into a table. The answer is 41 where a row with its key is there, else 42 where a reference of it names
    /// no row, else 43 where the table is full, and 90 where no memory is found. All is then as before.
    pub fn insert(&mut self, table: TableNumber, values: &[Value]) -> Result<(), Refusal>
        requires { IsMeant self.old.catalog.limits (database_of self.old.catalog) (resolved.Insert table values.now) }
        ensures inserted { OnOk result (HasEffect self.old.catalog self.new.catalog (done self.old.catalog.limits (database_of self.old.catalog) (resolved.Insert table values.now)) 1) }
        ensures refused { IfErr result (IsRefusedFor self.old.catalog self.new.catalog (done self.old.catalog.limits (database_of self.old.catalog) (resolved.Insert table values.now))) }
        ensures saved { saved_of self.new ≡ saved_of self.old }
    {
        if self.log.depth() == 0 {
            return self.catalog.insert(table, values);
        }
        a_catalog_is_consistent(&self.catalog);
        self.log.insert(&mut self.catalog, table, values)
    }

    /// Puts rows into a table, all of them or none, as inserts one after the other do. Where one of them cannot come in, the
    /// answer is that of its insert, with its number among the rows, counted from 1; and 90 where no memory is found.
    pub fn load_rows(&mut self, table: TableNumber, rows: RowList) -> Result<(), Refusal>
        requires { IsMeant self.old.catalog.limits (database_of self.old.catalog) (resolved.Load table rows) }
        ensures loaded { OnOk result (HasEffect self.old.catalog self.new.catalog (done self.old.catalog.limits (database_of self.old.catalog) (resolved.Load table rows)) (length rows)) }
        ensures refused { IfErr result (IsDeclinedFor self.old.catalog self.new.catalog (done self.old.catalog.limits (database_of self.old.catalog) (resolved.Load table rows))) }
        ensures saved { saved_of self.new ≡ saved_of self.old }
    {
        if self.log.depth() == 0 {
            return self.catalog.load_rows(table, rows);
        }
        a_catalog_is_consistent(&self.catalog);
        self.log.load_rows(&mut self.catalog, table, rows)
    }

    /// Deletes rows of a table, or none where a row of some table refers to one of them. In a transaction it deletes none, too,
    /// where no memory is found, or where more than 16,777,216 rows of the table are owed then.
    pub fn delete(&mut self, table: TableNumber, rows: &[TupleRef]) -> Result<(), Refusal>
        requires there { table.0 < length (database_of self.old.catalog) }
        requires held { HoldsRows self.old.catalog table.0 rows.now }
        requires once { AllPairs (λ q r. q ≢ r) rows.now }
        ensures deleted { OnOk result ((picks : Row → Bool) → ArePicked self.old.catalog table.0 rows.now picks → HasEffect self.old.catalog self.new.catalog (doing.delete (database_of self.old.catalog) table picks) (length rows.now)) }
        ensures refused { IfErr result (λ refusal. ((refusal ≡ Refusal.NoMemory) × (saved_of self.old ≢ [])) ⊎ ((picks : Row → Bool) → ArePicked self.old.catalog table.0 rows.now picks → (doing.delete (database_of self.old.catalog) table picks).outcome ≡ Refused refusal)) }
        ensures unchanged { OnErr result (self.new ≡ self.old) }
        ensures saved { saved_of self.new ≡ saved_of self.old }
    {
        if self.log.depth() == 0 {
            return self.catalog.delete(table, rows);
        }
        a_catalog_is_consistent(&self.catalog);
        self.log.delete(&mut self.catalog, table, rows)
    }

    /// Assigns values to rows of a table, or to none of them. In a transaction the answer is 90, too, where more than 16,777,216
    /// rows of the table would be owed then.
    pub fn update(
        &mut self,
        table: TableNumber,
        rows: &[TupleRef],
        assignments: &[Assignment],
    ) -> Result<(), Refusal>
        requires meant { OfTable table (database_of self.old.catalog) (AreAssignable (database_of self.old.catalog) assignments.now) }
        requires held { HoldsRows self.old.catalog table.0 rows.now }
        requires once { AllPairs (λ q r. q ≢ r) rows.now }
        ensures updated { OnOk result ((picks : Row → Bool) → ArePicked self.old.catalog table.0 rows.now picks → HasEffect self.old.catalog self.new.catalog (doing.update (database_of self.old.catalog) table assignments.now picks) (length rows.now)) }
        ensures refused { IfErr result (λ refusal. (refusal ≡ Refusal.NoMemory) ⊎ ((picks : Row → Bool) → (doing.update (database_of self.old.catalog) table assignments.now picks).outcome ≡ Refused refusal)) }
        ensures unchanged { OnErr result (self.new ≡ self.old) }
        ensures saved { saved_of self.new ≡ saved_of self.old }
    {
        if self.log.depth() == 0 {
            return self.catalog.update(table, rows, assignments);
        }
        a_catalog_is_consistent(&self.catalog);
        self.log.update(&mut self.catalog, table, rows, assignments)
    }

    /// Declares a table, which stands last. Its links lead into the tables that its columns refer to.
    pub fn create(&mut self, name: Text, schema: Schema) -> Result<(), NoMemory>
        requires { IsMeant self.old.catalog.limits (database_of self.old.catalog) (resolved.Table name schema) }
        ensures done { OnOk result (IsDone self.old.catalog self.new.catalog (resolved.Table name schema)) }
        ensures unchanged { OnErr result (self.new ≡ self.old) }
        ensures saved { saved_of self.new ≡ saved_of self.old }
    {
        if self.log.depth() == 0 {
            return self.catalog.create(name, schema);
        }
        a_catalog_is_consistent(&self.catalog);
        self.log.create(&mut self.catalog, name, schema)
    }

    /// Drops a table, to which no column refers. Those behind it move up. Outside a transaction it takes no memory. In one it
    /// finds none, too, where more than 16,777,216 rows of the table would be owed then.
    pub fn drop_table(&mut self, table: TableNumber) -> Result<(), NoMemory>
        requires { IsMeant self.old.catalog.limits (database_of self.old.catalog) (resolved.DropTable table) }
        ensures done { OnOk result (IsDone self.old.catalog self.new.catalog (resolved.DropTable table)) }
        ensures unchanged { OnErr result (self.new ≡ self.old) }
        ensures outside { saved_of self.old ≡ [] → IsOk result }
        ensures saved { saved_of self.new ≡ saved_of self.old }
    {
        if self.log.depth() == 0 {
            self.catalog.drop_table(table);
            return Ok(());
        }
        a_catalog_is_consistent(&self.catalog);
        self.log.drop_table(&mut self.catalog, table)
    }

    /// Declares an index of a table over the rows that are there.
    pub fn add_index(
        &mut self,
        table: TableNumber,
        column: ColumnNumber,
        kind: IndexKind,
    ) -> Result<(), NoMemory>
        requires { IsMeant self.old.catalog.limits (database_of self.old.catalog) (resolved.Index table column kind) }
        ensures done { OnOk result (IsDone self.old.catalog self.new.catalog (resolved.Index table column kind)) }
        ensures unchanged { OnErr result (self.new ≡ self.old) }
        ensures saved { saved_of self.new ≡ saved_of self.old }
    {
        if self.log.depth() == 0 {
            return self.catalog.add_index(table, column, kind);
        }
        a_catalog_is_consistent(&self.catalog);
        self.log.add_index(&mut self.catalog, table, column, kind)
    }
    /// Drops an index of a table. Outside a transaction it takes no memory.
    pub fn drop_index(
        &mut self,
        table: TableNumber,
        column: ColumnNumber,
        kind: IndexKind,
    ) -> Result<(), NoMemory>
        requires { IsMeant self.old.catalog.limits (database_of self.old.catalog) (resolved.DropIndex table column kind) }
        ensures done { OnOk result (IsDone self.old.catalog self.new.catalog (resolved.DropIndex table column kind)) }
        ensures unchanged { OnErr result (self.new ≡ self.old) }
        ensures outside { saved_of self.old ≡ [] → IsOk result }
        ensures saved { saved_of self.new ≡ saved_of self.old }
    {
        if self.log.depth() == 0 {
            self.catalog.drop_index(table, column, kind);
            return Ok(());
        }
        a_catalog_is_consistent(&self.catalog);
        self.log.drop_index(&mut self.catalog, table, column, kind)
    }
}
