//! Inserts, updates and deletes that make no answer: how many rows each is about is told as a number.

ghost use Rattle.std.specs.Prelude.{◌≡◌, ◌≢◌, [], Err, IfOk, IfErr, OnOk, OnErr, length};
ghost use Rattle.plain_tables.specs.Doing.{done};
ghost use Rattle.plain_tables.specs.ResolvedLaws.{IsMeant};
ghost use Rattle.plain_tables.specs.declared.refusal.Refusal.TheVariants as refusal;
ghost use Rattle.plain_tables.specs.declared.resolved.Resolved.TheVariants as resolved;
ghost use Rattle.mm_catalog.specs.Seen.{database_of};
ghost use Rattle.mm_catalog.specs.Changes.{HasEffect, IsDeclinedFor, IsRefusedFor};
ghost use Rattle.temp_list.specs.OnlyRow.{AskForOneRow};
ghost use Rattle.mm_transactions.specs.State.{saved_of};
ghost use Rattle.mm_session.specs.Changing.{IsChange, IsDeleteByKey};

use super::Executor;
use super::search::rows_passing;
use mm_transactions::TransactionalCatalog;
use plain_tables::{Assignment, Refusal, Resolved, RowList, TableNumber, Test, Value};
use plan_chooser::Policy;
use std::alloc::Global;

// Counts the change of so many rows of a table as one. Of no rows it is none.
fn note_rows(tables: &mut TransactionalCatalog, table: TableNumber, rows: usize)
    ensures { tables.new ≡ tables.old }
{
    if rows > 0 {
        tables.note_change(table);
    }
}

// Sets values in the rows of a table that pass the tests, and tells how many these are. After a refusal the tables are as before.
fn update_rows(
    alloc: Global,
    policy: Policy,
    tables: &mut TransactionalCatalog,
    table: TableNumber,
    assignments: &[Assignment],
    tests: &[Test],
) -> Result<usize, Refusal>
    requires { IsMeant tables.old.catalog.limits (database_of tables.old.catalog) (resolved.Update table assignments.now tests.now) }
    ensures done { IfOk result (HasEffect tables.old.catalog tables.new.catalog (done tables.old.catalog.limits (database_of tables.old.catalog) (resolved.Update table assignments.now tests.now))) }
    ensures refused { IfErr result (IsRefusedFor tables.old.catalog tables.new.catalog (done tables.old.catalog.limits (database_of tables.old.catalog) (resolved.Update table assignments.now tests.now))) }
    ensures saved { saved_of tables.new ≡ saved_of tables.old }
{
    let rows = rows_passing(alloc, policy, tables.catalog(), table, tests)?;
    tables.update(table, &rows, assignments)?;
    let count = rows.len();
    note_rows(tables, table, count);
    Ok(count)
}

// Takes out the rows of a table that pass the tests, and tells how many these are. After a refusal the tables are as before. Where a
// test asks for the key and no transaction is open, it takes no memory.
fn delete_rows(
    alloc: Global,
    policy: Policy,
    tables: &mut TransactionalCatalog,
    table: TableNumber,
    tests: &[Test],
) -> Result<usize, Refusal>
    requires { IsMeant tables.old.catalog.limits (database_of tables.old.catalog) (resolved.Delete table tests.now) }
    ensures done { IfOk result (HasEffect tables.old.catalog tables.new.catalog (done tables.old.catalog.limits (database_of tables.old.catalog) (resolved.Delete table tests.now))) }
    ensures refused { IfErr result (IsRefusedFor tables.old.catalog tables.new.catalog (done tables.old.catalog.limits (database_of tables.old.catalog) (resolved.Delete table tests.now))) }
    ensures by_key { saved_of tables.old ≡ [] → AskForOneRow tests.now → result ≢ Err refusal.NoMemory }
    ensures saved { saved_of tables.new ≡ saved_of tables.old }
{
    let rows = rows_passing(alloc, policy, tables.catalog(), table, tests)?;
    tables.delete(table, &rows)?;
    let count = rows.len();
    note_rows(tables, table, count);
    Ok(count)
}

impl Executor {
    /// Puts a row into a table. After a refusal the tables are as before.
    pub fn insert(&mut self, table: TableNumber, values: &[Value]) -> Result<(), Refusal>
        requires { IsMeant self.old.tables.catalog.limits (database_of self.old.tables.catalog) (resolved.Insert table values.now) }
        ensures done { OnOk result (HasEffect self.old.tables.catalog self.new.tables.catalog (done self.old.tables.catalog.limits (database_of self.old.tables.catalog) (resolved.Insert table values.now)) 1) }
        ensures refused { IfErr result (IsDeclinedFor self.old.tables.catalog self.new.tables.catalog (done self.old.tables.catalog.limits (database_of self.old.tables.catalog) (resolved.Insert table values.now))) }
        ensures unchanged { OnErr result (self.new.tables.catalog ≡ self.old.tables.catalog) }
        ensures saved { saved_of self.new.tables ≡ saved_of self.old.tables }
    {
        self.tables.insert(table, values)?;
        self.tables.note_change(table);
        Ok(())
    }

    /// Puts rows into a table, all of them or none. After a refusal the tables are as before.
    pub fn load(&mut self, table: TableNumber, rows: RowList) -> Result<(), Refusal>
        requires { IsMeant self.old.tables.catalog.limits (database_of self.old.tables.catalog) (resolved.Load table rows) }
        ensures done { OnOk result (HasEffect self.old.tables.catalog self.new.tables.catalog (done self.old.tables.catalog.limits (database_of self.old.tables.catalog) (resolved.Load table rows)) (length rows)) }
        ensures refused { IfErr result (IsDeclinedFor self.old.tables.catalog self.new.tables.catalog (done self.old.tables.catalog.limits (database_of self.old.tables.catalog) (resolved.Load table rows))) }
        ensures saved { saved_of self.new.tables ≡ saved_of self.old.tables }
    {
        let count = rows.len();
        self.tables.load_rows(table, rows)?;
        note_rows(&mut self.tables, table, count);
        Ok(())
    }

    /// Does an insert, an update or a delete, and tells how many rows it is about. After a refusal the tables are as before.
    pub fn change(&mut self, command: &Resolved) -> Result<usize, Refusal>
        requires meant { IsMeant self.old.tables.catalog.limits (database_of self.old.tables.catalog) command.now }
        requires change { IsChange command.now }
        ensures done { IfOk result (HasEffect self.old.tables.catalog self.new.tables.catalog (done self.old.tables.catalog.limits (database_of self.old.tables.catalog) command.now)) }
        ensures refused { IfErr result (IsDeclinedFor self.old.tables.catalog self.new.tables.catalog (done self.old.tables.catalog.limits (database_of self.old.tables.catalog) command.now)) }
        ensures unchanged { OnErr result (self.new.tables.catalog ≡ self.old.tables.catalog) }
        ensures by_key { saved_of self.old.tables ≡ [] → IsDeleteByKey command.now → result ≢ Err refusal.NoMemory }
        ensures saved { saved_of self.new.tables ≡ saved_of self.old.tables }
    {
        match command {
            Resolved::Insert { table, values } => {
                self.insert(*table, values.as_slice())?;
                Ok(1)
            }
            Resolved::Update {
                table,
                assignments,
                tests,
            } => update_rows(
                self.alloc,
                self.policy,
                &mut self.tables,
                *table,
                assignments.as_slice(),
                tests.as_slice(),
            ),
            Resolved::Delete { table, tests } => delete_rows(
                self.alloc,
                self.policy,
                &mut self.tables,
                *table,
                tests.as_slice(),
            ),
            _ => unreachable!(),
        }
    }
}
