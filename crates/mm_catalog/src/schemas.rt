//! What commands and statements mean of a catalog: its tables, as far as names mean anything of them, handed to the resolver.
ghost use Rattle.std.specs.Prelude.{◌≡◌, ◌≢◌, ◌<◌, Ok, Err, IfOk, IfErr};
ghost use Rattle.std.specs.List.{list_any};
ghost use Rattle.plain_tables.specs.References as plain;
ghost use Rattle.plain_tables.specs.Resolving.{resolved_of};
ghost use Rattle.plain_tables.specs.declared.refusal.Refusal.TheVariants as refusal;
ghost use Rattle.plain_statements.specs.Laws.{Refuses, Resolves};
ghost use Rattle.mm_csv.specs.BlockReading.{block_records};
ghost use Rattle.mm_catalog.specs.Seen.{database_of, plain_index};

use crate::catalog::Catalog;
use crate::laws::a_catalog_is_consistent;
use mm_relation::DeclaredIndex;
use mm_resolver::{Culprit, Schemas, resolve, resolve_statement, type_of};
use plain_statements::{Resolution, Statement};
use plain_tables::{
    BaseKind, ColKind, Column, ColumnNumber, Command, IndexKind, Refusal, Resolved, TableNumber,
    Text,
};
use std::alloc::Global;

// Whether a declared index is that of this column and kind.
fn is_index(index: &DeclaredIndex, column: ColumnNumber, kind: IndexKind) -> bool
    ensures { result ≡ plain.is_index column kind (plain_index index.now) }
{
    index.column.0 == column.0
        && matches!(
            (kind, index.kind),
            (IndexKind::Tree, IndexKind::Tree) | (IndexKind::Hash, IndexKind::Hash)
        )
}

// Whether one of these is.
fn has_index(declared: &[DeclaredIndex], column: ColumnNumber, kind: IndexKind) -> bool
    ensures { result ≡ list_any (λ d. plain.is_index column kind (plain_index d)) declared.now }
{
    declared.iter().any(|index| is_index(index, column, kind))
}

impl Schemas for Catalog {
    ghost database = { database_of };

    ghost limits = { λ c. c.limits };

    #[inline]
    fn are_sound(&self) {
        a_catalog_is_consistent(self);
    }

    #[inline]
    fn table_count(&self) -> usize {
        self.table_count()
    }

    #[inline]
    fn table_number(&self, name: &Text) -> Option<TableNumber> {
        self.table_number(name)
    }

    #[inline]
    fn table_name(&self, table: TableNumber) -> &str {
        self.table_name(table)
    }

    #[inline]
    fn columns(&self, table: TableNumber) -> &[Column] {
        self.columns(table)
    }

    fn declares(&self, table: TableNumber, column: ColumnNumber, kind: IndexKind) -> bool {
        has_index(self.declared(table), column, kind)
    }

    #[inline]
    fn is_table_referenced(&self, name: &str) -> bool {
        self.is_table_referenced(name)
    }

    #[inline]
    fn allocator(&self) -> Global {
        self.allocator()
    }

    #[inline]
    fn blame(&self, _refusal: Refusal, _culprit: Culprit) {}
}

impl Catalog {
    /// The type of a column's values. A reference column's are keys of the table that it refers to.
    #[inline]
    pub fn type_of(&self, kind: &ColKind) -> Option<BaseKind>
        ensures { result ≡ plain.type_of (database_of self.now) kind.now }
    {
        type_of(self, kind)
    }

    /// What a command means of these tables, with numbers in the place of names. It is refused where a check that needs no
    /// row refuses it, by the first that does, or where there is no memory. The rows of a load are those of its block.
    #[inline]
    pub fn resolve(&self, command: Command, block: &[u8]) -> Result<Resolved, Refusal>
        ensures meant { IfOk result (λ r. resolved_of (block_records block.now) (database_of self.now) command ≡ Ok r) }
        ensures refused { IfErr result (λ e. e ≢ refusal.NoMemory → resolved_of (block_records block.now) (database_of self.now) command ≡ Err e) }
    {
        resolve(self, command, block)
    }

    /// What a statement means of these tables, with numbers in the place of names, whatever values come for its holes. It is refused
    /// where each of the commands that it can be is refused so before a row is looked at, or where there is no memory.
    #[inline]
    pub fn resolve_statement(&self, statement: Statement) -> Result<Resolution, Refusal>
        ensures meant { IfOk result (λ r. Resolves (database_of self.now) statement r) }
        ensures refused { IfErr result (λ e. e ≢ refusal.NoMemory → Refuses (database_of self.now) statement e) }
    {
        resolve_statement(self, statement)
    }
}
