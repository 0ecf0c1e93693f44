//! What is to blame for a refusal: a command is resolved once more, before a witness.

use crate::commands::resolve;
use crate::culprit::Culprit;
use crate::schemas::Schemas;
use crate::statements::resolve_statement;
use plain_statements::Statement;
use plain_tables::{Column, ColumnNumber, Command, IndexKind, Refusal, TableNumber, Text};
use std::alloc::Global;
use std::cell::Cell;

// Tables that keep the first culprit of one refusal. For all else they are those that they stand for.
#[derive(Drop)]
struct Witness<'a, S> {
    schemas: &'a S,
    refusal: Refusal,
    culprit: Cell<Option<Culprit>>,
}

impl<'a, S: Schemas> Witness<'a, S> {
    fn of(schemas: &'a S, refusal: Refusal) -> Witness<'a, S> {
        Witness {
            schemas,
            refusal,
            culprit: Cell::new(None),
        }
    }

    // What is to blame, where this was answered before the witness.
    fn blamed(&self, answered: Option<Refusal>) -> Result<Option<Culprit>, Refusal> {
        match answered {
            Some(Refusal::NoMemory) => Err(Refusal::NoMemory),
            Some(answered) if answered == self.refusal => Ok(self.culprit.get()),
            _ => Ok(None),
        }
    }
}

impl<S: Schemas> Schemas for Witness<'_, S> {
    ghost database = { λ w. S.database w.schemas.now };

    ghost limits = { λ w. S.limits w.schemas.now };

    fn are_sound(&self) {
        self.schemas.are_sound();
    }

    fn table_count(&self) -> usize {
        self.schemas.table_count()
    }

    fn table_number(&self, name: &Text) -> Option<TableNumber> {
        self.schemas.table_number(name)
    }

    fn table_name(&self, table: TableNumber) -> &str {
        self.schemas.table_name(table)
    }

    fn columns(&self, table: TableNumber) -> &[Column] {
        self.schemas.columns(table)
    }

    fn declares(&self, table: TableNumber, column: ColumnNumber, kind: IndexKind) -> bool {
        self.schemas.declares(table, column, kind)
    }

    fn is_table_referenced(&self, name: &str) -> bool {
        self.schemas.is_table_referenced(name)
    }

    fn allocator(&self) -> Global {
        self.schemas.allocator()
    }

    fn blame(&self, refusal: Refusal, culprit: Culprit) {
        if refusal == self.refusal && self.culprit.get().is_none() {
            self.culprit.set(Some(culprit));
        }
    }
}

/// What is to blame where a command is refused so, if it is. The error is 90, where a growth was refused.
pub fn command_culprit<S: Schemas>(
    schemas: &S,
    command: Command,
    block: &[u8],
    refusal: Refusal,
) -> Result<Option<Culprit>, Refusal> {
    let witness = Witness::of(schemas, refusal);
    let answered = resolve(&witness, command, block).err();
    witness.blamed(answered)
}

/// What is to blame where a statement is refused so, whatever values come for its holes, if it is. The error is 90, where a growth was
/// refused.
pub fn statement_culprit<S: Schemas>(
    schemas: &S,
    statement: Statement,
    refusal: Refusal,
) -> Result<Option<Culprit>, Refusal> {
    let witness = Witness::of(schemas, refusal);
    let answered = resolve_statement(&witness, statement).err();
    witness.blamed(answered)
}
