//! A statement with numbers in the place of names, and what is left to be checked of its values.

ghost use Rattle.std.specs.Prelude.{◌≡◌};
ghost use Rattle.plain_statements.specs.Finishing as finishing;

use crate::Slot;
use plain_tables::{
    BaseKind, ColumnNumber, LONGEST_TEXT, Op, Place, Refusal, Sequence, Shown, TableNumber, Value,
};

/// What an update puts into a column.
#[derive(Drop)]
pub struct SlotAssignment {
    pub column: ColumnNumber,
    pub slot: Slot,
}

/// What a row has to pass.
#[derive(Drop)]
pub struct SlotTest {
    pub column: ColumnNumber,
    pub op: Op,
    pub slot: Slot,
}

/// The rows of a table that pass tests.
#[derive(Drop)]
pub struct SlotSource {
    pub table: TableNumber,
    pub tests: Sequence<SlotTest>,
}

/// A source that is joined with those before it.
#[derive(Drop)]
pub struct SlotJoined {
    pub source: SlotSource,
    pub outer: Place,
    pub inner: ColumnNumber,
}

/// A resolved command in which slots stand where the command has values.
#[derive(Drop)]
pub enum Template {
    Insert {
        table: TableNumber,
        slots: Sequence<Slot>,
    },
    Update {
        table: TableNumber,
        assignments: Sequence<SlotAssignment>,
        tests: Sequence<SlotTest>,
    },
    Delete {
        table: TableNumber,
        tests: Sequence<SlotTest>,
    },
    Select(SlotQuery),
}

/// A query in which slots stand where the query has values.
#[derive(Drop)]
pub struct SlotQuery {
    pub distinct: bool,
    pub shown: Shown,
    pub source: SlotSource,
    pub joins: Sequence<SlotJoined>,
}

/// What a value has to be: of a type, unless it is a null and may be one; and where it is to be stored, no longer than a stored
/// text can be.
#[derive(Clone, Copy)]
pub struct Need {
    pub base: Option<BaseKind>,
    pub null: bool,
    pub stored: bool,
}

impl Need {
    /// Whether a value is none that is needed: of another type, or a null where none can stand.
    pub fn is_wrong(self, value: &Value) -> bool
        ensures { result ≡ finishing.is_wrong value.now self }
    {
        match (value, self.base) {
            (Value::Null, _) => !self.null,
            (Value::Int(_), Some(BaseKind::Int)) => false,
            (Value::Text(_), Some(BaseKind::Text)) => false,
            _ => true,
        }
    }

    /// Whether a value is to be stored, and is too long for it.
    pub fn is_past(self, value: &Value) -> bool
        ensures { result ≡ finishing.is_past value.now self }
    {
        match value {
            Value::Text(text) => self.stored && text.as_bytes().len() > LONGEST_TEXT,
            _ => false,
        }
    }
}

/// What the value has to be that comes for the hole of this number.
#[derive(Clone, Copy)]
pub struct Want {
    pub hole: usize,
    pub need: Need,
}

/// What a statement means of the tables as they are, unless it is refused whatever its values are: what the values to come have to
/// be, why it is refused once they are right, and what is done if it isn't.
#[derive(Drop)]
pub struct Resolution {
    pub wants: Sequence<Want>,
    pub last: Option<Refusal>,
    pub template: Template,
}
