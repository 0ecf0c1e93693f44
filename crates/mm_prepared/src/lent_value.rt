//! A value as a program hands it in and reads it.
ghost use Rattle.std.specs.Prelude.{◌≡◌, IfOk, IsOk};
ghost use Rattle.plain_tables.specs.ResolvedLaws.{HasWidth};
ghost use Rattle.mm_prepared.specs.Cells.{IsSmall, cell_value};

use no_memory::NoMemory;
use plain_tables::{Text, Value};
use std::alloc::Global;

/// A null, an integer, or a text that is lent. A text may hold any characters, a line feed too.
#[derive(Clone, Copy)]
pub enum LentValue<'a> {
    Null,
    Integer(i64),
    Text(&'a str),
}

impl<'a> LentValue<'a> {
    /// A value, lent.
    pub fn of(value: &'a Value) -> LentValue<'a>
        ensures { cell_value result ≡ value.now }
    {
        match value {
            Value::Null => LentValue::Null,
            Value::Int(number) => LentValue::Integer(*number),
            Value::Text(text) => LentValue::Text(text.as_str()),
        }
    }

    /// The value, as one's own. A null, an integer and a text of at most 14 bytes need no memory.
    pub fn to_value(self, alloc: Global) -> Result<Value, NoMemory>
        ensures value { IfOk result (λ v. v ≡ cell_value self.entry) }
        ensures width { IfOk result (λ v. HasWidth v) }
        ensures small { IsSmall self.entry → IsOk result }
    {
        Ok(match self {
            LentValue::Null => Value::Null,
            LentValue::Integer(number) => Value::Int(number),
            LentValue::Text(text) => Value::Text(Text::from_str(alloc, text)?),
        })
    }
}
