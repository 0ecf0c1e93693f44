//! A value that is looked for.
ghost use Rattle.std.specs.Prelude.{◌≡◌};
ghost use Rattle.plain_tables.specs.Values.{is_null};
ghost use Rattle.plain_tables.specs.Stored.{value_seen};

use crate::seen_value::SeenValue;
use std::marker::Model;

/// A value that is looked for: one of a command or of a row, lent without a copy.
#[derive(Drop)]
pub struct SoughtValue<'a> {
    seen: SeenValue<'a>,
}

impl<'a> Model for SoughtValue<'a> {
    ghost use Rattle.plain_tables.specs.declared.value.Value.{Value as CommandValue};
    ghost use Rattle.plain_tables.specs.contracts.value.Value.{the_row as value_row};

    ghost Value = { CommandValue };

    ghost coded = { value_row.coded };

    ghost use Rattle.plain_tables.specs.Stored.{value_seen};

    ghost view = { λ s. value_seen s.seen };
}

impl<'a> SoughtValue<'a> {
    // The value that was seen.
    pub(crate) fn new(seen: SeenValue<'a>) -> SoughtValue<'a>
        ensures { result ≡ value_seen seen.entry }
    {
        SoughtValue { seen }
    }

    /// What it holds, to match on.
    pub fn seen(&self) -> SeenValue<'a>
        ensures { value_seen result ≡ self.now }
    {
        self.seen
    }

    /// Whether it is null.
    pub fn is_null(&self) -> bool
        ensures { result ≡ is_null self.now }
    {
        matches!(self.seen, SeenValue::Null)
    }
}
