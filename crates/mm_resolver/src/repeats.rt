//! Names that stand twice: of the columns of a table, or of the columns that are set.
ghost use Rattle.std.specs.Prelude.{◌≡◌, ℕ, List, map};
ghost use Rattle.std.specs.List.{list_any};
ghost use Rattle.std.specs.Str.{bytes_eq};
ghost use Rattle.plain_tables.specs.Effects.{repeats};

use crate::culprit::Culprit;
use crate::schemas::Schemas;
use plain_statements::SlotSetting;
use plain_tables::{Column, Refusal, Setting, Text};

/// What has the name of a column.
pub trait HasName {
    // the name
    ghost named: { Self → List ℕ };

    fn name(&self) -> &Text
        ensures { result.now ≡ named self.now };

    /// What is to blame where the one of that number has a name that stands twice.
    fn culprit(number: usize) -> Culprit;
}

impl HasName for Column {
    ghost named = { λ c. c.name };

    fn name(&self) -> &Text {
        &self.name
    }

    fn culprit(number: usize) -> Culprit {
        Culprit::Column(number)
    }
}

impl HasName for Setting {
    ghost named = { λ s. s.column };

    fn name(&self) -> &Text {
        &self.column
    }

    fn culprit(number: usize) -> Culprit {
        Culprit::Name(number)
    }
}

impl HasName for SlotSetting {
    ghost named = { λ s. s.column };

    fn name(&self) -> &Text {
        &self.column
    }

    fn culprit(number: usize) -> Culprit {
        Culprit::Name(number)
    }
}

fn has_name<N: HasName>(items: &[N], name: &Text) -> bool
    ensures { result ≡ list_any (bytes_eq name.now) (map N.named items.now) }
{
    items
        .iter()
        .any(|item| name.as_bytes() == item.name().as_bytes())
}

/// Whether two have one name. The first of them is then to blame.
pub fn repeats_name<S: Schemas, N: HasName>(schemas: &S, items: &[N]) -> bool
    ensures { result ≡ repeats bytes_eq (map N.named items.now) }
{
    let mut rest = items;
    while let Some((first, others)) = rest.split_first() {
        if has_name(others, first.name()) {
            let number = items.len().saturating_sub(rest.len());
            schemas.blame(Refusal::ColumnNamedTwice, N::culprit(number));
            return true;
        }
        rest = others;
    }
    false
}
