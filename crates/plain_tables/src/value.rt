//! What a field of a row holds.

ghost use Rattle.std.specs.Prelude.{◌≡◌};

use crate::Text;
use crate::seen_value::SeenValue;
use crate::sought_value::SoughtValue;
use std::cmp::Ordering;

/// Null, an integer or a text. Null stands before integers, and integers before texts; integers are ordered
/// by size, texts by their bytes. The value in a reference column is the key of the row that it names, or null.
#[derive(Drop)]
pub enum Value {
    Null,
    Int(i64),
    Text(Text),
}

impl Value {
    /// The value, to be looked for.
    pub fn sought(&self) -> SoughtValue<'_>
        ensures { result ≡ self.now }
    {
        SoughtValue::new(match self {
            Value::Null => SeenValue::Null,
            Value::Int(z) => SeenValue::Int(*z),
            Value::Text(text) => SeenValue::Text(text.as_str()),
        })
    }
}

impl PartialEq for Value {
    ghost use Rattle.std.specs.Ordering.{eq_by_cmp};
    ghost use Rattle.plain_tables.specs.Values.{value_cmp, value_cmp_total};
    ghost use Rattle.std.specs.Cmp.Rules.{comparing};
    ghost use Rattle.std.proofs.Common.{rules};

    ghost eq = { eq_by_cmp value_cmp };

    ghost laws = { Prim.search (comparing, rules, value_cmp_total) };

    fn eq(&self, other: &Value) -> bool {
        self.cmp(other).is_eq()
    }
}

impl Eq for Value {
    ghost use Rattle.std.specs.Cmp.{eq_by_cmp_equiv};
    ghost use Rattle.plain_tables.specs.Values.{value_cmp_total};

    ghost laws = { eq_by_cmp_equiv value_cmp_total };
}

impl PartialOrd for Value {
    ghost use Rattle.std.specs.Ordering.{as_partial_cmp};
    ghost use Rattle.std.specs.Cmp.{partial_order_from_total};
    ghost use Rattle.plain_tables.specs.Values.{value_cmp, value_cmp_total};

    ghost partial_cmp = { as_partial_cmp value_cmp };

    ghost laws = { partial_order_from_total value_cmp_total };

    fn partial_cmp(&self, other: &Value) -> Option<Ordering> {
        Some(self.cmp(other))
    }
}

impl Ord for Value {
    ghost use Rattle.plain_tables.specs.Values.{value_cmp, value_cmp_total};
    ghost use Rattle.std.specs.Cmp.Rules.{comparing};
    ghost use Rattle.std.proofs.Common.{rules};

    ghost cmp = { value_cmp };

    ghost total = { value_cmp_total };

    ghost matches_partial_cmp = { Prim.search (comparing, rules) };

    ghost matches_eq = { Prim.search (comparing, rules) };

    fn cmp(&self, other: &Value) -> Ordering {
        match (self, other) {
            (Value::Int(a), Value::Int(b)) => a.cmp(b),
            (Value::Int(_), Value::Text(_)) => Ordering::Less,
            (Value::Text(_), Value::Int(_)) => Ordering::Greater,
            (Value::Text(s), Value::Text(t)) => s.cmp(t),
            (Value::Null, Value::Null) => Ordering::Equal,
            (Value::Null, _) => Ordering::Less,
            (_, Value::Null) => Ordering::Greater,
        }
    }
}
