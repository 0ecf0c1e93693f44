//! What a value holds, lent to be matched on.
ghost use Rattle.std.specs.Prelude.{◌≡◌};
ghost use Rattle.plain_tables.specs.Values.{value_cmp};
ghost use Rattle.plain_tables.specs.Stored.{value_seen};

use std::cmp::Ordering;

/// What a value holds. A text is lent, so nothing is copied.
#[derive(Clone, Copy)]
pub enum SeenValue<'a> {
    Null,
    Int(i64),
    Text(&'a str),
    /// The row of this number in another table.
    Link(u32),
}

impl<'a> SeenValue<'a> {
    // How it stands to another in the order of values. Links stand by their numbers, behind every integer.
    pub(crate) fn compare(self, other: SeenValue<'_>) -> Ordering
        ensures { result ≡ value_cmp (value_seen self.entry) (value_seen other.entry) }
    {
        match (self, other) {
            (SeenValue::Int(a), SeenValue::Int(b)) => a.cmp(&b),
            (SeenValue::Text(s), SeenValue::Text(t)) => s.cmp(t),
            (SeenValue::Link(m), SeenValue::Link(n)) => m.cmp(&n),
            (SeenValue::Null, SeenValue::Null) => Ordering::Equal,
            (SeenValue::Null, _) => Ordering::Less,
            (_, SeenValue::Null) => Ordering::Greater,
            (SeenValue::Text(_), _) => Ordering::Greater,
            (_, SeenValue::Text(_)) => Ordering::Less,
            (SeenValue::Int(_), SeenValue::Link(_)) => Ordering::Less,
            (SeenValue::Link(_), SeenValue::Int(_)) => Ordering::Greater,
        }
    }
}
