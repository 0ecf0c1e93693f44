//! A value as a row keeps it, in 16 bytes.
ghost use Rattle.std.specs.Prelude.{◌≡◌, None, IfOk};
ghost use Rattle.std.specs.String.{string_bytes};
ghost use Rattle.plain_tables.specs.Values.{value_cmp, is_null};
ghost use Rattle.plain_tables.specs.Stored.{link_value, link_number, value_seen};

use crate::NoMemory;
use crate::seen_value::SeenValue;
use crate::short_text::ShortText;
use crate::sought_value::SoughtValue;
use crate::text::Kept;
use crate::value::Value;
use std::alloc::Global;
use std::cmp::Ordering;
use std::marker::Model;
use std::mem::size_of;

// A value with the form of its text, or a link. An enum within an enum would take 8 bytes more.
#[derive(Drop)]
enum Content {
    Null,
    Int(i64),
    Link(u32),
    Short(ShortText),
    Long(Box<String>),
}

// A copy of a text, with memory of its own. It stands apart, so that a copy of a short one is quick.
#[inline(never)]
fn copy_long(text: &Box<String>, alloc: Global) -> Result<Box<String>, NoMemory>
    ensures { IfOk result (λ copy. string_bytes copy.value ≡ string_bytes text.now.value) }
{
    Ok(Box::new(alloc, String::from_str(alloc, text.as_str())?)?)
}

/// A value as a row keeps it: null, an integer, a text, or a link to a row of another table. It takes 16 bytes, and a
/// text of more than 14 bytes lies behind a box. Contracts see the value, and a link as an integer above those of 64
/// bits: so links are told from all that a command can say.
#[derive(Drop)]
pub struct StoredValue {
    content: Content,
}

const _: () = prove!(size_of::<StoredValue>() == 16);

impl Model for StoredValue {
    ghost use Rattle.plain_tables.specs.declared.value.Value.{Value as CommandValue};
    ghost use Rattle.plain_tables.specs.contracts.value.Value.{the_row as value_row};

    ghost Value = { CommandValue };

    ghost coded = { value_row.coded };

    ghost use Rattle.plain_tables.specs.Stored.{content_value};

    ghost view = { λ s. content_value s.content };
}

impl StoredValue {
    /// A value of a command, to be kept. Its text is moved, and takes no memory.
    pub fn pack(value: Value) -> StoredValue
        ensures value { result ≡ value }
        ensures no_link { link_number result ≡ None }
    {
        let content = match value {
            Value::Null => Content::Null,
            Value::Int(z) => Content::Int(z),
            Value::Text(text) => match text.into_kept() {
                Kept::Short(short) => Content::Short(short),
                Kept::Long(long) => Content::Long(long),
            },
        };
        StoredValue { content }
    }

    /// A link to the row of this number.
    pub fn link(number: u32) -> StoredValue
        ensures { result ≡ link_value number }
    {
        StoredValue {
            content: Content::Link(number),
        }
    }

    /// The number of the row that it links to. None where it is a value of its own.
    pub fn link_number(&self) -> Option<u32>
        ensures { result ≡ link_number self.now }
    {
        match &self.content {
            Content::Link(number) => Some(*number),
            Content::Int(z) => {
                // It is read for its range: no integer of 64 bits is a link.
                let _z = *z;
                None
            }
            Content::Null | Content::Short(_) | Content::Long(_) => None,
        }
    }

    /// What it holds, to match on.
    pub fn seen(&self) -> SeenValue<'_>
        ensures { value_seen result ≡ self.now }
    {
        match &self.content {
            Content::Null => SeenValue::Null,
            Content::Int(z) => SeenValue::Int(*z),
            Content::Link(number) => SeenValue::Link(*number),
            Content::Short(text) => SeenValue::Text(text.as_str()),
            Content::Long(text) => SeenValue::Text(text.as_str()),
        }
    }

    /// A copy. Only one of a text of more than 14 bytes takes memory.
    #[inline]
    pub fn try_clone(&self, alloc: Global) -> Result<StoredValue, NoMemory>
        ensures { IfOk result (λ copy. copy ≡ self.now) }
    {
        let content = match &self.content {
            Content::Null => Content::Null,
            Content::Int(z) => Content::Int(*z),
            Content::Link(number) => Content::Link(*number),
            Content::Short(text) => Content::Short(text.copied()),
            Content::Long(text) => Content::Long(copy_long(text, alloc)?),
        };
        Ok(StoredValue { content })
    }

    /// Whether it is null.
    pub fn is_null(&self) -> bool
        ensures { result ≡ is_null self.now }
    {
        matches!(&self.content, Content::Null)
    }

    /// The value, to be looked for.
    pub fn sought(&self) -> SoughtValue<'_>
        ensures { result ≡ self.now }
    {
        SoughtValue::new(self.seen())
    }

    /// How it stands to a value that is looked for, in the order of values. Two integers are compared where this is called.
    #[inline]
    pub fn compare(&self, sought: &SoughtValue<'_>) -> Ordering
        ensures { result ≡ value_cmp self.now sought.now }
    {
        match (&self.content, sought.seen()) {
            (Content::Int(a), SeenValue::Int(b)) => a.cmp(&b),
            _ => self.compare_others(sought),
        }
    }

    // The same of values that are not both integers. It stands apart, so that a search among integers is short.
    #[inline(never)]
    fn compare_others(&self, sought: &SoughtValue<'_>) -> Ordering
        ensures { result ≡ value_cmp self.now sought.now }
    {
        self.seen().compare(sought.seen())
    }
}

impl PartialEq for StoredValue {
    ghost use Rattle.std.specs.Ordering.{eq_by_cmp};
    ghost use Rattle.plain_tables.specs.Values.{value_cmp, value_cmp_total};
    ghost use Rattle.std.specs.Cmp.Rules.{comparing};
    ghost use Rattle.std.proofs.Common.{rules};

    ghost eq = { eq_by_cmp value_cmp };

    ghost laws = { Prim.search (comparing, rules, value_cmp_total) };

    fn eq(&self, other: &StoredValue) -> bool {
        self.cmp(other).is_eq()
    }
}

impl Eq for StoredValue {
    ghost use Rattle.std.specs.Cmp.{eq_by_cmp_equiv};
    ghost use Rattle.plain_tables.specs.Values.{value_cmp_total};

    ghost laws = { eq_by_cmp_equiv value_cmp_total };
}

impl PartialOrd for StoredValue {
    ghost use Rattle.std.specs.Ordering.{as_partial_cmp};
    ghost use Rattle.std.specs.Cmp.{partial_order_from_total};
    ghost use Rattle.plain_tables.specs.Values.{value_cmp, value_cmp_total};

    ghost partial_cmp = { as_partial_cmp value_cmp };

    ghost laws = { partial_order_from_total value_cmp_total };

    fn partial_cmp(&self, other: &StoredValue) -> Option<Ordering> {
        Some(self.cmp(other))
    }
}

impl Ord for StoredValue {
    ghost use Rattle.plain_tables.specs.Values.{value_cmp, value_cmp_total};
    ghost use Rattle.std.specs.Cmp.Rules.{comparing};
    ghost use Rattle.std.proofs.Common.{rules};

    ghost cmp = { value_cmp };

    ghost total = { value_cmp_total };

    ghost matches_partial_cmp = { Prim.search (comparing, rules) };

    ghost matches_eq = { Prim.search (comparing, rules) };

    fn cmp(&self, other: &StoredValue) -> Ordering {
        match (&self.content, &other.content) {
            (Content::Int(a), Content::Int(b)) => a.cmp(b),
            _ => self.seen().compare(other.seen()),
        }
    }
}
