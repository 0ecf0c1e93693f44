//! A text or a name, seen by contracts as its bytes.

ghost use Rattle.std.specs.Prelude.{◌≡◌, ◌≤◌, IsOk, IfOk, length};
ghost use Rattle.std.specs.Ordering.{nat_cmp, as_partial_cmp, eq_by_cmp};
ghost use Rattle.std.specs.Cmp.Lexicographic.{slice_cmp, nat_list_cmp_total};
ghost use Rattle.std.specs.Cmp.{eq_by_cmp_equiv, partial_order_from_total};
ghost use Rattle.std.specs.Cmp.Rules.{comparing};
ghost use Rattle.std.proofs.Common.{rules};

use crate::NoMemory;
use crate::short_text::ShortText;
use std::alloc::Global;
use std::cmp::Ordering;
use std::marker::Model;

/// The most bytes of a text that a table keeps.
pub const LONGEST_TEXT: usize = 1024;

// Where the bytes of a text lie.
#[derive(Drop)]
pub enum Kept {
    Short(ShortText),
    Long(Box<String>),
}

/// A text, of which contracts see the bytes alone. One of at most 14 bytes takes no memory, and a longer one lies
/// behind a box. Texts are ordered by their bytes.
#[derive(Drop)]
pub struct Text {
    kept: Kept,
}

impl Model for Text {
    ghost use Rattle.std.specs.Prelude.{List, ℕ};

    ghost Value = { List ℕ };

    ghost use Rattle.plain_tables.specs.Kept.{kept_bytes};

    ghost view = { λ t. kept_bytes t.kept };
}

impl Text {
    ghost use Rattle.plain_tables.specs.Kept.{kept_bytes};

    /// A copy of a text. It takes no memory where the text has at most 14 bytes.
    pub fn from_str(alloc: Global, text: &str) -> Result<Text, NoMemory>
        ensures copy { IfOk result (λ copy. copy ≡ text.now) }
        ensures short { length text.now ≤ 14 → IsOk result }
    {
        let kept = match ShortText::from_str(text) {
            Some(short) => Kept::Short(short),
            None => Kept::Long(Box::new(alloc, String::from_str(alloc, text)?)?),
        };
        Ok(Text { kept })
    }

    /// The text as it is kept.
    pub fn as_str(&self) -> &str
        ensures { result.now ≡ self.now }
    {
        match &self.kept {
            Kept::Short(text) => text.as_str(),
            Kept::Long(text) => text.as_str(),
        }
    }

    // The form in which it is kept.
    pub(crate) fn into_kept(self) -> Kept
        ensures { kept_bytes result ≡ self }
    {
        let Text { kept } = self;
        kept
    }

    /// Its bytes, which are UTF-8.
    pub fn as_bytes(&self) -> &[u8]
        ensures { result.now ≡ self.now }
    {
        self.as_str().as_bytes()
    }
}

impl PartialEq for Text {
    ghost eq = { eq_by_cmp (slice_cmp nat_cmp) };

    ghost laws = { Prim.search (comparing, rules) };

    fn eq(&self, other: &Text) -> bool {
        self.cmp(other).is_eq()
    }
}

impl Eq for Text {
    ghost laws = { eq_by_cmp_equiv nat_list_cmp_total };
}

impl PartialOrd for Text {
    ghost partial_cmp = { as_partial_cmp (slice_cmp nat_cmp) };

    ghost laws = { partial_order_from_total nat_list_cmp_total };

    fn partial_cmp(&self, other: &Text) -> Option<Ordering> {
        Some(self.cmp(other))
    }
}

impl Ord for Text {
    ghost cmp = { slice_cmp nat_cmp };

    ghost total = { nat_list_cmp_total };

    ghost matches_partial_cmp = { Prim.search (comparing, rules) };

    ghost matches_eq = { Prim.search (comparing, rules) };

    fn cmp(&self, other: &Text) -> Ordering {
        self.as_bytes().cmp(other.as_bytes())
    }
}
