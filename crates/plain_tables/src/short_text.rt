//! A text that takes no memory.

ghost use Rattle.std.specs.Prelude.{◌≡◌, ◌≤◌, ◌↔◌, length, IsSome, IfSome};

use std::marker::Model;

// The most bytes of a short text. With its length and the mark beside it in `Text` or in a stored value they take 16
// bytes.
const MOST: usize = 14;

/// A text of at most 14 bytes, which lie in the value itself. Contracts see the bytes alone.
#[derive(Drop)]
pub struct ShortText {
    length: u8,
    bytes: [u8; MOST],
}

impl Model for ShortText {
    ghost use Rattle.std.specs.Prelude.{List, ℕ, ◌≤◌, take, IsUtf8};

    ghost Value = { List ℕ };

    ghost view = { λ s. take s.length s.bytes };

    ghost invariant = { λ s. (s.length ≤ 14) × ∥ IsUtf8 (take s.length s.bytes) ∥₁ };
}

impl ShortText {
    /// A copy of a text, if it is short.
    pub fn from_str(text: &str) -> Option<ShortText>
        ensures short { IsSome result ↔ (length text.now ≤ 14) }
        ensures copy { IfSome result (λ copy. copy ≡ text.now) }
    {
        let length = text.len();
        if length > MOST {
            return None;
        }
        let mut bytes = [0; MOST];
        bytes[..length].copy_from_slice(text.as_bytes());
        Some(ShortText {
            length: length as u8,
            bytes,
        })
    }

    /// A copy of the text as it is kept.
    #[inline]
    pub fn copied(&self) -> ShortText
        ensures { result ≡ self.now }
    {
        ShortText {
            length: self.length,
            bytes: self.bytes,
        }
    }

    /// The text as it is kept.
    pub fn as_str(&self) -> &str
        ensures { result.now ≡ self.now }
    {
        unsafe { str::from_utf8_unchecked(&self.bytes[..usize::from(self.length)]) }
    }
}
