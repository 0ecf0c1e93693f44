//! The nearest to a word, of those that may be meant.

use no_memory::NoMemory;
use std::alloc::Global;
use strsim::osa_distance;

// The most edits that lead from a word to one that may be meant.
const MOST_EDITS: usize = 2;

/// The nearest to a word, of the words that were looked at.
#[derive(Drop)]
pub struct Nearest<'a, 'b> {
    word: &'a str,
    fewer_than: usize,
    found: Option<&'b str>,
}

// From how many edits on one word is too far from another: at most half of it may be wrong, and of four characters one.
fn too_far(known: &str) -> usize {
    match known.chars().count() {
        0 | 1 => 1,
        2..=4 => 2,
        _ => MOST_EDITS.saturating_add(1),
    }
}

impl<'a, 'b> Nearest<'a, 'b> {
    /// Before any word was looked at.
    pub fn of(word: &'a str) -> Nearest<'a, 'b> {
        Nearest {
            word,
            fewer_than: usize::MAX,
            found: None,
        }
    }

    // That a word may be meant, which so many edits lead to.
    fn take(&mut self, known: &'b str, edits: usize) {
        if edits < self.fewer_than {
            self.fewer_than = edits;
            self.found = Some(known);
        }
    }

    /// Looks at a word. One of the same letters, capitals or not, is the nearest.
    pub fn look_at(&mut self, alloc: Global, known: &'b str) -> Result<(), NoMemory> {
        if known.eq_ignore_ascii_case(self.word) {
            self.take(known, 0);
            return Ok(());
        }
        let too_far = too_far(known);
        let (length, own) = (known.chars().count(), self.word.chars().count());
        if length.abs_diff(own) >= too_far {
            return Ok(());
        }
        let edits = osa_distance(alloc, self.word, known)?;
        if edits < too_far {
            self.take(known, edits);
        }
        Ok(())
    }

    /// The nearest, if one was near.
    pub fn found(self) -> Option<&'b str> {
        self.found
    }
}
