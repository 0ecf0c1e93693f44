//! Columns of a line, which count its characters from 1.

use mm_lang::split_lexeme;

/// A line, cut where so many of its bytes are left.
pub fn split_left(line: &str, left: usize) -> (&str, &str) {
    line.split_at_checked(line.len().saturating_sub(left))
        .unwrap_or((line, ""))
}

/// The column where the front of a line ends.
pub fn column_behind(front: &str) -> usize {
    front.chars().count().saturating_add(1)
}

/// The column of the question mark that is the hole of a number.
pub fn column_of_hole(line: &str, hole: usize) -> Option<usize> {
    let mut rest = line.as_bytes();
    let mut holes_before = 0usize;
    for _ in 0..line.len() {
        let (symbol, behind) = split_lexeme(rest);
        if matches!(symbol, [b'?']) {
            if holes_before == hole {
                let (front, _) = split_left(line, behind.len().saturating_add(1));
                return Some(column_behind(front));
            }
            holes_before = holes_before.saturating_add(1);
        }
        rest = behind;
    }
    None
}
