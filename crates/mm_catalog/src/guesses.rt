//! Rows that the next rows of a load may name, which searches side by side find.
//!
//! A row's links are sought by the keys that its values name. Where the rows come in with others, those of sixteen rows are sought side
//! by side, before these come in. What is found is only a guess: a look at its key tells whether it is the row.

use crate::load::LoadedRows;
use mm_relation::{ABREAST, Pause, Relation};
use part_raw::TupleRef;
use plain_tables::TableNumber;
use std::alloc::Global;

/// The rows that sixteen rows of a load may name.
#[derive(Drop)]
pub struct Guesses {
    // one for each column of each row, row by row; none if nothing was sought
    rows: Vec<Option<TupleRef>>,
    // how many columns a row has
    width: usize,
    // which of sixteen rows is the next
    next: usize,
    // for how many sixteens nothing is sought
    pause: Pause,
}

impl Guesses {
    /// None.
    pub fn new(alloc: Global) -> Guesses {
        Guesses {
            rows: Vec::new(alloc),
            width: 0,
            next: ABREAST,
            pause: Pause::new(),
        }
    }

    /// Goes on to the next row of a load into a table, of which these are left. It takes memory when something is found for the first
    /// time, and does without guesses if there is none.
    pub fn look_ahead<R: LoadedRows>(
        &mut self,
        relations: &[Relation],
        table: TableNumber,
        rows: &R,
    ) {
        self.next = self.next.saturating_add(1);
        if self.next < ABREAST {
            return;
        }
        self.next = 0;
        self.rows.clear();
        if rows.len() < ABREAST || self.pause.goes_on() {
            return;
        }
        if let Some(relation) = relations.get(table.0) {
            self.seek(relations, relation.targets(), rows);
        }
        let served = !self.rows.is_empty();
        self.pause.tell(served);
    }

    // Seeks what the next sixteen rows name, column by column: the links of each lead into the relation of its number here.
    fn seek<R: LoadedRows>(&mut self, relations: &[Relation], targets: &[Option<usize>], rows: &R) {
        self.width = targets.len();
        for (column, target) in targets.iter().enumerate() {
            if let Some(found) = guesses_in(relations, *target, rows, column) {
                self.keep(column, &found);
            }
        }
    }

    // Keeps what was found for a column, if there is memory.
    fn keep(&mut self, column: usize, found: &[Option<TupleRef>; ABREAST]) {
        let count = self.width.saturating_mul(ABREAST);
        if self.rows.is_empty() && self.rows.resize(count, None).is_err() {
            return;
        }
        for (row, guess) in found.iter().enumerate() {
            let place = row.saturating_mul(self.width).saturating_add(column);
            if let Some(kept) = self.rows.get_mut(place) {
                *kept = *guess;
            }
        }
    }

    /// The row that the next row may name in a column.
    #[inline]
    pub fn of_next(&self, column: usize) -> Option<TupleRef> {
        if self.rows.is_empty() {
            return None;
        }
        let place = self.next.saturating_mul(self.width).saturating_add(column);
        self.rows.get(place).copied().flatten()
    }
}

// The rows that sixteen rows may name in a column whose links lead into the relation of that number.
fn guesses_in<R: LoadedRows>(
    relations: &[Relation],
    target: Option<usize>,
    rows: &R,
    column: usize,
) -> Option<[Option<TupleRef>; ABREAST]> {
    relations
        .get(target?)?
        .guess_rows(&numbers_of(rows, column))
}

// The integers that the next sixteen rows have in a column.
fn numbers_of<R: LoadedRows>(rows: &R, column: usize) -> [i64; ABREAST] {
    let mut numbers = [0; ABREAST];
    for (ahead, number) in numbers.iter_mut().enumerate() {
        *number = rows.number(ahead, column);
    }
    numbers
}
