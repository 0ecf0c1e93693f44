//! The steps of a log. Commands of one row each that are alike share a step.
//!
//! ```text
//!  insert emp  ─▶  rows came, 0 more      insert emp  ─▶  rows came, 1 more      insert dept  ─▶  a step of its own
//! ```
ghost use Rattle.std.specs.Prelude.{true, false, ◌≡◌, ◌+◌, ◌<◌, ◌≤◌, ℕ, suc, List, IfNone, IfSome, MatchOption, length, reverse, vec_capacity};
ghost use Rattle.mm_catalog.specs.Assigned.{CellSet};
ghost use Rattle.part_raw.specs.declared.tuple_ref.TupleRef.{TupleRef};
ghost use Rattle.mm_transactions.specs.Log.{AreArrivals, AreSteps, IsJoined, IsNewest, IsStepNoted, alone, change_of, more_of, width_of};
ghost use Rattle.mm_transactions.specs.Undoing.{keeps_tables};

use crate::lodged::Lodged;
use mm_catalog::DroppedTable;
use mm_relation::DroppedIndex;
use plain_tables::{ColumnNumber, IndexKind, TableNumber};
use std::mem::size_of;

/// What commands did to a table.
#[derive(Drop)]
pub enum Kind {
    /// Rows came in, and then one row by each of so many commands more.
    Came {
        more: usize,
    },
    /// Rows went out, and then one row by each of so many commands more. They are hidden.
    Went {
        more: usize,
    },
    /// Values were assigned to rows, to so many cells of each, and then to one row by each of so many commands more.
    Updated {
        width: usize,
        more: usize,
    },
    /// It was declared, and stood last. These tables count links since.
    TableDeclared {
        gained: Vec<TableNumber>,
    },
    /// It was dropped, with no rows left but hidden ones.
    TableDropped {
        dropped: Lodged<DroppedTable>,
    },
    /// An index of it was declared.
    IndexDeclared {
        column: ColumnNumber,
        kind: IndexKind,
    },
    /// An index of it was dropped.
    IndexDropped {
        dropped: Lodged<DroppedIndex>,
    },
}

/// Commands that were done. The references of their rows stand in the log's list from `start` to the next step's, and what stood
/// in cells of theirs that they changed from `cells_start`, one row's behind the other's.
#[derive(Drop)]
pub struct Step {
    pub kind: Kind,
    pub table: TableNumber,
    pub start: usize,
    pub cells_start: usize,
}

const _: () = prove!(size_of::<Step>() == 56);

// Takes one off a number that isn't 0, and tells whether it did.
fn take_off(more: &mut usize) -> bool
    ensures taken { result ≡ true → more.old ≡ suc more.new }
    ensures none { result ≡ false → (more.old ≡ 0) × (more.new ≡ 0) }
{
    if *more == 0 {
        return false;
    }
    *more -= 1;
    true
}

impl Kind {
    /// Whether it left which tables there are, and their columns.
    pub fn keeps_tables(&self) -> bool
        ensures { (n : ℕ) (refs : List TupleRef) (cells : List CellSet) → result ≡ keeps_tables (change_of self.now n refs cells) }
    {
        match self {
            Kind::TableDeclared { .. } | Kind::TableDropped { .. } => false,
            _ => true,
        }
    }

    // How many cells of each row it changed.
    fn width(&self) -> usize
        ensures { result ≡ width_of self.now }
    {
        match self {
            Kind::Updated { width, .. } => *width,
            _ => 0,
        }
    }

    // Takes the newest command out, if there are more than the first, as a kind of its own.
    fn take_one(&mut self) -> Option<Kind>
        ensures kind { alone self.new ≡ alone self.old }
        ensures taken { MatchOption result ((more_of self.old ≡ 0) × (self.new ≡ self.old)) (λ one. (one ≡ alone self.old) × (more_of self.old ≡ suc (more_of self.new))) }
    {
        match self {
            Kind::Came { more } => {
                if take_off(more) {
                    return Some(Kind::Came { more: 0 });
                }
            }
            Kind::Went { more } => {
                if take_off(more) {
                    return Some(Kind::Went { more: 0 });
                }
            }
            Kind::Updated { width, more } => {
                if take_off(more) {
                    return Some(Kind::Updated {
                        width: *width,
                        more: 0,
                    });
                }
            }
            _ => {}
        }
        None
    }

    // Takes so many of the commands behind the first out, or all where they are fewer, if rows came in by them, and tells how many.
    fn take_arrivals(&mut self, most: usize) -> usize
        ensures kind { alone self.new ≡ alone self.old }
        ensures taken { more_of self.old ≡ result + more_of self.new }
        ensures most { result ≤ most }
        ensures none { result ≡ 0 → self.new ≡ self.old }
        ensures came { 0 < result → alone self.old ≡ Kind.Came 0 }
    {
        let Kind::Came { more } = self else {
            return 0;
        };
        let count = most.min(*more);
        *more -= count;
        count
    }

    // Takes a command of one row in, if it is alike, and tells whether it did.
    fn take_in(&mut self, other: &Kind) -> bool
        requires alone { more_of other.now ≡ 0 }
        requires few { more_of self.old < 9223372036854775808 }
        ensures taken { result ≡ true → (alone self.old ≡ other.now) × (alone self.new ≡ alone self.old) × (more_of self.new ≡ suc (more_of self.old)) }
        ensures unchanged { result ≡ false → self.new ≡ self.old }
    {
        match (self, other) {
            (Kind::Came { more }, Kind::Came { .. }) => {
                *more += 1;
                true
            }
            (Kind::Went { more }, Kind::Went { .. }) => {
                *more += 1;
                true
            }
            (Kind::Updated { width, more }, Kind::Updated { width: same, .. }) if *width == *same =>
                {
                    *more += 1;
                    true
                }
            _ => false,
        }
    }
}

/// Takes the newest command out of steps, as a step of its own. They have so many references and cells.
pub fn take_newest(steps: &mut Vec<Step>, refs: usize, cells: usize) -> Step
    requires some { 0 < length steps.old.items }
    requires steps { AreSteps (reverse steps.old.items) refs cells }
    ensures { IsNewest steps.old.items steps.new.items result refs cells }
{
    let Some(mut step) = steps.pop() else {
        unreachable!();
    };
    let Some(kind) = step.kind.take_one() else {
        return step;
    };
    let table = step.table;
    let cells_start = cells - kind.width();
    steps.push_reserved(step);
    Step {
        kind,
        table,
        start: refs - 1,
        cells_start,
    }
}

/// Takes the newest commands out of steps, so many at most, where by each one row came into the same table: the table, and how many
/// they are. It takes none where there are no such commands behind the first of the newest step.
pub fn take_arrivals(steps: &mut Vec<Step>, most: usize) -> Option<(TableNumber, usize)>
    ensures taken { IfSome result (λ came. (came.1 ≤ most) × ((refs cells : ℕ) → AreSteps (reverse steps.old.items) refs cells → AreArrivals steps.old.items steps.new.items came.0.0 came.1 refs cells)) }
    ensures none { IfNone result (steps.new.items ≡ steps.old.items) }
{
    let count = steps.len();
    if count == 0 {
        return None;
    }
    let step = &mut steps[count - 1];
    let table = step.table;
    let taken = step.kind.take_arrivals(most);
    if taken == 0 {
        return None;
    }
    Some((table, taken))
}

// Notes a command of one row in the newest step, if that is alike, and tells whether it did.
fn join(steps: &mut Vec<Step>, noted: &Step) -> bool
    requires alone { more_of noted.now.kind ≡ 0 }
    requires steps { AreSteps (reverse steps.old.items) noted.now.start noted.now.cells_start }
    requires few { noted.now.start < 9223372036854775808 }
    ensures joined { result ≡ true → IsJoined steps.old.items steps.new.items noted.now }
    ensures unchanged { result ≡ false → steps.new.items ≡ steps.old.items }
    ensures capacity { vec_capacity steps.new ≡ vec_capacity steps.old }
{
    let count = steps.len();
    if count == 0 {
        return false;
    }
    let step = &mut steps[count - 1];
    step.table.0 == noted.table.0 && step.kind.take_in(&noted.kind)
}

/// Notes a command of so many rows behind steps, which have room for a step more: in the newest step if it has one row and is
/// alike.
pub fn note(steps: &mut Vec<Step>, step: Step, rows: usize)
    requires room { length steps.old.items < vec_capacity steps.old }
    requires alone { more_of step.kind ≡ 0 }
    requires steps { AreSteps (reverse steps.old.items) step.start step.cells_start }
    requires few { step.start < 9223372036854775808 }
    ensures noted { IsStepNoted steps.old.items steps.new.items step rows }
    ensures capacity { vec_capacity steps.new ≡ vec_capacity steps.old }
    ensures count { length steps.new.items ≤ suc (length steps.old.items) }
{
    if rows != 1 || !join(steps, &step) {
        steps.push_reserved(step);
    }
}
