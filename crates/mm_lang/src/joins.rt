//! The joins of a select.

ghost use Rattle.std.specs.Prelude.{◌≡◌, ◌++◌, IfOk, IsErrOf, OnOk, refl};
ghost use Rattle.std.specs.List.{flat_map};
ghost use Rattle.plain_tables.specs.Spelling.{side_symbols, joined_symbols, join_symbols};
ghost use Rattle.mm_lang.specs.Parsing.{BeginsWithJoins, BeginsWithNoJoins};
ghost use Rattle.mm_lang.specs.Printing.{behind};

use crate::ParseRefusal;
use crate::items::{Item, PrintedItem, list, push_list};
use crate::places::LinePlace;
use crate::sink::Sink;
use crate::stops::Stopped;
use crate::symbols::{after, expect, name};
use plain_tables::{Join, JoinSide, NoMemory};
use std::alloc::Global;

impl Item for JoinSide {
    ghost symbols = { side_symbols };

    fn read(alloc: Global, line: &[u8], place: LinePlace) -> Result<(JoinSide, &[u8]), Stopped> {
        let (table, line) = name(alloc, line, place)?;
        let line = expect(line, b".", LinePlace::Dot)?;
        let (column, line) = name(alloc, line, LinePlace::Column)?;
        Ok((JoinSide { table, column }, line))
    }
}

impl PrintedItem for JoinSide {
    ghost free = { λ side. (refl, refl) };

    fn push_to<S: Sink>(&self, line: &mut S) -> Result<(), NoMemory> {
        line.push_str(self.table.as_str())?;
        line.push_str(".")?;
        line.push_str(self.column.as_str())?;
        Ok(())
    }
}

// What stands behind the word `join`.
impl Item for Join {
    ghost symbols = { joined_symbols };

    fn read(alloc: Global, line: &[u8], place: LinePlace) -> Result<(Join, &[u8]), Stopped> {
        let (table, line) = name(alloc, line, place)?;
        let line = expect(line, b"on", LinePlace::On)?;
        let (left, line) = JoinSide::read(alloc, line, LinePlace::Table)?;
        let line = expect(line, b"=", LinePlace::Equals)?;
        let (right, line) = JoinSide::read(alloc, line, LinePlace::Table)?;
        Ok((Join { table, left, right }, line))
    }
}

impl PrintedItem for Join {
    ghost free = { λ join. (refl, refl) };

    fn push_to<S: Sink>(&self, line: &mut S) -> Result<(), NoMemory> {
        line.push_str(self.table.as_str())?;
        line.push_str(" on ")?;
        self.left.push_to(line)?;
        line.push_str(" = ")?;
        self.right.push_to(line)
    }
}

/// The joins at the front, or none, and what stands behind the last.
pub fn joins(alloc: Global, line: &[u8]) -> Result<(Vec<Join>, &[u8]), Stopped>
    ensures joins { IfOk result (λ r. BeginsWithJoins line.now r.0.items r.1.now) }
    ensures syntax { IsErrOf result ParseRefusal.Syntax → BeginsWithNoJoins line.now }
{
    match after(line, b"join") {
        None => Ok((Vec::new(alloc), line)),
        Some(front) => list(alloc, front, b"join", LinePlace::Table, LinePlace::Table),
    }
}

/// Writes joins behind another symbol.
pub fn push_joins<S: Sink>(line: &mut S, joins: &[Join]) -> Result<(), NoMemory>
    ensures { OnOk result (S.held line.new ≡ S.held line.old ++ behind (flat_map join_symbols joins.now)) }
{
    if joins.is_empty() {
        return Ok(());
    }
    line.push_str(" join ")?;
    push_list(line, joins, " join ")
}
