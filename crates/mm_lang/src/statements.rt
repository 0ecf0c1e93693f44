//! Statements: the commands on rows, with a `?` where a value may stand.

ghost use Rattle.std.specs.Prelude.{codes, IfOk, IsErrOf};
ghost use Rattle.plain_statements.specs.declared.statement.Statement.{Statement};
ghost use Rattle.plain_statements.specs.StatementSpelling.{SpellsStatement};
ghost use Rattle.mm_lang.specs.Words.{letters};
ghost use Rattle.mm_lang.specs.Parsing.{IsOfText};
ghost use Rattle.mm_lang.specs.Statements.{IsStatement, CompletesStatement};

use crate::ParseRefusal;
use crate::line::Line;
use crate::parser::{
    CommandWord, SelectParts, command_word, delete_parts, name_and_list, select_parts, update_parts,
};
use crate::places::LinePlace;
use crate::slots::number_holes;
use crate::stops::Stopped;
use plain_statements::{Slot, SlotCond, SlotSetting, Statement};
use plain_tables::{Sequence, Text};
use std::alloc::Global;

// The statement that begins with a word, of which this is the rest. Some words begin commands alone: there the line stops at
// its front.
fn statement(
    alloc: Global,
    line: &[u8],
    word: CommandWord,
    rest: &[u8],
) -> Result<Statement, Stopped>
    ensures statement { IfOk result (CompletesStatement (letters word) rest.now) }
    ensures syntax { IsErrOf result ParseRefusal.Syntax → IsOfText rest.now → (s : Statement) → IsStatement (letters word) rest.now s → ⊥ }
{
    match word {
        CommandWord::Delete => delete(alloc, rest),
        CommandWord::Insert => insert(alloc, rest),
        CommandWord::Select => select(alloc, rest),
        CommandWord::Update => update(alloc, rest),
        _ => Err(Stopped::at(line, LinePlace::Statement)),
    }
}

/// The statement that a line spells, or where it stops to spell one.
///
/// The error is `Syntax` where the line spells none, and `NoMemory` where a growth was refused.
pub fn parse_statement_or_stop(alloc: Global, line: &Line<'_>) -> Result<Statement, Stopped>
    ensures statement { IfOk result (λ s. SpellsStatement line.now s) }
    ensures syntax { IsErrOf result ParseRefusal.Syntax → (s : Statement) → SpellsStatement line.now s → ⊥ }
{
    let whole = line.as_str().as_bytes();
    let Some(word) = command_word(line.word()) else {
        return Err(Stopped::at(whole, LinePlace::Statement));
    };
    statement(alloc, whole, word, line.rest())
}

/// The statement that a line spells.
///
/// The error is `Syntax` where the line spells none, and `NoMemory` where a growth was refused.
pub fn parse_statement(alloc: Global, line: &Line<'_>) -> Result<Statement, ParseRefusal>
    ensures statement { IfOk result (λ s. SpellsStatement line.now s) }
    ensures syntax { IsErrOf result ParseRefusal.Syntax → (s : Statement) → SpellsStatement line.now s → ⊥ }
{
    Ok(parse_statement_or_stop(alloc, line)?)
}

// NAME ( SLOT {, SLOT} )
fn insert(alloc: Global, line: &[u8]) -> Result<Statement, Stopped>
    ensures statement { IfOk result (λ s. CompletesStatement (codes "insert") line.now s) }
    ensures syntax { IsErrOf result ParseRefusal.Syntax → IsOfText line.now → (s : Statement) → IsStatement (codes "insert") line.now s → ⊥ }
{
    let (table, mut slots): (Text, Vec<Slot>) = name_and_list(
        alloc,
        line,
        LinePlace::Values,
        LinePlace::Value,
    )?;
    number_holes(slots.as_mut_slice(), 0);
    Ok(Statement::Insert {
        table,
        slots: Sequence::from_vec(slots),
    })
}

// NAME set NAME = SLOT {, NAME = SLOT} [where ..]
fn update(alloc: Global, line: &[u8]) -> Result<Statement, Stopped>
    ensures statement { IfOk result (λ s. CompletesStatement (codes "update") line.now s) }
    ensures syntax { IsErrOf result ParseRefusal.Syntax → IsOfText line.now → (s : Statement) → IsStatement (codes "update") line.now s → ⊥ }
{
    let (table, mut settings, mut conditions): (Text, Vec<SlotSetting>, Vec<SlotCond>) =
        update_parts(alloc, line)?;
    let next = number_holes(settings.as_mut_slice(), 0);
    number_holes(conditions.as_mut_slice(), next);
    Ok(Statement::Update {
        table,
        settings: Sequence::from_vec(settings),
        conditions: Sequence::from_vec(conditions),
    })
}

// NAME [where ..]
fn delete(alloc: Global, line: &[u8]) -> Result<Statement, Stopped>
    ensures statement { IfOk result (λ s. CompletesStatement (codes "delete") line.now s) }
    ensures syntax { IsErrOf result ParseRefusal.Syntax → IsOfText line.now → (s : Statement) → IsStatement (codes "delete") line.now s → ⊥ }
{
    let (table, mut conditions): (Text, Vec<SlotCond>) = delete_parts(alloc, line)?;
    number_holes(conditions.as_mut_slice(), 0);
    Ok(Statement::Delete {
        table,
        conditions: Sequence::from_vec(conditions),
    })
}

// [distinct] ITEMS from NAME {join ..} [where ..]
fn select(alloc: Global, line: &[u8]) -> Result<Statement, Stopped>
    ensures statement { IfOk result (λ s. CompletesStatement (codes "select") line.now s) }
    ensures syntax { IsErrOf result ParseRefusal.Syntax → IsOfText line.now → (s : Statement) → IsStatement (codes "select") line.now s → ⊥ }
{
    let SelectParts {
        distinct,
        items,
        table,
        joins,
        mut conditions,
    } = select_parts::<SlotCond>(alloc, line)?;
    number_holes(conditions.as_mut_slice(), 0);
    Ok(Statement::Select {
        distinct,
        items,
        table,
        joins: Sequence::from_vec(joins),
        conditions: Sequence::from_vec(conditions),
    })
}
