//! Why a line is kept as no statement, and why a statement is not done.

use crate::fault::{ReasonFault, unless_refused};
use crate::filled::Filling;
use crate::reasons::{blame, of_command, of_no_memory, of_stop, of_too_long, of_utf8};
use crate::told::{Reason, Told, tell};
use mm_catalog::Catalog;
use mm_lang::{Line, ParseRefusal, parse_statement, parse_statement_or_stop};
use mm_resolver::{Culprit, statement_culprit};
use mm_session::{Judged, LONGEST_LINE, judge_line};
use mm_syntax::column_of_hole;
use no_memory::NoMemory;
use plain_statements::{Slot, SlotCond, SlotSetting, Statement};
use plain_tables::{Command, Refusal, Value};
use std::alloc::Global;

// The statement that a line spells, if it spells one.
fn statement_of(alloc: Global, line: &Line<'_>) -> Result<Option<Statement>, ReasonFault> {
    match parse_statement(alloc, line) {
        Ok(statement) => Ok(Some(statement)),
        Err(ParseRefusal::Syntax) => Ok(None),
        Err(ParseRefusal::NoMemory) => Err(ReasonFault::NoMemory),
    }
}

// The command that a line spells with these values, if it spells one.
fn filled(
    alloc: Global,
    line: &Line<'_>,
    values: &[Value],
) -> Result<Option<Command>, ReasonFault> {
    match statement_of(alloc, line)? {
        Some(statement) => Ok(Some(Filling::of(alloc, values).command(statement)?)),
        None => Ok(None),
    }
}

// Why the statement that a line spells is refused so whatever its values are, where this of it is to blame.
fn of_culprit(
    alloc: Global,
    catalog: &Catalog,
    line: &Line<'_>,
    culprit: Culprit,
    refusal: Refusal,
) -> Reason {
    match filled(alloc, line, &[])? {
        Some(command) => {
            let told = blame(alloc, catalog, &command, &[], culprit, refusal);
            drop(command);
            told
        }
        None => Ok(None),
    }
}

// Why a line spells no statement, or one that is refused so whatever its values are.
fn of_statement(alloc: Global, catalog: &Catalog, line: &Line<'_>, refusal: Refusal) -> Reason {
    let culprit = match parse_statement_or_stop(alloc, line) {
        Ok(statement) => unless_refused(statement_culprit(catalog, statement, refusal))?.flatten(),
        Err(stopped) => return of_stop(alloc, line.as_str(), stopped, refusal),
    };
    match culprit {
        Some(culprit) => of_culprit(alloc, catalog, line, culprit, refusal),
        None => Ok(None),
    }
}

// Why the command that a line spells with these values is refused so. It is spelled once more, to be resolved again.
fn of_filled(
    alloc: Global,
    catalog: &Catalog,
    line: &Line<'_>,
    values: &[Value],
    command: &Command,
    refusal: Refusal,
) -> Reason {
    match filled(alloc, line, values)? {
        Some(again) => of_command(alloc, catalog, command, again, &[], refusal),
        None => Ok(None),
    }
}

// Why the statement that a line spells is refused so with these values.
fn of_values(
    alloc: Global,
    catalog: &Catalog,
    line: &Line<'_>,
    values: &[Value],
    refusal: Refusal,
) -> Reason {
    match filled(alloc, line, values)? {
        Some(command) => {
            let told = of_filled(alloc, catalog, line, values, &command, refusal);
            drop(command);
            told
        }
        None => Ok(None),
    }
}

// The slot of the value of a number in conditions.
fn slot_of_condition(conditions: &[SlotCond], number: usize) -> Option<&Slot> {
    Some(&conditions.get(number)?.slot)
}

// The slot of the value of a number in settings, and then in conditions.
fn slot_of_setting<'a>(
    settings: &'a [SlotSetting],
    conditions: &'a [SlotCond],
    number: usize,
) -> Option<&'a Slot> {
    match number.checked_sub(settings.len()) {
        Some(number) => slot_of_condition(conditions, number),
        None => Some(&settings.get(number)?.slot),
    }
}

// The slot of the value of a number in a statement.
fn slot_at(statement: &Statement, number: usize) -> Option<&Slot> {
    match statement {
        Statement::Insert { slots, .. } => slots.as_slice().get(number),
        Statement::Update {
            settings,
            conditions,
            ..
        } => slot_of_setting(settings.as_slice(), conditions.as_slice(), number),
        Statement::Delete { conditions, .. } | Statement::Select { conditions, .. } => {
            slot_of_condition(conditions.as_slice(), number)
        }
    }
}

// The column of the question mark of a slot, where it is a hole.
fn column_of_slot(line: &Line<'_>, slot: Option<&Slot>) -> Option<usize> {
    match slot {
        Some(Slot::Hole(hole)) => column_of_hole(line.as_str(), *hole),
        _ => None,
    }
}

// The column of the question mark of the value of a number, where it has one.
fn column_of_value(
    alloc: Global,
    line: &Line<'_>,
    number: usize,
) -> Result<Option<usize>, ReasonFault> {
    match statement_of(alloc, line)? {
        Some(statement) => {
            let column = column_of_slot(line, slot_at(&statement, number));
            drop(statement);
            Ok(column)
        }
        None => Ok(None),
    }
}

// The words of a reason, and the column of the question mark of the value that they are about, where it has one.
fn pointed(alloc: Global, line: &Line<'_>, told: Told) -> Result<String, ReasonFault> {
    let Told { words, value } = told;
    let Some(number) = value else {
        return Ok(words);
    };
    match column_of_value(alloc, line, number)? {
        Some(column) => {
            let pointed = format!(in alloc; "column {column}: {words}");
            Ok(pointed.map_err(NoMemory::from)?)
        }
        None => Ok(words),
    }
}

// Why a line is kept as no statement.
fn of_line(alloc: Global, catalog: &Catalog, line: &[u8], refusal: Refusal) -> Reason {
    match (judge_line(line), refusal) {
        (Some(Judged::Text(line)), _) => of_statement(alloc, catalog, &line, refusal),
        (_, Refusal::LineTooLong) if line.len() > LONGEST_LINE => of_too_long(alloc),
        (_, Refusal::NotUtf8) => of_utf8(alloc, line),
        (Some(Judged::Silent), Refusal::NotACommand) => {
            tell(format!(in alloc; "a blank line and a comment are no statement"))
        }
        (None, Refusal::NotACommand) => {
            tell(format!(in alloc; "a statement is one line, with no line feed in it"))
        }
        _ => Ok(None),
    }
}

/// Why a line was refused so when it was to be kept as a statement, in words, if that can be told. It is asked of the tables as
/// they were then.
pub fn prepare_reason(
    alloc: Global,
    catalog: &Catalog,
    line: &[u8],
    refusal: Refusal,
) -> Result<Option<String>, ReasonFault> {
    let told = if refusal == Refusal::NoMemory {
        of_no_memory(alloc)?
    } else {
        of_line(alloc, catalog, line, refusal)?
    };
    match told {
        Some(told) => Ok(Some(told.words)),
        None => Ok(None),
    }
}

/// Why the statement that a line spells was refused so with these values for its question marks, in words, if that can be told. Where
/// one of these values is to blame, the words begin with the column of its question mark. It is asked of the tables as they were
/// when the statement was refused.
pub fn statement_reason(
    alloc: Global,
    catalog: &Catalog,
    line: &str,
    values: &[Value],
    refusal: Refusal,
) -> Result<Option<String>, ReasonFault> {
    let Some(Judged::Text(line)) = judge_line(line.as_bytes()) else {
        return Ok(None);
    };
    let told = if refusal == Refusal::NoMemory {
        of_no_memory(alloc)?
    } else {
        match of_statement(alloc, catalog, &line, refusal)? {
            Some(told) => Some(told),
            None => of_values(alloc, catalog, &line, values, refusal)?,
        }
    };
    match told {
        Some(told) => Ok(Some(pointed(alloc, &line, told)?)),
        None => Ok(None),
    }
}
