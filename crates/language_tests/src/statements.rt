//! Worked lines with question marks: which values the statement of each has, and lines that spell none.

use mm_lang::{Line, ParseRefusal, parse_statement};
use plain_statements::{Slot, SlotCond, SlotSetting, Statement};
use plain_tables::{NoMemory, Op, Text, Value};
use std::alloc::Global;

// Lines, and the values of their statements, with the columns that they are set in, or that they are compared with and by which
// operator. A hole is a question mark and its number.
const STATEMENTS: &[(&str, &str)] = &[
    ("insert t (?, 'a', ?)", " ?0 'a' ?1"),
    (" insert\tt('a?b',? ,-1,null)", " 'a?b' ?0 -1 null"),
    (
        "insert t ('it''s ?', ?, '?''', ?, '')",
        " 'it's ?' ?0 '?'' ?1 ''",
    ),
    ("update t set a=?,b=1 where c=?", " a ?0 b 1 .c = ?1"),
    ("delete t", ""),
    ("delete t where t.a>=?and b<>2", " t.a >= ?0 .b <> 2"),
    ("select * from t where id = ?", " .id = ?0"),
    (
        "select distinct a from t join s on t.r = s.id where a<?",
        " .a < ?0",
    ),
];

// Lines that spell no statement.
const NO_STATEMENTS: &[&str] = &[
    "insert t (??)",
    "insert t (? ?)",
    "insert t (?1)",
    "insert t (1?)",
    "insert t (-?)",
    "insert t ('a' ?)",
    "insert t ('?)",
    "insert ? (1)",
    "update t set ? = 1",
    "delete t where ? = 1",
    "delete t where a ? 1",
    "delete t ?",
    "select ? from t",
    "select * from ?",
    "table t (id int)",
    "drop table t",
    "dump t",
    "load t ?",
    "tables",
    "?",
    "",
];

// A slot, behind a space.
fn push_slot(alloc: Global, text: &mut String, slot: &Slot) -> Result<(), NoMemory> {
    let shown = match slot {
        Slot::Hole(number) => format!(in alloc; " ?{number}")?,
        Slot::Given(Value::Int(value)) => format!(in alloc; " {value}")?,
        Slot::Given(Value::Text(value)) => format!(in alloc; " '{}'", value.as_str())?,
        Slot::Given(Value::Null) => format!(in alloc; " null")?,
    };
    Ok(text.push_str(shown.as_str())?)
}

// Each slot that is given to a column.
fn push_settings(
    alloc: Global,
    text: &mut String,
    settings: &[SlotSetting],
) -> Result<(), NoMemory> {
    for setting in settings {
        let column = format!(in alloc; " {}", setting.column.as_str())?;
        text.push_str(column.as_str())?;
        push_slot(alloc, text, &setting.slot)?;
    }
    Ok(())
}

// An operator, as a line spells it.
fn sign_of(op: Op) -> &'static str {
    match op {
        Op::Eq => "=",
        Op::Ne => "<>",
        Op::Lt => "<",
        Op::Le => "<=",
        Op::Gt => ">",
        Op::Ge => ">=",
    }
}

// Each slot that a column is compared with, behind the operator.
fn push_conditions(
    alloc: Global,
    text: &mut String,
    conditions: &[SlotCond],
) -> Result<(), NoMemory> {
    for condition in conditions {
        let table = condition.column.table.as_ref().map_or("", Text::as_str);
        let column = format!(in alloc; " {table}.{}", condition.column.column.as_str())?;
        text.push_str(column.as_str())?;
        text.push_str(" ")?;
        text.push_str(sign_of(condition.op))?;
        push_slot(alloc, text, &condition.slot)?;
    }
    Ok(())
}

// The slots of an insert.
fn push_slots(alloc: Global, text: &mut String, slots: &[Slot]) -> Result<(), NoMemory> {
    for slot in slots {
        push_slot(alloc, text, slot)?;
    }
    Ok(())
}

// What stands in the place of values.
fn shown(alloc: Global, statement: &Statement) -> Result<String, NoMemory> {
    let mut text = String::new(alloc);
    match statement {
        Statement::Insert { slots, .. } => push_slots(alloc, &mut text, slots.as_slice())?,
        Statement::Update {
            settings,
            conditions,
            ..
        } => {
            push_settings(alloc, &mut text, settings.as_slice())?;
            push_conditions(alloc, &mut text, conditions.as_slice())?;
        }
        Statement::Delete { conditions, .. } | Statement::Select { conditions, .. } => {
            push_conditions(alloc, &mut text, conditions.as_slice())?;
        }
    }
    Ok(text)
}

// What stands there in the statement of a line. A text with a line feed is no line.
fn read(alloc: Global, line: &str) -> Result<String, ParseRefusal> {
    if line.as_bytes().contains(&b'\n') {
        return Err(ParseRefusal::Syntax);
    }
    let statement = parse_statement(alloc, &Line::new(line))?;
    Ok(shown(alloc, &statement)?)
}

// Whether these stand there in the statement of the line.
fn is_read_as(alloc: Global, line: &str, slots: &str) -> Result<bool, ParseRefusal> {
    let text = read(alloc, line)?;
    Ok(text.as_str() == slots)
}

// The first line that isn't read as told.
fn first_misread(alloc: Global) -> Result<Option<&'static str>, ParseRefusal> {
    for (line, slots) in STATEMENTS {
        if !is_read_as(alloc, *line, *slots)? {
            return Ok(Some(*line));
        }
    }
    Ok(None)
}

// The first line that spells no statement, but is read as one.
fn first_read(alloc: Global) -> Result<Option<&'static str>, ParseRefusal> {
    for line in NO_STATEMENTS {
        match read(alloc, *line) {
            Ok(_) => return Ok(Some(*line)),
            Err(ParseRefusal::Syntax) => {}
            Err(refused) => return Err(refused),
        }
    }
    Ok(None)
}

#[test]
fn lines_are_read_as_statements(rt: HostRuntime) {
    assert_eq!(rt; first_misread(rt.alloc()), Ok(None));
}

#[test]
fn other_lines_are_not(rt: HostRuntime) {
    assert_eq!(rt; first_read(rt.alloc()), Ok(None));
}

#[test]
fn statements_under_refusal(rt: HostRuntime) {
    let misread = first_misread(rt.alloc()).unwrap_or(None);
    assert_eq!(rt; misread, None);
}
