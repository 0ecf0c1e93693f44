//! The lines of an answer.

ghost use Rattle.std.specs.Prelude.{◌≡◌, ◌++◌, ◌+◌, ◌≤◌, [], length, IsOk, OnOk, codes, decimal};
ghost use Rattle.plain_tables.specs.AnswerText.{answer_text, text_line, refusal_text, record_part};
ghost use Rattle.plain_tables.specs.Effects.{Changed};

use crate::answer::Answer;
use plain_tables::{NoMemory, Refusal};

/// The line that says how many rows follow. On an empty answer it needs no memory.
#[tactic(auto, using(crate::proofs::ShortTexts::short_texts))]
pub fn push_count(answer: &mut Answer, count: usize) -> Result<(), NoMemory>
    ensures pushed { OnOk result (answer.new ≡ answer.old ++ text_line (codes "rows " ++ decimal count)) }
    ensures short { answer.old ≡ [] → IsOk result }
{
    answer.push(b"rows ")?;
    answer.push_number(count as u64)?;
    answer.push(b"\n")
}

/// The line that says how many rows a command changed. On an empty answer it needs no memory.
#[tactic(auto, using(crate::proofs::ShortTexts::short_texts))]
pub fn push_changed(answer: &mut Answer, count: usize) -> Result<(), NoMemory>
    ensures pushed { OnOk result (answer.new ≡ answer.old ++ answer_text (Changed count)) }
    ensures short { answer.old ≡ [] → IsOk result }
{
    answer.push(b"ok ")?;
    answer.push_number(count as u64)?;
    answer.push(b"\n")
}

/// The line that says why a command is refused. On an empty answer it needs no memory.
#[tactic(auto, using(crate::proofs::ShortTexts::short_texts))]
pub fn push_refusal(answer: &mut Answer, refusal: Refusal) -> Result<(), NoMemory>
    ensures pushed { OnOk result (answer.new ≡ answer.old ++ refusal_text refusal) }
    ensures short { answer.old ≡ [] → IsOk result }
{
    answer.push(b"error ")?;
    answer.push_number(refusal.number() as u64)?;
    answer.push(b" ")?;
    answer.push(refusal.text().as_bytes())?;
    push_record_number(answer, refusal)?;
    answer.push(b"\n")
}

// The record that a refusal names, in at most 30 bytes.
#[tactic(auto, using(crate::proofs::ShortTexts::short_texts))]
fn push_record_number(answer: &mut Answer, refusal: Refusal) -> Result<(), NoMemory>
    ensures pushed { OnOk result (answer.new ≡ answer.old ++ record_part refusal) }
    ensures few { OnOk result (length answer.new ≤ length answer.old + 30) }
    ensures short { length answer.old + 30 ≤ 64 → IsOk result }
{
    match refusal {
        Refusal::BadRecord { record } => {
            answer.push(b" ")?;
            answer.push_number(record)
        }
        Refusal::KeyExists {
            record: Some(record),
        }
        | Refusal::NoReferencedRow {
            record: Some(record),
        }
        | Refusal::TableFull {
            record: Some(record),
        } => {
            answer.push(b" (record ")?;
            answer.push_number(record)?;
            answer.push(b")")
        }
        _ => Ok(()),
    }
}
