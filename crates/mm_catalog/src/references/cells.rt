//! The cells of values that come into rows.
ghost use Rattle.std.specs.Prelude.{◌≡◌, ◌≢◌, ◌++◌, ◌∷◌, ℕ, ◌<◌, [], Some, None, IfOk, IfErr, IfSome, IfNone, OnOk, length, vec_capacity, vec_len};
ghost use Rattle.part_raw.specs.declared.tuple_ref.TupleRef.{TupleRef};
ghost use Rattle.mm_relation.specs.Reading.{key_at};
ghost use Rattle.mm_catalog.specs.Cells.{IsCellOf, NamesNone, cell_for};

use mm_relation::{Relation, StoredCell};
use no_memory::NoMemory;
use part_raw::TupleRef;
use plain_tables::{Refusal, Text, Value};
use std::alloc::Global;

// A copy of a value. One of at most 14 bytes takes no memory.
fn copy_of(alloc: Global, value: &Value) -> Result<Value, NoMemory>
    ensures { IfOk result (λ copy. copy ≡ value.now) }
{
    match value {
        Value::Null => Ok(Value::Null),
        Value::Int(integer) => Ok(Value::Int(*integer)),
        Value::Text(text) => Ok(Value::Text(Text::from_str(alloc, text.as_str())?)),
    }
}

// The row that was guessed, if its key is this integer.
fn guessed_row(relation: &Relation, guess: Option<TupleRef>, value: &Value) -> Option<TupleRef>
    ensures { IfSome result (λ r. key_at relation.now.rows r ≡ Some value.now) }
{
    let r = guess?;
    match (value, relation.integer_key(r)) {
        (Value::Int(sought), Some(key)) if *sought == key => Some(r),
        _ => None,
    }
}

// The row with this key, which may have been guessed.
fn row_of_key(relation: &Relation, guess: Option<TupleRef>, key: &Value) -> Option<TupleRef>
    ensures found { IfSome result (λ r. key_at relation.now.rows r ≡ Some key.now) }
    ensures none { IfNone result ((r : TupleRef) → key_at relation.now.rows r ≢ Some key.now) }
{
    match guessed_row(relation, guess, key) {
        Some(r) => Some(r),
        None => relation.find_key(&key.sought()),
    }
}

// The row that a value names in a column whose links lead into that relation, if they lead into one: the one whose key it
// is. None where the value is held itself, which is null or in a column with no links. It is refused where there is no
// such row. A row may have been guessed.
pub fn named_row(
    before: &[Relation],
    target: Option<usize>,
    value: &Value,
    guess: Option<TupleRef>,
) -> Result<Option<TupleRef>, Refusal>
    requires { (table : ℕ) → target ≡ Some table → table < length before.now }
    ensures named { IfOk result (λ to. IsCellOf before.now target value.now (cell_for value.now to)) }
    ensures refused { IfErr result (λ refusal. (refusal ≡ Refusal.NoReferencedRow None) × NamesNone before.now target value.now) }
{
    let Some(table) = target else {
        return Ok(None);
    };
    if matches!(value, Value::Null) {
        return Ok(None);
    }
    match row_of_key(&before[table], guess, value) {
        Some(to) => Ok(Some(to)),
        None => Err(Refusal::NoReferencedRow { record: None }),
    }
}

// The cell of a value that is lent and names this row, or else is held itself: then it is copied. A text of at most 14
// bytes takes no memory.
#[inline]
pub fn lent_cell(
    alloc: Global,
    named: Option<TupleRef>,
    value: &Value,
) -> Result<StoredCell, NoMemory>
    ensures { IfOk result (λ cell. cell ≡ cell_for value.now named) }
{
    match (named, value) {
        (Some(to), _) => Ok(StoredCell::link(to)),
        (None, Value::Int(integer)) => Ok(StoredCell::held(Value::Int(*integer))),
        (None, _) => Ok(StoredCell::held(copy_of(alloc, value)?)),
    }
}

// Appends that cell where there is room for it. That of an integer is made where it stays: it is not read back from a result.
#[inline]
pub fn push_lent(
    cells: &mut Vec<StoredCell>,
    alloc: Global,
    named: Option<TupleRef>,
    value: &Value,
) -> Result<(), NoMemory>
    requires { vec_len cells.old < vec_capacity cells.old }
    ensures pushed { OnOk result (cells.new.items ≡ cells.old.items ++ cell_for value.now named ∷ []) }
    ensures capacity { vec_capacity cells.new ≡ vec_capacity cells.old }
{
    if let (None, Value::Int(integer)) = (named, value) {
        cells.push_reserved(StoredCell::held(Value::Int(*integer)));
        return Ok(());
    }
    cells.push_reserved(lent_cell(alloc, named, value)?);
    Ok(())
}

// The cell of a value that is moved there.
pub fn moved_cell(named: Option<TupleRef>, value: Value) -> StoredCell
    ensures { result ≡ cell_for value named }
{
    match named {
        Some(to) => StoredCell::link(to),
        None => StoredCell::held(value),
    }
}
