//! The items of a list: values, columns and their kinds, names of columns, settings and conditions.

ghost use Rattle.std.specs.Prelude.{◌≡◌, ◌<◌, ◌++◌, List, length, IfOk, IsErrOf, OnOk, refl};
ghost use Rattle.std.specs.Str.{IsUtf8};
ghost use Rattle.plain_tables.specs.Spelling.{Symbol, Literal, IsSymbol, kind_symbols, column_symbols, value_symbols, name_symbols, setting_symbols, condition_symbols, spaced, operator_text};
ghost use Rattle.plain_tables.specs.declared.value.Value.{Value};
ghost use Rattle.mm_lang.specs.Parsing.{EndsItem, BeginsWith, BeginsWithNone, BeginsWithList, BeginsWithNoList, assigned_symbols, compared_symbols};
ghost use Rattle.mm_lang.specs.Printing.{IsFree, joined, kind_symbols-free, column_symbols-free, name_symbols-free, condition_symbols-free};

use crate::ParseRefusal;
use crate::lexemes::split_lexeme;
use crate::numbers::push_integer;
use crate::places::LinePlace;
use crate::sink::Sink;
use crate::stops::Stopped;
use crate::symbols::{after, expect, name, operator};
use crate::texts::{push_text, text};
use plain_tables::{ColKind, ColName, Column, Cond, NoMemory, Op, Setting, Text, Value, integer};
use std::alloc::Global;

/// What a line can have a list of.
pub trait Item: Drop {
    // the symbols by which a line spells it
    ghost symbols: { Self → List Symbol };

    /// The item at the front, which begins at this place, and what stands behind it.
    fn read(alloc: Global, line: &[u8], place: LinePlace) -> Result<(Self, &[u8]), Stopped>
        ensures item { IfOk result (λ r. BeginsWith symbols line.now r.0 r.1.now) }
        ensures syntax { IsErrOf result ParseRefusal.Syntax → BeginsWithNone symbols line.now };

    /// The place behind it, where no more items of a list follow.
    fn place_behind(&self) -> LinePlace {
        LinePlace::BehindListed
    }
}

/// An item that has a canonical spelling.
pub trait PrintedItem: Item {
    /// Writes the item.
    fn push_to<S: Sink>(&self, line: &mut S) -> Result<(), NoMemory>
        ensures { OnOk result (S.held line.new ≡ S.held line.old ++ spaced (Self.symbols self.now)) };

    ghost free: { (x : Self) → IsFree (Self.symbols x) };
}

/// The value that these characters spell: those of the symbol at the front of what is left of a line, at this place.
pub(crate) fn value(
    alloc: Global,
    characters: &[u8],
    left: &[u8],
    place: LinePlace,
) -> Result<Value, Stopped>
    ensures value { IfOk result (λ v. IsSymbol characters.now (Literal v)) }
    ensures syntax { IsErrOf result ParseRefusal.Syntax → IsUtf8 characters.now → (v : Value) → IsSymbol characters.now (Literal v) → ⊥ }
{
    if characters == b"null".as_slice() {
        return Ok(Value::Null);
    }
    if let Some(number) = integer(characters) {
        return Ok(Value::Int(number));
    }
    match text(alloc, characters) {
        Ok(text) => Ok(Value::Text(text)),
        Err(refusal) => Err(Stopped::by(refusal, left, place)),
    }
}

impl Item for Value {
    ghost symbols = { value_symbols };

    fn read(alloc: Global, line: &[u8], place: LinePlace) -> Result<(Value, &[u8]), Stopped> {
        let (characters, rest) = split_lexeme(line);
        Ok((value(alloc, characters, line, place)?, rest))
    }
}

impl PrintedItem for Value {
    ghost free = { λ v. (refl, refl) };

    fn push_to<S: Sink>(&self, line: &mut S) -> Result<(), NoMemory> {
        match self {
            Value::Null => line.push_str("null")?,
            Value::Int(number) => push_integer(line, *number)?,
            Value::Text(text) => push_text(line, text.as_str())?,
        }
        Ok(())
    }
}

impl Item for ColKind {
    ghost symbols = { kind_symbols };

    fn read(alloc: Global, line: &[u8], place: LinePlace) -> Result<(ColKind, &[u8]), Stopped> {
        if let Some(rest) = after(line, b"int") {
            return Ok((ColKind::Int, rest));
        }
        if let Some(rest) = after(line, b"text") {
            return Ok((ColKind::Text, rest));
        }
        let front = expect(line, b"ref", place)?;
        let (table, rest) = name(alloc, front, LinePlace::Table)?;
        match after(rest, b"null") {
            Some(behind) => Ok((ColKind::RefOrNull(table), behind)),
            None => Ok((ColKind::Ref(table), rest)),
        }
    }
}

impl PrintedItem for ColKind {
    ghost free = { kind_symbols-free };

    fn push_to<S: Sink>(&self, line: &mut S) -> Result<(), NoMemory> {
        match self {
            ColKind::Int => line.push_str("int")?,
            ColKind::Text => line.push_str("text")?,
            ColKind::Ref(table) => {
                line.push_str("ref ")?;
                line.push_str(table.as_str())?;
            }
            ColKind::RefOrNull(table) => {
                line.push_str("ref ")?;
                line.push_str(table.as_str())?;
                line.push_str(" null")?;
            }
        }
        Ok(())
    }
}

impl Item for Column {
    ghost symbols = { column_symbols };

    fn read(alloc: Global, line: &[u8], place: LinePlace) -> Result<(Column, &[u8]), Stopped> {
        let (name, line) = name(alloc, line, place)?;
        let (kind, line) = ColKind::read(alloc, line, LinePlace::ColumnType)?;
        Ok((Column { name, kind }, line))
    }

    fn place_behind(&self) -> LinePlace {
        match self.kind {
            ColKind::Ref(_) => LinePlace::BehindReference,
            _ => LinePlace::BehindListed,
        }
    }
}

impl PrintedItem for Column {
    ghost free = { column_symbols-free };

    fn push_to<S: Sink>(&self, line: &mut S) -> Result<(), NoMemory> {
        line.push_str(self.name.as_str())?;
        line.push_str(" ")?;
        self.kind.push_to(line)
    }
}

impl Item for ColName {
    ghost symbols = { name_symbols };

    fn read(alloc: Global, line: &[u8], place: LinePlace) -> Result<(ColName, &[u8]), Stopped> {
        let (first, rest) = name(alloc, line, place)?;
        match after(rest, b".") {
            None => Ok((
                ColName {
                    table: None,
                    column: first,
                },
                rest,
            )),
            Some(behind) => {
                let (column, rest) = name(alloc, behind, LinePlace::Column)?;
                Ok((
                    ColName {
                        table: Some(first),
                        column,
                    },
                    rest,
                ))
            }
        }
    }

    fn place_behind(&self) -> LinePlace {
        match self.table {
            Some(_) => LinePlace::BehindItem,
            None => LinePlace::BehindItemName,
        }
    }
}

impl PrintedItem for ColName {
    ghost free = { name_symbols-free };

    fn push_to<S: Sink>(&self, line: &mut S) -> Result<(), NoMemory> {
        if let Some(table) = &self.table {
            line.push_str(table.as_str())?;
            line.push_str(".")?;
        }
        line.push_str(self.column.as_str())?;
        Ok(())
    }
}

/// A column and what it gets, NAME = .., and what stands behind them.
pub(crate) fn assigned<V: Item>(
    alloc: Global,
    line: &[u8],
    place: LinePlace,
) -> Result<(Text, V, &[u8]), Stopped>
    ensures item { IfOk result (λ r. BeginsWith (assigned_symbols V.symbols) line.now (r.0, r.1) r.2.now) }
    ensures syntax { IsErrOf result ParseRefusal.Syntax → BeginsWithNone (assigned_symbols V.symbols) line.now }
{
    let (column, line) = name(alloc, line, place)?;
    let line = expect(line, b"=", LinePlace::Equals)?;
    let (value, line) = V::read(alloc, line, LinePlace::Value)?;
    Ok((column, value, line))
}

// The place behind the column of a condition.
fn operator_place(column: &ColName) -> LinePlace {
    match column.table {
        Some(_) => LinePlace::Operator,
        None => LinePlace::BehindConditionName,
    }
}

/// A column, an operator and what it is compared with, and what stands behind them.
pub(crate) fn compared<V: Item>(
    alloc: Global,
    line: &[u8],
    place: LinePlace,
) -> Result<(ColName, Op, V, &[u8]), Stopped>
    ensures item { IfOk result (λ r. BeginsWith (compared_symbols V.symbols) line.now (r.0, r.1, r.2) r.3.now) }
    ensures syntax { IsErrOf result ParseRefusal.Syntax → BeginsWithNone (compared_symbols V.symbols) line.now }
{
    let (column, line) = ColName::read(alloc, line, place)?;
    let (op, line) = operator(line, operator_place(&column))?;
    let (value, line) = V::read(alloc, line, LinePlace::ComparedValue)?;
    Ok((column, op, value, line))
}

impl Item for Setting {
    ghost symbols = { setting_symbols };

    fn read(alloc: Global, line: &[u8], place: LinePlace) -> Result<(Setting, &[u8]), Stopped> {
        let (column, value, line) = assigned(alloc, line, place)?;
        Ok((Setting { column, value }, line))
    }
}

impl PrintedItem for Setting {
    ghost free = { λ s. (refl, refl) };

    fn push_to<S: Sink>(&self, line: &mut S) -> Result<(), NoMemory> {
        line.push_str(self.column.as_str())?;
        line.push_str(" = ")?;
        self.value.push_to(line)
    }
}

// The characters of an operator.
fn operator_str(op: Op) -> &'static str
    ensures { result.now ≡ operator_text op }
{
    match op {
        Op::Eq => "=",
        Op::Ne => "<>",
        Op::Lt => "<",
        Op::Le => "<=",
        Op::Gt => ">",
        Op::Ge => ">=",
    }
}

impl Item for Cond {
    ghost symbols = { condition_symbols };

    fn read(alloc: Global, line: &[u8], place: LinePlace) -> Result<(Cond, &[u8]), Stopped> {
        let (column, op, value, line) = compared(alloc, line, place)?;
        Ok((Cond { column, op, value }, line))
    }
}

impl PrintedItem for Cond {
    ghost free = { condition_symbols-free };

    fn push_to<S: Sink>(&self, line: &mut S) -> Result<(), NoMemory> {
        self.column.push_to(line)?;
        line.push_str(" ")?;
        line.push_str(operator_str(self.op))?;
        line.push_str(" ")?;
        self.value.push_to(line)
    }
}

/// The items of a list, one or more, with this keyword or sign between two of them, and what stands behind the last. The
/// first and each further one begin at these places.
pub fn list<'a, T: Item>(
    alloc: Global,
    line: &'a [u8],
    between: &[u8],
    first: LinePlace,
    further: LinePlace,
) -> Result<(Vec<T>, &'a [u8]), Stopped>
    requires some { 0 < length between.now }
    requires ends_item { EndsItem between.now }
    ensures items { IfOk result (λ r. BeginsWithList T.symbols between.now line.now r.0.items r.1.now) }
    ensures syntax { IsErrOf result ParseRefusal.Syntax → BeginsWithNoList T.symbols between.now line.now }
{
    let mut items = Vec::new(alloc);
    let mut rest = line;
    let mut place = first;
    loop {
        let (item, behind) = T::read(alloc, rest, place)?;
        items.push(item)?;
        match after(behind, between) {
            Some(next) => rest = next,
            None => return Ok((items, behind)),
        }
        place = further;
    }
}

/// The place behind the last item of a list.
pub(crate) fn behind_last<T: Item>(items: &[T]) -> LinePlace {
    match items.last() {
        Some(item) => item.place_behind(),
        None => LinePlace::BehindListed,
    }
}

/// Writes items with a text between two of them.
pub fn push_list<T: PrintedItem, S: Sink>(
    line: &mut S,
    items: &[T],
    between: &str,
) -> Result<(), NoMemory>
    ensures { OnOk result (S.held line.new ≡ S.held line.old ++ joined T.symbols between.now items.now) }
{
    let Some((first, others)) = items.split_first() else {
        return Ok(());
    };
    first.push_to(line)?;
    for item in others {
        line.push_str(between)?;
        item.push_to(line)?;
    }
    Ok(())
}
