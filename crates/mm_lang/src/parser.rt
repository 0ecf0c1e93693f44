//! A function for each production of the grammar.

ghost use Rattle.std.specs.Prelude.{◌≡◌, ◌≢◌, ℕ, List, [], ◌∷◌, codes, Bool, IfOk, IsErrOf, MatchOption, MatchResult};
ghost use Rattle.plain_tables.specs.Spelling.{Name, Count, Spells, index_symbols};
ghost use Rattle.plain_tables.specs.Reading.{lexeme};
ghost use Rattle.plain_tables.specs.declared.command.Command.{Command};
ghost use Rattle.plain_tables.specs.declared.command.Command.TheVariants.{Load};
ghost use Rattle.plain_tables.specs.declared.command.Items.{Items};
ghost use Rattle.plain_tables.specs.declared.command.Join.{Join};
ghost use Rattle.plain_tables.specs.declared.schema.IndexKind.{IndexKind};
ghost use Rattle.mm_lang.specs.declared.parser.CommandWord.{CommandWord as Word};
ghost use Rattle.mm_lang.specs.Words.{letters};
ghost use Rattle.mm_lang.specs.Parsing.{Completes, IsOfText, IsWhole, IsNameAndList, IsFrom, IsWhere, IsUpdate, IsDelete, IsSelect, BeginsWithDistinct, BeginsWithItems, BeginsWithNoItems};

use crate::ParseRefusal;
use crate::items::{Item, behind_last, list};
use crate::joins::joins;
use crate::lexemes::split_lexeme;
use crate::line::Line;
use crate::numbers::count;
use crate::places::LinePlace;
use crate::stops::Stopped;
use crate::symbols::{after, after_name, expect, index_kind, name};
use plain_tables::{Command, IndexKind, Items, Join, Schema, Sequence, Text};
use std::alloc::Global;

/// The word that a command begins with.
#[derive(Clone, Copy)]
pub(crate) enum CommandWord {
    Delete,
    Drop,
    Dump,
    Index,
    Insert,
    Load,
    Select,
    Table,
    Tables,
    Update,
}

/// The word of a command that these characters are.
pub(crate) fn command_word(characters: &[u8]) -> Option<CommandWord>
    ensures { MatchOption result ((w : Word) → characters.now ≢ letters w) (λ w. characters.now ≡ letters w) }
{
    match characters {
        b"insert" => Some(CommandWord::Insert),
        b"select" => Some(CommandWord::Select),
        b"update" => Some(CommandWord::Update),
        b"delete" => Some(CommandWord::Delete),
        b"table" => Some(CommandWord::Table),
        b"drop" => Some(CommandWord::Drop),
        b"index" => Some(CommandWord::Index),
        b"tables" => Some(CommandWord::Tables),
        b"load" => Some(CommandWord::Load),
        b"dump" => Some(CommandWord::Dump),
        _ => None,
    }
}

// The command that begins with a word, of which this is the rest.
fn command(alloc: Global, word: CommandWord, rest: &[u8]) -> Result<Command, Stopped>
    ensures command { IfOk result (Completes (letters word) rest.now) }
    ensures syntax { IsErrOf result ParseRefusal.Syntax → IsOfText rest.now → (c : Command) → Completes (letters word) rest.now c → ⊥ }
{
    match word {
        CommandWord::Delete => delete(alloc, rest),
        CommandWord::Drop => drop_command(alloc, rest),
        CommandWord::Dump => dump(alloc, rest),
        CommandWord::Index => index(alloc, rest),
        CommandWord::Insert => insert(alloc, rest),
        CommandWord::Load => load(alloc, rest),
        CommandWord::Select => select(alloc, rest),
        CommandWord::Table => table(alloc, rest),
        CommandWord::Tables => tables(rest),
        CommandWord::Update => update(alloc, rest),
    }
}

/// The command that a line spells, or where it stops to spell one.
///
/// The error is `Syntax` where the line spells none, and `NoMemory` where a growth was refused.
pub fn parse_or_stop(alloc: Global, line: &Line<'_>) -> Result<Command, Stopped>
    ensures command { IfOk result (λ c. Spells line.now c) }
    ensures syntax { IsErrOf result ParseRefusal.Syntax → (c : Command) → Spells line.now c → ⊥ }
{
    let Some(word) = command_word(line.word()) else {
        return Err(Stopped::at(line.as_str().as_bytes(), LinePlace::Command));
    };
    command(alloc, word, line.rest())
}

/// The command that a line spells.
///
/// The error is `Syntax` where the line spells none, and `NoMemory` where a growth was refused.
pub fn parse(alloc: Global, line: &Line<'_>) -> Result<Command, ParseRefusal>
    ensures command { IfOk result (λ c. Spells line.now c) }
    ensures syntax { IsErrOf result ParseRefusal.Syntax → (c : Command) → Spells line.now c → ⊥ }
{
    Ok(parse_or_stop(alloc, line)?)
}

/// The length of the block that follows a line: the count of bytes of the load that the line spells, if it spells one.
/// No memory is taken.
pub fn block_length(line: &Line<'_>) -> Option<u64>
    ensures { MatchOption result ((n : ℕ) (table : List ℕ) → ¬ (Spells line.now (Load table n))) (λ n. (table : List ℕ) × Spells line.now (Load table n)) }
{
    let is_load = line.word() == b"load".as_slice();
    if !is_load {
        return None;
    }
    let behind_name = after_name(line.rest())?;
    only_count(behind_name).ok()
}

// NAME ( COLUMN {, COLUMN} )
fn table(alloc: Global, line: &[u8]) -> Result<Command, Stopped>
    ensures command { IfOk result (λ c. Completes (codes "table") line.now c) }
    ensures syntax { IsErrOf result ParseRefusal.Syntax → IsOfText line.now → (c : Command) → Completes (codes "table") line.now c → ⊥ }
{
    let (name, columns) = name_and_list(alloc, line, LinePlace::Columns, LinePlace::Column)?;
    Ok(Command::Table {
        name,
        schema: Schema {
            columns: Sequence::from_vec(columns),
        },
    })
}

// table NAME, or index NAME NAME KIND
fn drop_command(alloc: Global, line: &[u8]) -> Result<Command, Stopped>
    ensures command { IfOk result (λ c. Completes (codes "drop") line.now c) }
    ensures syntax { IsErrOf result ParseRefusal.Syntax → (c : Command) → Completes (codes "drop") line.now c → ⊥ }
{
    if let Some(front) = after(line, b"table") {
        let table = only_name(alloc, front)?;
        return Ok(Command::DropTable { table });
    }
    let front = expect(line, b"index", LinePlace::Dropped)?;
    let (table, column, kind) = index_parts(alloc, front)?;
    Ok(Command::DropIndex {
        table,
        column,
        kind,
    })
}

// NAME NAME KIND
fn index(alloc: Global, line: &[u8]) -> Result<Command, Stopped>
    ensures command { IfOk result (λ c. Completes (codes "index") line.now c) }
    ensures syntax { IsErrOf result ParseRefusal.Syntax → (c : Command) → Completes (codes "index") line.now c → ⊥ }
{
    let (table, column, kind) = index_parts(alloc, line)?;
    Ok(Command::Index {
        table,
        column,
        kind,
    })
}

// the end of the line
fn tables(line: &[u8]) -> Result<Command, Stopped>
    ensures command { IfOk result (λ c. Completes (codes "tables") line.now c) }
    ensures syntax { IsErrOf result ParseRefusal.Syntax → (c : Command) → Completes (codes "tables") line.now c → ⊥ }
{
    end(line, LinePlace::End)?;
    Ok(Command::Tables)
}

// NAME COUNT
fn load(alloc: Global, line: &[u8]) -> Result<Command, Stopped>
    ensures command { IfOk result (λ c. Completes (codes "load") line.now c) }
    ensures syntax { IsErrOf result ParseRefusal.Syntax → (c : Command) → Completes (codes "load") line.now c → ⊥ }
{
    let (table, rest) = name(alloc, line, LinePlace::Table)?;
    let bytes = only_count(rest)?;
    Ok(Command::Load { table, bytes })
}

// NAME
fn dump(alloc: Global, line: &[u8]) -> Result<Command, Stopped>
    ensures command { IfOk result (λ c. Completes (codes "dump") line.now c) }
    ensures syntax { IsErrOf result ParseRefusal.Syntax → (c : Command) → Completes (codes "dump") line.now c → ⊥ }
{
    let table = only_name(alloc, line)?;
    Ok(Command::Dump { table })
}

// NAME ( VALUE {, VALUE} )
fn insert(alloc: Global, line: &[u8]) -> Result<Command, Stopped>
    ensures command { IfOk result (λ c. Completes (codes "insert") line.now c) }
    ensures syntax { IsErrOf result ParseRefusal.Syntax → IsOfText line.now → (c : Command) → Completes (codes "insert") line.now c → ⊥ }
{
    let (table, values) = name_and_list(alloc, line, LinePlace::Values, LinePlace::Value)?;
    Ok(Command::Insert {
        table,
        values: Sequence::from_vec(values),
    })
}

// NAME set NAME = VALUE {, NAME = VALUE} [where ..]
fn update(alloc: Global, line: &[u8]) -> Result<Command, Stopped>
    ensures command { IfOk result (λ c. Completes (codes "update") line.now c) }
    ensures syntax { IsErrOf result ParseRefusal.Syntax → IsOfText line.now → (c : Command) → Completes (codes "update") line.now c → ⊥ }
{
    let (table, settings, conditions) = update_parts(alloc, line)?;
    Ok(Command::Update {
        table,
        settings: Sequence::from_vec(settings),
        conditions: Sequence::from_vec(conditions),
    })
}

// NAME [where ..]
fn delete(alloc: Global, line: &[u8]) -> Result<Command, Stopped>
    ensures command { IfOk result (λ c. Completes (codes "delete") line.now c) }
    ensures syntax { IsErrOf result ParseRefusal.Syntax → IsOfText line.now → (c : Command) → Completes (codes "delete") line.now c → ⊥ }
{
    let (table, conditions) = delete_parts(alloc, line)?;
    Ok(Command::Delete {
        table,
        conditions: Sequence::from_vec(conditions),
    })
}

// [distinct] ITEMS from NAME {join ..} [where ..]
fn select(alloc: Global, line: &[u8]) -> Result<Command, Stopped>
    ensures command { IfOk result (λ c. Completes (codes "select") line.now c) }
    ensures syntax { IsErrOf result ParseRefusal.Syntax → IsOfText line.now → (c : Command) → Completes (codes "select") line.now c → ⊥ }
{
    let parts = select_parts(alloc, line)?;
    Ok(Command::Select {
        distinct: parts.distinct,
        items: parts.items,
        table: parts.table,
        joins: Sequence::from_vec(parts.joins),
        conditions: Sequence::from_vec(parts.conditions),
    })
}

// NAME set SETTING {, SETTING} [where ..]
pub(crate) fn update_parts<S: Item, C: Item>(
    alloc: Global,
    line: &[u8],
) -> Result<(Text, Vec<S>, Vec<C>), Stopped>
    ensures parts { IfOk result (λ r. IsUpdate S.symbols C.symbols line.now r.0 r.1.items r.2.items) }
    ensures syntax { IsErrOf result ParseRefusal.Syntax → IsOfText line.now → (table : List ℕ) (ss : List S) (cs : List C) → IsUpdate S.symbols C.symbols line.now table ss cs → ⊥ }
{
    let (table, behind_name) = name(alloc, line, LinePlace::Table)?;
    let front = expect(behind_name, b"set", LinePlace::Set)?;
    let (settings, rest) = list(alloc, front, b",", LinePlace::Column, LinePlace::Column)?;
    let conditions = conditions(alloc, rest, LinePlace::BehindSetting)?;
    Ok((table, settings, conditions))
}

// NAME [where ..]
pub(crate) fn delete_parts<C: Item>(alloc: Global, line: &[u8]) -> Result<(Text, Vec<C>), Stopped>
    ensures parts { IfOk result (λ r. IsDelete C.symbols line.now r.0 r.1.items) }
    ensures syntax { IsErrOf result ParseRefusal.Syntax → IsOfText line.now → (table : List ℕ) (cs : List C) → IsDelete C.symbols line.now table cs → ⊥ }
{
    let (table, rest) = name(alloc, line, LinePlace::DeletedTable)?;
    let conditions = conditions(alloc, rest, LinePlace::BehindDeletedTable)?;
    Ok((table, conditions))
}

/// What stands behind the first word of a select.
#[derive(Drop)]
pub(crate) struct SelectParts<C> {
    pub(crate) distinct: bool,
    pub(crate) items: Items,
    pub(crate) table: Text,
    pub(crate) joins: Vec<Join>,
    pub(crate) conditions: Vec<C>,
}

// [distinct] ITEMS from NAME {join ..} [where ..]
pub(crate) fn select_parts<C: Item>(alloc: Global, line: &[u8]) -> Result<SelectParts<C>, Stopped>
    ensures parts { IfOk result (λ s. IsSelect C.symbols line.now s.distinct s.items s.table s.joins.items s.conditions.items) }
    ensures syntax { IsErrOf result ParseRefusal.Syntax → IsOfText line.now → (d : Bool) (i : Items) (table : List ℕ) (js : List Join) (cs : List C) → IsSelect C.symbols line.now d i table js cs → ⊥ }
{
    let (distinct, front) = distinct(line);
    let (items, rest) = items(alloc, front, first_item(distinct))?;
    let (table, joins, conditions) = from(alloc, rest, behind_items(&items))?;
    Ok(SelectParts {
        distinct,
        items,
        table,
        joins,
        conditions,
    })
}

// distinct, or nothing
fn distinct(line: &[u8]) -> (bool, &[u8])
    ensures { BeginsWithDistinct line.now result.0 result.1.now }
{
    match after(line, b"distinct") {
        Some(rest) => (true, rest),
        None => (false, line),
    }
}

// The place of the first item of a select.
fn first_item(distinct: bool) -> LinePlace {
    if distinct {
        LinePlace::Distinct
    } else {
        LinePlace::Select
    }
}

// * or NAME {, NAME}
fn items(alloc: Global, line: &[u8], place: LinePlace) -> Result<(Items, &[u8]), Stopped>
    ensures items { IfOk result (λ r. BeginsWithItems line.now r.0 r.1.now) }
    ensures syntax { IsErrOf result ParseRefusal.Syntax → BeginsWithNoItems line.now }
{
    match after(line, b"*") {
        Some(rest) => Ok((Items::All, rest)),
        None => {
            let (names, rest) = list(alloc, line, b",", place, LinePlace::Column)?;
            Ok((Items::Named(Sequence::from_vec(names)), rest))
        }
    }
}

// The place behind the items of a select.
fn behind_items(items: &Items) -> LinePlace {
    match items {
        Items::All => LinePlace::From,
        Items::Named(names) => behind_last(names.as_slice()),
    }
}

// from NAME {join ..} [where ..], and the end of the line
fn from<C: Item>(
    alloc: Global,
    line: &[u8],
    place: LinePlace,
) -> Result<(Text, Vec<Join>, Vec<C>), Stopped>
    ensures parts { IfOk result (λ r. IsFrom C.symbols line.now r.0 r.1.items r.2.items) }
    ensures syntax { IsErrOf result ParseRefusal.Syntax → IsOfText line.now → (table : List ℕ) (js : List Join) (cs : List C) → IsFrom C.symbols line.now table js cs → ⊥ }
{
    let front = expect(line, b"from", place)?;
    let (table, behind_table) = name(alloc, front, LinePlace::Table)?;
    let (joins, rest) = joins(alloc, behind_table)?;
    let conditions = conditions(alloc, rest, LinePlace::BehindTable)?;
    Ok((table, joins, conditions))
}

// where CONDITION {and CONDITION}, or nothing, and the end of the line
fn conditions<C: Item>(alloc: Global, line: &[u8], place: LinePlace) -> Result<Vec<C>, Stopped>
    ensures conditions { IfOk result (λ v. IsWhere C.symbols line.now v.items) }
    ensures syntax { IsErrOf result ParseRefusal.Syntax → IsOfText line.now → (cs : List C) → IsWhere C.symbols line.now cs → ⊥ }
{
    let Some(front) = after(line, b"where") else {
        end(line, place)?;
        return Ok(Vec::new(alloc));
    };
    let (conditions, rest) = list(alloc, front, b"and", LinePlace::Column, LinePlace::Column)?;
    end(rest, LinePlace::BehindCondition)?;
    Ok(conditions)
}

// NAME, and the end of the line
fn only_name(alloc: Global, line: &[u8]) -> Result<Text, Stopped>
    ensures name { IfOk result (λ name. IsWhole line.now (Name name ∷ [])) }
    ensures syntax { IsErrOf result ParseRefusal.Syntax → (name : List ℕ) → IsWhole line.now (Name name ∷ []) → ⊥ }
{
    let (name, rest) = name(alloc, line, LinePlace::Table)?;
    end(rest, LinePlace::End)?;
    Ok(name)
}

// COUNT, and the end of the line
fn only_count(line: &[u8]) -> Result<u64, Stopped>
    ensures { MatchResult result (λ n. IsWhole line.now (Count n ∷ [])) (λ _. (n : ℕ) → IsWhole line.now (Count n ∷ []) → ⊥) }
{
    let (characters, rest) = split_lexeme(line);
    let Some(number) = count(characters) else {
        return Err(Stopped::at(line, LinePlace::Count));
    };
    end(rest, LinePlace::End)?;
    Ok(number)
}

// NAME NAME KIND, an index, and the end of the line
fn index_parts(alloc: Global, line: &[u8]) -> Result<(Text, Text, IndexKind), Stopped>
    ensures parts { IfOk result (λ r. IsWhole line.now (index_symbols r.0 r.1 r.2)) }
    ensures syntax { IsErrOf result ParseRefusal.Syntax → (table column : List ℕ) (k : IndexKind) → IsWhole line.now (index_symbols table column k) → ⊥ }
{
    let (table, behind_table) = name(alloc, line, LinePlace::Table)?;
    let (column, behind_column) = name(alloc, behind_table, LinePlace::IndexedColumn)?;
    let (kind, rest) = index_kind(behind_column)?;
    end(rest, LinePlace::End)?;
    Ok((table, column, kind))
}

// NAME ( ITEM {, ITEM} ), with the parenthesis and the items at these places
pub(crate) fn name_and_list<T: Item>(
    alloc: Global,
    line: &[u8],
    opening: LinePlace,
    place: LinePlace,
) -> Result<(Text, Vec<T>), Stopped>
    ensures both { IfOk result (λ r. IsNameAndList T.symbols line.now r.0 r.1.items) }
    ensures syntax { IsErrOf result ParseRefusal.Syntax → IsOfText line.now → (name : List ℕ) (xs : List T) → IsNameAndList T.symbols line.now name xs → ⊥ }
{
    let (name, behind_name) = name(alloc, line, LinePlace::Table)?;
    let front = expect(behind_name, b"(", opening)?;
    let (items, behind_items) = list(alloc, front, b",", place, place)?;
    let rest = expect(behind_items, b")", behind_last(items.as_slice()))?;
    end(rest, LinePlace::End)?;
    Ok((name, items))
}

// Refuses a line that isn't blanks alone.
fn end(line: &[u8], place: LinePlace) -> Result<(), Stopped>
    ensures { MatchResult result (λ _. lexeme line.now ≡ []) (λ _. lexeme line.now ≢ []) }
{
    let (characters, _) = split_lexeme(line);
    if characters.is_empty() {
        Ok(())
    } else {
        Err(Stopped::at(line, place))
    }
}
