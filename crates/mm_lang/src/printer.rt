//! The canonical spelling of a command.

ghost use Rattle.std.specs.Prelude.{◌≡◌, ◌++◌, ◌∷◌, [], codes, map, IfOk, OnOk};
ghost use Rattle.std.specs.String.{string_bytes};
ghost use Rattle.plain_tables.specs.Spelling.{Keyword, Sign, Open, Close, separated, index_word, index_symbols, distinct_symbols, items_symbols, where_symbols, symbols_of, spaced, canonical_spelling};
ghost use Rattle.plain_tables.specs.declared.command.Command.TheVariants as command;
ghost use Rattle.mm_lang.specs.Printing.{behind};

use crate::items::{PrintedItem, push_list};
use crate::joins::push_joins;
use crate::numbers::push_count;
use crate::sink::Sink;
use plain_tables::{
    Command, Cond, IndexKind, Items, Join, NoMemory, Schema, Sequence, Setting, Text,
};
use std::alloc::Global;

/// The canonical spelling of a command.
///
/// For a command that can be spelled, the canonical spelling spells that command and no other, so `parse` gives the
/// command again where no growth is refused.
pub fn print(alloc: Global, command: &Command) -> Result<String, NoMemory>
    ensures { IfOk result (λ text. string_bytes text ≡ canonical_spelling command.now) }
{
    let mut line = String::new(alloc);
    push_command(&mut line, command)?;
    Ok(line)
}

fn push_command<S: Sink>(line: &mut S, command: &Command) -> Result<(), NoMemory>
    ensures { OnOk result (S.held line.new ≡ S.held line.old ++ canonical_spelling command.now) }
{
    match command {
        Command::Table { name, schema } => print_table(line, name.as_str(), schema),
        Command::DropTable { table } => push_drop_table(line, table),
        Command::Index {
            table,
            column,
            kind,
        } => print_index(line, table.as_str(), column.as_str(), *kind),
        Command::DropIndex {
            table,
            column,
            kind,
        } => push_index(line, "drop index ", table.as_str(), column.as_str(), *kind),
        Command::Insert { table, values } => {
            push_name_and_list(line, "insert ", table.as_str(), values.as_slice())
        }
        Command::Update {
            table,
            settings,
            conditions,
        } => push_update(line, table, settings.as_slice(), conditions.as_slice()),
        Command::Delete { table, conditions } => push_delete(line, table, conditions.as_slice()),
        Command::Select {
            distinct,
            items,
            table,
            joins,
            conditions,
        } => push_select(line, *distinct, items, table, joins, conditions),
        Command::Load { table, bytes } => print_load(line, table.as_str(), *bytes),
        Command::Dump { table } => push_dump(line, table),
        Command::Tables => {
            line.push_str("tables")?;
            Ok(())
        }
    }
}

/// Puts the canonical spelling of the command that declares a table behind the line.
pub fn print_table<S: Sink>(line: &mut S, name: &str, schema: &Schema) -> Result<(), NoMemory>
    ensures { OnOk result (S.held line.new ≡ S.held line.old ++ canonical_spelling (command.Table name.now schema.now)) }
{
    push_name_and_list(line, "table ", name, schema.columns.as_slice())
}

/// Puts the canonical spelling of the command that declares an index behind the line.
pub fn print_index<S: Sink>(
    line: &mut S,
    table: &str,
    column: &str,
    kind: IndexKind,
) -> Result<(), NoMemory>
    ensures { OnOk result (S.held line.new ≡ S.held line.old ++ canonical_spelling (command.Index table.now column.now kind)) }
{
    push_index(line, "index ", table, column, kind)
}

/// Puts the canonical spelling of the command that loads a block of so many bytes behind the line.
pub fn print_load<S: Sink>(line: &mut S, table: &str, bytes: u64) -> Result<(), NoMemory>
    ensures { OnOk result (S.held line.new ≡ S.held line.old ++ canonical_spelling (command.Load table.now bytes)) }
{
    line.push_str("load ")?;
    line.push_str(table)?;
    line.push_str(" ")?;
    push_count(line, bytes)
}

// WORD NAME ( ITEM {, ITEM} )
fn push_name_and_list<T: PrintedItem, S: Sink>(
    line: &mut S,
    word: &str,
    name: &str,
    items: &[T],
) -> Result<(), NoMemory>
    ensures { OnOk result (S.held line.new ≡ S.held line.old ++ (word.now ++ (name.now ++ behind (Sign Open ∷ separated (map T.symbols items.now) ++ Sign Close ∷ [])))) }
{
    line.push_str(word)?;
    line.push_str(name)?;
    line.push_str(" (")?;
    push_list(line, items, ", ")?;
    line.push_str(")")?;
    Ok(())
}

fn push_drop_table<S: Sink>(line: &mut S, table: &Text) -> Result<(), NoMemory>
    ensures { OnOk result (S.held line.new ≡ S.held line.old ++ spaced (symbols_of (command.DropTable table.now))) }
{
    line.push_str("drop table ")?;
    line.push_str(table.as_str())?;
    Ok(())
}

fn push_dump<S: Sink>(line: &mut S, table: &Text) -> Result<(), NoMemory>
    ensures { OnOk result (S.held line.new ≡ S.held line.old ++ spaced (symbols_of (command.Dump table.now))) }
{
    line.push_str("dump ")?;
    line.push_str(table.as_str())?;
    Ok(())
}

// The word for a kind of index.
fn index_str(kind: IndexKind) -> &'static str
    ensures { result.now ≡ index_word kind }
{
    match kind {
        IndexKind::Tree => "tree",
        IndexKind::Hash => "hash",
    }
}

// WORD NAME NAME KIND
fn push_index<S: Sink>(
    line: &mut S,
    word: &str,
    table: &str,
    column: &str,
    kind: IndexKind,
) -> Result<(), NoMemory>
    ensures { OnOk result (S.held line.new ≡ S.held line.old ++ (word.now ++ spaced (index_symbols table.now column.now kind))) }
{
    line.push_str(word)?;
    line.push_str(table)?;
    line.push_str(" ")?;
    line.push_str(column)?;
    line.push_str(" ")?;
    line.push_str(index_str(kind))?;
    Ok(())
}

fn push_update<S: Sink>(
    line: &mut S,
    table: &Text,
    settings: &[Setting],
    conditions: &[Cond],
) -> Result<(), NoMemory>
    ensures { OnOk result (S.held line.new ≡ S.held line.old ++ spaced (symbols_of (command.Update table.now settings.now conditions.now))) }
{
    line.push_str("update ")?;
    line.push_str(table.as_str())?;
    line.push_str(" set")?;
    push_behind(line, settings)?;
    push_where(line, conditions)
}

fn push_delete<S: Sink>(line: &mut S, table: &Text, conditions: &[Cond]) -> Result<(), NoMemory>
    ensures { OnOk result (S.held line.new ≡ S.held line.old ++ spaced (symbols_of (command.Delete table.now conditions.now))) }
{
    line.push_str("delete ")?;
    line.push_str(table.as_str())?;
    push_where(line, conditions)
}

// The first words of a select.
fn select_str(distinct: bool) -> &'static str
    ensures { result.now ≡ spaced (Keyword (codes "select") ∷ distinct_symbols distinct) }
{
    if distinct {
        "select distinct"
    } else {
        "select"
    }
}

fn push_select<S: Sink>(
    line: &mut S,
    distinct: bool,
    items: &Items,
    table: &Text,
    joins: &Sequence<Join>,
    conditions: &Sequence<Cond>,
) -> Result<(), NoMemory>
    ensures { OnOk result (S.held line.new ≡ S.held line.old ++ spaced (symbols_of (command.Select distinct items.now table.now joins.now conditions.now))) }
{
    line.push_str(select_str(distinct))?;
    push_items(line, items)?;
    line.push_str(" from ")?;
    line.push_str(table.as_str())?;
    push_joins(line, joins.as_slice())?;
    push_where(line, conditions.as_slice())
}

// * or NAME {, NAME}
fn push_items<S: Sink>(line: &mut S, items: &Items) -> Result<(), NoMemory>
    ensures { OnOk result (S.held line.new ≡ S.held line.old ++ behind (items_symbols items.now)) }
{
    match items {
        Items::All => {
            line.push_str(" *")?;
            Ok(())
        }
        Items::Named(names) => push_behind(line, names.as_slice()),
    }
}

// ITEM {, ITEM}, behind another symbol
fn push_behind<T: PrintedItem, S: Sink>(line: &mut S, items: &[T]) -> Result<(), NoMemory>
    ensures { OnOk result (S.held line.new ≡ S.held line.old ++ behind (separated (map T.symbols items.now))) }
{
    if items.is_empty() {
        return Ok(());
    }
    line.push_str(" ")?;
    push_list(line, items, ", ")
}

// where CONDITION {and CONDITION}, behind another symbol, or nothing
fn push_where<S: Sink>(line: &mut S, conditions: &[Cond]) -> Result<(), NoMemory>
    ensures { OnOk result (S.held line.new ≡ S.held line.old ++ behind (where_symbols conditions.now)) }
{
    if conditions.is_empty() {
        return Ok(());
    }
    line.push_str(" where ")?;
    push_list(line, conditions, " and ")
}
