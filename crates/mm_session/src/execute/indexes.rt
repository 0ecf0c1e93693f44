//! How the indexes of a table stand, as records.

ghost use Rattle.std.specs.Prelude.{◌≡◌, ◌++◌, ◌<◌, ℕ, Some, length, position, IfOk, IfErr, OnOk};
ghost use Rattle.std.specs.List.{flat_map};
ghost use Rattle.plain_tables.specs.Databases.{is_named};
ghost use Rattle.plain_tables.specs.Spelling.{index_word};
ghost use Rattle.mm_catalog.specs.Indexes.{kind_of};
ghost use Rattle.mm_catalog.specs.Seen.{database_of};
ghost use Rattle.mm_session.specs.IndexAnswers.{column_name, fill_of, numbers_of, number_field, index_line, AddsRecords, AddsIndexes, TellsNothing, AnswersIndexes};

use super::ReadExecutor;
use crate::answer::Answer;
use crate::answer::records::push_count;
use mm_catalog::{Catalog, IndexShape, TableIndex};
use no_memory::NoMemory;
use plain_tables::{Column, ColumnNumber, Refusal, TableNumber, Text};

// The names of what a record has.
const HEADING: &[u8] = b"column,kind,rows,height,nodes,fill,buckets,longest\n";

// The numbers of a record behind the kind.
const NUMBERS: usize = 6;

// How many references a node of a tree has in the mean, rounded down.
fn fill(nodes: usize, items: usize) -> usize
    ensures { result ≡ fill_of nodes items }
{
    if nodes == 0 { 0 } else { items / nodes }
}

// The word of a shape's kind.
fn kind(shape: IndexShape) -> &'static str
    ensures { result.now ≡ index_word (kind_of shape) }
{
    match shape {
        IndexShape::Tree(_) => "tree",
        IndexShape::Hash(_) => "hash",
    }
}

// The numbers of a shape, each where its kind has it.
fn numbers(shape: IndexShape) -> [Option<usize>; NUMBERS]
    ensures { result ≡ numbers_of shape }
{
    match shape {
        IndexShape::Tree(tree) => [
            Some(tree.items),
            Some(tree.height),
            Some(tree.nodes),
            Some(fill(tree.nodes, tree.items)),
            None,
            None,
        ],
        IndexShape::Hash(hash) => [
            Some(hash.items),
            None,
            None,
            None,
            Some(hash.buckets),
            Some(hash.longest),
        ],
    }
}

// A number behind a comma, or the comma alone.
fn push_number(answer: &mut Answer, number: Option<usize>) -> Result<(), NoMemory>
    ensures { OnOk result (answer.new ≡ answer.old ++ number_field number) }
{
    answer.push(b",")?;
    match number {
        Some(number) => answer.push_number(number as u64),
        None => Ok(()),
    }
}

// Numbers, each behind a comma.
fn push_numbers(answer: &mut Answer, numbers: &[Option<usize>]) -> Result<(), NoMemory>
    ensures { OnOk result (answer.new ≡ answer.old ++ flat_map number_field numbers.now) }
{
    for number in numbers {
        push_number(answer, *number)?;
    }
    Ok(())
}

// The name of a column.
fn name_in(columns: &[Column], column: ColumnNumber) -> &str
    ensures { result.now ≡ column_name columns.now column.0 }
{
    match columns.get(column.0) {
        Some(column) => column.name.as_str(),
        None => "",
    }
}

// The record of an index.
fn push_index(answer: &mut Answer, columns: &[Column], index: TableIndex) -> Result<(), NoMemory>
    ensures { OnOk result (answer.new ≡ answer.old ++ index_line columns.now index) }
{
    answer.push(name_in(columns, index.column).as_bytes())?;
    answer.push(b",")?;
    answer.push(kind(index.shape).as_bytes())?;
    push_numbers(answer, &numbers(index.shape))?;
    answer.push(b"\n")
}

// A record for each index of a table.
fn push_indexes(answer: &mut Answer, catalog: &Catalog, table: TableNumber) -> Result<(), NoMemory>
    requires { table.0 < length (database_of catalog.now) }
    ensures { OnOk result (AddsRecords catalog.now table.0 answer.old answer.new) }
{
    let columns = catalog.columns(table);
    for number in 0..catalog.index_count(table) {
        push_index(answer, columns, catalog.index_at(table, number))?;
    }
    Ok(())
}

impl ReadExecutor {
    // Adds how the indexes of a table stand.
    fn list_indexes(
        &self,
        catalog: &Catalog,
        table: TableNumber,
        answer: &mut Answer,
    ) -> Result<(), NoMemory>
        requires { table.0 < length (database_of catalog.now) }
        ensures { OnOk result (AddsIndexes catalog.now table.0 answer.old answer.new) }
    {
        push_count(answer, catalog.index_count(table))?;
        answer.push(HEADING)?;
        push_indexes(answer, catalog, table)
    }

    // The table of a name.
    pub fn table_named(&self, catalog: &Catalog, name: &[u8]) -> Result<TableNumber, Refusal>
        ensures found { IfOk result (λ table. position (is_named name.now) (database_of catalog.now) ≡ Some table.0) }
        ensures refused { IfErr result (TellsNothing catalog.now name.now) }
    {
        let Ok(text) = std::str::from_utf8(name) else {
            return Err(Refusal::NotUtf8);
        };
        let name = Text::from_str(self.alloc, text)?;
        match catalog.table_number(&name) {
            Some(table) => Ok(table),
            None => Err(Refusal::NoSuchTable),
        }
    }

    // Adds how the indexes of the table of a name stand.
    fn list_named(&self, catalog: &Catalog, name: &[u8], answer: &mut Answer) -> Result<(), Refusal>
        ensures told { OnOk result ((table : ℕ) × (position (is_named name.now) (database_of catalog.now) ≡ Some table) × AddsIndexes catalog.now table answer.old answer.new) }
        ensures refused { IfErr result (TellsNothing catalog.now name.now) }
    {
        let table = self.table_named(catalog, name)?;
        self.list_indexes(catalog, table, answer)?;
        Ok(())
    }

    /// Makes the answer how the indexes of the table of a name stand.
    pub fn tell_indexes(&self, catalog: &Catalog, name: &[u8], answer: &mut Answer)
        ensures { AnswersIndexes catalog.now name.now answer.new }
    {
        answer.clear();
        let Err(refusal) = self.list_named(catalog, name, answer) else {
            return;
        };
        answer.refuse(refusal);
    }
}
