//! Dump: the rows of one table as a block of CSV.

ghost use Rattle.std.specs.Prelude.{◌≡◌, ◌++◌, ◌<◌, ◌≤◌, ℕ, [], List, Some, IsSome, IfOk, IfErr, OnOk, length, map, slice_get, ◌⊎◌};
ghost use Rattle.std.specs.FinMap as finite;
ghost use Rattle.std.specs.Io.KnownBytes.{Appends};
ghost use Rattle.std.specs.List.{flat_map};
ghost use Rattle.plain_tables.specs.AnswerText.{answer_text, text_line};
ghost use Rattle.plain_tables.specs.Csv.{row_record};
ghost use Rattle.plain_tables.specs.Doing.{done, dump_block};
ghost use Rattle.plain_tables.specs.Effects.{Refused, column_names};
ghost use Rattle.plain_tables.specs.Spelling.{canonical_spelling};
ghost use Rattle.plain_tables.specs.Tables.{Table};
ghost use Rattle.plain_tables.specs.declared.command.Command.TheVariants as command;
ghost use Rattle.plain_tables.specs.declared.refusal.Refusal.TheVariants as refusal;
ghost use Rattle.plain_tables.specs.declared.resolved.Resolved.TheVariants as resolved;
ghost use Rattle.mm_relation.specs.State.{tree_list};
ghost use Rattle.mm_catalog.specs.Picked.{seen_values};
ghost use Rattle.mm_catalog.specs.Seen.{database_of};
ghost use Rattle.mm_session.specs.Dumps.{IsWithin, IsPast, GoesOnWithin, GoesPast, IsGivenUp};

use super::ReadExecutor;
use super::rows::push_whole;
use super::sink::{Records, RowSink};
use crate::answer::Answer;
use mm_catalog::Catalog;
use mm_catalog::laws::a_catalog_is_consistent;
use mm_csv::RecordWriter;
use mm_lang::print_load;
use mm_relation::laws::a_relation_is_kept;
use mm_relation::{Relation, Relations, TupleRef};
use no_memory::NoMemory;
use plain_tables::{Column, Refusal, TableNumber, Text};
use std::alloc::Global;
use std::mem;

/// The names of columns.
pub fn names_of(alloc: Global, columns: &[Column]) -> Result<Vec<Text>, NoMemory>
    ensures { IfOk result (λ names. names.items ≡ column_names columns.now) }
{
    let mut names = Vec::with_capacity(alloc, columns.len())?;
    for column in columns {
        names.push(Text::from_str(alloc, column.name.as_str())?)?;
    }
    Ok(names)
}

// Refuses a front of a block that is past the limit.
fn check_length(front: &Answer, limit: usize) -> Result<(), Refusal>
    ensures within { OnOk result (IsWithin limit (Some front.now)) }
    ensures past { IfErr result (λ e. (e ≡ refusal.DumpTooLong) × IsPast limit (Some front.now)) }
{
    if front.len() > limit {
        return Err(Refusal::DumpTooLong);
    }
    Ok(())
}

/// Puts the record of a row behind those that are written.
pub fn push_record<'a>(
    records: &mut Records<'a>,
    catalog: &'a Catalog,
    relation: &'a Relation,
    r: TupleRef,
) -> Result<(), NoMemory>
    requires ended { records.old.part ≡ [] }
    requires some { 0 < length relation.now.schema.columns }
    requires held { IsSome (finite.get relation.now.rows r) }
    requires lent { (n : ℕ) × (slice_get catalog.now.relations n ≡ Some relation.now) }
    ensures written { OnOk result (Appends records.old.bytes records.new.bytes (row_record (seen_values catalog.now relation.now r))) }
    ensures ended { OnOk result (records.new.part ≡ []) }
{
    push_whole(records, catalog, relation, r)?;
    records.end_row()
}

// Puts the record of a row behind a front of a block that is within the limit, and refuses the block where it is past it then.
fn push_within<'a>(
    records: &mut Records<'a>,
    limit: usize,
    catalog: &'a Catalog,
    relation: &'a Relation,
    r: TupleRef,
) -> Result<(), Refusal>
    requires within { IsWithin limit records.old.bytes }
    requires ended { records.old.part ≡ [] }
    requires some { 0 < length relation.now.schema.columns }
    requires held { IsSome (finite.get relation.now.rows r) }
    requires lent { (n : ℕ) × (slice_get catalog.now.relations n ≡ Some relation.now) }
    ensures pushed { OnOk result (GoesOnWithin limit records.old.bytes records.new.bytes (row_record (seen_values catalog.now relation.now r))) }
    ensures ended { OnOk result (records.new.part ≡ []) }
    ensures refused { IfErr result (λ e. (e ≡ refusal.NoMemory) ⊎ ((e ≡ refusal.DumpTooLong) × GoesPast limit records.old.bytes records.new.bytes (row_record (seen_values catalog.now relation.now r)))) }
{
    push_record(records, catalog, relation, r)?;
    check_length(records.written(), limit)
}

/// Puts the line that loads the block into the table in front of the block, which begins at an index of the answer.
pub fn insert_load_line(
    alloc: Global,
    name: &str,
    start: usize,
    answer: &mut Answer,
) -> Result<(), NoMemory>
    requires { start ≤ length answer.old }
    ensures { OnOk result ((page block : List ℕ) → answer.old ≡ page ++ block → length page ≡ start → answer.new ≡ page ++ (text_line (canonical_spelling (command.Load name.now (length block))) ++ block)) }
{
    let bytes = answer.len() - start;
    let mut line = String::new(alloc);
    print_load(&mut line, name, bytes as u64)?;
    line.push_str("\n")?;
    answer.insert(start, line.as_bytes())
}

impl ReadExecutor {
    // Each row as a record, in the order of their keys, behind a front of a block that is within the limit. The record that takes
    // the block past it is the last that is made.
    fn push_rows<'a>(
        &self,
        catalog: &'a Catalog,
        records: &mut Records<'a>,
        limit: usize,
        relation: &'a Relation,
    ) -> Result<(), Refusal>
        requires within { IsWithin limit records.old.bytes }
        requires ended { records.old.part ≡ [] }
        requires some { 0 < length relation.now.schema.columns }
        requires lent { (n : ℕ) × (slice_get catalog.now.relations n ≡ Some relation.now) }
        ensures pushed { OnOk result (GoesOnWithin limit records.old.bytes records.new.bytes (flat_map row_record (map (seen_values catalog.now relation.now) (tree_list relation.now.by_key)))) }
        ensures refused { IfErr result (λ e. (e ≡ refusal.NoMemory) ⊎ ((e ≡ refusal.DumpTooLong) × IsGivenUp limit records.old.bytes records.new.bytes (map (seen_values catalog.now relation.now) (tree_list relation.now.by_key)))) }
    {
        a_relation_is_kept(relation);
        for r in relation.walk() {
            push_within(records, limit, catalog, relation, r)?;
        }
        Ok(())
    }

    // The page with the block of a table behind it: the names of its columns, and its rows. Where the block passes its limit, it is
    // given up on the way.
    fn with_block_of(
        &self,
        catalog: &Catalog,
        page: Answer,
        table: TableNumber,
    ) -> Result<Answer, Refusal>
        requires { table.0 < length (database_of catalog.now) }
        ensures whole { IfOk result (λ whole. (t : Table) → slice_get (database_of catalog.now) table.0 ≡ Some t → (whole ≡ page ++ dump_block t) × (length (dump_block t) ≤ catalog.now.limits.block)) }
        ensures refused { IfErr result (λ e. (e ≡ refusal.NoMemory) ⊎ ((e ≡ refusal.DumpTooLong) × ((t : Table) → slice_get (database_of catalog.now) table.0 ≡ Some t → catalog.now.limits.block < length (dump_block t)))) }
    {
        a_catalog_is_consistent(catalog);
        let relation = catalog.at(table);
        let limit = page.len() + catalog.limits().block as usize;
        let names = names_of(self.alloc, relation.schema().columns.as_slice())?;
        let mut writer = RecordWriter::new(self.alloc, page);
        writer.push_names(&names)?;
        check_length(writer.get_ref(), limit)?;
        let mut records = Records::new(self.alloc, writer, names.len())?;
        self.push_rows(catalog, &mut records, limit, relation)?;
        let (whole, _) = records.finish()?;
        Ok(whole)
    }

    /// Adds the line that loads a table's rows to the answer, and the block that it loads. Where the block passes its limit, the
    /// answer is 64 in their place.
    ///
    /// The block is made where it goes, and the line, which has its length, is put in front of it.
    pub fn dump(
        &self,
        catalog: &Catalog,
        table: TableNumber,
        answer: &mut Answer,
    ) -> Result<(), Refusal>
        requires { table.0 < length (database_of catalog.now) }
        ensures done { OnOk result (answer.new ≡ answer.old ++ answer_text (done catalog.now.limits (database_of catalog.now) (resolved.Dump table)).outcome) }
        ensures refused { IfErr result (λ e. (e ≡ refusal.NoMemory) ⊎ ((done catalog.now.limits (database_of catalog.now) (resolved.Dump table)).outcome ≡ Refused e)) }
    {
        let start = answer.len();
        let page = mem::replace(answer, Answer::new(self.alloc)?);
        *answer = self.with_block_of(catalog, page, table)?;
        insert_load_line(self.alloc, catalog.table_name(table), start, answer)?;
        Ok(())
    }
}
