//! A dump of a whole database, one piece at a call: its first and its last line, what declares tables and indexes, and, by saved_rows,
//! rows.

ghost use Rattle.std.specs.Prelude.{◌≡◌, ◌+◌, ◌++◌, ◌<◌, ◌≤◌, ◌∷◌, [], IfErr, IfOk, OnOk, length, map, slice_get};
ghost use Rattle.std.specs.Fmt.{decimal};
ghost use Rattle.std.specs.List.{sum_by};
ghost use Rattle.plain_tables.specs.Tables.{Table};
ghost use Rattle.mm_catalog.specs.Seen.{database_of};
ghost use Rattle.mm_session.specs.Listing.{command_lines};
ghost use Rattle.mm_session.specs.Saving.{IsDeclined, IsPiece, IsPlace, declaration, first_line, index_declarations, last_line, place_from};
ghost use Rattle.mm_session.specs.declared.saving.SaveFault.TheVariants as fault;

use super::listing::push_index_lines;
use super::saved_rows::save_rows;
use crate::answer::Answer;
use crate::saving::{SaveFault, SavePlace};
use itoa::Buffer;
use mm_catalog::Catalog;
use mm_catalog::laws::a_catalog_is_consistent;
use mm_lang::print_table;
use mm_relation::Relations;
use mm_relation::laws::a_relation_is_kept;
use no_memory::NoMemory;
use plain_tables::TableNumber;
use std::alloc::Global;

/// The first line, with the version of the form.
pub const FIRST: &[u8] = b"# mmdb dump 1\n";

// The table is there.
fn check_table(catalog: &Catalog, table: TableNumber) -> Result<(), SaveFault>
    ensures there { OnOk result (table.0 < length (database_of catalog.now)) }
    ensures none { IfErr result (λ why. (why ≡ fault.NoSuchPlace) × ¬ (table.0 < length (database_of catalog.now))) }
{
    if table.0 >= catalog.table_count() {
        return Err(SaveFault::NoSuchPlace);
    }
    Ok(())
}

// The place of the first rows of a table, or of the last line where there is none.
fn place_of(catalog: &Catalog, table: usize) -> SavePlace
    ensures { result ≡ place_from catalog.now table }
{
    if table < catalog.table_count() {
        return SavePlace::Rows {
            table: TableNumber(table),
            after: None,
        };
    }
    SavePlace::End
}

// The place of the first rows behind a table, or of the last line where it is the last.
fn place_behind(catalog: &Catalog, table: TableNumber) -> SavePlace
    requires { table.0 < length (database_of catalog.now) }
    ensures { result ≡ place_from catalog.now (table.0 + 1) }
{
    let count = catalog.table_count();
    // So the number behind it is one.
    prove!(table.0 < count);
    place_of(catalog, table.0 + 1)
}

// A line with the declaration of a table.
fn push_table(answer: &mut Answer, catalog: &Catalog, table: TableNumber) -> Result<(), NoMemory>
    requires { table.0 < length (database_of catalog.now) }
    ensures { OnOk result ((t : Table) → slice_get (database_of catalog.now) table.0 ≡ Some t → answer.new ≡ answer.old ++ command_lines (declaration t ∷ [])) }
{
    a_catalog_is_consistent(catalog);
    print_table(
        answer,
        catalog.table_name(table),
        catalog.at(table).schema(),
    )?;
    answer.push(b"\n")
}

// The first line, and the declarations of all tables.
fn push_declarations(answer: &mut Answer, catalog: &Catalog) -> Result<(), NoMemory>
    ensures { OnOk result (answer.new ≡ answer.old ++ (first_line ++ command_lines (map declaration (database_of catalog.now)))) }
{
    answer.push(FIRST)?;
    for number in 0..catalog.table_count() {
        push_table(answer, catalog, TableNumber(number))?;
    }
    Ok(())
}

// The declarations of the indexes of a table.
fn push_indexes(answer: &mut Answer, catalog: &Catalog, table: TableNumber) -> Result<(), NoMemory>
    requires { table.0 < length (database_of catalog.now) }
    ensures { OnOk result ((t : Table) → slice_get (database_of catalog.now) table.0 ≡ Some t → answer.new ≡ answer.old ++ command_lines (index_declarations t)) }
{
    a_catalog_is_consistent(catalog);
    push_index_lines(answer, catalog.table_name(table), catalog.at(table))
}

// How many rows a table has.
fn rows_of(catalog: &Catalog, table: TableNumber) -> u64
    requires { table.0 < length (database_of catalog.now) }
    ensures counted { (t : Table) → slice_get (database_of catalog.now) table.0 ≡ Some t → result ≡ length t.rows }
    ensures few { result ≤ 16777216 }
{
    a_catalog_is_consistent(catalog);
    let relation = catalog.at(table);
    a_relation_is_kept(relation);
    relation.len()
}

// How many rows all tables have.
fn all_rows(catalog: &Catalog) -> u128
    ensures { result ≡ sum_by (λ t. length t.rows) (database_of catalog.now) }
{
    let mut rows: u128 = 0;
    for number in 0..catalog.table_count() {
        rows += u128::from(rows_of(catalog, TableNumber(number)));
    }
    rows
}

// Puts a number behind the bytes, in decimal digits.
fn push_wide(answer: &mut Answer, n: u128) -> Result<(), NoMemory>
    ensures { OnOk result (answer.new ≡ answer.old ++ decimal n) }
{
    let mut buffer = Buffer::new();
    answer.push(buffer.format(n).as_bytes())
}

/// The last line: how many tables there are, and how many rows.
pub fn push_last(answer: &mut Answer, catalog: &Catalog) -> Result<(), NoMemory>
    ensures { OnOk result (answer.new ≡ answer.old ++ last_line (database_of catalog.now)) }
{
    answer.push(b"# end of the dump: ")?;
    answer.push_number(catalog.table_count() as u64)?;
    answer.push(b" tables, ")?;
    push_wide(answer, all_rows(catalog))?;
    answer.push(b" rows\n")
}

/// Makes the answer the piece of a dump at a place, and tells where the save goes on: None behind the last piece. A failure may leave any
/// bytes there.
pub fn save(
    alloc: Global,
    catalog: &Catalog,
    place: SavePlace,
    answer: &mut Answer,
) -> Result<Option<SavePlace>, SaveFault>
    ensures there { OnOk result (IsPlace catalog.now place) }
    ensures piece { IfOk result (IsPiece catalog.now place answer.new) }
    ensures declined { IfErr result (IsDeclined catalog.now place) }
{
    a_catalog_is_consistent(catalog);
    answer.clear();
    match place {
        SavePlace::Declarations => {
            push_declarations(answer, catalog)?;
            Ok(Some(place_of(catalog, 0)))
        }
        SavePlace::Rows { table, after } => {
            check_table(catalog, table)?;
            save_rows(alloc, catalog, table, after, answer)
        }
        SavePlace::Indexes { table } => {
            check_table(catalog, table)?;
            push_indexes(answer, catalog, table)?;
            Ok(Some(place_behind(catalog, table)))
        }
        SavePlace::End => {
            push_last(answer, catalog)?;
            Ok(None)
        }
    }
}
