//! The listing of the tables: the commands that declare them and their indexes.

ghost use Rattle.std.specs.Prelude.{◌≡◌, ◌++◌, ◌∷◌, [], ◌<◌, Some, length, OnOk, slice_get};
ghost use Rattle.std.specs.List.{All};
ghost use Rattle.plain_tables.specs.AnswerText.{answer_text, declaration_lines};
ghost use Rattle.plain_tables.specs.Effects.{Listed};
ghost use Rattle.plain_tables.specs.Tables.{Table};
ghost use Rattle.mm_catalog.specs.Seen.{database_of};
ghost use Rattle.mm_session.specs.Listing.{command_lines, index_commands};

use super::ReadExecutor;
use crate::answer::Answer;
use crate::answer::records::push_changed;
use mm_catalog::Catalog;
use mm_catalog::laws::a_catalog_is_consistent;
use mm_lang::{print_index, print_table};
use mm_relation::{Relation, Relations};
use no_memory::NoMemory;
use plain_tables::TableNumber;

/// A line for each index that is declared on a table.
pub fn push_index_lines(
    answer: &mut Answer,
    name: &str,
    relation: &Relation,
) -> Result<(), NoMemory>
    requires { All (λ d. d.column.0 < length relation.now.schema.columns) relation.now.declared }
    ensures { OnOk result (answer.new ≡ answer.old ++ command_lines (index_commands name.now relation.now.schema.columns relation.now.declared)) }
{
    let columns = relation.schema().columns.as_slice();
    for index in relation.declared() {
        let column = columns[index.column.0].name.as_str();
        print_index(answer, name, column, index.kind)?;
        answer.push(b"\n")?;
    }
    Ok(())
}

// The lines of a table: one for its declaration, and one for each index.
fn push_table_lines(
    answer: &mut Answer,
    catalog: &Catalog,
    table: TableNumber,
) -> Result<(), NoMemory>
    requires { table.0 < length (database_of catalog.now) }
    ensures { OnOk result ((t : Table) → slice_get (database_of catalog.now) table.0 ≡ Some t → answer.new ≡ answer.old ++ declaration_lines (t ∷ [])) }
{
    a_catalog_is_consistent(catalog);
    let name = catalog.table_name(table);
    let relation = catalog.at(table);
    print_table(answer, name, relation.schema())?;
    answer.push(b"\n")?;
    push_index_lines(answer, name, relation)
}

impl ReadExecutor {
    /// Adds what declares the tables to the answer, and how many there are.
    pub fn list_tables(&self, catalog: &Catalog, answer: &mut Answer) -> Result<(), NoMemory>
        ensures { OnOk result (answer.new ≡ answer.old ++ answer_text (Listed (database_of catalog.now))) }
    {
        for number in 0..catalog.table_count() {
            push_table_lines(answer, catalog, TableNumber(number))?;
        }
        push_changed(answer, catalog.table_count())
    }
}
