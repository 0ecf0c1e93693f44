//! A relation whose links lead into the tables that its columns refer to, and those tables, which count them.
ghost use Rattle.std.specs.Prelude.{◌≡◌, ◌<◌, ◌≤◌, ℕ, Some, IfOk, OnErr, OnOk, length, map};
ghost use Rattle.std.specs.List.{list_any};
ghost use Rattle.std.specs.String.{string_bytes};
ghost use Rattle.plain_tables.specs.References as plain;
ghost use Rattle.mm_relation.specs.State.{IsKept};
ghost use Rattle.mm_catalog.specs.Linked.{target_at, target_of};
ghost use Rattle.mm_catalog.specs.Created.{aimed_relation, with_leads, leads_at, GainCounts, HaveGained, LeadIntoCountedFrom};

use crate::references::link::target_number;
use indexmap::IndexSet;
use mm_relation::Relation;
use mm_relation::laws::a_relation_is_kept;
use mm_resolver::referred;
use no_memory::NoMemory;
use plain_tables::{Column, ColumnNumber, Schema, TableNumber};
use std::alloc::Global;

// Whether one of these columns refers to the table of that name.
fn refers_to(columns: &[Column], name: &str) -> bool
    ensures { result ≡ list_any (plain.refers_to name.now) columns.now }
{
    columns.iter().any(|column| match referred(column) {
        Some(table) => name.as_bytes() == table.as_bytes(),
        None => false,
    })
}

/// Whether a column of one of these relations refers to the table of that name.
pub fn any_refers_to(relations: &[Relation], name: &str) -> bool
    ensures { result ≡ list_any (λ s. list_any (plain.refers_to name.now) s.schema.columns) relations.now }
{
    relations.iter().any(|relation| refers_to(relation.schema().columns.as_slice(), name))
}

// The number of the table that a column refers to.
fn number_referred(names: &IndexSet<String>, column: &Column) -> Option<usize>
    ensures { result ≡ target_of (map string_bytes names.now.keys) column.now }
{
    let name = referred(column)?;
    names.get_index_of(name.as_str())
}

// Tells a relation where the links of a column lead.
#[tactic(auto, using(crate::proofs::Aimed::leads_of))]
fn aim(relation: &mut Relation, column: ColumnNumber, names: &IndexSet<String>)
    requires target { column.0 < length relation.old.targets }
    requires column { column.0 < length relation.old.schema.columns }
    ensures { relation.new ≡ with_leads relation.old column.0 (leads_at (map string_bytes names.now.keys) relation.old column.0) }
{
    let leads = number_referred(names, &relation.schema().columns.as_slice()[column.0]);
    if let Some(table) = leads {
        relation.set_target(column, TableNumber(table));
    }
}

// A relation of these columns, whose links lead into the tables of these names.
pub fn aimed(alloc: Global, schema: Schema, names: &IndexSet<String>) -> Result<Relation, NoMemory>
    requires { (0 < length schema.columns) × (length schema.columns ≤ 16) }
    ensures made { IfOk result (λ r. r ≡ aimed_relation (map string_bytes names.now.keys) schema) }
    ensures kept { IfOk result IsKept }
{
    let mut relation = Relation::new(alloc, schema)?;
    for column in 0..relation.schema().columns.len() {
        aim(&mut relation, ColumnNumber(column), names);
    }
    a_relation_is_kept(&relation);
    Ok(relation)
}

/// Makes memory for the numbers of referrers in the tables that the links of a relation lead into, from this column on, and lists
/// the tables that kept none. Where no memory is found, each relation is as it was.
pub fn count_targets(
    relations: &mut [Relation],
    relation: &Relation,
    column: ColumnNumber,
    gained: &mut Vec<TableNumber>,
) -> Result<(), NoMemory>
    requires within { (k table : ℕ) → target_at relation.now.targets k ≡ Some table → table < length relations.old }
    ensures gained { OnOk result (GainCounts relations.old relations.new) }
    ensures listed { OnOk result (HaveGained relations.old relations.new gained.old.items gained.new.items) }
    ensures counted { OnOk result (LeadIntoCountedFrom column.0 relations.new relation.now.targets) }
    ensures unchanged { OnErr result (relations.new ≡ relations.old) }
{
    a_relation_is_kept(relation);
    if column.0 >= relation.schema().columns.len() {
        return Ok(());
    }
    let next = ColumnNumber(column.0 + 1);
    let Some(table) = target_number(relation, column) else {
        return count_targets(relations, relation, next, gained);
    };
    if relations[table].is_counted() {
        return count_targets(relations, relation, next, gained);
    }
    gained.push(TableNumber(table))?;
    relations[table].keep_counts()?;
    let counted = count_targets(relations, relation, next, gained);
    if counted.is_err() {
        relations[table].forget_counts();
    }
    counted
}
