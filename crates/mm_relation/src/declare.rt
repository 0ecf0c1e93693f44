//! The making of a relation, and what is declared of one.
ghost use Rattle.std.specs.Prelude.{◌≡◌, ◌<◌, ◌≤◌, Some, IfOk, OnOk, OnErr, length, position, slice_get};
ghost use Rattle.std.specs.Option.{option_map};
ghost use Rattle.mm_relation.specs.Declaring.{is_index, without_first};

use crate::building::{add_index, drop_index};
use crate::indexes::is_same;
use crate::numbers::DeclaredIndex;
use crate::relation::Relation;
use crate::relations::{Links, Relations};
use crate::rows::Rows;
use crate::tree::Tree;
use no_memory::NoMemory;
use plain_tables::{ColumnNumber, IndexKind, Schema, Sequence, TableNumber};
use std::alloc::Global;

// The place of the first declaration like this one.
pub fn first_declared(declared: &[DeclaredIndex], index: DeclaredIndex) -> Option<usize>
    ensures { result ≡ position (is_index index) declared.now }
{
    declared.iter().position(|d| is_same(*d, index))
}

// Takes out the first declaration like this one, where there is one.
#[tactic(auto, using(crate::proofs::Dropping::removed_first, crate::proofs::Dropping::nothing_first))]
fn drop_declared(declared: &mut Vec<DeclaredIndex>, index: DeclaredIndex)
    ensures { declared.new.items ≡ without_first (is_index index) declared.old.items }
{
    if let Some(place) = first_declared(declared.as_slice(), index) {
        declared.remove(place);
    }
}

impl Relation {
    ghost use Rattle.mm_relation.specs.Declaring.{new_relation, declaration, IsDeclared, without_index, with_target};
    ghost use Rattle.mm_relation.specs.Reading.{Keys};
    ghost use Rattle.mm_relation.specs.State.{IsCurrent, linked_keys};

    /// A relation of these columns, 1 to 16, with no rows and no declared index. Links lead nowhere so far.
    pub fn new(alloc: Global, schema: Schema) -> Result<Relation, NoMemory>
        requires { (0 < length schema.columns) × (length schema.columns ≤ 16) }
        ensures made { IfOk result (λ r. r ≡ new_relation schema) }
        ensures current { IfOk result (λ r. (keys : Keys) → IsCurrent keys r) }
    {
        let mut targets = Vec::new(alloc);
        targets.resize(schema.columns.len(), None)?;
        let rows = Rows::new(alloc, schema.columns.len());
        Ok(Relation {
            schema,
            targets,
            declared: Vec::new(alloc),
            rows,
            by_key: Tree::new(alloc),
            indexes: Sequence::new(alloc),
            version: 0,
        })
    }

    /// The table that the links of a column lead into. None where they lead nowhere.
    pub fn target(&self, column: ColumnNumber) -> Option<TableNumber>
        requires { column.0 < length self.now.targets }
        ensures { slice_get self.now.targets column.0 ≡ Some (option_map (λ t. t.0) result) }
    {
        self.targets[column.0].map(TableNumber)
    }

    /// The number of the table that the links of each column lead into.
    pub fn targets(&self) -> &[Option<usize>]
        ensures { result.now ≡ self.now.targets }
    {
        self.targets.as_slice()
    }

    /// Tells into which table the links of a column lead.
    pub fn set_target(&mut self, column: ColumnNumber, table: TableNumber)
        requires { column.0 < length self.old.targets }
        ensures { self.new ≡ with_target self.old column.0 table }
    {
        self.targets[column.0] = Some(table.0);
    }

    /// Declares an index over the rows that are there. It is the last of its kind.
    pub fn add_index<R: Relations>(
        &mut self,
        others: &R,
        column: ColumnNumber,
        kind: IndexKind,
    ) -> Result<(), NoMemory>
        requires within { column.0 < length self.old.targets }
        requires current { IsCurrent (linked_keys self.old.targets (R.tables others.now)) self.old }
        ensures declared { OnOk result (IsDeclared self.old self.new (declaration column kind)) }
        ensures current { IsCurrent (linked_keys self.old.targets (R.tables others.now)) self.new }
        ensures unchanged { OnErr result (self.new ≡ self.old) }
    {
        self.declared.reserve(1)?;
        let alloc = *self.declared.allocator();
        let links = Links {
            targets: self.targets.as_slice(),
            others,
        };
        let index = DeclaredIndex { column, kind };
        add_index(
            &mut self.indexes,
            &self.rows,
            &self.by_key,
            &links,
            index,
            alloc,
        )?;
        self.declared.push_reserved(index);
        Ok(())
    }

    /// Drops the first index of this kind on this column, where there is one. It takes no memory.
    pub fn drop_index(&mut self, column: ColumnNumber, kind: IndexKind)
        ensures dropped { self.new ≡ without_index self.old (declaration column kind) }
        ensures current { (keys : Keys) → IsCurrent keys self.old → IsCurrent keys self.new }
    {
        let index = DeclaredIndex { column, kind };
        drop_declared(&mut self.declared, index);
        drop_index(&mut self.indexes, index);
    }
}
