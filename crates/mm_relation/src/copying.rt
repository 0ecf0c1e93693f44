//! A relation that has what another has, in memory of its own.
//!
//! Each row keeps its reference, so the indexes are copied as they stand, without a search: nothing is compared, and no link of another
//! table is followed. Where no memory is found, what was copied is given back.
ghost use Rattle.std.specs.Prelude.{◌≡◌, IfOk};

use crate::index::{Index, IndexOn};
use crate::relation::Relation;
use crate::stored_cell::StoredCell;
use no_memory::NoMemory;
use part_raw::TryClone;
use plain_tables::{ColKind, Column, Schema, Sequence, Text};
use std::alloc::Global;

impl TryClone for StoredCell {
    fn try_clone(&self, alloc: Global) -> Result<StoredCell, NoMemory> {
        self.copied(alloc)
    }
}

// A copy of a kind.
fn copy_kind(alloc: Global, kind: &ColKind) -> Result<ColKind, NoMemory>
    ensures { IfOk result (λ copy. copy ≡ kind.now) }
{
    Ok(match kind {
        ColKind::Int => ColKind::Int,
        ColKind::Text => ColKind::Text,
        ColKind::Ref(table) => ColKind::Ref(Text::from_str(alloc, table.as_str())?),
        ColKind::RefOrNull(table) => ColKind::RefOrNull(Text::from_str(alloc, table.as_str())?),
    })
}

/// A copy of columns.
pub fn copy_columns(alloc: Global, columns: &[Column]) -> Result<Sequence<Column>, NoMemory>
    ensures { IfOk result (λ copy. copy ≡ columns.now) }
{
    let mut copies = Vec::new(alloc);
    copies.reserve(columns.len())?;
    for column in columns {
        copies.push(Column {
            name: Text::from_str(alloc, column.name.as_str())?,
            kind: copy_kind(alloc, &column.kind)?,
        })?;
    }
    Ok(Sequence::from_vec(copies))
}

// Copies of indexes.
fn copy_indexes(alloc: Global, indexes: &[IndexOn]) -> Result<Sequence<IndexOn>, NoMemory>
    ensures { IfOk result (λ copy. copy ≡ indexes.now) }
{
    let mut copies = Vec::new(alloc);
    copies.reserve(indexes.len())?;
    for index in indexes {
        copies.push(index.try_clone()?)?;
    }
    Ok(Sequence::from_vec(copies))
}

impl Index {
    // A copy.
    fn try_clone(&self) -> Result<Index, NoMemory>
        ensures { IfOk result (λ copy. copy ≡ self.now) }
    {
        Ok(match self {
            Index::Tree(tree) => Index::Tree(tree.try_clone()?),
            Index::Hash(hash) => Index::Hash(hash.try_clone()?),
        })
    }
}

impl IndexOn {
    // A copy.
    fn try_clone(&self) -> Result<IndexOn, NoMemory>
        ensures { IfOk result (λ copy. copy ≡ self.now) }
    {
        Ok(IndexOn {
            column: self.column,
            index: self.index.try_clone()?,
        })
    }
}

impl Relation {
    /// A relation with the same columns, rows and indexes, each row under the same reference, in memory of its own.
    pub fn try_clone(&self, alloc: Global) -> Result<Relation, NoMemory>
        ensures { IfOk result (λ copy. copy ≡ self.now) }
    {
        let columns = copy_columns(alloc, self.schema.columns.as_slice())?;
        Ok(Relation {
            schema: Schema { columns },
            targets: Vec::from_slice(alloc, self.targets.as_slice())?,
            declared: Vec::from_slice(alloc, self.declared.as_slice())?,
            rows: self.rows.try_clone()?,
            by_key: self.by_key.try_clone()?,
            indexes: copy_indexes(alloc, self.indexes.as_slice())?,
            version: self.version,
        })
    }
}
