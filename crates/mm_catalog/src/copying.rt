//! A catalog that has what another has, in memory of its own.
ghost use Rattle.std.specs.Prelude.{◌≡◌, IfOk, map};
ghost use Rattle.std.specs.String.{string_bytes};

use crate::catalog::Catalog;
use indexmap::IndexSet;
use mm_relation::Relation;
use no_memory::NoMemory;
use std::alloc::Global;

// The same names, in their order.
fn copy_names(names: &IndexSet<String>) -> Result<IndexSet<String>, NoMemory>
    ensures { IfOk result (λ copy. map string_bytes copy.keys ≡ map string_bytes names.now.keys) }
{
    Ok(names.clone()?)
}

// The same relations, in their order.
fn copy_relations(alloc: Global, relations: &[Relation]) -> Result<Vec<Relation>, NoMemory>
    ensures { IfOk result (λ copy. copy.items ≡ relations.now) }
{
    let mut copies = Vec::new(alloc);
    copies.reserve(relations.len())?;
    for relation in relations {
        copies.push(relation.try_clone(alloc)?)?;
    }
    Ok(copies)
}

impl Catalog {
    /// A catalog with the same tables, under the same limits, in memory of its own. It takes time and memory for the rows and the
    /// indexes as they stand, and compares no values.
    pub fn try_clone(&self, alloc: Global) -> Result<Catalog, NoMemory>
        ensures { IfOk result (λ copy. copy ≡ self.now) }
    {
        Ok(Catalog {
            limits: self.limits,
            names: copy_names(&self.names)?,
            relations: copy_relations(alloc, self.relations.as_slice())?,
            cells: Vec::new(alloc),
            sets: Vec::new(alloc),
            lost: Vec::new(alloc),
            clock: self.clock,
        })
    }
}
