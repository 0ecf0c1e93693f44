//! A table whose rows are all hidden.
//!
//! No column refers to it, so no link names its rows.
ghost use Rattle.std.specs.Prelude.{◌≡◌, ◌++◌, OnErr, OnOk, Some, slice_get};
ghost use Rattle.std.specs.FinMap as finite;
ghost use Rattle.mm_relation.specs.State.{RelationState, tree_list};

use crate::catalog::Catalog;
use crate::hiding::hide_free;
use crate::load::make_room;
use mm_relation::Relation;
use mm_relation::laws::a_relation_is_kept;
use no_memory::NoMemory;
use part_raw::TupleRef;
use plain_tables::TableNumber;

// Puts the references of all rows of a relation behind those of a list.
fn list_rows(relation: &Relation, refs: &mut Vec<TupleRef>) -> Result<(), NoMemory>
    ensures listed { OnOk result (refs.new.items ≡ refs.old.items ++ tree_list relation.now.by_key) }
    ensures unchanged { OnErr result (refs.new.items ≡ refs.old.items) }
{
    a_relation_is_kept(relation);
    make_room(refs, relation.len() as usize)?;
    for r in relation.walk() {
        refs.push_reserved(r);
    }
    Ok(())
}

impl Catalog {
    ghost use Rattle.plain_tables.specs.ResolvedLaws.{IsMeant};
    ghost use Rattle.plain_tables.specs.declared.resolved.Resolved.TheVariants as resolved;
    ghost use Rattle.mm_catalog.specs.Changes.{IsDone};
    ghost use Rattle.mm_catalog.specs.Emptied.{HaveGoneOut};
    ghost use Rattle.mm_catalog.specs.Seen.{database_of};
    ghost use Rattle.mm_catalog.specs.State.{CatalogState};

    /// Hides all rows of a table, to which no column refers, and puts their references behind those of a list. It finds no memory
    /// also where more than 16,777,216 rows of the table are owed then.
    pub fn empty_table(
        &mut self,
        table: TableNumber,
        refs: &mut Vec<TupleRef>,
    ) -> Result<(), NoMemory>
        requires { IsMeant self.old.limits (database_of self.old) (resolved.DropTable table) }
        ensures hidden { OnOk result (HaveGoneOut self.old self.new table.0 refs.old.items refs.new.items) }
        ensures empty { OnOk result ((s : RelationState) → slice_get self.new.relations table.0 ≡ Some s → s.rows ≡ finite.empty) }
        ensures meant { OnOk result (IsMeant self.new.limits (database_of self.new) (resolved.DropTable table)) }
        ensures drops { OnOk result ((c : CatalogState) → IsDone self.new c (resolved.DropTable table) → IsDone self.old c (resolved.DropTable table)) }
        ensures unchanged { OnErr result (self.new ≡ self.old) }
        ensures list { OnErr result (refs.new.items ≡ refs.old.items) }
    {
        let start = refs.len();
        list_rows(&self.relations[table.0], refs)?;
        let hidden = hide_free(self.relations.as_mut_slice(), table, &refs[start..]);
        if hidden.is_err() {
            refs.truncate(start);
        }
        hidden
    }
}
