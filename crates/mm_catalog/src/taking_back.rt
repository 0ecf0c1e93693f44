//! The newest table, taken back.
//!
//! No column refers to it, and it has no rows, so no link and no number of referrers changes.
ghost use Rattle.std.specs.Prelude.{◌≡◌, ◌<◌, All, Some, length, map, slice_get};
ghost use Rattle.mm_relation.specs.Rows.{HaveNoReferrers};
ghost use Rattle.mm_relation.specs.State.{RelationState};
ghost use Rattle.mm_catalog.specs.Created.{without_counts};
ghost use Rattle.mm_catalog.specs.Declarations.{AreBeforeLast, EndsInEmpty, without_last};
ghost use Rattle.mm_catalog.specs.Outline.{IsOutline, changed_each, outline_of};

use crate::catalog::Catalog;
use mm_relation::Relation;
use plain_tables::TableNumber;

// Gives back the memory for the numbers of referrers in these relations, to whose rows no link leads.
fn forget_each(relations: &mut [Relation], tables: &[TableNumber])
    requires within { All (λ n. n.0 < length relations.old) tables.now }
    requires none { All (λ n. (s : RelationState) → slice_get relations.old n.0 ≡ Some s → HaveNoReferrers s.rows s.referrers) tables.now }
    ensures { relations.new ≡ changed_each without_counts (map (λ n. n.0) tables.now) relations.old }
{
    if let Some((table, others)) = tables.split_first() {
        forget_each(relations, others);
        relations[table.0].forget_counts();
    }
}

impl Catalog {
    /// Takes back the table that stands last, which is empty, where a catalog can be without it. The tables that count links
    /// since it was declared count them no longer. It takes no memory, and never fails.
    #[inline(never)]
    pub fn take_back_table(&mut self, gained: &[TableNumber])
        requires empty { EndsInEmpty (outline_of self.old) }
        requires before_last { AreBeforeLast (map (λ n. n.0) gained.now) (outline_of self.old) }
        requires stands { IsOutline (without_last (map (λ n. n.0) gained.now) (outline_of self.old)) }
        ensures { outline_of self.new ≡ without_last (map (λ n. n.0) gained.now) (outline_of self.old) }
    {
        self.relations.pop();
        self.names.pop();
        forget_each(self.relations.as_mut_slice(), gained);
    }
}
