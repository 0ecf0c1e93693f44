//! The numbers of referrers, as links come and go. No call takes memory.
ghost use Rattle.std.specs.Prelude.{◌≡◌, ◌*◌, ◌∷◌, [], All, Some, IsSome, length, map};
ghost use Rattle.std.specs.FinMap as finite;
ghost use Rattle.mm_relation.specs.Rows.{Row};
ghost use Rattle.mm_relation.specs.State.{IsKept};
ghost use Rattle.mm_catalog.specs.Linked.{row_links};
ghost use Rattle.mm_catalog.specs.Counted.{linked_of, naming, none, IsHeldIn, HaveRoom, HaveAtLeast, AreCountedBy};

use super::link::{Link, link_in};
use mm_relation::laws::a_relation_is_kept;
use mm_relation::{ColumnNumber, Relation, TupleRef};

/// So many referrers more for the row that a link names.
pub fn count_up(before: &mut [Relation], link: Link, n: u64)
    requires kept { All IsKept before.old }
    requires held { IsHeldIn before.old (linked_of link) }
    requires room { HaveRoom before.old n }
    ensures { AreCountedBy before.old before.new (λ t q. n * naming (linked_of link ∷ []) t q) none }
{
    let relation = &mut before[link.table.0];
    relation.add_referrers(link.to, n);
    a_relation_is_kept(relation);
}

/// One referrer less for the row that a link names.
pub fn count_down(before: &mut [Relation], link: Link)
    requires kept { All IsKept before.old }
    requires held { IsHeldIn before.old (linked_of link) }
    requires enough { HaveAtLeast before.old (naming (linked_of link ∷ [])) }
    ensures { AreCountedBy before.old before.new none (naming (linked_of link ∷ [])) }
{
    let relation = &mut before[link.table.0];
    relation.sub_referrers(link.to, 1);
    a_relation_is_kept(relation);
}

/// One referrer more for each row that a link of this row names, and for each such link.
pub fn count_up_links(before: &mut [Relation], relation: &Relation, r: TupleRef)
    requires kept { All IsKept before.old }
    requires held { IsSome (finite.get relation.now.rows r) }
    requires named { (row : Row) → finite.get relation.now.rows r ≡ Some row → All (IsHeldIn before.old) (row_links relation.now.targets row) }
    requires room { HaveRoom before.old (length relation.now.targets) }
    ensures { (row : Row) → finite.get relation.now.rows r ≡ Some row → AreCountedBy before.old before.new (naming (row_links relation.now.targets row)) none }
{
    if before.is_empty() {
        return;
    }
    a_relation_is_kept(relation);
    let row = relation.row(r);
    for column in 0..relation.schema().columns.len() {
        if let Some(link) = link_in(relation, &row, ColumnNumber(column)) {
            count_up(before, link, 1);
        }
    }
}

/// One referrer less for each row that a link of this row names, and for each such link.
pub fn count_down_links(before: &mut [Relation], relation: &Relation, r: TupleRef)
    requires kept { All IsKept before.old }
    requires held { IsSome (finite.get relation.now.rows r) }
    requires named { (row : Row) → finite.get relation.now.rows r ≡ Some row → All (IsHeldIn before.old) (row_links relation.now.targets row) }
    requires enough { (row : Row) → finite.get relation.now.rows r ≡ Some row → HaveAtLeast before.old (naming (row_links relation.now.targets row)) }
    ensures { (row : Row) → finite.get relation.now.rows r ≡ Some row → AreCountedBy before.old before.new none (naming (row_links relation.now.targets row)) }
{
    if before.is_empty() {
        return;
    }
    a_relation_is_kept(relation);
    let row = relation.row(r);
    for column in 0..relation.schema().columns.len() {
        if let Some(link) = link_in(relation, &row, ColumnNumber(column)) {
            count_down(before, link);
        }
    }
}

/// One referrer less for the row of each of these links.
pub fn count_down_all(before: &mut [Relation], links: &[Link])
    requires kept { All IsKept before.old }
    requires held { All (λ l. IsHeldIn before.old (linked_of l)) links.now }
    requires enough { HaveAtLeast before.old (naming (map linked_of links.now)) }
    ensures { AreCountedBy before.old before.new none (naming (map linked_of links.now)) }
{
    for link in links {
        count_down(before, *link);
    }
}
