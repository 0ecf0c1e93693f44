//! Whether links name rows.
ghost use Rattle.std.specs.Prelude.{All, Any, IsSome};
ghost use Rattle.std.specs.Bool.{OnTrue, OnFalse};
ghost use Rattle.std.specs.FinMap as finite;
ghost use Rattle.mm_catalog.specs.Deleted.{IsReferenced, IsFree};

use mm_relation::{Relation, TupleRef};

/// Whether a link names one of these rows.
pub fn any_referenced(relation: &Relation, rows: &[TupleRef]) -> bool
    requires held { All (λ r. IsSome (finite.get relation.now.rows r)) rows.now }
    ensures referenced { OnTrue result (Any (IsReferenced relation.now) rows.now) }
    ensures free { OnFalse result (All (IsFree relation.now) rows.now) }
{
    for r in rows {
        if relation.row(*r).referrers() > 0 {
            return true;
        }
    }
    false
}
