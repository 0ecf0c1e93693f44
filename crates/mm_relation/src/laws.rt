//! What a relation keeps, and what it asks of the tables that its links lead into, as laws. Each is the contract of a function
//! that does nothing.
//!
//! A relation reads other tables through one map alone: from reference column and reference to the key of the row that is
//! named. Two such maps that agree on the links which its rows hold give each row the same values, each tree the same order
//! and each hash the same entries. So a change elsewhere that keeps the rows which are named asks nothing of this relation.
ghost use Rattle.std.specs.Prelude.{◌≡◌, IsSome, None};
ghost use Rattle.std.specs.FinMap as finite;
ghost use Rattle.part_raw.specs.declared.tuple_ref.TupleRef.{TupleRef};
ghost use Rattle.mm_relation.specs.Agreement.{ReadsAlike, OrdersAlike, HashesAlike, StaysCurrent};
ghost use Rattle.mm_relation.specs.State.{IsKept};

use crate::relation::Relation;

/// A relation keeps what it keeps by itself, whatever was done to it.
pub fn a_relation_is_kept(relation: &Relation)
    ensures { IsKept relation.now }
{
    let _ = &relation.schema;
}

/// No row that is hidden is one of its rows.
pub fn hidden_rows_are_apart(relation: &Relation)
    ensures { (r : TupleRef) → IsSome (finite.get relation.now.hidden r) → finite.get relation.now.rows r ≡ None }
{
    relation.rows.hidden_are_apart();
}

/// Each row has the same value in each column, and so meets the same conditions.
pub fn agreeing_keys_read_alike()
    ensures { ReadsAlike }
{}

/// A list that rises in a column's order rises in it still.
pub fn agreeing_keys_order_alike()
    ensures { OrdersAlike }
{}

/// A hash that serves the rows serves them still.
pub fn agreeing_keys_hash_alike()
    ensures { HashesAlike }
{}

/// What is current stays so.
pub fn agreeing_keys_keep_a_relation_current()
    ensures { StaysCurrent }
{}
