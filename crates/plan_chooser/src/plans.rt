//! The plans that there are.

use mm_relation::Relation;
use plain_tables::{ColumnNumber, TableNumber, Test};

/// How the rows of a table that pass tests are found. The number is that of the test, counted from 0, for which an index is
/// searched; the other tests are made on each row that is found so.
#[derive(Clone, Copy)]
pub enum SelectPlan {
    /// Each row in key order, and every test on it.
    Scan,
    /// By the hash on the test's column.
    Hash(usize),
    /// By the tree on the test's column.
    Tree(usize),
}

/// How the pairs of two tables' rows with equal values in a column each are found.
#[derive(Clone, Copy)]
pub enum JoinPlan {
    /// Each inner row is compared with each outer row.
    Nested,
    /// By a hash over the inner column: a declared one, or one that is made for the join.
    HashJoin,
    /// By the tree on the inner column.
    TreeJoin,
    /// The trees on both columns are walked side by side.
    TreeMerge,
    /// The links from one table into the other are followed.
    Precomputed,
}

/// How the rows that were joined so far are joined with one table more. These rows stand in no tree, so none is walked beside
/// another, and links are followed from them alone.
#[derive(Clone, Copy)]
pub enum NextJoinPlan {
    /// Each row of the table is compared with each row so far.
    Nested,
    /// By a hash over the table's column: a declared one, or one that is made for the join.
    HashJoin,
    /// By the tree on the table's column.
    TreeJoin,
    /// The links from the rows so far into the table are followed.
    Precomputed,
}

/// One side of a join: a table, by its number and its rows; the column of it whose values are compared; and what its rows have
/// to pass.
#[derive(Clone, Copy)]
pub struct JoinInput<'a> {
    pub table: TableNumber,
    pub relation: &'a Relation,
    pub column: ColumnNumber,
    pub tests: &'a [Test],
}
