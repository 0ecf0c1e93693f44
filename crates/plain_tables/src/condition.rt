//! What a condition of a command says of a row.

use crate::{Text, Value};

/// How a value of a row stands to the value of a condition.
#[derive(Clone, Copy, PartialEq, Eq)]
pub enum Op {
    Eq,
    Ne,
    Lt,
    Le,
    Gt,
    Ge,
}

/// A column as a command names it: with its table, or bare.
#[derive(Drop)]
pub struct ColName {
    pub table: Option<Text>,
    pub column: Text,
}

/// A condition: the value in this column stands so to this value.
#[derive(Drop)]
pub struct Cond {
    pub column: ColName,
    pub op: Op,
    pub value: Value,
}
