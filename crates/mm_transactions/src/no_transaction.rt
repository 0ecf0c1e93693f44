//! Why a commit or a rollback does nothing.

use thiserror::Error;

/// No transaction is open.
#[derive(Clone, Copy, Debug, PartialEq, Eq, Error)]
#[error("no transaction is open")]
pub struct NoTransaction;
