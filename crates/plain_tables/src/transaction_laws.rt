//! The laws of transactions. Each is the contract of a function that does nothing.

ghost use Rattle.plain_tables.specs.Transactions.{CommitsKeep, RollbacksRestore};

/// Whatever commands are done in a transaction, and whatever transactions begin and end in it, a rollback restores the database
/// that it began with, and leaves the transactions around it as they were.
pub fn rollbacks_restore()
    ensures { RollbacksRestore }
{}

/// Whatever is done in a transaction, a commit keeps the database that came of it, and leaves the transactions around it as they
/// were.
pub fn commits_keep()
    ensures { CommitsKeep }
{}
