//! A dump that is taken in.

ghost use Rattle.std.specs.Prelude.{◌≤◌, IfOk};
ghost use Rattle.mm_database.specs.Restoring.{IsAtStart};

use mm_session::Restore;
use no_memory::NoMemory;
use plain_tables::Limits;
use plan_chooser::Policy;
use std::alloc::Global;

/// A dump that is taken in, and how the database that it makes is opened.
#[derive(Drop)]
pub struct OpenRestore {
    pub inner: Restore,
    pub policy: Policy,
}

impl OpenRestore {
    /// A dump of which nothing has come, in a place of its own.
    pub fn boxed(
        alloc: Global,
        policy: Policy,
        limits: Limits,
    ) -> Result<Box<OpenRestore>, NoMemory>
        requires { limits.rows ≤ 16777216 }
        ensures { IfOk result (λ restore. IsAtStart limits restore.value) }
    {
        let inner = Restore::new(alloc, policy, limits)?;
        Ok(Box::new(alloc, OpenRestore { inner, policy })?)
    }
}
