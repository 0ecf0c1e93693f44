//! A database with the tables of another.

use crate::database::OpenDatabase;
use mm_cells::Cells;
use mm_session::Answer;
use mm_statements::ShareFault;
use std::alloc::Global;

impl OpenDatabase {
    ghost use Rattle.std.specs.Prelude.{◌≡◌, Err, IfOk, IsErrOf};
    ghost use Rattle.mm_statements.specs.declared.faults.ShareFault.TheVariants as share_fault;
    ghost use Rattle.mm_database.specs.Cloning.{IsCopyOf};
    ghost use Rattle.mm_database.specs.Transacting.{IsInTransaction};

    /// A database of its own with the same tables, no statements, an empty answer and an empty reason.
    pub fn try_clone(&self, alloc: Global) -> Result<OpenDatabase, ShareFault>
        ensures done { IfOk result (IsCopyOf self.now) }
        ensures open { IsErrOf result share_fault.InTransaction → IsInTransaction self.now }
        ensures waits { IsInTransaction self.now → result ≡ Err share_fault.InTransaction }
    {
        Ok(OpenDatabase {
            inner: self.inner.try_clone(alloc)?,
            answer: Answer::new(alloc)?,
            reason: Answer::new(alloc)?,
            shown: Vec::new(alloc),
            columns: Cells::new(alloc),
            queried: Cells::new(alloc),
        })
    }
}
