//! Databases that share their tables.

use crate::database::OpenDatabase;
use mm_cells::Cells;
use mm_session::Answer;
use mm_statements::ShareFault;
use std::alloc::Global;

impl OpenDatabase {
    ghost use Rattle.std.specs.Prelude.{◌≡◌, ◌⊎◌, Err, false, IfOk, IsErrOf, OnErr, OnOk};
    ghost use Rattle.mm_statements.specs.declared.faults.ShareFault.TheVariants as share_fault;
    ghost use Rattle.mm_database.specs.Sharing.{IsShared, Leaves, OpensOn, Shares, SharesMore};
    ghost use Rattle.mm_database.specs.Transacting.{IsInTransaction};

    /// A database that shares the tables, with no statements, an empty answer and an empty reason.
    pub fn reader(&mut self, alloc: Global) -> Result<OpenDatabase, ShareFault>
        ensures done { IfOk result (OpensOn self.old) }
        ensures sharing { OnOk result (IsShared self.new) }
        ensures stays { SharesMore self.old self.new }
        ensures declined { IsErrOf result share_fault.InTransaction → self.new ≡ self.old }
        ensures open { IsErrOf result share_fault.InTransaction → IsInTransaction self.old }
        ensures waits { IsInTransaction self.old → result ≡ Err share_fault.InTransaction }
    {
        Ok(OpenDatabase {
            inner: self.inner.reader(alloc)?,
            answer: Answer::new(alloc)?,
            reason: Answer::new(alloc)?,
            shown: Vec::new(alloc),
            columns: Cells::new(alloc),
            queried: Cells::new(alloc),
        })
    }

    /// Has another database share the tables, in the place of its own.
    pub fn share(&mut self, alloc: Global, other: &mut OpenDatabase) -> Result<(), ShareFault>
        ensures done { OnOk result (Shares self.old other.old other.new) }
        ensures sharing { OnOk result (IsShared self.new) }
        ensures stays { SharesMore self.old self.new }
        ensures declined { IsErrOf result share_fault.InTransaction → self.new ≡ self.old }
        ensures unchanged { OnErr result (other.new ≡ other.old) }
        ensures open { IsErrOf result share_fault.InTransaction → IsInTransaction self.old ⊎ IsInTransaction other.old }
        ensures waits { IsInTransaction self.old ⊎ IsInTransaction other.old → result ≡ Err share_fault.InTransaction }
    {
        self.inner.share(alloc, &mut other.inner)
    }

    /// Leaves the tables, and has none then. Only where they aren't shared it takes memory.
    pub fn leave(&mut self, alloc: Global) -> Result<(), ShareFault>
        ensures done { OnOk result (Leaves self.old self.new) }
        ensures own { IsErrOf result share_fault.NoMemory → self.old.inner.shared ≡ false }
        ensures unchanged { OnErr result (self.new ≡ self.old) }
        ensures open { IsErrOf result share_fault.InTransaction → IsInTransaction self.old }
        ensures waits { IsInTransaction self.old → result ≡ Err share_fault.InTransaction }
    {
        self.inner.leave(alloc)
    }
}
