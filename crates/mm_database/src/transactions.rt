//! Transactions of a database.

use crate::database::OpenDatabase;
use mm_statements::{BeginFault, NoTransaction};

impl OpenDatabase {
    ghost use Rattle.std.specs.Prelude.{◌≡◌, IsErrOf, length, OnErr, OnOk};
    ghost use Rattle.plain_tables.specs.Transactions.{begun, committed, rolled_back};
    ghost use Rattle.mm_shared.specs.declared.faults.BeginFault.TheVariants as begin_fault;
    ghost use Rattle.mm_database.specs.Sharing.{IsShared};
    ghost use Rattle.mm_database.specs.Transacting.{IsInTransaction, IsOutside, Steps};

    /// How many transactions are open.
    pub fn transactions(&self) -> usize
        ensures { result ≡ length self.now.inner.session.saved }
    {
        self.inner.transactions()
    }

    /// Begins a transaction, in those that are open.
    pub fn begin(&mut self) -> Result<(), BeginFault>
        ensures done { OnOk result (Steps begun self.old self.new) }
        ensures shared { IsErrOf result begin_fault.Shared → IsShared self.old }
        ensures unchanged { OnErr result (self.new ≡ self.old) }
    {
        self.inner.begin()
    }

    /// Ends the innermost transaction, and keeps what was done in it.
    pub fn commit(&mut self) -> Result<(), NoTransaction>
        ensures open { OnOk result (IsInTransaction self.old) }
        ensures done { OnOk result (Steps committed self.old self.new) }
        ensures none { OnErr result (IsOutside self.old) }
        ensures unchanged { OnErr result (self.new ≡ self.old) }
    {
        self.inner.commit()
    }

    /// Ends the innermost transaction, and undoes what was done in it. It takes no memory.
    pub fn rollback(&mut self) -> Result<(), NoTransaction>
        ensures open { OnOk result (IsInTransaction self.old) }
        ensures done { OnOk result (Steps rolled_back self.old self.new) }
        ensures none { OnErr result (IsOutside self.old) }
        ensures unchanged { OnErr result (self.new ≡ self.old) }
    {
        self.inner.rollback()
    }
}
