//! How many rows a select shows.

ghost use Rattle.std.specs.Prelude.{◌≡◌, Err, IfOk, IsErrOf};
ghost use Rattle.mm_database.specs.declared.statements.Unexecuted.TheVariants as unexecuted;

use crate::database::OpenDatabase;
use crate::statements::Unexecuted;
use mm_statements::ExecuteFault;

impl OpenDatabase {
    ghost use Rattle.mm_database.specs.Calls.{IsSilent};
    ghost use Rattle.mm_database.specs.Counting.{CountsRows, IsUncounted, OnlyCounts, ShowsTooMany};
    ghost use Rattle.mm_database.specs.Interrupts.{IsSelect};
    ghost use Rattle.mm_database.specs.StatementCalls.{IsMissing};

    /// How many rows the select of a number shows with the values that are bound; the answer is empty then. Where it is refused, that is
    /// the answer. A number that names no statement leaves all as it was.
    pub fn count(&mut self, number: u32) -> Result<u64, Unexecuted>
        ensures counted { IfOk result (CountsRows number self.old self.new) }
        ensures missing { IsMissing number self.old → result ≡ Err unexecuted.NoSuchStatement }
        ensures none { result ≡ Err unexecuted.NoSuchStatement → IsMissing number self.old × (self.new ≡ self.old) }
        ensures refused { IsErrOf result unexecuted.Refused → IsUncounted number self.old self.new }
        ensures too_many { IsErrOf result unexecuted.TooLong → ShowsTooMany number self.old }
        ensures interrupted { IsErrOf result unexecuted.Interrupted → IsSelect number self.old }
        ensures too_long_silent { IsErrOf result unexecuted.TooLong → IsSilent self.new }
        ensures interrupted_silent { IsErrOf result unexecuted.Interrupted → IsSilent self.new }
        ensures kept { OnlyCounts self.old self.new }
        ensures reads { ¬ (IsErrOf result unexecuted.Shared) }
    {
        let number = number as usize;
        if !self.inner.has(number) {
            return Err(Unexecuted::NoSuchStatement);
        }
        self.answer.clear();
        match self.inner.count(number) {
            Ok(count) => Ok(count),
            Err(ExecuteFault::NoSuchStatement) => Err(Unexecuted::NoSuchStatement),
            Err(ExecuteFault::Refused(why)) => {
                self.answer.refuse(why);
                Err(Unexecuted::Refused)
            }
            Err(ExecuteFault::TooLong) => Err(Unexecuted::TooLong),
            // It changes no tables.
            Err(ExecuteFault::Shared) => unreachable!(),
            Err(ExecuteFault::Interrupted) => Err(Unexecuted::Interrupted),
        }
    }
}
