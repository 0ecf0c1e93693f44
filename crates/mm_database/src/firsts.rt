//! The first rows that a select shows.

ghost use Rattle.std.specs.Prelude.{◌≡◌, ◌<◌, Err, IfErr, IsErrOf, OnErr, OnOk, length};
ghost use Rattle.mm_database.specs.declared.statements.Unexecuted.TheVariants as unexecuted;

use crate::database::OpenDatabase;
use crate::rows::Rows;
use crate::statements::{Unexecuted, make_room};
use mm_statements::{ExecuteFault, Executed};
use plain_tables::Refusal;

impl OpenDatabase {
    ghost use Rattle.mm_cells.specs.Reading.{AreFull};
    ghost use Rattle.mm_statements.specs.First.{IsUnshown as IsUnshownBy};
    ghost use Rattle.mm_database.specs.Calls.{IsSilent};
    ghost use Rattle.mm_database.specs.First.{HasFirst, IsUnshown, ShowsFirst};
    ghost use Rattle.mm_database.specs.Interrupts.{IsSelect};
    ghost use Rattle.mm_database.specs.StatementCalls.{IsMissing, KeepsAll, KeepsOthers, shown_by};

    // Finds the first rows that a statement that is there shows, with room for them, and tells where they lie.
    fn first_there(
        &mut self,
        number: usize,
        most: usize,
        rows: &mut Rows,
    ) -> Result<(), ExecuteFault>
        requires { number < length self.old.shown.items }
        ensures done { OnOk result (HasFirst number most self.old self.new rows.new) }
        ensures declined { IfErr result (IsUnshownBy self.old.inner number) }
        ensures too_long { IsErrOf result ExecuteFault.TooLong → AreFull (shown_by self.new number) }
        ensures unchanged { KeepsAll self.old self.new }
        ensures others { KeepsOthers number self.old self.new }
        ensures answer { self.new.answer ≡ self.old.answer }
        ensures untold { OnErr result (rows.new ≡ rows.old) }
    {
        let columns = self.inner.first(number, most, &mut self.shown[number])?;
        rows.tell(Executed::Rows { columns }, &self.shown[number]);
        Ok(())
    }

    /// Tells the first rows that the select of a number shows with the values that are bound, so many at most. Their values are its cells,
    /// and the answer is empty. Where it is refused, that is the answer. A number that names no statement leaves all as it was.
    pub fn first(&mut self, number: u32, most: usize, rows: &mut Rows) -> Result<(), Unexecuted>
        ensures done { OnOk result (ShowsFirst number most self.old self.new rows.new) }
        ensures missing { IsMissing number self.old → result ≡ Err unexecuted.NoSuchStatement }
        ensures none { result ≡ Err unexecuted.NoSuchStatement → IsMissing number self.old × (self.new ≡ self.old) }
        ensures refused { IsErrOf result unexecuted.Refused → IsUnshown number self.old self.new }
        ensures too_long { result ≡ Err unexecuted.TooLong → AreFull (shown_by self.new number) }
        ensures unchanged { KeepsAll self.old self.new }
        ensures others { KeepsOthers number self.old self.new }
        ensures reads { ¬ (IsErrOf result unexecuted.Shared) }
        ensures interrupted { IsErrOf result unexecuted.Interrupted → IsSelect number self.old }
        ensures too_long_silent { IsErrOf result unexecuted.TooLong → IsSilent self.new }
        ensures interrupted_silent { IsErrOf result unexecuted.Interrupted → IsSilent self.new }
        ensures untold { OnErr result (rows.new ≡ rows.old) }
    {
        let number = number as usize;
        if !self.inner.has(number) {
            return Err(Unexecuted::NoSuchStatement);
        }
        self.answer.clear();
        if make_room(&mut self.shown, number).is_err() {
            self.answer.refuse(Refusal::NoMemory);
            return Err(Unexecuted::Refused);
        }
        match self.first_there(number, most, rows) {
            Ok(()) => Ok(()),
            Err(ExecuteFault::NoSuchStatement) => Err(Unexecuted::NoSuchStatement),
            Err(ExecuteFault::Refused(why)) => {
                self.answer.refuse(why);
                Err(Unexecuted::Refused)
            }
            Err(ExecuteFault::TooLong) => Err(Unexecuted::TooLong),
            // It changes no tables.
            Err(ExecuteFault::Shared) => unreachable!(),
            Err(ExecuteFault::Interrupted) => Err(Unexecuted::Interrupted),
        }
    }
}
