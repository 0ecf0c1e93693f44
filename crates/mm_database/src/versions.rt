//! The number of the newest change.

ghost use Rattle.std.specs.Prelude.{OnErr, OnOk};

use crate::database::OpenDatabase;
use plain_tables::Refusal;

impl OpenDatabase {
    ghost use Rattle.mm_database.specs.Planning.{OnlyAnswers};
    ghost use Rattle.mm_database.specs.Versions.{HasNoVersion, HasVersion};

    /// The number of the newest change of the table of a name, or of all tables if the name is empty; the answer is empty then. Where
    /// it is refused, that is the answer.
    pub fn version(&mut self, table: &[u8]) -> Result<u64, Refusal>
        ensures there { OnOk result (HasVersion table.now self.old self.new) }
        ensures refused { OnErr result (HasNoVersion table.now self.old self.new) }
        ensures kept { OnlyAnswers self.old self.new }
    {
        self.answer.clear();
        let version = self.inner.session().version(table);
        if let Err(why) = version {
            self.answer.refuse(why);
        }
        version
    }
}
