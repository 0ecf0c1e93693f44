//! The numbers of the newest changes, by which whoever keeps something beside the tables sees that it is old.

ghost use Rattle.std.specs.Prelude.{◌≢◌, [], IfErr, IsSome, OnOk, position};
ghost use Rattle.plain_tables.specs.Databases.{is_named};
ghost use Rattle.mm_catalog.specs.Seen.{database_of};
ghost use Rattle.mm_session.specs.IndexAnswers.{TellsNothing};

use super::ReadExecutor;
use mm_catalog::Catalog;
use plain_tables::Refusal;

impl ReadExecutor {
    /// The number of the newest change of the table of a name. An empty name stands for all tables.
    pub fn version(&self, catalog: &Catalog, name: &[u8]) -> Result<u64, Refusal>
        ensures there { OnOk result (name.now ≢ [] → IsSome (position (is_named name.now) (database_of catalog.now))) }
        ensures refused { IfErr result (TellsNothing catalog.now name.now) }
        ensures named { IfErr result (λ _. name.now ≢ []) }
    {
        if name.is_empty() {
            return Ok(catalog.version());
        }
        let table = self.table_named(catalog, name)?;
        Ok(catalog.table_version(table))
    }
}
