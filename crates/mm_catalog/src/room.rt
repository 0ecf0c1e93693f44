//! Memory for the rows of a load, before the first of them comes in.
ghost use Rattle.std.specs.Prelude.{◌≡◌, ◌<◌, length};

use crate::catalog::Catalog;
use no_memory::NoMemory;
use plain_tables::TableNumber;

impl Catalog {
    /// Makes sure of memory for so many rows more in a table, as far as the limits let them in and it is known what they need.
    pub(crate) fn reserve_rows(&mut self, table: TableNumber, count: usize) -> Result<(), NoMemory>
        requires { table.0 < length self.old.relations }
        ensures { self.new ≡ self.old }
    {
        let most = u64::from(self.limits.rows);
        let relation = &mut self.relations[table.0];
        let left = most.saturating_sub(relation.len());
        relation.reserve_rows(left.min(count as u64) as usize)
    }

    /// Gives back the memory of a table that is spare, if there is the table. It takes no memory.
    pub(crate) fn shed_spares(&mut self, table: TableNumber)
        ensures { self.new ≡ self.old }
    {
        if table.0 < self.relations.len() {
            let relation = &mut self.relations[table.0];
            relation.shed_spares();
        }
    }
}
