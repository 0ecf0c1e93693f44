//! Numbers of changes, by which whoever keeps something beside the tables sees that it is old.
//!
//! One clock counts the changes of all tables, and each table has the number of its newest one. A change is noted by whoever made it:
//! nothing here tells whether rows have changed. A table that is taken out brings its number along when it is put back, and one that is
//! declared anew under the same name has a greater one. The numbers are no part of what a catalog is seen as.
ghost use Rattle.std.specs.Prelude.{◌≡◌, ◌<◌, length};

use crate::catalog::Catalog;
use mm_relation::Relation;
use plain_tables::TableNumber;

// Gives the relation of this number, where there is one, the number of the newest change.
fn stamp(relations: &mut [Relation], table: usize, version: u64)
    ensures { relations.new ≡ relations.old }
{
    if table < relations.len() {
        relations[table].set_version(version);
    }
}

// Gives each relation the number of the newest change.
fn stamp_each(relations: &mut [Relation], version: u64)
    ensures { relations.new ≡ relations.old }
{
    for relation in relations.iter_mut() {
        relation.set_version(version);
    }
}

impl Catalog {
    ghost use Rattle.mm_catalog.specs.Seen.{database_of};

    /// The number of the newest change of any table. It is 0 before the first.
    pub fn version(&self) -> u64 {
        self.clock
    }

    /// The number of the newest change of a table.
    pub fn table_version(&self, table: TableNumber) -> u64
        requires { table.0 < length (database_of self.now) }
    {
        self.relations[table.0].version()
    }

    /// Counts a change of the table of this number. Where there is none, it is a change of which tables there are.
    pub fn note_change(&mut self, table: TableNumber)
        ensures { self.new ≡ self.old }
    {
        self.clock = self.clock.wrapping_add(1);
        stamp(self.relations.as_mut_slice(), table.0, self.clock);
    }

    /// Counts a change of each table, and of which tables there are.
    pub fn note_all_changed(&mut self)
        ensures { self.new ≡ self.old }
    {
        self.clock = self.clock.wrapping_add(1);
        stamp_each(self.relations.as_mut_slice(), self.clock);
    }
}
