//! The number of the newest change of a relation's rows.
//!
//! Whoever owns the relation counts changes, of all its relations by one clock, and puts the number here, so that it goes wherever the
//! relation goes. It is no part of what a relation is seen as: two relations with the same rows may have different numbers.
ghost use Rattle.std.specs.Prelude.{◌≡◌};

use crate::relation::Relation;

impl Relation {
    /// The number that was set last, 0 if none was.
    pub fn version(&self) -> u64 {
        self.version
    }

    /// Sets that number.
    pub fn set_version(&mut self, version: u64)
        ensures { self.new ≡ self.old }
    {
        self.version = version;
    }
}
