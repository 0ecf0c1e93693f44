//! What a catalog keeps, as a law. It is the contract of a function that does nothing.
ghost use Rattle.mm_catalog.specs.Consistent.{IsConsistent};

use crate::catalog::Catalog;

/// The database is sound, each relation stands rightly among the others, and the links to each row are counted.
pub fn a_catalog_is_consistent(catalog: &Catalog)
    ensures { IsConsistent catalog.now }
{
    let _ = &catalog.limits;
}
