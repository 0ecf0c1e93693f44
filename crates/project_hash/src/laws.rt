//! What makes a list without duplicates the only one, as laws. Each is the contract of a function that does nothing.
ghost use Rattle.project_hash.specs.Distinct.{RisingListsAreOne, DistinctShowsTheSame};

/// Lists of values that rise and have the same members are one list. So there is one list of what is shown without repeats.
pub fn rising_lists_are_one()
    ensures { RisingListsAreOne }
{}

/// A list without duplicates shows the values that occur, and no others.
pub fn distinct_shows_the_same()
    ensures { DistinctShowsTheSame }
{}
