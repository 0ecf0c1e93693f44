//! What holds of all lists, as laws. Each is the contract of a function that does nothing.
ghost use Rattle.temp_list.specs.ListLaws.{SortedAreOne, SameAreOver};

/// Two lists of the same rows that are both in the order of their keys are one. So it doesn't matter which plan found the
/// rows, once they are sorted.
pub fn sorted_lists_are_one()
    ensures { SortedAreOne }
{}

/// A list of the same rows as one that is over relations is over them too.
pub fn same_rows_are_over()
    ensures { SameAreOver }
{}
