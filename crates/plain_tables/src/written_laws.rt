//! The laws of what is written: conditions, settings and items. Each is the contract of a function that does nothing.

ghost use Rattle.plain_tables.specs.WrittenLaws.{SelectedNamesMean, SelectsMeetTheWritten, UpdatesTestTheWritten, DeletesTestTheWritten, UpdatesSetTheWritten, SelectsShowTheWritten};

/// Each name in a select that is resolved means a table, or a place among the tables that it names.
pub fn selected_names_mean()
    ensures { SelectedNamesMean }
{}

/// The members of a select are the ways to take a row of each table that it names which meet all conditions and all joins, each
/// judged at the places that its names mean.
pub fn selects_meet_the_written()
    ensures { SelectsMeetTheWritten }
{}

/// The rows that an update or a delete picks are those of the table that it names which meet all conditions, each judged at the
/// column that its name means.
pub fn changes_test_the_written()
    ensures update { UpdatesTestTheWritten }
    ensures delete { DeletesTestTheWritten }
{}

/// An update sets each written value at the column that its name means, in the table that it names.
pub fn updates_set_the_written()
    ensures { UpdatesSetTheWritten }
{}

/// A select shows, for each item that is written, the column that its name means.
pub fn selects_show_the_written()
    ensures { SelectsShowTheWritten }
{}
