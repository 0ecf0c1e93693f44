//! The laws of resolved commands. Each is the contract of a function that does nothing.

ghost use Rattle.std.specs.Prelude.{[]};
ghost use Rattle.plain_tables.specs.declared.command.Limits.{Limits};
ghost use Rattle.plain_tables.specs.References.{IsSound};
ghost use Rattle.plain_tables.specs.ResolvedLaws.{SpellableAreGiven, ResolvedAreMeant, DoneKeepsSound, UpdateKeepsSound, DeleteKeepsSound, CommandsKeepSound, ResolvedAlike, DoneAlike, OwnRowsChange, RefusedKeeps, RefusedUpdateKeeps, RefusedDeleteKeeps, UpdateKeepsUnpicked, UpdateSetsPicked, DeletesThePicked, LoadGoesOn, LoadsAreTold, LoadCanBeTakenBack, SelectsRows, ShownFitHeadings};

/// A database of no tables is sound.
pub fn no_tables_are_sound()
    ensures { (limits : Limits) → IsSound limits [] }
{}

/// A resolved command of a sound database leaves it sound.
pub fn done_keeps_sound()
    ensures { DoneKeepsSound }
{}

/// An update of a sound database leaves it sound, whichever rows it picks.
pub fn update_keeps_sound()
    ensures { UpdateKeepsSound }
{}

/// A delete from a sound database leaves it sound, whichever rows it picks.
pub fn delete_keeps_sound()
    ensures { DeleteKeepsSound }
{}

/// A command is resolved only to one that names what is there, with values that can stand there.
pub fn resolved_are_meant()
    ensures { ResolvedAreMeant }
{}

/// Whatever can be spelled has names, a column and integers as `IsGiven` wants them.
pub fn spellable_are_given()
    ensures { SpellableAreGiven }
{}

/// A command that is resolved leaves a sound database sound.
pub fn commands_keep_sound()
    ensures { CommandsKeepSound }
{}

/// No command but those on indexes is resolved by the declared ones.
pub fn resolved_without_indexes()
    ensures { ResolvedAlike }
{}

/// No resolved command but a listing of the tables reads the declared indexes.
pub fn done_without_indexes()
    ensures { DoneAlike }
{}

/// A resolved command on the rows of a table changes those rows at most.
pub fn own_rows_change()
    ensures { OwnRowsChange }
{}

/// What is refused leaves the database as it was.
pub fn refused_keeps()
    ensures resolved { RefusedKeeps }
    ensures update { RefusedUpdateKeeps }
    ensures delete { RefusedDeleteKeeps }
{}

/// An update leaves each row that it doesn't pick as it is, in its place.
pub fn update_keeps_the_unpicked()
    ensures { UpdateKeepsUnpicked }
{}

/// An update that assigns to no column twice sets its values in each row that it picks, and no others.
pub fn update_sets_the_picked()
    ensures { UpdateSetsPicked }
{}

/// A delete takes out the rows that it picks, and leaves the others as they are and in order.
pub fn delete_takes_the_picked()
    ensures { DeletesThePicked }
{}

/// A load of rows goes on from the load of the first of them.
pub fn load_goes_on()
    ensures { LoadGoesOn }
{}

/// A load adds all its rows, or tells the record of one that is refused and adds none.
pub fn loads_are_told()
    ensures { LoadsAreTold }
{}

/// What was loaded can be taken back by a delete.
pub fn load_can_be_taken_back()
    ensures { LoadCanBeTakenBack }
{}

/// A select of all columns, with no tests, shows the rows of its table.
pub fn select_shows_rows()
    ensures { SelectsRows }
{}

/// Each row that is shown has a value below each heading.
pub fn shown_rows_fit_their_headings()
    ensures { ShownFitHeadings }
{}
