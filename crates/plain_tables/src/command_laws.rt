//! The laws of commands. Each is the contract of a function that does nothing.

ghost use Rattle.plain_tables.specs.CommandLaws.{EffectsKeepSound, OwnRowsChange, NamesHaveHeadings, IndexesAreNotRead};

/// Each command that a line can give leaves a sound database sound.
pub fn effects_keep_sound()
    ensures { EffectsKeepSound }
{}

/// A command on the rows of a table changes those rows at most, and no other table.
pub fn own_rows_change()
    ensures { OwnRowsChange }
{}

/// Each column that a select names has a heading.
pub fn named_columns_have_headings()
    ensures { NamesHaveHeadings }
{}

/// No command but those that declare, drop or list indexes reads the declared ones.
pub fn indexes_are_not_read()
    ensures { IndexesAreNotRead }
{}
