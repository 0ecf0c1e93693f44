//! The laws of statements. Each of these functions does nothing: its contract is the law, and its proof is the law's.

ghost use Rattle.plain_statements.specs.Executing.{ResolutionsExecute};
ghost use Rattle.plain_statements.specs.Laws.{FilledIsFinished, ResolutionStays};
ghost use Rattle.plain_statements.specs.StatementSpelling.{SpellsAtMostOneStatement, CommandsAreStatements, StatementsWithoutMarks, QuestionMarksAreHoles};

/// No line spells two statements.
pub fn line_spells_at_most_one_statement()
    ensures { SpellsAtMostOneStatement }
{}

/// A line without question marks that spells a command on rows spells the statement that it is, whatever values there are.
pub fn commands_are_statements()
    ensures { CommandsAreStatements }
{}

/// A line without question marks that spells a statement spells the command that it is.
pub fn statements_without_marks()
    ensures { StatementsWithoutMarks }
{}

/// The line `insert t (?, 'a?b')` spells the insert of a row whose first value is a hole, and whose second one is a text.
pub fn question_marks_are_holes()
    ensures { QuestionMarksAreHoles }
{}

/// Each statement has a resolution, so that to resolve what is filled is to finish what is resolved, or it is refused in one way
/// whatever its values are.
pub fn filled_is_finished()
    ensures { FilledIsFinished }
{}

/// A resolution stays right while the tables have the same names and columns, whatever rows and indexes they have.
pub fn resolution_stays()
    ensures { ResolutionStays }
{}

/// What is done by a right resolution, once its values have come, is what the statement does with these values.
pub fn resolutions_execute()
    ensures { ResolutionsExecute }
{}
