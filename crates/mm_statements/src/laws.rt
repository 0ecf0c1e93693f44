//! The laws of statements: beside the lines of a stream, and of their columns. Each is the contract of a function that does nothing.

ghost use Rattle.mm_statements.specs.ColumnLaws.{StatementsTellTheirHeading};
ghost use Rattle.mm_statements.specs.LineLaws.{StatementsAnswerAsTheirLines};

/// A statement with values answers and does what the line does in which these values are written for its question marks.
pub fn statements_answer_as_their_lines()
    ensures { StatementsAnswerAsTheirLines }
{}

/// The columns that are told of a statement are the names above the rows that it shows, in their order, whatever is bound.
pub fn statements_tell_their_heading()
    ensures { StatementsTellTheirHeading }
{}
