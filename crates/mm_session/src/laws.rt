//! The laws of streams that a session answers, and of the columns that it tells. Each is the contract of a function that does nothing.

ghost use Rattle.mm_session.specs.ColumnLaws.{ColumnsAreTheHeading};
ghost use Rattle.mm_session.specs.StreamLaws.{AnswersAreUnique, StreamsReadNoIndexes};

/// The answers to a stream are unique unless a request is answered out of memory.
pub fn answers_are_unique()
    ensures { AnswersAreUnique }
{}

/// Tables that are alike but for the declared indexes answer a stream alike, whose requests don't declare, drop or list indexes.
pub fn streams_read_no_indexes()
    ensures { StreamsReadNoIndexes }
{}

/// The columns that are told of a select are the heading of its answer, each with the kind that the tables declare at the item that is
/// written for it.
pub fn columns_are_the_heading()
    ensures { ColumnsAreTheHeading }
{}
