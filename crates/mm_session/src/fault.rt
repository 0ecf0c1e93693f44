//! Why a session or a run stopped, what is no request, and why rows were not shown or counted.

use mm_cells::CellFault;
use mm_interrupts::Interrupted;
use no_memory::NoMemory;
use thiserror::Error;

/// Why a piece was not taken to its end.
#[derive(Clone, Copy, Debug, PartialEq, Eq, Error)]
pub enum SessionFault {
    /// A write answered an error or took no byte. The session has ended.
    #[error("write fault")]
    Write,
    /// The session had ended before the call.
    #[error("the session has ended")]
    Ended,
}

/// Why a run stopped before the end of its stream.
#[derive(Clone, Copy, Debug, PartialEq, Eq, Error)]
pub enum RunFault {
    /// A read answered an error, or 2^40 reads did not reach the end.
    #[error("read fault")]
    Read,
    /// A write or a flush answered an error, or a write took no byte.
    #[error("write fault")]
    Write,
    /// No memory was found to begin.
    #[error("no memory")]
    NoMemory,
}

/// A line and a block are not one whole request: the line has a line feed in it, or asks for another number of bytes than the
/// block has.
#[derive(Clone, Copy, Debug, PartialEq, Eq, Error)]
#[error("not one whole request")]
pub struct NotOneRequest;

/// Why a request is not answered where tables are only read. Nothing has changed.
#[derive(Clone, Copy, Debug, PartialEq, Eq, Error)]
pub enum ReadFault {
    /// The line and the block are not one whole request.
    #[error("not one whole request")]
    NotOneRequest,
    /// The line spells a command that would change tables, and its names and values don't refuse it.
    #[error("a change")]
    Changes,
}

/// Why the rows that a select shows were not put into cells.
#[derive(Clone, Copy, Debug, PartialEq, Eq, Error)]
pub enum SelectFault {
    /// A growth was refused.
    #[error("no memory")]
    NoMemory(NoMemory),
    /// Their texts have 4 GiB or more: a cell has no number for one behind them.
    #[error("too long")]
    TooLong,
    /// The select was asked to end.
    #[error("interrupted")]
    Interrupted,
}

impl From<NoMemory> for SelectFault {
    ghost use Rattle.std.specs.Prelude.{◌≡◌};
    ghost use Rattle.mm_session.specs.declared.fault.SelectFault.TheVariants as fault;

    ghost from_gives = { λ refused e. e ≡ fault.NoMemory refused };

    fn from(refused: NoMemory) -> SelectFault {
        SelectFault::NoMemory(refused)
    }
}

impl From<Interrupted> for SelectFault {
    ghost use Rattle.std.specs.Prelude.{◌≡◌};
    ghost use Rattle.mm_session.specs.declared.fault.SelectFault.TheVariants as fault;

    ghost from_gives = { λ _ e. e ≡ fault.Interrupted };

    fn from(_: Interrupted) -> SelectFault {
        SelectFault::Interrupted
    }
}

impl From<CellFault> for SelectFault {
    ghost use Rattle.std.specs.Prelude.{◌≡◌};
    ghost use Rattle.mm_session.specs.Sinks.{select_fault_of};

    ghost from_gives = { λ why e. e ≡ select_fault_of why };

    fn from(why: CellFault) -> SelectFault {
        match why {
            CellFault::NoMemory(refused) => SelectFault::NoMemory(refused),
            CellFault::TooLong => SelectFault::TooLong,
        }
    }
}

/// Why the rows that a select shows were not counted.
#[derive(Clone, Copy, Debug, PartialEq, Eq, Error)]
pub enum CountFault {
    /// A growth was refused.
    #[error("no memory")]
    NoMemory(NoMemory),
    /// They are 2^64 or more.
    #[error("too many rows")]
    TooMany,
    /// The select was asked to end.
    #[error("interrupted")]
    Interrupted,
}

impl From<Interrupted> for CountFault {
    ghost use Rattle.std.specs.Prelude.{◌≡◌};
    ghost use Rattle.mm_session.specs.declared.fault.CountFault.TheVariants as fault;

    ghost from_gives = { λ _ e. e ≡ fault.Interrupted };

    fn from(_: Interrupted) -> CountFault {
        CountFault::Interrupted
    }
}

impl From<NoMemory> for CountFault {
    ghost use Rattle.std.specs.Prelude.{◌≡◌};
    ghost use Rattle.mm_session.specs.declared.fault.CountFault.TheVariants as fault;

    ghost from_gives = { λ refused e. e ≡ fault.NoMemory refused };

    fn from(refused: NoMemory) -> CountFault {
        CountFault::NoMemory(refused)
    }
}
