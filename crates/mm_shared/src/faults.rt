//! Why a change, a request, a piece of the stream or the begin of a transaction is declined by a session that may be shared.

use mm_session::{NotOneRequest, ReadFault, SessionFault};
use no_memory::NoMemory;
use plain_tables::Refusal;

/// Why a change was not done. Nothing has changed.
#[derive(Clone, Copy)]
pub enum ChangeFault {
    /// It is refused; 90 where a growth was refused.
    Refused(Refusal),
    /// Another database shares the tables.
    Shared,
}

impl From<Refusal> for ChangeFault {
    ghost use Rattle.std.specs.Prelude.{◌≡◌};
    ghost use Rattle.mm_shared.specs.declared.faults.ChangeFault.TheVariants as fault;

    ghost from_gives = { λ why e. e ≡ fault.Refused why };

    fn from(why: Refusal) -> ChangeFault {
        ChangeFault::Refused(why)
    }
}

/// Why no transaction begins. Nothing has changed.
#[derive(Clone, Copy)]
pub enum BeginFault {
    /// A growth was refused.
    NoMemory,
    /// Another database shares the tables.
    Shared,
}

impl From<NoMemory> for BeginFault {
    ghost use Rattle.std.specs.Prelude.{◌≡◌};
    ghost use Rattle.mm_shared.specs.declared.faults.BeginFault.TheVariants as fault;

    ghost from_gives = { λ _ e. e ≡ fault.NoMemory };

    fn from(_: NoMemory) -> BeginFault {
        BeginFault::NoMemory
    }
}

/// Why a request was not answered. Nothing has changed.
#[derive(Clone, Copy)]
pub enum RequestFault {
    /// The line has a line feed in it, or asks for another number of bytes than the block has.
    NotOneRequest,
    /// It would change tables, which another database shares.
    Shared,
}

impl From<NotOneRequest> for RequestFault {
    ghost use Rattle.std.specs.Prelude.{◌≡◌};
    ghost use Rattle.mm_shared.specs.declared.faults.RequestFault.TheVariants as fault;

    ghost from_gives = { λ _ e. e ≡ fault.NotOneRequest };

    fn from(_: NotOneRequest) -> RequestFault {
        RequestFault::NotOneRequest
    }
}

impl From<ReadFault> for RequestFault {
    ghost use Rattle.std.specs.Prelude.{◌≡◌};
    ghost use Rattle.mm_shared.specs.Faults.{request_fault_of};

    ghost from_gives = { λ why e. e ≡ request_fault_of why };

    fn from(why: ReadFault) -> RequestFault {
        match why {
            ReadFault::NotOneRequest => RequestFault::NotOneRequest,
            ReadFault::Changes => RequestFault::Shared,
        }
    }
}

/// Why a piece of the stream was not taken to its end.
#[derive(Clone, Copy)]
pub enum StreamFault {
    /// A write answered an error or took no byte. The stream has ended.
    Write,
    /// The stream had ended before the call.
    Ended,
    /// Another database shares the tables. Nothing has changed.
    Shared,
}

impl From<SessionFault> for StreamFault {
    ghost use Rattle.std.specs.Prelude.{◌≡◌};
    ghost use Rattle.mm_shared.specs.Faults.{stream_fault_of};

    ghost from_gives = { λ why e. e ≡ stream_fault_of why };

    fn from(why: SessionFault) -> StreamFault {
        match why {
            SessionFault::Write => StreamFault::Write,
            SessionFault::Ended => StreamFault::Ended,
        }
    }
}
