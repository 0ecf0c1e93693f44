//! Why a line is not kept as a statement, why a statement is not executed, why nothing comes of a line, and why tables are not shared.

use mm_cells::CellFault;
use mm_session::{CountFault, SelectFault};
use mm_shared::{BeginFault, ChangeFault};
use no_memory::NoMemory;
use plain_tables::Refusal;

/// Why a line is not kept as a statement.
#[derive(Clone, Copy)]
pub enum PrepareFault {
    /// 10 where the line is too long, 11 where it isn't UTF-8, 20 where it spells no statement; or what the statement that it spells
    /// is refused by whatever its values are.
    Refused(Refusal),
    /// A growth was refused.
    NoMemory,
}

impl From<NoMemory> for PrepareFault {
    ghost use Rattle.std.specs.Prelude.{◌≡◌};
    ghost use Rattle.mm_statements.specs.declared.faults.PrepareFault.TheVariants as fault;

    ghost from_gives = { λ _ e. e ≡ fault.NoMemory };

    fn from(_: NoMemory) -> PrepareFault {
        PrepareFault::NoMemory
    }
}

impl From<Refusal> for PrepareFault {
    ghost use Rattle.std.specs.Prelude.{◌≡◌};
    ghost use Rattle.mm_statements.specs.Faults.{fault_of};

    ghost from_gives = { λ why e. e ≡ fault_of why };

    fn from(why: Refusal) -> PrepareFault {
        match why {
            Refusal::NoMemory => PrepareFault::NoMemory,
            _ => PrepareFault::Refused(why),
        }
    }
}

/// Why a statement is not executed. Nothing has changed.
#[derive(Clone, Copy)]
pub enum ExecuteFault {
    /// The number names no statement.
    NoSuchStatement,
    /// The statement is refused with these values; 90 where a growth was refused.
    Refused(Refusal),
    /// The texts of the rows that it shows are longer than 4 GiB together: cells have no numbers for them. Or the rows that are to be
    /// counted are 2^64 or more; or so many are changed by many rows of values.
    TooLong,
    /// It is an insert, an update or a delete, and another database shares the tables.
    Shared,
    /// It is a select, which was asked to end.
    Interrupted,
}

impl From<Refusal> for ExecuteFault {
    ghost use Rattle.std.specs.Prelude.{◌≡◌};
    ghost use Rattle.mm_statements.specs.declared.faults.ExecuteFault.TheVariants as fault;

    ghost from_gives = { λ why e. e ≡ fault.Refused why };

    fn from(why: Refusal) -> ExecuteFault {
        ExecuteFault::Refused(why)
    }
}

impl From<NoMemory> for ExecuteFault {
    ghost use Rattle.std.specs.Prelude.{◌≡◌};
    ghost use Rattle.plain_tables.specs.declared.refusal.Refusal.TheVariants as refusal;
    ghost use Rattle.mm_statements.specs.declared.faults.ExecuteFault.TheVariants as fault;

    ghost from_gives = { λ _ e. e ≡ fault.Refused refusal.NoMemory };

    fn from(_: NoMemory) -> ExecuteFault {
        ExecuteFault::Refused(Refusal::NoMemory)
    }
}

impl From<CellFault> for ExecuteFault {
    ghost use Rattle.std.specs.Prelude.{◌≡◌};
    ghost use Rattle.mm_statements.specs.Faults.{execute_fault_of};

    ghost from_gives = { λ why e. e ≡ execute_fault_of why };

    fn from(why: CellFault) -> ExecuteFault {
        match why {
            CellFault::NoMemory(refused) => ExecuteFault::Refused(Refusal::from(refused)),
            CellFault::TooLong => ExecuteFault::TooLong,
        }
    }
}

impl From<SelectFault> for ExecuteFault {
    ghost use Rattle.std.specs.Prelude.{◌≡◌};
    ghost use Rattle.mm_statements.specs.Faults.{execute_fault_of_select};

    ghost from_gives = { λ why e. e ≡ execute_fault_of_select why };

    fn from(why: SelectFault) -> ExecuteFault {
        match why {
            SelectFault::NoMemory(refused) => ExecuteFault::Refused(Refusal::from(refused)),
            SelectFault::TooLong => ExecuteFault::TooLong,
            SelectFault::Interrupted => ExecuteFault::Interrupted,
        }
    }
}

impl From<CountFault> for ExecuteFault {
    ghost use Rattle.std.specs.Prelude.{◌≡◌};
    ghost use Rattle.mm_statements.specs.Counting.{execute_fault_of_count};

    ghost from_gives = { λ why e. e ≡ execute_fault_of_count why };

    fn from(why: CountFault) -> ExecuteFault {
        match why {
            CountFault::NoMemory(refused) => ExecuteFault::Refused(Refusal::from(refused)),
            CountFault::TooMany => ExecuteFault::TooLong,
            CountFault::Interrupted => ExecuteFault::Interrupted,
        }
    }
}

/// Why nothing comes of a line. Nothing has changed.
#[derive(Clone, Copy)]
pub enum QueryFault {
    /// The line is refused; 90 where a growth was refused.
    Refused(Refusal),
    /// The texts of the rows that it shows are longer than 4 GiB together: cells have no numbers for them.
    TooLong,
    /// It is an insert, an update or a delete, and another database shares the tables.
    Shared,
    /// It is a select, which was asked to end.
    Interrupted,
}

impl From<Refusal> for QueryFault {
    ghost use Rattle.std.specs.Prelude.{◌≡◌};
    ghost use Rattle.mm_statements.specs.declared.faults.QueryFault.TheVariants as fault;

    ghost from_gives = { λ why e. e ≡ fault.Refused why };

    fn from(why: Refusal) -> QueryFault {
        QueryFault::Refused(why)
    }
}

impl From<SelectFault> for QueryFault {
    ghost use Rattle.std.specs.Prelude.{◌≡◌};
    ghost use Rattle.mm_statements.specs.Faults.{query_fault_of};

    ghost from_gives = { λ why e. e ≡ query_fault_of why };

    fn from(why: SelectFault) -> QueryFault {
        match why {
            SelectFault::NoMemory(refused) => QueryFault::Refused(Refusal::from(refused)),
            SelectFault::TooLong => QueryFault::TooLong,
            SelectFault::Interrupted => QueryFault::Interrupted,
        }
    }
}

impl From<ChangeFault> for ExecuteFault {
    ghost use Rattle.std.specs.Prelude.{◌≡◌};
    ghost use Rattle.mm_statements.specs.Faults.{execute_fault_of_change};

    ghost from_gives = { λ why e. e ≡ execute_fault_of_change why };

    fn from(why: ChangeFault) -> ExecuteFault {
        match why {
            ChangeFault::Refused(why) => ExecuteFault::Refused(why),
            ChangeFault::Shared => ExecuteFault::Shared,
        }
    }
}

impl From<BeginFault> for ExecuteFault {
    ghost use Rattle.std.specs.Prelude.{◌≡◌};
    ghost use Rattle.mm_statements.specs.Faults.{execute_fault_of_begin};

    ghost from_gives = { λ why e. e ≡ execute_fault_of_begin why };

    fn from(why: BeginFault) -> ExecuteFault {
        match why {
            BeginFault::NoMemory => ExecuteFault::Refused(Refusal::NoMemory),
            BeginFault::Shared => ExecuteFault::Shared,
        }
    }
}

impl From<ChangeFault> for QueryFault {
    ghost use Rattle.std.specs.Prelude.{◌≡◌};
    ghost use Rattle.mm_statements.specs.Faults.{query_fault_of_change};

    ghost from_gives = { λ why e. e ≡ query_fault_of_change why };

    fn from(why: ChangeFault) -> QueryFault {
        match why {
            ChangeFault::Refused(why) => QueryFault::Refused(why),
            ChangeFault::Shared => QueryFault::Shared,
        }
    }
}

/// Why no tables are shared, left or copied. Nothing has changed.
#[derive(Clone, Copy)]
pub enum ShareFault {
    /// A growth was refused.
    NoMemory,
    /// A transaction is open.
    InTransaction,
}

impl From<NoMemory> for ShareFault {
    ghost use Rattle.std.specs.Prelude.{◌≡◌};
    ghost use Rattle.mm_statements.specs.declared.faults.ShareFault.TheVariants as fault;

    ghost from_gives = { λ _ e. e ≡ fault.NoMemory };

    fn from(_: NoMemory) -> ShareFault {
        ShareFault::NoMemory
    }
}

/// Why no cursor is opened. Nothing has changed, but that the session may be shared.
#[derive(Clone, Copy)]
pub enum CursorFault {
    /// A transaction is open.
    InTransaction,
    /// The statement is declined, as where its first rows are asked for; by 90 also where there is no memory to share the session. It is
    /// never `TooLong`.
    Declined(ExecuteFault),
}

impl From<ExecuteFault> for CursorFault {
    ghost use Rattle.std.specs.Prelude.{◌≡◌};
    ghost use Rattle.mm_statements.specs.declared.faults.CursorFault.TheVariants as fault;

    ghost from_gives = { λ why e. e ≡ fault.Declined why };

    fn from(why: ExecuteFault) -> CursorFault {
        CursorFault::Declined(why)
    }
}
