//! Whether a search goes on.

ghost use Rattle.std.specs.Prelude.{IfErr};
ghost use Rattle.no_memory.specs.declared.NoMemory.{NoMemory as PlainNoMemory};

use no_memory::NoMemory;

/// What a search asks whether to go on.
pub trait Progress {
    /// Why a search ends before it has found all: a growth was refused, or it doesn't go on.
    type Fault: From<NoMemory>;

    // As it is, a search may end for this reason.
    ghost ends: { Self → Self.Fault → Type 0 };

    /// Whether to go on. Else it says why not.
    fn go_on(&self) -> Result<(), Self::Fault>
        ensures { IfErr result (ends self.now) };

    // A growth that was refused is a reason at any time.
    ghost out_of_memory: { (search : Self) (refused : PlainNoMemory) (why : Self.Fault) → Self.Fault.from_gives refused why → ends search why };
}

/// Every search goes on to its end, unless a growth is refused.
#[derive(Clone, Copy)]
pub struct ToTheEnd;

impl Progress for ToTheEnd {
    type Fault = NoMemory;

    ghost ends = { λ all why. Unit {0} };

    ghost out_of_memory = { λ search refused why gives. tt };

    #[inline(always)]
    fn go_on(&self) -> Result<(), NoMemory> {
        Ok(())
    }
}
