//! Why a statement was refused, and why a line is none.

use crate::database::OpenDatabase;
use mm_reason::{ReasonFault, prepare_reason, refusal_of, statement_reason};
use no_memory::NoMemory;
use std::alloc::Global;

/// Why it was not looked for why a statement was refused.
#[derive(Clone, Copy)]
pub enum Unexplained {
    NoSuchStatement,
    NoMemory,
}

impl From<NoMemory> for Unexplained {
    ghost use Rattle.std.specs.Prelude.{◌≡◌};
    ghost use Rattle.mm_database.specs.declared.reasons.Unexplained.TheVariants as unexplained;

    ghost from_gives = { λ _ e. e ≡ unexplained.NoMemory };

    fn from(_: NoMemory) -> Unexplained {
        Unexplained::NoMemory
    }
}

impl From<ReasonFault> for Unexplained {
    ghost use Rattle.std.specs.Prelude.{◌≡◌};
    ghost use Rattle.mm_database.specs.declared.reasons.Unexplained.TheVariants as unexplained;

    ghost from_gives = { λ _ e. e ≡ unexplained.NoMemory };

    fn from(why: ReasonFault) -> Unexplained {
        match why {
            ReasonFault::NoMemory => Unexplained::NoMemory,
        }
    }
}

impl OpenDatabase {
    ghost use Rattle.std.specs.Prelude.{◌≡◌, Err};
    ghost use Rattle.mm_database.specs.Calls.{IsAsBefore};
    ghost use Rattle.mm_database.specs.StatementCalls.{IsMissing};
    ghost use Rattle.mm_database.specs.declared.reasons.Unexplained.TheVariants as unexplained;

    // Keeps these words as the reason.
    fn keep_reason(&mut self, words: Option<String>) -> Result<(), NoMemory>
        ensures { IsAsBefore self.old self.new }
    {
        self.reason.clear();
        match words {
            Some(words) => self.reason.push(words.as_bytes()),
            None => Ok(()),
        }
    }

    /// Keeps the words that say why a line was refused, when it was to be prepared, by the refusal that the answers begin with. There
    /// are none where they begin with none, or where that can't be told.
    pub fn find_prepare_reason(&mut self, alloc: Global, line: &[u8]) -> Result<(), ReasonFault>
        ensures { IsAsBefore self.old self.new }
    {
        let words = match refusal_of(self.answer.as_slice()) {
            Some(refusal) => prepare_reason(alloc, self.inner.session().catalog(), line, refusal)?,
            None => None,
        };
        Ok(self.keep_reason(words)?)
    }

    /// Keeps the words that say why a statement was refused by the refusal that the answers begin with. There are none where they begin
    /// with none, or where that can't be told.
    pub fn find_statement_reason(&mut self, alloc: Global, number: u32) -> Result<(), Unexplained>
        ensures missing { IsMissing number self.old → result ≡ Err unexplained.NoSuchStatement }
        ensures none { result ≡ Err unexplained.NoSuchStatement → IsMissing number self.old }
        ensures unchanged { IsAsBefore self.old self.new }
    {
        let Some(kept) = self.inner.statement(number as usize) else {
            return Err(Unexplained::NoSuchStatement);
        };
        let words = match refusal_of(self.answer.as_slice()) {
            Some(refusal) => {
                let catalog = self.inner.session().catalog();
                statement_reason(alloc, catalog, kept.line, kept.values, refusal)?
            }
            None => None,
        };
        Ok(self.keep_reason(words)?)
    }
}
