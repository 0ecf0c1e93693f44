//! The plan of the select that a line spells.

use crate::database::OpenDatabase;
use mm_reason::plan_words;
use plain_tables::Refusal;
use std::alloc::Global;

impl OpenDatabase {
    ghost use Rattle.std.specs.Prelude.{IfErr, OnErr, OnOk};
    ghost use Rattle.plain_streams.specs.Requests.{without_return};
    ghost use Rattle.mm_statements.specs.Planning.{IsUnplanned as IsUnplannedFor};
    ghost use Rattle.mm_database.specs.Planning.{IsPlanned, IsUnplanned, OnlyAnswers, TellsPlan};

    // The plan of the select that a line spells, in words.
    fn words_of_plan(&self, alloc: Global, line: &[u8]) -> Result<String, Refusal>
        ensures planned { OnOk result (IsPlanned line.now self.now) }
        ensures refused { IfErr result (IsUnplannedFor self.now.inner.session (without_return line.now)) }
    {
        let told = self.inner.plan(alloc, line)?;
        let catalog = self.inner.session().catalog();
        Ok(plan_words(alloc, catalog, &told.query, &told.plan)?)
    }

    // Puts the plan of the select that a line spells behind the answer.
    fn push_plan(&mut self, alloc: Global, line: &[u8]) -> Result<(), Refusal>
        ensures told { OnOk result (TellsPlan line.now self.old self.new) }
        ensures refused { IfErr result (IsUnplannedFor self.old.inner.session (without_return line.now)) }
        ensures kept { OnlyAnswers self.old self.new }
    {
        let words = self.words_of_plan(alloc, line)?;
        Ok(self.answer.push(words.as_bytes())?)
    }

    /// Makes the answer the plan of the select that a line spells, in words. Where there is none, the answer is the refusal.
    pub fn tell_plan(&mut self, alloc: Global, line: &[u8]) -> Result<(), Refusal>
        ensures told { OnOk result (TellsPlan line.now self.old self.new) }
        ensures refused { OnErr result (IsUnplanned line.now self.old self.new) }
    {
        self.answer.clear();
        let told = self.push_plan(alloc, line);
        if let Err(why) = told {
            self.answer.refuse(why);
        }
        told
    }
}
