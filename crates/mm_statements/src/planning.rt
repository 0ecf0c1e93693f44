//! From a line to the plan of the select that it spells.
ghost use Rattle.std.specs.Prelude.{IfErr, IfOk};
ghost use Rattle.plain_streams.specs.Requests.{without_return};
ghost use Rattle.mm_statements.specs.Planning.{IsPlanOfLine, IsUnplanned};

use crate::querying::command_of_line;
use mm_session::ToldPlan;
use mm_shared::SharedSession;
use plain_tables::{Query, Refusal, Resolved};
use std::alloc::Global;

/// A select as it is resolved, and its plan.
#[derive(Drop)]
pub struct PlannedSelect {
    pub query: Query,
    pub plan: ToldPlan,
}

/// The select that a line spells, and its plan. A carriage return at the line's end is no part of it.
pub fn plan_of_line(
    alloc: Global,
    held: &SharedSession,
    line: &[u8],
) -> Result<PlannedSelect, Refusal>
    ensures planned { IfOk result (IsPlanOfLine held.now.session (without_return line.now)) }
    ensures refused { IfErr result (IsUnplanned held.now.session (without_return line.now)) }
{
    let command = command_of_line(alloc, held, line)?;
    let Resolved::Select(query) = command else {
        return Err(Refusal::NotACommand);
    };
    let plan = held.session().plan(&query)?;
    Ok(PlannedSelect { query, plan })
}
