//! From a line to the resolved command that it spells, where no statement is kept of it.
ghost use Rattle.std.specs.Prelude.{◌≡◌, Err, IfErr, IfOk, Ok};
ghost use Rattle.plain_tables.specs.ResolvedLaws.{IsMeant};
ghost use Rattle.plain_streams.specs.Requests.{without_return};
ghost use Rattle.mm_statements.specs.Querying.{IsMeaningOfLine, IsUnqueried, is_statement as is_plain_statement};
ghost use Rattle.mm_statements.specs.Resolving.{IsOfRows};

use crate::reading::readable;
use mm_lang::parse;
use mm_shared::SharedSession;
use plain_tables::{Command, Refusal, Resolved};
use std::alloc::Global;

// Whether a command is an insert, an update, a delete or a select.
fn is_statement(command: &Command) -> bool
    ensures { result ≡ is_plain_statement command.now }
{
    matches!(
        command,
        Command::Insert { .. }
            | Command::Update { .. }
            | Command::Delete { .. }
            | Command::Select { .. }
    )
}

/// The resolved command that a line spells, if that is an insert, an update, a delete or a select. A carriage return at the line's
/// end is no part of it.
pub fn command_of_line(
    alloc: Global,
    held: &SharedSession,
    line: &[u8],
) -> Result<Resolved, Refusal>
    ensures spelled { IfOk result (λ r. IsMeaningOfLine held.now.session.database (without_return line.now) (Ok r)) }
    ensures meant { IfOk result (λ r. IsMeant held.now.session.limits held.now.session.database r) }
    ensures rows { IfOk result IsOfRows }
    ensures refused { IfErr result (IsUnqueried held.now.session (without_return line.now)) }
{
    let line = readable(line)?;
    let command = parse(alloc, &line)?;
    if !is_statement(&command) {
        return Err(Refusal::NotACommand);
    }
    held.catalog().resolve(command, &[])
}
