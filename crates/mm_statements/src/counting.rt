//! From a statement to the select whose rows are counted.
ghost use Rattle.std.specs.Prelude.{◌≡◌, IfErr, IfOk};
ghost use Rattle.plain_tables.specs.declared.refusal.Refusal.TheVariants as refusal;
ghost use Rattle.plain_tables.specs.declared.resolved.Query.{Query as PlainQuery};
ghost use Rattle.plain_tables.specs.declared.resolved.Resolved.TheVariants as resolved;
ghost use Rattle.mm_prepared.specs.Lent.{lent_command};

use mm_prepared::Lent;
use plain_tables::{Query, Refusal, Resolved};

/// The select that a command is. Any other is refused by 20, as a line is that spells no select where one is asked for.
pub fn select_of<'a>(lent: &Lent<'a>) -> Result<&'a Query, Refusal>
    ensures select { IfOk result (λ query. lent_command lent.now ≡ resolved.Select query.now) }
    ensures other { IfErr result (λ why. (query : PlainQuery) → ¬ (lent_command lent.now ≡ resolved.Select query)) }
    ensures refused { IfErr result (λ why. why ≡ refusal.NotACommand) }
{
    let Lent::Command(command) = lent else {
        return Err(Refusal::NotACommand);
    };
    match command {
        Resolved::Select(query) => Ok(query),
        _ => Err(Refusal::NotACommand),
    }
}
