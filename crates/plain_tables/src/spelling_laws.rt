//! Laws of the spelling.
//!
//! Each of these functions does nothing: its contract is the law, and its proof is the law's.

ghost use Rattle.plain_tables.specs.Spelling.{SpellsAtMostOne, SpelledIsSpellable, CanonicalSpells};

/// No line spells two commands.
pub fn line_spells_at_most_one()
    ensures { SpellsAtMostOne }
{}

/// Whatever a line spells can be spelled.
pub fn spelled_is_spellable()
    ensures { SpelledIsSpellable }
{}

/// The canonical spelling of a command that can be spelled spells that command.
pub fn canonical_spelling_spells()
    ensures { CanonicalSpells }
{}
