//! The laws of scripts. The functions do nothing: their contracts are the laws.

ghost use Rattle.argus_language.specs.Laws.{LevelsTellUnmatchedLines, SpellOneScript};

/// Lines spell at most one script, so what [`parse`](crate::parse) returns is the script that the
/// lines spell.
pub fn lines_spell_one_script()
    ensures { SpellOneScript }
{}

/// The fault by the levels of open blocks and arms is the one by the opening lines that are still
/// unmatched before a line, with the arm lines directly in them. So the line that
/// [`parse`](crate::parse) returns is the first faulty one by these.
pub fn levels_tell_unmatched_lines()
    ensures { LevelsTellUnmatchedLines }
{}
