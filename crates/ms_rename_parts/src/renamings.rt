//! What renamings need. The function has an empty body, and its contract states the laws.

ghost use Rattle.ms_rename_parts.specs.Laws.{RenamingsAreWithinBudget, RenamingsNeedFewParts};

/// The nodes that a renaming of an automaton of fewest states needs, and its states, are at most the references to which starts in the
/// order of the map lead the canonical content that says the same. So a renaming is short of nodes only below the budget of its operand.
pub fn laws_of_renamings()
    ensures few { RenamingsNeedFewParts }
    ensures budget { RenamingsAreWithinBudget }
{}
