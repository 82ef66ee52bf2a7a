//! What projections need. The function has an empty body, and its contract states the laws.

ghost use Rattle.ms_project_parts.specs.Laws.{ProjectionsAreWithinBudget, ProjectionsNeedFewSets, UnrestrictedAreWithinBudget};

/// A projection of automata of fewest states needs at most twice as many states and nodes as there are pairs of parts of the canonical
/// contents that say the same, and sets of pairs to which starts lead these over all values of the bound variable. So it is short of nodes
/// only below the budget of its operands.
pub fn laws_of_projections()
    ensures few { ProjectionsNeedFewSets }
    ensures budget { ProjectionsAreWithinBudget }
    ensures unrestricted { UnrestrictedAreWithinBudget }
{}
