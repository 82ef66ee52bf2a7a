//! What a source lacks. The function has an empty body, and its contract states the laws.

ghost use Rattle.ms_source_steps.specs.Laws.{LackingSourcesAreBelowTheirSteps, LackingStepsAreBelowTheirBudgets, NumberedStepsAreStepsOfSource};

/// A source lacks nodes in a step, over lent automata within the limit, only under a limit below each budget of that step, of one of the
/// step's kinds: a node of its graph below an own step of the formula as which it occurs, and a root below its own. But for the numbers
/// of bound variables these are steps of the source. So the limit is below each budget of one of the source's steps.
pub fn laws_of_sources()
    ensures numbered { LackingStepsAreBelowTheirBudgets }
    ensures steps { NumberedStepsAreStepsOfSource }
    ensures below { LackingSourcesAreBelowTheirSteps }
{}
