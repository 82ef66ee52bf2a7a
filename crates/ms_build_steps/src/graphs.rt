//! What a whole graph lacks. The function has an empty body, and its contract states the laws.

ghost use Rattle.ms_build_steps.specs.Kinds.{MeasuresAreOfKinds};
ghost use Rattle.ms_build_steps.specs.Laws.{BelowItsStepsIsBelowRoots, LackingIsBelowItsSteps, LackingIsBelowRoots, NodesAreBelowTheirSteps, RootsAreBelowTheirSteps};

/// The measures of a step are those of its kinds. Whatever lacks nodes in the graph of a source, a node or a root, over lent automata
/// within the limit, lacks them only under a limit below each budget of a step of its own, of one of the step's kinds: a node below an own
/// step of the formula as which it occurs in a root, and a root below its own step. So the limit is below each budget of a step of a root.
pub fn laws_of_graphs()
    ensures kinds { MeasuresAreOfKinds }
    ensures nodes { NodesAreBelowTheirSteps }
    ensures roots { RootsAreBelowTheirSteps }
    ensures own { LackingIsBelowItsSteps }
    ensures of_roots { BelowItsStepsIsBelowRoots }
    ensures lacking { LackingIsBelowRoots }
{}
