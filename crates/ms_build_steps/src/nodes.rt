//! Automata of nodes, and what they lack. The function has an empty body, and its contract states the laws.

ghost use Rattle.ms_build_steps.specs.Laws.{BodiesWidenWithinBudget, ConnectivesAreWithinBudget, ImportsAreBelowTheirSteps, ListsAreWithinBudget, NodesSayWhatFormulasSay, PlainNodesAreBelowTheirSteps, QuantifiersAreBelowTheirSteps, RelationsAreBelowTheirSteps, SmallLimitsAreBelowSteps, VariablesInsideAreOwnAndBound, WideningsAreWithinBudget};

/// The automaton of a node says what the full content of its formula says. So a node, over lent automata within the limit, lacks nodes
/// only under a limit below each budget of an own step of the formula as which it occurs, of one of the step's kinds. A child lacks nodes over
/// the variables at which it is read only under a limit below each budget of the widening of its formula to these. So does the body of a
/// quantifier, which is read at the quantifier's own variables and the bound one.
pub fn laws_of_nodes()
    ensures same { NodesSayWhatFormulasSay }
    ensures connectives { ConnectivesAreWithinBudget }
    ensures lists { ListsAreWithinBudget }
    ensures relations { RelationsAreBelowTheirSteps }
    ensures small { SmallLimitsAreBelowSteps }
    ensures plain { PlainNodesAreBelowTheirSteps }
    ensures of_imports { ImportsAreBelowTheirSteps }
    ensures widenings { WideningsAreWithinBudget }
    ensures bodies { BodiesWidenWithinBudget }
    ensures inside { VariablesInsideAreOwnAndBound }
    ensures quantifiers { QuantifiersAreBelowTheirSteps }
{}
