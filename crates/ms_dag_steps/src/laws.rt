//! Laws of the nodes of the graph of a source. The function has an empty body, and its contract states its laws.

ghost use Rattle.ms_dag_steps.specs.Laws.{NodesHaveTheirSteps, NodesOccurInRoots, OwnVariablesAreFree, PrefixesAreOperands, StepsAreOwnSteps};

/// Each node of the graph of a source is a subformula of one of its roots, whose free variables are the node's own, and its
/// steps are own steps of that subformula: of a list of operands one for each prefix. The own steps of subformulas are the steps of the
/// root.
pub fn laws_of_node_steps()
    ensures occur { NodesOccurInRoots }
    ensures own { OwnVariablesAreFree }
    ensures prefixes { PrefixesAreOperands }
    ensures own_steps { StepsAreOwnSteps }
    ensures steps { NodesHaveTheirSteps }
{}
