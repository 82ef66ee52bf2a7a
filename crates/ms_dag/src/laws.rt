//! Laws of the nodes of a graph. The function has an empty body, and its contract states its laws.

ghost use Rattle.ms_dag.specs.Imports.{NodesImportAsRootsDo};
ghost use Rattle.ms_dag.specs.Laws.{NodeHasValueOfFormula, NodeHasValueByChildren};

/// A node of a graph has the value of the formula that it unfolds to, and its value follows from those of
/// its children. A node is no other import than one of the core formulas.
pub fn laws_of_sharing()
    ensures of_formula { NodeHasValueOfFormula }
    ensures by_children { NodeHasValueByChildren }
    ensures imports { NodesImportAsRootsDo }
{}
