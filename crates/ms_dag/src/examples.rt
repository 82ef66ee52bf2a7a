//! The definitions at small graphs, worked out by hand. Each function has an empty body, and its contract
//! is the table of its examples.

ghost use Rattle.ms_logic_core.specs.Calls.{filled};
ghost use Rattle.ms_dag.specs.Dag.{IsDag};
ghost use Rattle.ms_dag.specs.inner.Examples.{child, chain, restricted_chain, bound_chain, before, at_values, calls_before, import_at};
ghost use Rattle.ms_dag.specs.Unfolds.{Unfolds};
ghost use Rattle.ms_dag.specs.Values.{NodeYes, NodeNo};
ghost use Rattle.ms_logic_core.specs.CoreForm.{basic, conjunction, core_forms, imported, quantified, unrestricted};
ghost use Rattle.ms_logic_core.specs.declared.core_formula.Basic.TheVariants.{Less};
ghost use Rattle.ms_logic.specs.declared.mode.Order.TheVariants.{One, Two};
ghost use Rattle.ms_logic.specs.declared.mode.Quant.TheVariants.{Ex};
ghost use Rattle.std.specs.Prelude.{[], ◌∷◌};

/// Nodes and the formulas that they are.
pub fn worked_unfoldings()
    // x < y is any two variables' relation, in their order
    ensures relation { Unfolds chain (basic (Less 3 7)) (3 ∷ 7 ∷ []) 0 }
    ensures turned { ¬ Unfolds chain (basic (Less 7 3)) (3 ∷ 7 ∷ []) 0 }
    ensures other_name { ¬ Unfolds chain (basic (Less 3 8)) (3 ∷ 7 ∷ []) 0 }

    // x < y & y < z has one node for both operands
    ensures shared { Unfolds chain (conjunction (core_forms (basic (Less 2 5) ∷ basic (Less 5 9) ∷ []))) (2 ∷ 5 ∷ 9 ∷ []) 1 }
    ensures operands { ¬ Unfolds chain (conjunction (core_forms (basic (Less 2 5) ∷ []))) (2 ∷ 5 ∷ 9 ∷ []) 1 }

    // ex1 z: x < z, whose bound variable comes behind the others
    ensures bound { Unfolds bound_chain (quantified Ex One 4 unrestricted (basic (Less 2 4))) (2 ∷ []) 1 }
    ensures bound_below { ¬ Unfolds bound_chain (quantified Ex One 1 unrestricted (basic (Less 2 1))) (2 ∷ []) 1 }

    // an import that stands for x < y has its node
    ensures call { Unfolds chain (filled calls_before (imported 0 (3 ∷ 7 ∷ []))) (3 ∷ 7 ∷ []) 0 }
    ensures call_turned { ¬ Unfolds chain (filled calls_before (imported 0 (7 ∷ 3 ∷ []))) (3 ∷ 7 ∷ []) 0 }
{}

/// Values of nodes.
pub fn worked_values()
    // x < y
    ensures yes { NodeYes [] chain 0 (at_values 3 4 0) }
    ensures no { NodeNo [] chain 0 (at_values 4 3 0) }

    // x < y & y < z
    ensures both { NodeYes [] chain 1 (at_values 3 4 5) }
    ensures second_fails { NodeNo [] chain 1 (at_values 3 4 4) }

    // restrict(x < y) has no value where x < y is No
    ensures met { NodeYes [] restricted_chain 1 (at_values 3 4 0) }
    ensures unmet_yes { ¬ NodeYes [] restricted_chain 1 (at_values 4 3 0) }
    ensures unmet_no { ¬ NodeNo [] restricted_chain 1 (at_values 4 3 0) }

    // ex1 z: x < z
    ensures exists { NodeYes [] bound_chain 1 (at_values 3 0 0) }
{}

/// Graphs, and lists of nodes that are none.
pub fn worked_graphs()
    ensures graph { IsDag chain (child 1 (0 ∷ 4 ∷ 6 ∷ []) ∷ []) }
    // the second node is below no root
    ensures unused { ¬ IsDag chain (child 0 (0 ∷ 4 ∷ []) ∷ []) }
    // the same node twice
    ensures repeated { ¬ IsDag (before ∷ before ∷ []) (child 0 (0 ∷ 4 ∷ []) ∷ child 1 (0 ∷ 4 ∷ []) ∷ []) }
    // import 5 at a variable of order 1, and at one of order 2
    ensures unlike { ¬ IsDag (import_at One ∷ import_at Two ∷ []) (child 0 (3 ∷ []) ∷ child 1 (4 ∷ []) ∷ []) }
{}
