//! The definitions at small cases, worked out by hand. Each function has an empty body, and its contract is the table of its examples.

ghost use Rattle.ms_build_steps.specs.Kinds.{IsBelowKind, IsBelowOwnStep, IsMeasureOfKind, itself, kinds_of, widening};
ghost use Rattle.ms_logic.specs.Truth.{Answer};
ghost use Rattle.ms_logic.specs.declared.mode.Mode.TheVariants.{Ws1s};
ghost use Rattle.ms_logic.specs.declared.mode.Order.TheVariants.{Two};
ghost use Rattle.ms_logic_core.specs.CoreForm.{unrestricted};
ghost use Rattle.ms_logic_core.specs.Operands.{variable};
ghost use Rattle.ms_logic_core.specs.Roots.{main_root};
ghost use Rattle.ms_logic_core.specs.declared.core_formula.Basic.TheVariants.{Sub};
ghost use Rattle.ms_logic_core.specs.inner.SpreadExamples.{subset_source};
ghost use Rattle.ms_logic_measures.specs.Steps.{binding, relation, root};
ghost use Rattle.ms_logic_measures.specs.inner.BudgetExamples.{subset_form};
ghost use Rattle.ms_logic_words.specs.Content.{Content};
ghost use Rattle.std.specs.Prelude.{◌≡◌, ℕ, List, [], ◌∷◌};

/// P sub Q has one step, a relation of four states and nodes, and its budget is (4 + 2)² · 256 = 9,216.
pub fn worked_steps()
    ensures below { IsBelowOwnStep [] Ws1s subset_form 9215 }
    ensures not_below { ¬ IsBelowOwnStep [] Ws1s subset_form 9216 }
{}

/// What is measured of a relation, of a quantifier, and of the root of var2 P, Q; P sub Q.
pub fn worked_kinds()
    ensures relation { kinds_of (relation (Sub 0 1)) ≡ itself ∷ [] }
    // ex2 Q: P sub Q is measured by the widening of P sub Q, and by itself
    ensures quantifier { kinds_of (binding (variable 1 Two) unrestricted subset_form) ≡ widening ∷ itself ∷ [] }
    ensures root { kinds_of (root (main_root subset_source)) ≡ widening ∷ [] }

    // the widening of the root has four pairs, and five states and nodes are read: (4 + 5 + 2)² · 256 = 30,976
    ensures below_root { IsBelowKind [] Ws1s (root (main_root subset_source)) 30975 }
    ensures not_below_root { ¬ IsBelowKind [] Ws1s (root (main_root subset_source)) 30976 }

    // a relation has no measure of a widening, and no limit is below its budgets for want of one
    ensures no_widening { (files : List (Content Answer)) (m r : ℕ) → ¬ IsMeasureOfKind [] Ws1s files (relation (Sub 0 1)) widening m r }
    ensures not_below_relation { ¬ IsBelowKind [] Ws1s (relation (Sub 0 1)) 9216 }
{}
