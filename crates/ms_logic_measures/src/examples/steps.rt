ghost use Rattle.ms_logic_measures.specs.inner.BudgetExamples.{is_truth};
ghost use Rattle.ms_logic_core.specs.CoreForm.{truth, falsity, basic, negation, conjunction, disjunction, implication, restrict, imported, core_forms, no_forms, unrestricted, restricted};
ghost use Rattle.ms_logic.specs.inner.Examples.{variable, import_given};
ghost use Rattle.ms_logic_core.specs.Roots.{main_root};
ghost use Rattle.ms_logic_core.specs.inner.SpreadExamples.{ex1_where, ex0, and, or, number_and_set, subset_source};
ghost use Rattle.ms_logic_measures.specs.Steps.{free_variables, steps_of, constant, of_one, relation, connective, binding, import_at, root, IsStepOf};
ghost use Rattle.ms_logic_core.specs.declared.core_formula.Basic.TheVariants.{Truth, Number, Plus, Member, Sub, Bits};
ghost use Rattle.ms_logic.specs.declared.mode.Order.TheVariants.{Zero, One, Two};
ghost use Rattle.std.specs.Prelude.{◌≡◌, [], ◌∷◌};

/// Free variables of core formulas, and their steps.
pub fn worked_steps()
    // the free variables of S sub P, where S is number 3 and P number 1; of ex1 x where x = 0: y = x + 0; of an import
    ensures rising { free_variables [] (basic (Sub 3 1)) ≡ variable 1 Two ∷ variable 3 Two ∷ [] }
    ensures bound { free_variables [] (ex1_where 2 (basic (Number 2 0)) (basic (Plus 0 2 0)))
        ≡ variable 0 One ∷ [] }
    ensures imported { free_variables import_given.imports (and (imported 0 (7 ∷ [])) (basic (Member 7 4)))
        ≡ variable 4 Two ∷ variable 7 One ∷ [] }

    // true; ~false; a => restrict(true)
    ensures constant { steps_of truth ≡ constant truth ∷ [] }
    ensures negation { steps_of (negation falsity)
        ≡ of_one (negation falsity) falsity ∷ constant falsity ∷ [] }
    ensures implication { steps_of (implication (is_truth 0) (restrict truth))
        ≡ connective (is_truth 0) (restrict truth)
        ∷ relation (Truth 0)
        ∷ of_one (restrict truth) truth
        ∷ constant truth
        ∷ [] }

    // a | b | c is a | b, and then that with c
    ensures three_operands { steps_of (disjunction (core_forms (is_truth 0 ∷ is_truth 1 ∷ is_truth 2 ∷ [])))
        ≡ connective (is_truth 0) (is_truth 1)
        ∷ connective (or (is_truth 0) (is_truth 1)) (is_truth 2)
        ∷ relation (Truth 0)
        ∷ relation (Truth 1)
        ∷ relation (Truth 2)
        ∷ [] }
    ensures no_operands { steps_of (disjunction no_forms) ≡ constant (disjunction no_forms) ∷ [] }

    // ex0 a: a, and an import
    ensures quantifier { steps_of (ex0 4 (is_truth 4))
        ≡ binding (variable 4 Zero) unrestricted (is_truth 4) ∷ relation (Truth 4) ∷ [] }
    ensures import { steps_of (imported 0 (7 ∷ [])) ≡ import_at 0 (7 ∷ []) ∷ [] }

    // var1 x where x = 0; var2 P; x in P; empty(P)
    ensures source { steps_of (main_root number_and_set).formula
        ≡ connective (restrict (ex1_where 2 (basic (Number 2 0)) (basic (Plus 0 2 0)))) (basic (Member 0 1))
        ∷ connective
        (and (restrict (ex1_where 2 (basic (Number 2 0)) (basic (Plus 0 2 0)))) (basic (Member 0 1)))
        (basic (Bits 1 0))
        ∷ of_one
        (restrict (ex1_where 2 (basic (Number 2 0)) (basic (Plus 0 2 0))))
        (ex1_where 2 (basic (Number 2 0)) (basic (Plus 0 2 0)))
        ∷ binding (variable 2 One) (restricted (basic (Number 2 0))) (basic (Plus 0 2 0))
        ∷ relation (Number 2 0)
        ∷ relation (Plus 0 2 0)
        ∷ relation (Member 0 1)
        ∷ relation (Bits 1 0)
        ∷ [] }

    // var2 P, Q; P sub Q has its relation and its root
    ensures source_relation { IsStepOf subset_source (relation (Sub 0 1)) }
    ensures source_root { IsStepOf subset_source (root (main_root subset_source)) }
{}
