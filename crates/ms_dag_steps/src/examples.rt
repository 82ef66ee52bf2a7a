//! The definitions at small formulas, worked out by hand. Each function has an empty body, and its contract is the table of its examples.

ghost use Rattle.ms_dag.specs.inner.Examples.{chain};
ghost use Rattle.ms_dag_steps.specs.Occurrences.{Occurs};
ghost use Rattle.ms_dag_steps.specs.OwnSteps.{own_steps};
ghost use Rattle.ms_dag_steps.specs.Subformulas.{IsSubformula};
ghost use Rattle.ms_logic_core.specs.CoreForm.{basic, conjunction, core_forms, disjunction, negation, quantified, restricted};
ghost use Rattle.ms_logic_core.specs.Operands.{variable};
ghost use Rattle.ms_logic_core.specs.declared.core_formula.Basic.TheVariants.{Less, Number};
ghost use Rattle.ms_logic.specs.declared.mode.Order.TheVariants.{One};
ghost use Rattle.ms_logic.specs.declared.mode.Quant.TheVariants.{Ex};
ghost use Rattle.ms_logic_measures.specs.Steps.{binding, connective, constant, relation, steps_of};
ghost use Rattle.std.specs.Prelude.{◌≡◌, [], ◌∷◌, Contains};

/// Subformulas, and formulas that are none.
pub fn worked_subformulas()
    // of ~(x < y): itself, x < y, and not y < x
    ensures itself { IsSubformula (negation (basic (Less 0 1))) (negation (basic (Less 0 1))) }
    ensures operand { IsSubformula (basic (Less 0 1)) (negation (basic (Less 0 1))) }
    ensures turned { ¬ IsSubformula (basic (Less 1 0)) (negation (basic (Less 0 1))) }

    // x < y & y < z has each operand, and not the conjunction of the first alone
    ensures second { IsSubformula (basic (Less 1 2)) (conjunction (core_forms (basic (Less 0 1) ∷ basic (Less 1 2) ∷ []))) }
    ensures prefix { ¬ IsSubformula
        (conjunction (core_forms (basic (Less 0 1) ∷ [])))
        (conjunction (core_forms (basic (Less 0 1) ∷ basic (Less 1 2) ∷ []))) }

    // the restriction of ex1 z where z = 3: x < z
    ensures restriction { IsSubformula (basic (Number 2 3)) (quantified Ex One 2 (restricted (basic (Number 2 3))) (basic (Less 0 2))) }
{}

/// The steps of a formula itself, and one that is a step of an operand alone.
pub fn worked_own_steps()
    // x < y & y < z & z < u: x < y with y < z, and these two with z < u
    ensures three { own_steps (conjunction (core_forms (basic (Less 0 1) ∷ basic (Less 1 2) ∷ basic (Less 2 3) ∷ []))) ≡
        connective (basic (Less 0 1)) (basic (Less 1 2))
        ∷ connective (conjunction (core_forms (basic (Less 0 1) ∷ basic (Less 1 2) ∷ []))) (basic (Less 2 3)) ∷ [] }
    // of one operand those of the operand, and of none a constant
    ensures one { own_steps (disjunction (core_forms (basic (Less 0 1) ∷ []))) ≡ relation (Less 0 1) ∷ [] }
    ensures none { own_steps (disjunction (core_forms [])) ≡ constant (disjunction (core_forms [])) ∷ [] }

    // ex1 z where z = 3: x < z binds z, and that is all that is its own
    ensures quantifier { own_steps (quantified Ex One 2 (restricted (basic (Number 2 3))) (basic (Less 0 2))) ≡
        binding (variable 2 One) (restricted (basic (Number 2 3))) (basic (Less 0 2)) ∷ [] }

    // of ~(x < y) the relation is a step, and not its own
    ensures step { Contains (steps_of (negation (basic (Less 0 1)))) (relation (Less 0 1)) }
    ensures not_own { ¬ Contains (own_steps (negation (basic (Less 0 1)))) (relation (Less 0 1)) }
{}

/// Nodes of a graph that occur in x < y & y < z, and how they do not.
pub fn worked_occurrences()
    // the node of x < y, as y < z
    ensures occurs { Occurs
        (conjunction (core_forms (basic (Less 2 5) ∷ basic (Less 5 9) ∷ [])))
        chain
        (basic (Less 5 9))
        (5 ∷ 9 ∷ [])
        0 }
    // it is x < z, but that stands in no operand
    ensures elsewhere { ¬ Occurs
        (conjunction (core_forms (basic (Less 2 5) ∷ basic (Less 5 9) ∷ [])))
        chain
        (basic (Less 2 9))
        (2 ∷ 9 ∷ [])
        0 }
    // with no more names than it has variables
    ensures longer { ¬ Occurs
        (conjunction (core_forms (basic (Less 2 5) ∷ basic (Less 5 9) ∷ [])))
        chain
        (basic (Less 5 9))
        (5 ∷ 9 ∷ 10 ∷ [])
        0 }
{}
