//! Worked examples of answers. The functions have empty bodies, and their contracts state the examples.

ghost use Rattle.std.specs.Prelude.{◌≡◌, [], ◌∷◌, None, Some};
ghost use Rattle.ms_logic.specs.declared.assignment.Value.TheVariants.{Set};
ghost use Rattle.ms_ltlf.specs.Tree.{falsity, next, truth};
ghost use Rattle.ms_ltlf.specs.inner.Examples.{p, trace};
ghost use Rattle.ms_ltlf_decide.specs.Answer.{ComesBefore, HoldsOn, IsVerdictOn, ShowsFirstTrace, shown_of};
ghost use Rattle.ms_report.specs.declared.found.Verdict.TheVariants.{Contingent, Unsatisfiable, Vacuous, Valid};

/// Which of two traces comes first, and what is shown of one.
pub fn worked_orders()
    ensures shorter { ComesBefore 1 (trace 1 (0 ∷ []) []) (trace 2 [] []) }
    ensures longer { ¬ ComesBefore 1 (trace 2 [] []) (trace 1 (0 ∷ []) []) }
    ensures earlier_position { ComesBefore 2 (trace 2 (1 ∷ []) (1 ∷ [])) (trace 2 [] (0 ∷ [])) }
    ensures earlier_proposition { ComesBefore 2 (trace 1 [] (0 ∷ [])) (trace 1 (0 ∷ []) []) }
    ensures later_proposition { ¬ ComesBefore 2 (trace 1 (0 ∷ []) []) (trace 1 [] (0 ∷ [])) }
    ensures itself { ¬ ComesBefore 2 (trace 1 (0 ∷ []) []) (trace 1 (0 ∷ []) []) }
    ensures shown { shown_of 2 (trace 2 (0 ∷ []) (0 ∷ 1 ∷ [])) ≡ record { length = 2; values = Set (0 ∷ []) ∷ Set (0 ∷ 1 ∷ []) ∷ [] } }
{}

/// The verdict on a formula, and the first trace on which one holds.
pub fn worked_answers()
    ensures valid { IsVerdictOn 0 truth Valid }
    ensures unsatisfiable { IsVerdictOn 0 falsity Unsatisfiable }
    ensures contingent { IsVerdictOn 1 p Contingent }
    ensures not_valid { ¬ IsVerdictOn 1 p Valid }
    ensures not_unsatisfiable { ¬ IsVerdictOn 0 (next truth) Unsatisfiable }
    ensures never_vacuous { ¬ IsVerdictOn 0 truth Vacuous }
    ensures two_positions { ShowsFirstTrace 0 (HoldsOn (next truth)) (Some (record { length = 2; values = [] })) }
    ensures not_the_first { ¬ ShowsFirstTrace 0 (HoldsOn truth) (Some (record { length = 2; values = [] })) }
    ensures not_shown { ¬ ShowsFirstTrace 0 (HoldsOn truth) None }
    ensures none_shown { ShowsFirstTrace 0 (HoldsOn falsity) None }
{}
