//! Worked examples of answers. The functions have empty bodies, and their contracts state the examples.

ghost use Rattle.std.specs.Prelude.{◌≡◌, [], ◌∷◌, None, Some, codes};
ghost use Rattle.ms_presburger.specs.Numbers.{Holds};
ghost use Rattle.ms_presburger.specs.Tree.{free_names, truth};
ghost use Rattle.ms_presburger.specs.inner.Examples.{at, is, three_in_order, x, y};
ghost use Rattle.ms_presburger_decide.specs.Answer.{ComesBefore, IsNumberAnswer, IsVerdictOn, ShowsFirstNumbers, digits, most_digits, shown_of};
ghost use Rattle.ms_presburger_decide.specs.inner.Examples.{below_zero, below_zero_answer, numbers, three_in_order_answer};
ghost use Rattle.ms_report.specs.Numbers.{number_report_of};
ghost use Rattle.ms_report.specs.declared.found.Verdict.TheVariants.{Contingent, Unsatisfiable, Vacuous, Valid};

/// How many binary digits numbers have, and which numbers come first.
pub fn worked_orders()
    ensures no_digits { digits 0 ≡ 0 }
    ensures one_digit { digits 1 ≡ 1 }
    ensures three_digits { digits 6 ≡ 3 }
    ensures most { most_digits (1 ∷ 6 ∷ 2 ∷ []) ≡ 3 }
    // 3 has fewer digits than 4
    ensures fewer_digits { ComesBefore (3 ∷ []) (4 ∷ []) }
    ensures more_digits { ¬ ComesBefore (4 ∷ []) (3 ∷ []) }
    // 6 is 110 and 5 is 101: at place 0 the bit of 6 is 0
    ensures lower_place { ComesBefore (6 ∷ []) (5 ∷ []) }
    ensures higher_place { ¬ ComesBefore (5 ∷ []) (6 ∷ []) }
    // places come before names: at place 0 both bits are 0 in 2, 2, and one is 1 in 2, 3
    ensures earlier_place { ComesBefore (2 ∷ 2 ∷ []) (2 ∷ 3 ∷ []) }
    ensures earlier_place_alone { ComesBefore (2 ∷ 2 ∷ []) (1 ∷ 2 ∷ []) }
    ensures earlier_name { ComesBefore (0 ∷ 1 ∷ []) (1 ∷ 0 ∷ []) }
    ensures later_name { ¬ ComesBefore (1 ∷ 0 ∷ []) (0 ∷ 1 ∷ []) }
    ensures itself { ¬ ComesBefore (6 ∷ 5 ∷ []) (6 ∷ 5 ∷ []) }
    ensures shown { shown_of (x ∷ y ∷ []) (at 0 3) ≡ numbers 2 (0 ∷ 3 ∷ []) }
{}

/// The verdict on a formula, and the first numbers at which one holds.
pub fn worked_answers()
    ensures valid { IsVerdictOn truth Valid }
    ensures contingent { IsVerdictOn three_in_order Contingent }
    ensures not_valid { ¬ IsVerdictOn three_in_order Valid }
    ensures not_unsatisfiable { ¬ IsVerdictOn (is x 5) Unsatisfiable }
    ensures never_vacuous { ¬ IsVerdictOn truth Vacuous }
    // 1 and 2 have two digits too, and come behind 0 and 3
    ensures not_the_first_pair { ¬ ShowsFirstNumbers (x ∷ y ∷ []) (Holds three_in_order) (Some (numbers 2 (1 ∷ 2 ∷ []))) }
    ensures not_the_first { ¬ ShowsFirstNumbers (x ∷ []) (Holds truth) (Some (numbers 1 (1 ∷ []))) }
    ensures not_its_digits { ¬ ShowsFirstNumbers (x ∷ []) (Holds (is x 5)) (Some (numbers 2 (5 ∷ []))) }
    ensures not_shown { ¬ ShowsFirstNumbers (x ∷ []) (Holds truth) None }
{}

/// Answers, and the reports on them.
pub fn worked_reports()
    // x + y = 3 & x < y
    ensures answer { IsNumberAnswer three_in_order three_in_order_answer }
    ensures report { number_report_of (free_names three_in_order) three_in_order_answer
        ≡ codes "contingent\nexample digits 2\nx = 0b0 = 0\ny = 0b11 = 3\ncounterexample digits 0\nx = 0b0 = 0\ny = 0b0 = 0\n" }
    // x < 0
    ensures unsatisfiable { IsNumberAnswer below_zero below_zero_answer }
    ensures no_example { number_report_of (free_names below_zero) below_zero_answer
        ≡ codes "unsatisfiable\nno example\ncounterexample digits 0\nx = 0b0 = 0\n" }
    ensures other_formula { ¬ IsNumberAnswer (is x 0) below_zero_answer }
{}
