ghost use Rattle.ms_logic.specs.inner.Examples.{asks_twice, both, false_goal, x_at, var_x, var_y, less, ex1, all1, ex1_where, all1_where, ex1_y, one_form, undecided, set_global, problem, zero_source};
ghost use Rattle.ms_logic.specs.Tree.{truth, falsity, restricted, no_forms};
ghost use Rattle.ms_logic.specs.Verdict.{MainYes, MainNo, IsValid, IsUnsatisfiable, IsContingent, IsVacuous};
ghost use Rattle.ms_logic.specs.View.{goal_question, goals_in, main_question, problem_of};
ghost use Rattle.ms_logic.specs.declared.mode.Mode.TheVariants.{Ws1s, M2lStr};
ghost use Rattle.std.specs.Prelude.{◌≡◌, [], ◌∷◌};

/// Main values and verdicts.
pub fn worked_verdicts()
    // the empty source
    ensures empty_source { IsValid (problem Ws1s [] no_forms) }

    // all1 x: ex1 y: x < y in WS1S
    ensures no_last_number { IsValid
        (problem Ws1s [] (one_form (all1 (ex1_y (less var_x var_y))))) }

    // all1 x where false: false, and ex1 x where false: false
    ensures all_of_empty_range { IsValid (problem Ws1s [] (one_form (all1_where falsity falsity))) }
    ensures some_of_empty_range { IsUnsatisfiable
        (problem Ws1s [] (one_form (ex1_where falsity falsity))) }

    // ex1 x: true in M2L-Str is No on the empty string alone
    ensures some_position { IsContingent (problem M2lStr [] (one_form (ex1 truth))) }

    // var2 P where false; true, and restrict(false)
    ensures restricted_away { IsVacuous
        (problem Ws1s (set_global 0 (restricted falsity) ∷ []) (one_form truth)) }
    ensures undefined_everywhere { IsVacuous (problem Ws1s [] (one_form undecided)) }

    // `zero_source` is var1 x where x = 0; x - 1 = 0; at 1 its restriction is No
    ensures main_yes { MainYes zero_source (x_at 0) }
    ensures main_not_yes { ¬ MainYes zero_source (x_at 1) }
    ensures main_not_no { ¬ MainNo zero_source (x_at 1) }
{}

/// What the source true; goal "a" false; asks: its main question leaves the goal out, and the goal's leaves the formula declaration out.
pub fn worked_questions()
    ensures main { main_question asks_twice [] ≡ problem Ws1s [] (one_form truth) }
    ensures goals { goals_in asks_twice ≡ false_goal ∷ [] }
    ensures goal { goal_question asks_twice [] false_goal ≡ problem Ws1s [] (one_form falsity) }
    ensures all { problem_of asks_twice [] ≡ problem Ws1s [] (both truth falsity) }
{}
