//! Worked examples of what gives a value, of the limits, and of solutions. The functions have empty bodies, and their contracts state the examples.

ghost use Rattle.std.specs.Prelude.{[], ◌∷◌, codes};
ghost use Rattle.ms_dfa.specs.declared.plain.FileVersion.TheVariants.{One, Two};
ghost use Rattle.ms_dfa.specs.declared.plain.FileSign.TheVariants.{Minus, Plus, Zero};
ghost use Rattle.ms_logic_words.specs.inner.ContentExamples.{encodings_content};
ghost use Rattle.ms_logic.specs.inner.Examples.{nothing_given, set_P, set_P_and_Q, set_Q, subset, undecided};
ghost use Rattle.ms_logic.specs.Tree.{negation};
ghost use Rattle.ms_logic.specs.Truth.{answer_no, answer_yes};
ghost use Rattle.ms_logic.specs.View.{problem_of};
ghost use Rattle.ms_logic.specs.declared.formula.Formula.TheVariants.{False, True};
ghost use Rattle.ms_logic.specs.declared.mode.Mode.TheVariants.{M2lStr, Ws1s};
ghost use Rattle.ms_build_source.specs.inner.Examples.{P_and_Q, import_of_sets, second_subset_file, sets_checked, sets_solution, sets_with_goal, subset_file, subset_file_with};
ghost use Rattle.ms_build_source.specs.Imported.{IsAnswerOf, IsLentFor};
ghost use Rattle.ms_build_source.specs.Limits.{IsWithinLimits};
ghost use Rattle.ms_build_source.specs.Solution.{IsSolution};
ghost use Rattle.ms_build_source.specs.Values.{GivesValue, IsFileOf, content_over, form_meaning};

/// Files that give the value of a formula over P and Q, and files that do not.
pub fn worked_files()
    // The file of P sub Q, and that of its negation.
    ensures subset { IsFileOf One Ws1s set_P_and_Q P_and_Q (form_meaning nothing_given (subset set_P set_Q)) subset_file }
    ensures negated { IsFileOf One Ws1s set_P_and_Q P_and_Q (form_meaning nothing_given (negation (subset set_P set_Q))) (subset_file_with Minus Plus) }

    // The same in version 2, which is no file of version 1, nor the other way round.
    ensures second { IsFileOf Two Ws1s set_P_and_Q P_and_Q (form_meaning nothing_given (subset set_P set_Q)) second_subset_file }
    ensures second_as_first { ¬ IsFileOf One Ws1s set_P_and_Q P_and_Q (form_meaning nothing_given (subset set_P set_Q)) second_subset_file }
    ensures first_as_second { ¬ IsFileOf Two Ws1s set_P_and_Q P_and_Q (form_meaning nothing_given (subset set_P set_Q)) subset_file }

    // Signs that are turned round, or that say of no word what holds there.
    ensures wrong_signs { ¬ GivesValue One (form_meaning nothing_given (negation (subset set_P set_Q))) (content_over set_P_and_Q subset_file) }
    ensures no_signs { ¬ GivesValue One (form_meaning nothing_given (subset set_P set_Q)) (content_over set_P_and_Q (subset_file_with Zero Zero)) }

    // Where the formula has no value, each word has the sign of no value; but two states of one sign are not the fewest.
    ensures undefined { GivesValue One (form_meaning nothing_given undecided) (content_over set_P_and_Q (subset_file_with Zero Zero)) }
    ensures too_many_states { ¬ IsFileOf One Ws1s set_P_and_Q P_and_Q (form_meaning nothing_given undecided) (subset_file_with Zero Zero) }

    // Another mode, other names, and other variables.
    ensures other_mode { ¬ IsFileOf One M2lStr set_P_and_Q P_and_Q (form_meaning nothing_given (subset set_P set_Q)) subset_file }
    ensures turned_round { ¬ IsFileOf One Ws1s set_P_and_Q (codes "Q" ∷ codes "P" ∷ []) (form_meaning nothing_given (subset set_P set_Q)) subset_file }
    ensures no_variables { ¬ IsFileOf One Ws1s [] P_and_Q (form_meaning nothing_given (subset set_P set_Q)) subset_file }
{}

/// An automaton that is lent for an import of two sets: it says Yes at all values.
pub fn worked_imports()
    ensures lent { IsLentFor Ws1s import_of_sets encodings_content }
    ensures other_mode { ¬ IsLentFor M2lStr import_of_sets encodings_content }
    ensures always { IsAnswerOf Ws1s import_of_sets (λ universe values. answer_yes) encodings_content }
    ensures never { ¬ IsAnswerOf Ws1s import_of_sets (λ universe values. answer_no) encodings_content }
{}

/// The source `var2 P, Q;` is within the limits.
pub fn worked_limits()
    ensures within { IsWithinLimits (problem_of sets_checked []) }
{}

/// Solutions of the source `var2 P, Q; true; goal "always" f;`, where `f` is `true`, and where it is `false`.
pub fn worked_solutions()
    ensures solved { IsSolution (sets_with_goal True) [] (sets_solution (encodings_content ∷ [])) }
    ensures no_goal { ¬ IsSolution (sets_with_goal True) [] (sets_solution []) }
    ensures wrong_goal { ¬ IsSolution (sets_with_goal False) [] (sets_solution (encodings_content ∷ [])) }
{}
