//! Worked examples of what is compared, printed and written. The functions have empty bodies, and their contracts state the examples.

ghost use Rattle.std.specs.Prelude.{◌≡◌, ◌∷◌, ◌++◌, [], codes, false, true, None, Some};
ghost use Rattle.ms_dfa.specs.declared.plain.FileVersion.TheVariants.{Two};
ghost use Rattle.ms_edge.specs.declared.refusal.Refusal.TheVariants.{Twice};
ghost use Rattle.ms_logic.specs.inner.Examples.{asks_twice, false_goal, stated};
ghost use Rattle.ms_logic.specs.View.{declared_in, goals_in, main_question, problem_of};
ghost use Rattle.ms_logic.specs.declared.formula.Formula.TheVariants.{True};
ghost use Rattle.ms_build_source.specs.Limits.{IsWithinLimits};
ghost use Rattle.ms_app.specs.Comparison.{HaveSameGlobals, comparison_text};
ghost use Rattle.ms_app.specs.Counts.{HasStats};
ghost use Rattle.ms_app.specs.Decision.{AnswersMain, IsGoalAnswer, asks_main};
ghost use Rattle.ms_app.specs.inner.Examples.{at, export_to, found_valid, nothing_held, one_held, one_set, other_mode, other_order, turned_round, two_files, two_sets};
ghost use Rattle.ms_app.specs.Source.{AreOutsFree, IsOutTaken, names_for};
ghost use Rattle.ms_app.specs.Certification.{names_to_certify};
ghost use Rattle.ms_app.specs.Written.{AreFilesOf, AreHeld, AreHeldUpTo, KeepsAllBut};

/// Sources that can be compared, and sources that cannot.
pub fn worked_globals()
    ensures same { HaveSameGlobals two_sets two_sets }
    ensures turned_round { ¬ HaveSameGlobals two_sets turned_round }
    ensures other_order { ¬ HaveSameGlobals two_sets other_order }
    ensures other_mode { ¬ HaveSameGlobals two_sets other_mode }
    ensures fewer { ¬ HaveSameGlobals two_sets one_set }
{}

/// What a comparison prints, counts that are not asked for, and a source within the limits.
pub fn worked_answers()
    ensures agree { comparison_text true ≡ codes "agree" ++ 10 ∷ [] }
    ensures differ { comparison_text false ≡ codes "differ" ++ 10 ∷ [] }
    ensures no_counts { HasStats false two_sets [] 1 None }
    ensures small { IsWithinLimits (problem_of two_sets []) }
{}

/// When the main question of a source is asked, by its formula declarations and its goals.
pub fn worked_questions()
    ensures neither { asks_main [] [] ≡ true }
    ensures declared { asks_main (stated None True ∷ []) [] ≡ true }
    ensures goal_alone { asks_main [] (false_goal ∷ []) ≡ false }
    ensures both { asks_main (declared_in asks_twice) (goals_in asks_twice) ≡ true }
    ensures not_asked { ¬ AnswersMain false (main_question asks_twice []) (Some found_valid) }
    ensures not_answered { ¬ AnswersMain true (main_question asks_twice []) None }
    ensures other_title { ¬ IsGoalAnswer asks_twice [] false_goal (record { title = codes "b"; answer = found_valid }) }
{}

/// Names for the file of the main value, and files where nothing is written.
pub fn worked_files()
    // The name of the main value's file may not be one that the source exports, and no more that of its certificate.
    ensures free { AreOutsFree (names_for (Some (codes "m.aut"))) (export_to (codes "e.aut") ∷ []) }
    ensures not_free { ¬ AreOutsFree (names_for (Some (codes "e.aut"))) (export_to (codes "e.aut") ∷ []) }
    ensures taken { IsOutTaken (names_for (Some (codes "e.aut"))) (export_to (codes "e.aut") ∷ []) (Twice (at 7) (codes "e.aut")) }
    ensures unnamed { ¬ IsOutTaken (names_for None) (export_to (codes "e.aut") ∷ []) (Twice (at 7) (codes "e.aut")) }
    ensures certificate { IsOutTaken (names_to_certify (codes "e")) (export_to (codes "e.cert") ∷ []) (Twice (at 7) (codes "e.cert")) }
    ensures first { ¬ IsOutTaken (names_to_certify (codes "e")) (export_to (codes "e") ∷ export_to (codes "e.cert") ∷ []) (Twice (at 7) (codes "e.cert")) }

    // A source without exports writes nothing where no name is given, and what is held stays.
    ensures no_files { AreFilesOf Two two_sets [] None [] }
    ensures nothing { AreHeld nothing_held nothing_held [] }
    ensures told { ¬ KeepsAllBut nothing_held None [] }
{}

/// Files that are written one after the other, and what is held when one of them is not.
pub fn worked_writes()
    // One file, which was written.
    ensures written { AreHeld nothing_held (one_held (codes "a") (1 ∷ [])) ((codes "a", 1 ∷ []) ∷ []) }
    ensures other_bytes { ¬ AreHeld nothing_held (one_held (codes "a") (7 ∷ [])) ((codes "a", 1 ∷ []) ∷ []) }

    // Of two files the first was written, and the second was not.
    ensures first_stands { AreHeldUpTo 1 nothing_held (one_held (codes "a") (1 ∷ [])) two_files }
    ensures first_lacks { ¬ AreHeldUpTo 1 nothing_held nothing_held two_files }

    // The one that was not written may hold anything, and no other name may.
    ensures in_part { AreHeldUpTo 0 nothing_held (one_held (codes "a") (7 ∷ [])) two_files }
    ensures another { ¬ AreHeldUpTo 0 nothing_held (one_held (codes "b") (2 ∷ [])) two_files }

    // Where both were written, none is left.
    ensures none_left { ¬ AreHeldUpTo 2 nothing_held nothing_held two_files }
{}
