ghost use Rattle.std.specs.Prelude.{◌≡◌, [], ◌∷◌, true, false};
ghost use Rattle.ms_diagram.specs.Numbering.{AreOwnPairs};
ghost use Rattle.ms_logic.specs.declared.mode.Mode.TheVariants.{M2lStr, Ws1s};
ghost use Rattle.ms_logic.specs.declared.mode.Quant.TheVariants.{All, Ex};
ghost use Rattle.ms_logic_words.specs.declared.sign.Sign.TheVariants.{No, Outside, Undefined, Yes};
ghost use Rattle.ms_project.specs.inner.Examples.{everywhere, number_and_set, of_one_state, only_set};
ghost use Rattle.ms_project.specs.Marks.{can_be_empty, marks_of, sign_by};
ghost use Rattle.ms_project.specs.Paired.{IsTruth};
ghost use Rattle.ms_project.specs.Subsetting.{IsReachedNumber, SetsAreAtLeast};
ghost use Rattle.ms_logic.specs.Lists.{without};
ghost use Rattle.ms_quotient.specs.Closure.{no_marks};

/// The signs of quantifiers: Yes of some value decides ex, No of some value decides all, and Undefined is what is left.
pub fn worked_quantifiers()
    ensures some_yes { sign_by Ex false (record { yes = true; no = true; undefined = true; encoding = true }) ≡ Yes }
    ensures no_yes { sign_by Ex false (record { yes = false; no = true; undefined = true; encoding = true }) ≡ No }
    ensures no_value_has_a_sign { sign_by Ex false (record { yes = false; no = false; undefined = true; encoding = true }) ≡ Undefined }
    ensures none_in_range { sign_by Ex false (record { yes = false; no = false; undefined = false; encoding = true }) ≡ No }
    ensures some_no { sign_by All false (record { yes = true; no = true; undefined = true; encoding = true }) ≡ No }
    ensures no_no { sign_by All false (record { yes = true; no = false; undefined = true; encoding = true }) ≡ Yes }
    ensures all_undefined { sign_by All false (record { yes = false; no = false; undefined = true; encoding = true }) ≡ Undefined }
    ensures all_of_none { sign_by All false (record { yes = false; no = false; undefined = false; encoding = true }) ≡ Yes }
    ensures empty_string { sign_by All true no_marks ≡ Yes }
    ensures no_encoding { sign_by Ex false no_marks ≡ Outside }
{}

/// The marks of a word: none outside, and the sign of the body only where the domain is Yes.
pub fn worked_marks()
    ensures in_domain { marks_of No Yes ≡ record { yes = false; no = true; undefined = false; encoding = true } }
    ensures not_in_domain { marks_of Yes Undefined ≡ record { yes = false; no = false; undefined = false; encoding = true } }
    ensures outside { marks_of Outside Yes ≡ no_marks }
    ensures sets_alone { can_be_empty M2lStr only_set ≡ true }
    ensures with_number { can_be_empty M2lStr number_and_set ≡ false }
    ensures numbers { can_be_empty Ws1s only_set ≡ false }
    ensures left_out { without 4 number_and_set ≡ only_set }
{}

/// A domain that is truth, and the pairs that a body makes with it.
pub fn worked_truth()
    ensures truth { IsTruth (everywhere Yes) }
    ensures never { ¬ IsTruth (everywhere No) }
    ensures own { AreOwnPairs 2 ((0, 0) ∷ (1, 0) ∷ []) }
    ensures too_many { ¬ AreOwnPairs 1 ((0, 0) ∷ (1, 0) ∷ []) }
    ensures turned_round { ¬ AreOwnPairs 2 ((1, 0) ∷ (0, 0) ∷ []) }
{}

/// Where one state is all that is reached, words lead to the set of it alone; a search that has only begun has found nothing.
pub fn worked_sets()
    ensures alone { IsReachedNumber (of_one_state ((0 ∷ []) ∷ [])) 0 }
    ensures no_set { ¬ IsReachedNumber (of_one_state ((0 ∷ []) ∷ [])) 1 }
    ensures begun { SetsAreAtLeast 0 (of_one_state []) }
    ensures no_state { ¬ IsReachedNumber (of_one_state ((0 ∷ []) ∷ (0 ∷ 1 ∷ []) ∷ [])) 1 }
{}
