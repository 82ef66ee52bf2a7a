ghost use Rattle.ms_list.specs.declared.word.Word.{Word};
ghost use Rattle.ms_logic.specs.inner.Examples.{var_x, var_y, set_P, less, equal, subset, ex1_y, call_number, later_given, nothing_given, just_x};
ghost use Rattle.ms_logic_words.specs.inner.ContentExamples.{word, just_P, word_of_bits};
ghost use Rattle.ms_logic.specs.Tree.{numeral, whole, restrict};
ghost use Rattle.ms_logic.specs.Truth.{Yes, No};
ghost use Rattle.ms_logic_words.specs.WordSign.{EncodesSome, CoversFormula, IsYesOn, IsNoOn, IsUndefinedOn};
ghost use Rattle.ms_logic.specs.declared.mode.Mode.TheVariants.{Ws1s, M2lStr};
ghost use Rattle.std.specs.Prelude.{[], ◌∷◌, true, false};

/// Values of formulas on words.
pub fn worked_values()
    // the letters 0, 1 encode the number 1: x = 1, x = 0 and restrict(x = 0)
    ensures yes { IsYesOn nothing_given Ws1s just_x (equal var_x (numeral 1)) (word_of_bits (false ∷ true ∷ [])) }
    ensures no { IsNoOn nothing_given Ws1s just_x (equal var_x (numeral 0)) (word_of_bits (false ∷ true ∷ [])) }
    ensures undefined { IsUndefinedOn nothing_given
        Ws1s just_x (restrict (equal var_x (numeral 0))) (word_of_bits (false ∷ true ∷ [])) }

    // one value alone
    ensures not_yes { ¬ IsYesOn nothing_given Ws1s just_x (equal var_x (numeral 0)) (word_of_bits (false ∷ true ∷ [])) }
    ensures not_undefined { ¬ IsUndefinedOn nothing_given
        Ws1s just_x (equal var_x (numeral 0)) (word_of_bits (false ∷ true ∷ [])) }

    // $ sub P on two positions, where both are in P, and where one is
    ensures whole_yes { IsYesOn nothing_given M2lStr just_P (subset whole set_P) (word_of_bits (true ∷ true ∷ [])) }
    ensures whole_no { IsNoOn nothing_given M2lStr just_P (subset whole set_P) (word_of_bits (true ∷ false ∷ [])) }

    // the empty word encodes no number, and x = 0 has no value on it
    ensures outside_yes { ¬ IsYesOn nothing_given Ws1s just_x (equal var_x (numeral 0)) (word [] []) }
    ensures outside_no { ¬ IsNoOn nothing_given Ws1s just_x (equal var_x (numeral 0)) (word [] []) }
    ensures outside_undefined { ¬ IsUndefinedOn nothing_given Ws1s just_x (equal var_x (numeral 0)) (word [] []) }
{}

/// Lists that cover the free variables of a formula, and a list that does not.
pub fn worked_covers()
    // x covers x = 0 and ex1 y: x < y, and later(x), where pred later(var1 x) = ex1 y: x < y
    ensures covers { CoversFormula nothing_given just_x (equal var_x (numeral 0)) }
    ensures covers_but_bound { CoversFormula nothing_given just_x (ex1_y (less var_x var_y)) }
    ensures covers_call { CoversFormula later_given just_x (call_number 0 var_x) }

    // the set P with the number of x as a variable does not cover x = 0
    ensures not_covers { ¬ CoversFormula nothing_given just_P (equal var_x (numeral 0)) }

    // some assignments that the empty word encodes over P have x = 0, and some have not
    ensures some_yes { EncodesSome Ws1s just_P (Yes nothing_given (equal var_x (numeral 0))) (word [] []) }
    ensures some_no { EncodesSome Ws1s just_P (No nothing_given (equal var_x (numeral 0))) (word [] []) }

    // so x = 0 has no value on any word over P
    ensures never_yes { (w : Word) → ¬ IsYesOn nothing_given Ws1s just_P (equal var_x (numeral 0)) w }
    ensures never_no { (w : Word) → ¬ IsNoOn nothing_given Ws1s just_P (equal var_x (numeral 0)) w }
    ensures never_undefined { (w : Word) → ¬ IsUndefinedOn nothing_given Ws1s just_P (equal var_x (numeral 0)) w }
{}
