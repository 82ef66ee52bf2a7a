ghost use Rattle.ms_logic.specs.Assignment.{assign};
ghost use Rattle.ms_logic.specs.inner.Examples.{x_at, x_on, P_at, just_x};
ghost use Rattle.ms_logic_words.specs.inner.ContentExamples.{word, set_before_truth, just_P, word_of_bits};
ghost use Rattle.ms_logic.specs.First.{bits_of};
ghost use Rattle.ms_logic_words.specs.Word.{Encodes, IsEncoding};
ghost use Rattle.ms_logic.specs.Letters.{truth_values_of, letters_below};
ghost use Rattle.ms_logic_words.specs.WordSign.{IsOutside};
ghost use Rattle.ms_logic.specs.declared.assignment.Value.TheVariants.{Truth};
ghost use Rattle.ms_logic.specs.declared.mode.Mode.TheVariants.{Ws1s, M2lStr};
ghost use Rattle.std.specs.Prelude.{◌≡◌, ℕ, [], ◌∷◌, true, false};

/// P = {1} and A = true, where the set P is declared before the truth value A.
pub fn worked_truth_values()
    // the truth values of a word stand before its letters all the same
    ensures truth_values { truth_values_of set_before_truth (assign 1 (Truth true) (P_at (1 ∷ [])))
        ≡ true ∷ [] }
    ensures letters { letters_below 2 set_before_truth (assign 1 (Truth true) (P_at (1 ∷ [])))
        ≡ (false ∷ []) ∷ (true ∷ []) ∷ [] }
    ensures bits { bits_of set_before_truth (assign 1 (Truth true) (P_at (1 ∷ [])))
        ≡ true ∷ false ∷ true ∷ [] }

    ensures encodes { Encodes set_before_truth
        (word (true ∷ []) ((false ∷ []) ∷ (true ∷ []) ∷ []))
        (assign 1 (Truth true) (P_at (1 ∷ []))) }
    ensures other_truth_value { ¬ Encodes set_before_truth
        (word (false ∷ []) ((false ∷ []) ∷ (true ∷ []) ∷ []))
        (assign 1 (Truth true) (P_at (1 ∷ []))) }
    ensures truth_value_as_letter { ¬ Encodes set_before_truth
        (word [] ((false ∷ true ∷ []) ∷ (true ∷ true ∷ []) ∷ []))
        (assign 1 (Truth true) (P_at (1 ∷ []))) }
{}

/// Words that encode an assignment, and words that encode none.
pub fn worked_encodings()
    // the letters 0, 1, 0 encode the number 1 and no other
    ensures number { Encodes just_x (word_of_bits (false ∷ true ∷ false ∷ [])) (x_at 1) }
    ensures only_number { (n : ℕ) → Encodes just_x (word_of_bits (false ∷ true ∷ false ∷ [])) (x_at n) → n ≡ 1 }
    ensures encoding { IsEncoding Ws1s just_x (word_of_bits (false ∷ true ∷ false ∷ [])) }

    // a number without a position, and one with two
    ensures no_position { IsOutside Ws1s just_x (word_of_bits (false ∷ false ∷ [])) }
    ensures two_positions { IsOutside Ws1s just_x (word_of_bits (true ∷ false ∷ true ∷ [])) }

    // a letter without a bit, one with two bits, and a truth value that belongs to no variable
    ensures short_letter { IsOutside Ws1s just_x (word [] ((true ∷ []) ∷ [] ∷ [])) }
    ensures long_letter { IsOutside Ws1s just_x (word [] ((true ∷ false ∷ []) ∷ [])) }
    ensures more_truth_values { IsOutside Ws1s just_x (word (true ∷ []) ((true ∷ []) ∷ [])) }

    // the empty word encodes no number, but the empty set
    ensures empty_word_of_number { IsOutside Ws1s just_x (word [] []) }
    ensures empty_word_of_set { IsEncoding Ws1s just_P (word [] []) }

    // the same on strings, whose length is that of the word
    ensures empty_string_of_number { IsOutside M2lStr just_x (word [] []) }
    ensures empty_string_of_set { IsEncoding M2lStr just_P (word [] []) }
    ensures position { Encodes just_x (word_of_bits (false ∷ true ∷ false ∷ [])) (x_on 1 3) }
    ensures other_length { ¬ Encodes just_x (word_of_bits (false ∷ true ∷ false ∷ [])) (x_on 1 2) }
{}
