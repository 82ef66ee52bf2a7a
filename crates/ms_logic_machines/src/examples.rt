//! Worked examples. The function has an empty body, and its contract states what holds in them.

ghost use Rattle.std.specs.Prelude.{◌≡◌, [], ◌∷◌, true, false, Some};
ghost use Rattle.ms_list.specs.declared.word.Word.{Word};
ghost use Rattle.ms_logic.specs.Truth.{Answer, answer_yes, answer_no};
ghost use Rattle.ms_logic_machines.specs.Machine.{Machine, machine_sign};
ghost use Rattle.ms_logic_machines.specs.inner.Examples.{IsDoubled, IsParity, one_state};
ghost use Rattle.ms_logic_words.specs.Canonical.{IsCanonical};
ghost use Rattle.ms_logic_words.specs.Content.{IsWordOver, sign_of};
ghost use Rattle.ms_logic_words.specs.inner.ContentExamples.{word};

/// Machines over a set P, and the canonical content of one of them.
pub fn worked_machines()
    // two states with the same signs become one
    ensures doubled { (machine : Machine Answer) × IsDoubled machine }
    ensures canonical { IsCanonical one_state }
    ensures signs { (machine : Machine Answer) → IsDoubled machine
        → (word : Word) → IsWordOver one_state.variables word → sign_of one_state word ≡ Some (machine_sign machine word) }

    // whether P has an even number of members: P = {}, P = {0}, and P = {0, 2}
    ensures parity { (machine : Machine Answer) × IsParity machine }
    ensures none { (machine : Machine Answer) → IsParity machine → machine_sign machine (word [] []) ≡ answer_yes }
    ensures one { (machine : Machine Answer) → IsParity machine
        → machine_sign machine (word [] ((true ∷ []) ∷ [])) ≡ answer_no }
    ensures two { (machine : Machine Answer) → IsParity machine
        → machine_sign machine (word [] ((true ∷ []) ∷ (false ∷ []) ∷ (true ∷ []) ∷ [])) ≡ answer_yes }

    // which one state does not say
    ensures other { (machine : Machine Answer) → IsParity machine
        → ¬ ((word : Word) → IsWordOver one_state.variables word → sign_of one_state word ≡ Some (machine_sign machine word)) }
{}
