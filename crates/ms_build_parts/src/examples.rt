//! The definitions at small cases, worked out by hand. The function has an empty body, and its contract is the table of its examples.

ghost use Rattle.std.specs.Prelude.{◌≡◌, [], ◌∷◌, true, false, Some, None};
ghost use Rattle.ms_build_parts.specs.Labels.{IsLabelledBelow, behind};
ghost use Rattle.ms_build_parts.specs.Laws.{IsMeasuredBy};
ghost use Rattle.ms_build_parts.specs.SaySame.{SaySame};
ghost use Rattle.ms_build_parts.specs.inner.Examples.{subset_elsewhere, subset_of_numbers};
ghost use Rattle.ms_logic_words.specs.Content.{bits_at};
ghost use Rattle.ms_logic_words.specs.inner.ContentExamples.{encodings_content, full_subset_content};

/// The full content of P sub Q, and contents that say the same or do not.
pub fn worked_contents()
    // the sets may have other numbers
    ensures other_names { SaySame full_subset_content subset_elsewhere }
    // but not other orders; and `true` is Yes where P is {0} and Q is empty
    ensures other_orders { ¬ SaySame full_subset_content subset_of_numbers }
    ensures other_signs { ¬ SaySame full_subset_content encodings_content }

    // it has fewest states, and is canonical
    ensures measured { IsMeasuredBy full_subset_content full_subset_content }
    ensures not_measured { ¬ IsMeasuredBy full_subset_content encodings_content }

    // its two states and two nodes are labels of what first bits leave, but one label does not tell the states apart
    ensures four_labels { IsLabelledBelow full_subset_content 4 }
    ensures few_labels { ¬ IsLabelledBelow full_subset_content 1 }
    // from its start the bits lead to state 0
    ensures behind_start { behind full_subset_content None (bits_at []) ≡ 0 }
    // from state 0 to state 1 if the letter has P alone
    ensures behind_letter { behind full_subset_content (Some 0) (bits_at (true ∷ false ∷ [])) ≡ 1 }
    // there is no state 7
    ensures behind_nothing { behind full_subset_content (Some 7) (bits_at []) ≡ 0 }
{}
