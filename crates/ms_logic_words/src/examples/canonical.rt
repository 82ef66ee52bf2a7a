ghost use Rattle.ms_logic_words.specs.inner.ContentExamples.{full_subset_content, word, unreached_state, equal_ends, equal_nodes, swapped_states, equal_signs, swapped_nodes};
ghost use Rattle.ms_logic_words.specs.Canonical.{IsCanonical, first_sights_of, seen_leaves, seen_nodes};
ghost use Rattle.ms_logic_words.specs.Content.{IsOpen, IsWordOver};
ghost use Rattle.ms_logic.specs.inner.Examples.{just_a, just_x, set_P_and_Q, of_each_order};
ghost use Rattle.std.specs.Prelude.{◌≡◌, [], ◌∷◌, true, false};

/// Contents that are not canonical.
pub fn worked_not_canonical()
    // a state that no word reaches, though a walk sees it in its own reference
    ensures unreached { ¬ IsCanonical unreached_state }
    ensures unreached_seen { first_sights_of (seen_leaves unreached_state) ≡ 0 ∷ 1 ∷ [] }

    // a node with equal ends, and two equal nodes
    ensures ends { ¬ IsCanonical equal_ends }
    ensures nodes { ¬ IsCanonical equal_nodes }

    // the states are numbered otherwise than a walk first sees them, and so are the nodes
    ensures state_numbers { ¬ IsCanonical swapped_states }
    ensures states_seen { first_sights_of (seen_leaves swapped_states) ≡ 1 ∷ 0 ∷ [] }
    ensures node_numbers { ¬ IsCanonical swapped_nodes }
    ensures nodes_seen { first_sights_of (seen_nodes swapped_nodes) ≡ 1 ∷ 0 ∷ [] }

    // two states with the same signs
    ensures signs { ¬ IsCanonical equal_signs }
{}

/// Contents that are not open, and words over lists of variables.
pub fn worked_words_over()
    // P sub Q has the same value whatever zero letters stand at the end
    ensures not_open { ¬ IsOpen full_subset_content }

    // one truth value and letters of two bits
    ensures each_order { IsWordOver of_each_order
        (word (true ∷ []) ((true ∷ false ∷ []) ∷ (false ∷ true ∷ []) ∷ [])) }
    ensures no_truth_value { ¬ IsWordOver of_each_order (word [] ((true ∷ false ∷ []) ∷ [])) }
    ensures two_truth_values { ¬ IsWordOver just_a (word (true ∷ false ∷ []) []) }

    // letters of one bit and of three bits for two sets
    ensures short_letter { ¬ IsWordOver set_P_and_Q (word [] ((true ∷ []) ∷ [])) }
    ensures long_letter { ¬ IsWordOver set_P_and_Q (word [] ((true ∷ false ∷ true ∷ []) ∷ [])) }

    // a word over a number need not encode one
    ensures no_position { IsWordOver just_x (word [] []) }
{}
