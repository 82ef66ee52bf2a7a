ghost use Rattle.std.specs.Prelude.{◌≡◌, true, false, [], ◌∷◌, None, Some};
ghost use Rattle.ms_logic_words.specs.declared.sign.Sign.TheVariants.{Yes, No};
ghost use Rattle.ms_logic_words.specs.Content.{is_truth_value, is_in_letters};
ghost use Rattle.ms_dfa_explore.specs.inner.Examples.{flips, one_of_each, set, word};
ghost use Rattle.ms_dfa_explore.specs.Tracks.{distinct, merged, place_of, places_among};
ghost use Rattle.ms_dfa_explore.specs.Small.{bit_at, lead_by, most_nodes, places_of, read_tracks, sign_by, with_bit_at, zero_bits};

/// The bits of tracks, and where a table leads by them.
pub fn worked_track_bits()
    ensures own { bit_at (with_bit_at zero_bits 1 true) 1 ≡ true }
    ensures other { bit_at (with_bit_at zero_bits 1 true) 2 ≡ false }
    ensures past_the_third { bit_at (with_bit_at zero_bits 3 true) 3 ≡ false }
    ensures read { read_tracks (0 ∷ 2 ∷ []) zero_bits (λ track. true) ≡ record { first = true; second = false; third = true } }
    ensures from_the_start { lead_by flips.start flips.step None (with_bit_at zero_bits 0 true) ≡ 1 }
    ensures from_a_state { lead_by flips.start flips.step (Some 1) (with_bit_at zero_bits 2 true) ≡ 0 }
{}

/// The places that are read in each part of a word, and how many nodes a diagram over them has at most.
pub fn worked_places()
    ensures truth { places_of is_truth_value 0 one_of_each ≡ 0 ∷ [] }
    ensures letters { places_of is_in_letters 0 one_of_each ≡ 1 ∷ 2 ∷ [] }
    ensures one_track { most_nodes (5 ∷ []) ≡ 1 }
    ensures three_tracks { most_nodes (0 ∷ 1 ∷ 2 ∷ []) ≡ 7 }
{}

/// The sign that a table has at the end of a word.
pub fn worked_table_signs()
    ensures no_letters { sign_by flips one_of_each (word true []) ≡ Yes }
    ensures one_flip { sign_by flips one_of_each (word true ((false ∷ true ∷ []) ∷ [])) ≡ No }
    ensures two_flips { sign_by flips one_of_each (word true ((false ∷ true ∷ []) ∷ (true ∷ false ∷ []) ∷ (true ∷ true ∷ []) ∷ [])) ≡ Yes }
    ensures begun_false { sign_by flips one_of_each (word false ((false ∷ true ∷ []) ∷ [])) ≡ Yes }
{}

/// The variables of two lists in one, and those of one list, each once.
pub fn worked_joins()
    ensures both { merged (set 1 ∷ set 3 ∷ []) (set 2 ∷ set 3 ∷ set 4 ∷ []) ≡ set 1 ∷ set 2 ∷ set 3 ∷ set 4 ∷ [] }
    ensures nothing_on_the_right { merged (set 1 ∷ []) [] ≡ set 1 ∷ [] }
    ensures one_behind { merged (set 5 ∷ []) (set 7 ∷ []) ≡ set 5 ∷ set 7 ∷ [] }
    ensures falling { distinct (set 7 ∷ set 5 ∷ set 7 ∷ []) ≡ set 5 ∷ set 7 ∷ [] }
    ensures place { place_of 7 (set 5 ∷ set 7 ∷ []) ≡ 1 }
    ensures places { places_among (set 5 ∷ set 9 ∷ []) (set 3 ∷ set 5 ∷ set 7 ∷ set 9 ∷ []) ≡ 1 ∷ 3 ∷ [] }
    ensures no_place { place_of 6 (set 5 ∷ set 7 ∷ []) ≡ 2 }
{}
