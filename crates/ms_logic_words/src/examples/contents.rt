ghost use Rattle.ms_logic_words.specs.inner.ContentExamples.{open_content, word, subset_content, member_content};
ghost use Rattle.ms_logic_words.specs.Canonical.{IsCanonical, first_sights_of, seen_leaves, seen_nodes};
ghost use Rattle.ms_logic_words.specs.Content.{IsOpen, sign_of, answer_of};
ghost use Rattle.ms_logic.specs.Truth.{answer_yes, answer_no};
ghost use Rattle.ms_logic.specs.declared.assignment.Value.TheVariants.{Truth, Set};
ghost use Rattle.std.specs.Prelude.{◌≡◌, [], ◌∷◌, true, false, Some, None};

/// Runs of automata. `subset_content` has the value of P sub Q over P and Q, and `member_content` that of
/// A <=> 0 in P over A and P.
#[tactic(auto, unfolding(ms_arena::specs::Diagram::leaf_of))]
pub fn worked_runs()
    // P = {} and Q = {}; P = {0}; P = {0} and Q = {0}; P = {0} with a zero letter at the end
    ensures empty_word { sign_of subset_content (word [] []) ≡ Some answer_yes }
    ensures outside { sign_of subset_content (word [] ((true ∷ false ∷ []) ∷ [])) ≡ Some answer_no }
    ensures inside { sign_of subset_content (word [] ((true ∷ true ∷ []) ∷ [])) ≡ Some answer_yes }
    ensures zero_at_end { sign_of subset_content (word [] ((true ∷ false ∷ []) ∷ (false ∷ false ∷ []) ∷ []))
        ≡ Some answer_no }

    // A = true and P = {}; A = true and P = {0}; A = false and P = {1}
    ensures truth_alone { sign_of member_content (word (true ∷ []) []) ≡ Some answer_no }
    ensures truth_and_member { sign_of member_content (word (true ∷ []) ((true ∷ []) ∷ []))
        ≡ Some answer_yes }
    ensures other_member { sign_of member_content (word (false ∷ []) ((false ∷ []) ∷ (true ∷ []) ∷ []))
        ≡ Some answer_yes }

    // the answers at values
    ensures answer_outside { answer_of (λ s. s) subset_content None (Set (0 ∷ []) ∷ Set [] ∷ [])
        ≡ answer_no }
    ensures answer_inside { answer_of (λ s. s) subset_content None (Set (2 ∷ []) ∷ Set (0 ∷ 2 ∷ []) ∷ [])
        ≡ answer_yes }
    ensures answer_false { answer_of (λ s. s) member_content None (Truth false ∷ Set (1 ∷ []) ∷ [])
        ≡ answer_yes }

    // states and nodes as they are first seen
    ensures sights { first_sights_of (3 ∷ 1 ∷ 3 ∷ 0 ∷ 1 ∷ []) ≡ 3 ∷ 1 ∷ 0 ∷ [] }
    ensures subset_states { first_sights_of (seen_leaves subset_content) ≡ 0 ∷ 1 ∷ [] }
    ensures subset_nodes { first_sights_of (seen_nodes subset_content) ≡ 0 ∷ 1 ∷ [] }
    ensures member_states { first_sights_of (seen_leaves member_content) ≡ 0 ∷ 1 ∷ 2 ∷ 3 ∷ [] }
    ensures member_nodes { first_sights_of (seen_nodes member_content) ≡ 0 ∷ 1 ∷ 2 ∷ [] }
{}

/// Canonical and open contents.
pub fn worked_contents()
    // the content of P sub Q
    ensures canonical { IsCanonical subset_content }

    // Yes on the empty word alone: the empty set has words with different signs
    ensures open { IsOpen open_content }
{}
