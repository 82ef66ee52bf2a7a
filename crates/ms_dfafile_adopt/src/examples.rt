ghost use Rattle.std.specs.Prelude.{◌≡◌, ℕ, [], ◌∷◌, codes, None};
ghost use Rattle.ms_logic.specs.declared.assignment.Value.TheVariants.{Number, Set};
ghost use Rattle.ms_logic_words.specs.Content.{IsOpen};
ghost use Rattle.ms_logic.specs.Truth.{answer_no, answer_undefined, answer_yes};
ghost use Rattle.ms_dfa.specs.declared.plain.FileSign.TheVariants as signs;
ghost use Rattle.ms_dfa.specs.Files.{content_of_file};
ghost use Rattle.ms_dfafile_adopt.specs.inner.Examples.{empty_word, number_pair, open_file, set_pair, subset, zero_file};
ghost use Rattle.ms_dfafile_adopt.specs.Readings.{own_variables};
ghost use Rattle.ms_dfafile_adopt.specs.Short.{NumbersLack, StringsLack};
ghost use Rattle.ms_dfafile_adopt.specs.Import.{HasVariables, IsFirstOpen, answer_for_file, answer_of_file};

/// What a file says at values: P = {0} and Q = {0, 1}, and with the names turned round; and what one of version 2 says of a
/// number, and by its sign `x`.
#[tactic(auto, unfolding(ms_arena::specs::Diagram::leaf_of))]
pub fn worked_answers()
    ensures in_order { answer_of_file subset (codes "P" ∷ codes "Q" ∷ []) None (Set (0 ∷ []) ∷ Set (0 ∷ 1 ∷ []) ∷ []) ≡ answer_yes }
    ensures turned_round { answer_of_file subset (codes "Q" ∷ codes "P" ∷ []) None (Set (0 ∷ []) ∷ Set (0 ∷ 1 ∷ []) ∷ []) ≡ answer_no }
    ensures at_zero { answer_of_file zero_file (codes "x" ∷ []) None (Number 0 ∷ []) ≡ answer_yes }
    ensures at_one { answer_of_file zero_file (codes "x" ∷ []) None (Number 1 ∷ []) ≡ answer_no }
    ensures outside { answer_for_file signs.Outside ≡ answer_undefined }
{}

/// Pairs that name the variables of a file, and pairs that do not; and a file that zeros at the end change.
pub fn worked_imports()
    ensures turned_round { HasVariables subset (set_pair (codes "Q") ∷ set_pair (codes "P") ∷ []) }
    ensures too_few { ¬ HasVariables subset (set_pair (codes "P") ∷ []) }
    ensures too_many { ¬ HasVariables open_file (set_pair (codes "P") ∷ set_pair (codes "Q") ∷ []) }
    ensures other_order { ¬ HasVariables open_file (number_pair (codes "P") ∷ []) }
    ensures is_open { IsOpen (content_of_file open_file) }
    ensures first_word { IsFirstOpen (content_of_file open_file) empty_word }
{}

/// Files that lack nodes under a limit, and one that has no numbers which could lack any.
pub fn worked_lacks()
    // The file of P sub Q has two nodes.
    ensures too_many_nodes { StringsLack 1 subset }

    // With a limit below 32 no automaton of a number is made.
    ensures few_for_numbers { NumbersLack 31 (own_variables zero_file) }
    ensures sets_alone { (limit : ℕ) → ¬ NumbersLack limit (own_variables subset) }
{}
