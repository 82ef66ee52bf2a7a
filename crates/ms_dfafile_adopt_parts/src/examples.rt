//! The definitions at small files, worked out by hand. The function has an empty body, and its contract is the table of its examples.

ghost use Rattle.std.specs.Prelude.{◌≡◌, [], ◌∷◌, codes};
ghost use Rattle.ms_dfafile_adopt.specs.inner.Examples.{number_pair, set_pair, subset};
ghost use Rattle.ms_dfafile_adopt_parts.specs.Files.{content_for, place_named, variables_of_pairs};
ghost use Rattle.ms_logic.specs.declared.mode.Order.TheVariants.{One, Two};
ghost use Rattle.ms_logic_measures.specs.inner.MeasuredContents.{turned_subset};
ghost use Rattle.ms_logic_words.specs.inner.ContentExamples.{subset_content};

/// The file of P sub Q, by the places of its pairs.
pub fn worked_contents()
    ensures first { place_named (set_pair (codes "Q") ∷ set_pair (codes "P") ∷ []) (codes "Q") ≡ 0 }
    ensures second { place_named (set_pair (codes "Q") ∷ set_pair (codes "P") ∷ []) (codes "P") ≡ 1 }
    ensures none { place_named (set_pair (codes "Q") ∷ []) (codes "P") ≡ 1 }
    ensures straight { content_for (set_pair (codes "P") ∷ set_pair (codes "Q") ∷ []) subset ≡ subset_content }
    // where the pairs are turned round, its variables go by the numbers 1 and 0
    ensures turned { content_for (set_pair (codes "Q") ∷ set_pair (codes "P") ∷ []) subset ≡ turned_subset }
    ensures variables { variables_of_pairs (number_pair (codes "x") ∷ set_pair (codes "P") ∷ [])
        ≡ record { name = 0; order = One } ∷ record { name = 1; order = Two } ∷ [] }
{}
