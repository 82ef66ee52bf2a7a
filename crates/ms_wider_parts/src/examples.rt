//! The definitions at small cases, worked out by hand. The function has an empty body, and its contract is the table of its examples.

ghost use Rattle.std.specs.Prelude.{◌≡◌, [], ◌∷◌, true, false};
ghost use Rattle.ms_diagram.specs.Bring.{read_through};
ghost use Rattle.ms_logic_words.specs.Content.{bits_at};
ghost use Rattle.ms_logic_words.specs.inner.ContentExamples.{encodings_content, full_subset_content};
ghost use Rattle.ms_wider_parts.specs.Fixed.{IsFixedBy, KeepsOrder, spread};

/// Maps that keep the order of bits or do not, and the full contents of P sub Q and of `true`.
pub fn worked_readings()
    // variable 0 is read at 3 and variable 1 at 5
    ensures rising { KeepsOrder 2 (read_through (3 ∷ 5 ∷ [])) }
    // two variables change places
    ensures swapped { ¬ KeepsOrder 2 (read_through (1 ∷ 0 ∷ [])) }

    // both bits are spread to places 2 and 5
    ensures at_place { spread (2 ∷ 5 ∷ []) (bits_at (true ∷ true ∷ [])) 5 ≡ true }
    ensures elsewhere { spread (2 ∷ 5 ∷ []) (bits_at (true ∷ true ∷ [])) 3 ≡ false }

    // a content fixes its own states
    ensures fixed { IsFixedBy full_subset_content full_subset_content encodings_content }
    // `true` has one state, and P sub Q has two
    ensures not_fixed { ¬ IsFixedBy full_subset_content encodings_content encodings_content }
{}
