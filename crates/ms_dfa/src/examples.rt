ghost use Rattle.std.specs.Prelude.{◌≡◌, ◌==◌, true, false, if◌then◌else◌, [], ◌∷◌};
ghost use Rattle.ms_logic_words.specs.declared.sign.Sign.TheVariants.{Yes, No, Undefined, Outside};
ghost use Rattle.ms_logic.specs.Assignment.{Env};
ghost use Rattle.ms_dfa.specs.Files.{file_sign};
ghost use Rattle.ms_dfa.specs.declared.plain.FileSign.TheVariants as signs;
ghost use Rattle.ms_dfa.specs.declared.plain.FileVersion.TheVariants as versions;
ghost use Rattle.ms_dfa.specs.inner.Examples.{changes, choice, truth_and_set, seen, truth_and_sets, word_of_three};
ghost use Rattle.ms_dfa.specs.inner.Function.{Ignores};
ghost use Rattle.ms_dfa.specs.Machine.{after, end_of};
ghost use Rattle.ms_dfa.specs.Narrow.{gathered, narrowed};
ghost use Rattle.ms_dfa.specs.Values.{meaning_by};

/// A function that reads the variable 1 alone.
pub fn worked_functions()
    ensures before { Ignores choice 0 }
    ensures behind { Ignores choice 2 }
    ensures own { ¬ (Ignores choice 1) }
{}

/// The machine that counts how often the first bit of a letter is another than that of the letter before it.
pub fn worked_machines()
    ensures nothing_read { end_of changes (record { truth = []; letters = [] }) ≡ (0, false) }
    ensures two_changes { end_of changes (record { truth = []; letters = (false ∷ []) ∷ (true ∷ []) ∷ (true ∷ []) ∷ (false ∷ []) ∷ [] }) ≡ (2, false) }
    ensures from_another_state { after changes (5, true) ((false ∷ []) ∷ []) ≡ (6, false) }
{}

/// A word over a truth value, a number and two sets, read over fewer variables, and over one of them twice.
pub fn worked_narrowings()
    ensures last_set { narrowed (3 ∷ []) (seen ∷ []) truth_and_sets word_of_three
        ≡ record { truth = []; letters = (false ∷ []) ∷ (true ∷ []) ∷ (true ∷ []) ∷ [] } }
    ensures truth_value { narrowed (0 ∷ 2 ∷ []) truth_and_set truth_and_sets word_of_three
        ≡ record { truth = true ∷ []; letters = (true ∷ []) ∷ (false ∷ []) ∷ (true ∷ []) ∷ [] } }
    ensures twice { narrowed (2 ∷ 2 ∷ []) (seen ∷ seen ∷ []) truth_and_sets word_of_three
        ≡ record { truth = []; letters = (true ∷ true ∷ []) ∷ (false ∷ false ∷ []) ∷ (true ∷ true ∷ []) ∷ [] } }
{}

/// Which sign is right where the truth value 0 says Yes and the truth value 1 says No.
pub fn worked_meanings()
    ensures yes { (e : Env) → e.truth 0 ≡ true → meaning_by (λ e. e.truth 0 ≡ true) (λ e. e.truth 1 ≡ true) e Yes }
    ensures no { (e : Env) → e.truth 1 ≡ true → meaning_by (λ e. e.truth 0 ≡ true) (λ e. e.truth 1 ≡ true) e No }
    ensures undefined { (e : Env) → e.truth 0 ≡ false → e.truth 1 ≡ false → meaning_by (λ e. e.truth 0 ≡ true) (λ e. e.truth 1 ≡ true) e Undefined }
    ensures never_outside { (e : Env) → ¬ (meaning_by (λ e. e.truth 0 ≡ true) (λ e. e.truth 1 ≡ true) e Outside) }
{}

/// A file of version 1 has one sign for Undefined and Outside, and one of version 2 has two.
pub fn worked_file_signs()
    ensures yes { file_sign versions.One Yes ≡ signs.Plus }
    ensures no { file_sign versions.Two No ≡ signs.Minus }
    ensures undefined { file_sign versions.Two Undefined ≡ signs.Zero }
    ensures outside_as_undefined { file_sign versions.One Outside ≡ signs.Zero }
    ensures outside { file_sign versions.Two Outside ≡ signs.Outside }
{}
