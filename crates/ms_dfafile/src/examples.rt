ghost use Rattle.std.specs.Prelude.{◌≡◌, length};
ghost use Rattle.ms_dfa.specs.declared.plain.Plain.{Plain};
ghost use Rattle.ms_dfafile.specs.inner.Examples.{emptiness, emptiness_file, equivalence, equivalence_file, first_number, first_number_file, line_behind, missing_state, named_by_word, named_twice, no_states, outside_in_first_version, own_node, same_variable, set_from_start, subset, subset_file, truth_value_from_state, two_bits_undefined, zero_before};
ghost use Rattle.ms_dfafile.specs.File.{IsFile, IsSpelled};
ghost use Rattle.ms_dfafile.specs.Spelling.{spelled};

/// Contents and their texts.
pub fn worked_files()
    ensures subset { spelled subset ≡ subset_file }
    ensures subset_bytes { length subset_file ≡ 100 }
    ensures equivalence { spelled equivalence ≡ equivalence_file }
    ensures equivalence_bytes { length equivalence_file ≡ 118 }
    ensures emptiness { spelled emptiness ≡ emptiness_file }
    ensures emptiness_bytes { length emptiness_file ≡ 88 }
    ensures number { spelled first_number ≡ first_number_file }
    ensures number_bytes { length first_number_file ≡ 127 }
{}

/// A content that meets the rules, and contents that break one each.
pub fn worked_rules()
    ensures emptiness { IsFile emptiness }
    ensures named_twice { ¬ IsFile named_twice }
    ensures named_by_word { ¬ IsFile named_by_word }
    ensures no_states { ¬ IsFile no_states }
    ensures missing_state { ¬ IsFile missing_state }
    ensures set_from_start { ¬ IsFile set_from_start }
    ensures truth_value_from_state { ¬ IsFile truth_value_from_state }
    ensures own_node { ¬ IsFile own_node }
    ensures same_variable { ¬ IsFile same_variable }
    ensures two_bits { ¬ IsFile two_bits_undefined }
    ensures first_version { ¬ IsFile outside_in_first_version }
{}

/// A file, and texts that are the file of no content.
pub fn worked_texts()
    ensures emptiness { IsSpelled emptiness_file emptiness }
    ensures zero_before { (plain : Plain) → ¬ IsSpelled zero_before plain }
    ensures line_behind { (plain : Plain) → ¬ IsSpelled line_behind plain }
{}
