//! The law at `var2 P, Q; P sub Q`, worked out by hand. The function has an empty body, and its contract is the table of its examples.

ghost use Rattle.std.specs.Prelude.{◌≡◌, None, Some};
ghost use Rattle.ms_app_answer.specs.Answer.{IsAnswer};
ghost use Rattle.ms_build_source.specs.Values.{IsMainFile};
ghost use Rattle.ms_build_source.specs.inner.Examples.{P_and_Q, subset_file};
ghost use Rattle.ms_cert.specs.Proven.{IsProven};
ghost use Rattle.ms_cert_lengths.specs.Laws.{length_shown};
ghost use Rattle.ms_cert_lengths.specs.inner.Examples.{proven, subset_answer};
ghost use Rattle.ms_dfa.specs.Files.{content_of_file};
ghost use Rattle.ms_dfa.specs.declared.plain.FileVersion.TheVariants.{One};
ghost use Rattle.ms_logic_core.specs.inner.SpreadExamples.{subset_source};

/// The file has two states. The empty word has the sign `+`, and a word with the sign `-` needs a letter.
pub fn worked_lengths()
    ensures file { IsMainFile One subset_source P_and_Q subset_file }
    ensures lengths { IsProven (content_of_file subset_file) (proven (Some 0) (Some 1)) }
    ensures too_short { ¬ IsProven (content_of_file subset_file) (proven (Some 0) (Some 0)) }
    ensures too_long { ¬ IsProven (content_of_file subset_file) (proven (Some 1) (Some 1)) }
    ensures not_none { ¬ IsProven (content_of_file subset_file) (proven (Some 0) None) }

    // two empty sets, and then 0 as the one member of P
    ensures answer { IsAnswer subset_source subset_answer }
    ensures example { length_shown subset_answer.example ≡ Some 0 }
    ensures counterexample { length_shown subset_answer.counterexample ≡ Some 1 }
    ensures nothing_shown { length_shown None ≡ None }
{}
