//! Worked examples of what can be done and of what is done. The functions have empty bodies, and their contracts state the examples.

ghost use Rattle.std.specs.Prelude.{[], codes, false};
ghost use Rattle.ms_dfa.specs.declared.plain.FileVersion.TheVariants.{Two};
ghost use Rattle.ms_edge.specs.Files.{between};
ghost use Rattle.ms_gen.specs.Generated.{generated};
ghost use Rattle.ms_app_words.specs.declared.command.Command.TheVariants.{Certify, Decide, Gen};
ghost use Rattle.ms_app.specs.Answer.{IsDelivered};
ghost use Rattle.ms_app.specs.Completeness.{CanBeDone, NothingFailed};
ghost use Rattle.ms_app.specs.inner.CompletenessExamples.{empty_files, no_files, silent_files, sink_after, still};

/// Requests that can be done, and requests that cannot.
pub fn worked_requests()
    // A file without bytes is the source without declarations.
    ensures empty_file { CanBeDone (Decide (codes "a") None 5 false Two) (still (empty_files 0)) }
    ensures to_certify { CanBeDone (Certify (codes "a") (codes "m") 5) (still (empty_files 0)) }

    // A file that is not there.
    ensures no_file { ¬ CanBeDone (Decide (codes "a") None 5 false Two) (still no_files) }

    // The first generated source; there is none with number 0.
    ensures first { CanBeDone (Gen 1 false) (still no_files) }
    ensures none { ¬ CanBeDone (Gen 0 false) (still no_files) }
{}

/// Runs in which nothing outside failed, and runs in which something did.
pub fn worked_runs()
    // Earlier failures do not count.
    ensures well { NothingFailed (sink_after 3) (sink_after 3) (still (empty_files 2)) }
    ensures sink_failed { ¬ NothingFailed (sink_after 3) (sink_after 4) (still (empty_files 2)) }
    ensures nothing_told { ¬ NothingFailed (sink_after 3) (sink_after 3) (still silent_files) }
{}

/// What a generated source comes to: its text is printed, and nothing is written.
pub fn worked_deliveries()
    ensures generated { IsDelivered (Gen 1 false) (still no_files) (generated 1) }
    ensures other_text { ¬ IsDelivered (Gen 1 false) (still no_files) [] }
    ensures no_number { ¬ IsDelivered (Gen 0 false) (still no_files) (generated 0) }
    ensures written { ¬ IsDelivered (Gen 1 false) (between no_files (empty_files 0)) (generated 1) }
{}
