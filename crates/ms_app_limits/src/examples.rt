//! Two files, and the limits that are enough for them. The functions have empty bodies, and their contracts state the examples.

ghost use Rattle.std.specs.Prelude.{None, codes, false};
ghost use Rattle.ms_app.specs.Completeness.{IsFavoured, IsLimitEnough};
ghost use Rattle.ms_app.specs.inner.CompletenessExamples.{empty_files, sink_after, still};
ghost use Rattle.ms_app_limits.specs.inner.Inclusion.{inclusion_files, inclusion_words};
ghost use Rattle.ms_app_words.specs.declared.command.Command.TheVariants.{Decide};
ghost use Rattle.ms_dfa.specs.declared.plain.FileVersion.TheVariants.{Two};

/// A file without bytes is the source without declarations, so its root has the formula `true`. The full content of that has one state:
/// one pair is made and two parts are read, and the budget is (1 + 2 + 2)² · 256 = 6,400. `true` itself has (1 + 0 + 2)² · 256 = 2,304.
pub fn worked_limits()
    ensures enough { IsLimitEnough (Decide (codes "a") None 6400 false Two) (still (empty_files 0)) }
    ensures too_little { ¬ IsLimitEnough (Decide (codes "a") None 6399 false Two) (still (empty_files 0)) }
{}

/// A file with the bytes of `ws1s; var2 P, Q; P sub Q;`, in three lines. Its root has four pairs, and five states and nodes are read:
/// (4 + 5 + 2)² · 256 = 30,976. The inclusion itself has (4 + 0 + 2)² · 256 = 9,216.
pub fn worked_inclusion()
    ensures enough { IsLimitEnough (Decide (codes "a") None 30976 false Two) (still inclusion_files) }
    ensures too_little { ¬ IsLimitEnough (Decide (codes "a") None 30975 false Two) (still inclusion_files) }

    // So `decide --max-nodes 30976 a` is done, or memory is wanting.
    ensures favoured { IsFavoured inclusion_words (sink_after 0) (sink_after 0) (still inclusion_files) (Decide (codes "a") None 30976 false Two) }
{}
