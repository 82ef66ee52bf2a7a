ghost use Rattle.ms_logic_words.specs.Canonical.{IsCanonical};
ghost use Rattle.ms_minim_canonical.specs.inner.Examples.{subset, swapped_nodes, swapped_states};

/// A canonical content, one whose states are not numbered as the walk sees them, and one whose nodes are not.
pub fn worked_canonical()
    ensures canonical { IsCanonical subset }
    ensures states { ¬ IsCanonical swapped_states }
    ensures nodes { ¬ IsCanonical swapped_nodes }
{}
