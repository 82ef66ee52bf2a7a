//! Laws of the definitions. The function has an empty body, and its contract states its laws.

ghost use Rattle.ms_ltlf.specs.inner.Laws.{EventuallyIsDual, EventuallyIsUntil, NextIsDual, TruthIsDecided, UntilIsDual, UntilUnfolds};

/// Truth on traces is decided, each operator of time has its dual, and until is what it unfolds to.
pub fn laws_of_traces()
    ensures decided { TruthIsDecided }
    ensures next_is_dual { NextIsDual }
    ensures eventually_is_dual { EventuallyIsDual }
    ensures until_is_dual { UntilIsDual }
    ensures eventually_is_until { EventuallyIsUntil }
    ensures until_unfolds { UntilUnfolds }
{}
