//! What starts lead to has an exact count. The function has an empty body, and its contract states the laws.

ghost use Rattle.ms_logic_counts.specs.Starts.{PairsAreCounted, ReferencesAreCounted, SetsAreCounted};

/// Starts over any variables lead a content to finitely many references, two contents to finitely many pairs of them, and a quantifier to
/// finitely many sets of pairs.
pub fn laws_of_starts<One, Other>()
    ensures references { ReferencesAreCounted One }
    ensures pairs { PairsAreCounted One Other }
    ensures sets { SetsAreCounted One Other }
{}
