//! Laws of the automata of a source. The function has an empty body, and its contract states the laws.

ghost use Rattle.ms_build.specs.Laws.{ChildHasValueOfFormula, RootsAreRead};

/// What the automaton of a root means is the value of the root's core formula; and the roots of a source in its graph are
/// as `Built::root` asks.
pub fn laws_of_built()
    ensures values { ChildHasValueOfFormula }
    ensures read { RootsAreRead }
{}
