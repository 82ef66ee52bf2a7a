//! How large the automata of basic relations are. The function has an empty body, and its contract states the law.

ghost use Rattle.ms_calls.specs.Relations.{RelationsHaveFewParts};

/// Starts lead the automaton of a basic relation, no two states of which are alike, to no more references than the number m of the
/// measure of its call: the states and nodes of the full content in which each place has a variable of its own.
pub fn sizes_of_relations()
    ensures { RelationsHaveFewParts }
{}
