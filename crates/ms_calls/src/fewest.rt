//! What fewest states need. The function has an empty body, and its contract states the laws.

ghost use Rattle.ms_calls.specs.Fewest.{FewestAreWithinMeasure, FewestHaveFewParts, FewestNeedFewParts, ReachedPartsAreParts};

/// Starts lead an automaton to no more references than it has states and nodes. What is needed for its automaton of fewest states is no
/// more than that, so minimising and numbering are short of nodes only below their measure; and starts lead what is made to no more.
pub fn laws_of_fewest_states()
    ensures parts { ReachedPartsAreParts }
    ensures few { FewestNeedFewParts }
    ensures measure { FewestAreWithinMeasure }
    ensures made { FewestHaveFewParts }
{}
