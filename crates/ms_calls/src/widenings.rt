//! What widenings need and make. The function has an empty body, and its contract states the laws.

ghost use Rattle.ms_calls.specs.Widenings.{MeasuresAreAboveFew, WideningsAreWithinMeasure, WideningsNeedFewPairs};

/// A widening makes no more states and nodes than the number m of the measure of a conjunction, that with an automaton of few parts
/// which holds at each value of what it adds, and is short of nodes only under a limit below that measure. One that has not even
/// room for the few parts has a limit below each measure of a conjunction.
pub fn laws_of_widenings()
    ensures few { WideningsNeedFewPairs }
    ensures measure { WideningsAreWithinMeasure }
    ensures above { MeasuresAreAboveFew }
{}
