//! What quantifiers need. The function has an empty body, and its contract states the laws.

ghost use Rattle.ms_calls.specs.Projections.{ProjectionsAreWithinMeasure, ProjectionsNeedFewSets, UnrestrictedAreWithinMeasure, UnrestrictedNeedFewSets};

/// A quantifier makes no more states and nodes than the number m of its measure, the sets of pairs of references to which starts
/// lead that do not speak of its variable, and is short of nodes only below its measure; with a restriction and without one.
pub fn laws_of_projections()
    ensures few { ProjectionsNeedFewSets }
    ensures measure { ProjectionsAreWithinMeasure }
    ensures unrestricted_few { UnrestrictedNeedFewSets }
    ensures unrestricted_measure { UnrestrictedAreWithinMeasure }
{}
