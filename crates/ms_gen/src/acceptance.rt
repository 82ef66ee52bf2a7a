//! Laws of the definitions. The function has an empty body, and its contract states the laws.

ghost use Rattle.ms_gen.specs.inner.AcceptanceLaws.{GeneratedSourcesAreAccepted, GeneratedSourcesAreValid, GeneratedSourcesHaveNoFault};

/// Each generated source is accepted. However it is loaded, nothing is wrong with it, and what it becomes imports and exports
/// nothing, has no goals, is within the limits and is valid.
pub fn laws_of_generated()
    ensures accepted { GeneratedSourcesAreAccepted }
    ensures no_fault { GeneratedSourcesHaveNoFault }
    ensures valid { GeneratedSourcesAreValid }
{}
