//! What limits are enough for. The function has an empty body, and its contract states the laws.

ghost use Rattle.ms_source_steps.specs.Measured.{EnoughIsNotBelow, KnownStepsAreMeasured};

/// Each step of a source has a measure of each of its kinds, so a limit that is enough for the source is below no step of it.
pub fn laws_of_measures()
    ensures measured { KnownStepsAreMeasured }
    ensures enough { EnoughIsNotBelow }
{}
