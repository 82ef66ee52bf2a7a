//! The function has an empty body, and its contract states the law.

ghost use Rattle.ms_logic_machines.specs.Laws.{MachinesHaveCanonicalContents};

/// Where equality of signs is decided, each finite automaton over words has a canonical content with its signs, in each mode and over each
/// list of variables.
pub fn law_of_machines<Sign>()
    ensures contents { MachinesHaveCanonicalContents Sign }
{}
