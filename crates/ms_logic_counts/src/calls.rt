//! Each call of an operation on automata has a measure. The function has an empty body, and its contract states the laws.

ghost use Rattle.ms_logic_counts.specs.Calls.{AdoptsAreMeasured, CombinesAreMeasured, FreeProjectsAreMeasured, MinimisesAreMeasured, ProjectsAreMeasured, RenamesAreMeasured, WideningsArePaired};

/// Connectives, fewest states, quantifiers with a restriction and without one, renamings, files and widenings.
pub fn laws_of_calls<One, Other>()
    ensures combines { CombinesAreMeasured One Other }
    ensures minimises { MinimisesAreMeasured One }
    ensures projects { ProjectsAreMeasured One Other }
    ensures free { FreeProjectsAreMeasured One }
    ensures renames { RenamesAreMeasured One }
    ensures adopts { AdoptsAreMeasured One }
    ensures widenings { WideningsArePaired }
{}
