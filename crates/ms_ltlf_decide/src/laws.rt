ghost use Rattle.ms_ltlf_decide.specs.Laws.{RefusalsHaveLines, SolvableFormulasAreSolved};

/// Each refusal has a line, and a place in a file that was read, if it has one. What can be solved is refused for want of memory
/// or of nodes alone, where nothing outside fails.
pub fn laws_of_decisions()
    ensures lines { RefusalsHaveLines }
    ensures solved { SolvableFormulasAreSolved }
{}
