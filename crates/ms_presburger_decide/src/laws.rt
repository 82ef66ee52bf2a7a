ghost use Rattle.ms_presburger_decide.specs.Laws.{ExamplesAreShort, FormulasHaveOneAnswer, RefusalsHaveLines, SolvableProblemsAreSolved};

/// Each refusal has a line, and a place in a file that was read, if it has one. What can be solved is refused for want of memory
/// or of nodes alone, where nothing outside fails.
pub fn laws_of_decisions()
    ensures lines { RefusalsHaveLines }
    ensures solved { SolvableProblemsAreSolved }
{}

/// An example has the fewest binary digits in its largest number, and so has a counterexample; and a formula has one answer.
pub fn laws_of_answers()
    ensures short { ExamplesAreShort }
    ensures one { FormulasHaveOneAnswer }
{}
