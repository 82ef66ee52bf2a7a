ghost use Rattle.std.specs.Prelude.{◌≡◌, ◌⊎◌, IfErr, IfOk};
ghost use Rattle.ms_build.specs.Built.{IsLimit};
ghost use Rattle.ms_build_source.specs.Limits.{IsWithinLimits};
ghost use Rattle.ms_presburger.specs.Source.{set_problem};
ghost use Rattle.ms_presburger.specs.Tree.{free_names};
ghost use Rattle.ms_presburger.specs.View.{IsWellFormed, arithmetic_of};
ghost use Rattle.ms_presburger_decide.specs.Answer.{IsNumberAnswer};
ghost use Rattle.ms_presburger_decide.specs.Problem.{IsUnsolvedProblem};
ghost use Rattle.ms_report.specs.Numbers.{AreSets, number_answer_of};

use ms_app_solved::solved_answer;
use ms_edge::Refusal;
use ms_presburger::{Problem, to_sets};
use ms_report::Answer;
use std::alloc::Global;

/// The answer to a formula, by the automaton of the source of sets that says the same.
pub fn problem_answer(alloc: Global, problem: &Problem, limit: u64) -> Result<Answer, Refusal>
    requires well_formed { IsWellFormed problem.now }
    requires limit { IsLimit limit }
    ensures answer { IfOk result (λ answer. IsNumberAnswer (arithmetic_of problem.now.formula) (number_answer_of answer)) }
    ensures example { IfOk result (λ answer. AreSets answer.example) }
    ensures counterexample { IfOk result (λ answer. AreSets answer.counterexample) }
    ensures within { let f = arithmetic_of problem.now.formula in
        IfOk result (λ answer. IsWithinLimits (set_problem (free_names f) f)) }
    ensures refused { IfErr result (λ refusal. (refusal ≡ Refusal.Memory)
        ⊎ IsUnsolvedProblem (arithmetic_of problem.now.formula) limit refusal) }
{
    let Ok(source) = to_sets(alloc, problem) else {
        return Err(Refusal::Memory);
    };
    solved_answer(alloc, &source, limit)
}
