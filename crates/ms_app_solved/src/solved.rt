ghost use Rattle.std.specs.Prelude.{◌≡◌, ◌⊎◌, [], IfErr, IfOk};
ghost use Rattle.ms_app_answer.specs.Answer.{IsAnswer};
ghost use Rattle.ms_app_solved.specs.Alone.{IsUnsolvedAlone};
ghost use Rattle.ms_build.specs.Built.{IsLimit};
ghost use Rattle.ms_build_source.specs.Limits.{IsWithinLimits};
ghost use Rattle.ms_logic.specs.View.{main_question, problem_of};
ghost use Rattle.ms_names_checked.specs.Exports.{ListsFreeVariables};
ghost use Rattle.ms_names_rules.specs.Numbers.{IsWellNumbered};

use ms_app_answer::answer;
use ms_build_source::solve;
use ms_edge::Refusal;
use ms_list::List;
use ms_logic::Checked;
use ms_report::Answer;
use std::alloc::Global;

/// The answer to the main value of a source that imports nothing, where nodes and states of a step are together at most `limit`.
pub fn solved_answer(alloc: Global, source: &Checked, limit: u64) -> Result<Answer, Refusal>
    requires numbered { IsWellNumbered source.now }
    requires exports { ListsFreeVariables source.now }
    requires alone { source.now.imports ≡ [] }
    requires limit { IsLimit limit }
    ensures answer { IfOk result (IsAnswer (main_question source.now [])) }
    ensures within { IfOk result (λ answer. IsWithinLimits (problem_of source.now [])) }
    ensures refused { IfErr result (λ refusal. (refusal ≡ Refusal.Memory) ⊎ IsUnsolvedAlone source.now limit refusal) }
{
    let solution = match solve(alloc, source, &List::new(alloc), limit, None) {
        Ok(solution) => solution,
        Err(refusal) => return Err(refusal),
    };
    match answer(alloc, &solution.automaton) {
        Ok(answer) => Ok(answer),
        Err(_) => Err(Refusal::Memory),
    }
}
