ghost use Rattle.std.specs.Prelude.{◌≡◌, ◌⊎◌, length, IfErr, IfOk};
ghost use Rattle.ms_build.specs.Built.{IsLimit};
ghost use Rattle.ms_build_source.specs.Limits.{IsWithinLimits};
ghost use Rattle.ms_ltlf.specs.Source.{string_problem};
ghost use Rattle.ms_ltlf.specs.View.{IsWellFormed, temporal_of};
ghost use Rattle.ms_ltlf_decide.specs.Answer.{IsTraceAnswer};
ghost use Rattle.ms_ltlf_decide.specs.Formula.{IsUnsolvedFormula};

use ms_app_solved::solved_answer;
use ms_edge::Refusal;
use ms_ltlf::{Trace, to_strings};
use ms_report::Answer;
use std::alloc::Global;

/// The answer to a formula, by the automaton of the source of strings that says the same.
pub fn formula_answer(alloc: Global, trace: &Trace, limit: u64) -> Result<Answer, Refusal>
    requires well_formed { IsWellFormed trace.now }
    requires limit { IsLimit limit }
    ensures answer { IfOk result (IsTraceAnswer (length trace.now.names) (temporal_of trace.now.formula)) }
    ensures within { IfOk result (λ answer. IsWithinLimits (string_problem trace.now.names (temporal_of trace.now.formula))) }
    ensures refused { IfErr result (λ refusal. (refusal ≡ Refusal.Memory)
        ⊎ IsUnsolvedFormula trace.now.names (temporal_of trace.now.formula) limit refusal) }
{
    let Ok(source) = to_strings(alloc, trace) else {
        return Err(Refusal::Memory);
    };
    solved_answer(alloc, &source, limit)
}
