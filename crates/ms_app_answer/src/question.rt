ghost use Rattle.std.specs.Prelude.{◌≡◌, ◌⊎◌, IfOk};
ghost use Rattle.ms_logic.specs.Verdict.{Problem};
ghost use Rattle.ms_app_answer.specs.Answer.{IsAnswer, ShowsFirst, verdict_by};
ghost use Rattle.ms_build_source.specs.Values.{HasMainValue};
ghost use Rattle.ms_dfa.specs.Values.{main_meaning};

use ms_best::{assignment, first};
use ms_dfa::{Automaton, Sign};
use ms_list::NoMemory;
use ms_logic::Assignment;
use ms_report::{Answer, Verdict};
use std::alloc::Global;

/// The first assignment at which the automaton has the sign, if there is one.
fn shown(alloc: Global, automaton: &Automaton, sign: Sign) -> Result<Option<Assignment>, NoMemory>
    requires { (sign ≡ Sign.Yes) ⊎ (sign ≡ Sign.No) }
    ensures { IfOk result (λ found. (problem : Problem) → HasMainValue problem automaton.now → ShowsFirst problem (λ e. main_meaning problem e sign) found) }
{
    match first(alloc, automaton, sign)? {
        Some(word) => {
            let found = assignment(alloc, &word, automaton.tracks(), automaton.mode())?;
            Ok(Some(found))
        }
        None => Ok(None),
    }
}

/// The verdict, by whether there is an example and a counterexample.
fn verdict(example: bool, counterexample: bool) -> Verdict
    ensures { result ≡ verdict_by example counterexample }
{
    match (example, counterexample) {
        (true, false) => Verdict::Valid,
        (false, true) => Verdict::Unsatisfiable,
        (true, true) => Verdict::Contingent,
        (false, false) => Verdict::Vacuous,
    }
}

/// The answer that an automaton gives to the question whose value it has.
pub fn answer(alloc: Global, automaton: &Automaton) -> Result<Answer, NoMemory>
    ensures { IfOk result (λ answer. (problem : Problem) → HasMainValue problem automaton.now → IsAnswer problem answer) }
{
    let example = shown(alloc, automaton, Sign::Yes)?;
    let counterexample = shown(alloc, automaton, Sign::No)?;
    Ok(Answer {
        verdict: verdict(example.is_some(), counterexample.is_some()),
        example,
        counterexample,
    })
}
