ghost use Rattle.std.specs.Prelude.{◌≡◌, IsTrue, IfOk, Some};
ghost use Rattle.ms_build.specs.Built.{IsLimit, IsWithin};
ghost use Rattle.ms_build.specs.inner.Ranges.{IsDefined, IsLast, op_within};
ghost use Rattle.ms_dfa.specs.Automaton.{variable_of};
ghost use Rattle.ms_dfa.specs.Values.{HasValues, own_meaning};
ghost use Rattle.ms_dfa_explore.specs.Explored.{OnRefused};
ghost use Rattle.ms_logic.specs.Lists.{IsAmong, without};
ghost use Rattle.ms_project.specs.Always.{domain_or_always};
ghost use Rattle.ms_project.specs.Paired.{IsDomainFor};
ghost use Rattle.ms_project.specs.Projection.{NeedsAtLeast};
ghost use Rattle.ms_project.specs.Quantified.{IsMetBy, quantified};

use crate::children::least;
use crate::plan::Plan;
use ms_dfa::Automaton;
use ms_list::StepFault;
use ms_logic::Quant;
use ms_logic_words::Sign;
use ms_product::{Op, combine};
use ms_project::{Quantifier, project};

/// Whether no state has the sign Undefined.
fn is_defined(automaton: &Automaton) -> bool
    ensures { IsTrue result → IsDefined automaton.now }
{
    for state in 0..automaton.states() {
        if automaton.sign(state) == Sign::Undefined {
            return false;
        }
    }
    true
}

/// How the range and the body are put together, so that the quantifier is one over all values.
fn op_within(quant: Quant) -> Op
    ensures { result ≡ op_within quant }
{
    match quant {
        Quant::Ex => Op::And,
        Quant::All => Op::Implies,
    }
}

/// A quantifier within a range, where neither its range nor its body is undefined anywhere, by the one automaton of both. With
/// fewest states it does not tell values outside the range from those whose body is the usual one, so the sets of its states
/// are few, where those of pairs would hold one for each place at which the value may stand.
fn over_both(
    plan: &Plan,
    body: &Automaton,
    domain: &Automaton,
    quantifier: Quantifier,
) -> Result<Automaton, StepFault>
    requires limit { IsLimit plan.now.limit }
    requires domain { IsDomainFor body.now domain.now }
    requires bound { IsAmong body.now.variables (variable_of quantifier.track) }
    requires last { IsLast body.now.variables (variable_of quantifier.track) }
    requires body_defined { IsDefined body.now }
    requires domain_defined { IsDefined domain.now }
    ensures mode { IfOk result (λ made. made.mode ≡ body.now.mode) }
    ensures variables { IfOk result (λ made. made.variables ≡ without quantifier.track.variable body.now.variables) }
    ensures values { IfOk result (HasValues (quantified quantifier.quant (variable_of quantifier.track) (IsMetBy (Some domain.now)) (own_meaning body.now))) }
    ensures within { IfOk result (IsWithin plan.now.limit) }
{
    // The states tell that these are automata.
    let _ = body.states();
    let _ = domain.states();
    let op = op_within(quantifier.quant);
    let both = combine(plan.alloc, domain, body, op, plan.limit)?;
    let _ = both.states();
    let Ok(few) = least(plan, &both) else {
        return Err(StepFault::Memory);
    };
    let _ = few.states();
    project(plan.alloc, &few, None, quantifier, plan.limit)
}

/// The quantified body: at each assignment of its other variables the value that the quantifier gives the signs of the body at
/// the values of the bound variable, its last one, where the domain is Yes.
pub(crate) fn project_within(
    plan: &Plan,
    body: &Automaton,
    domain: &Automaton,
    quantifier: Quantifier,
) -> Result<Automaton, StepFault>
    requires limit { IsLimit plan.now.limit }
    requires domain { IsDomainFor body.now domain.now }
    requires bound { IsAmong body.now.variables (variable_of quantifier.track) }
    requires last { IsLast body.now.variables (variable_of quantifier.track) }
    ensures mode { IfOk result (λ made. made.mode ≡ body.now.mode) }
    ensures variables { IfOk result (λ made. made.variables ≡ without quantifier.track.variable body.now.variables) }
    ensures values { IfOk result (HasValues (quantified quantifier.quant (variable_of quantifier.track) (IsMetBy (Some domain.now)) (own_meaning body.now))) }
    ensures within { IfOk result (IsWithin plan.now.limit) }
    ensures nodes { OnRefused result (λ refused. (refused ≡ plan.now.limit) × NeedsAtLeast plan.now.limit body.now (domain_or_always body.now.mode (Some domain.now)) quantifier.track.variable) }
{
    if is_defined(body) && is_defined(domain) {
        match over_both(plan, body, domain, quantifier) {
            Ok(made) => return Ok(made),
            Err(StepFault::Memory) => return Err(StepFault::Memory),
            // What is told of a lack of nodes is that of the projection of the pairs.
            Err(StepFault::Nodes { .. }) => {}
        }
    }
    project(plan.alloc, body, Some(domain), quantifier, plan.limit)
}
