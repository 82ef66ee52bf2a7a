ghost use Rattle.std.specs.Prelude.{◌≡◌, ◌≤◌, IfOk, ◌+◌, length};
ghost use Rattle.std.specs.Option.{ForSome, option_copied};
ghost use Rattle.ms_dfa.specs.Automaton.{variable_of};
ghost use Rattle.ms_dfa_explore.specs.Explored.{OnRefused};
ghost use Rattle.ms_logic.specs.Lists.{IsAmong, without};
ghost use Rattle.ms_logic_words.specs.declared.sign.Sign.TheVariants.{Yes};
ghost use Rattle.ms_dfa.specs.Values.{HasValues, own_meaning};
ghost use Rattle.ms_project.specs.Always.{always, domain_or_always};
ghost use Rattle.ms_project.specs.Paired.{IsDomainFor};
ghost use Rattle.ms_project.specs.Projection.{SetsOfAnswerAreAtLeast, NeedsAtLeast, ReachedNeedsAtLeast};
ghost use Rattle.ms_project.specs.Quantified.{IsMetBy, quantified};

use crate::projection::{search, sign_sets};
use crate::quantifier::Quantifier;
use ms_arena::Ref;
use ms_dfa::{Automaton, State};
use ms_diagram::Store;
use ms_list::{List, NoMemory, StepFault, push};
use ms_logic::Mode;
use ms_logic_words::Sign;
use std::alloc::Global;

/// The quantified body, over the values at which the domain is Yes.
fn project_within(
    alloc: Global,
    body: &Automaton,
    domain: &Automaton,
    quantifier: Quantifier,
    limit: u64,
) -> Result<Automaton, StepFault>
    requires domain { IsDomainFor body.now domain.now }
    requires bound { IsAmong body.now.variables (variable_of quantifier.track) }
    requires some { 1 ≤ limit }
    requires small { limit ≤ 4000000000 }
    ensures mode { IfOk result (λ made. made.mode ≡ body.now.mode) }
    ensures variables { IfOk result (λ made. made.variables ≡ without quantifier.track.variable body.now.variables) }
    ensures values { IfOk result (HasValues (quantified quantifier.quant (variable_of quantifier.track) (λ e. own_meaning domain.now e Yes) (own_meaning body.now))) }
    ensures within { IfOk result (λ made. length made.nodes + length made.states ≤ limit) }
    ensures size { IfOk result (λ made. SetsOfAnswerAreAtLeast (length made.nodes + length made.states) body.now domain.now quantifier.track.variable) }
    ensures nodes { OnRefused result (λ refused. (refused ≡ limit) × ReachedNeedsAtLeast limit body.now domain.now quantifier.track.variable) }
{
    // The tracks tell that both are automata.
    let _ = body.tracks();
    let _ = domain.tracks();
    let projection = match search(alloc, body, domain, quantifier.track, limit) {
        Ok(projection) => projection,
        Err(fault) => return Err(fault),
    };
    let Ok(states) = sign_sets(alloc, body.mode(), quantifier.quant, &projection) else {
        return Err(StepFault::Memory);
    };
    let tracks = projection.tracks;
    let found = projection.found;
    Ok(Automaton::make(found.store, body.mode(), tracks, found.start, states))
}

/// The automaton of truth, over no tracks.
fn truth(alloc: Global, mode: Mode) -> Result<Automaton, NoMemory>
    ensures { IfOk result (λ made. made ≡ always mode) }
{
    let mut states = List::new(alloc);
    let state = State {
        sign: Sign::Yes,
        next: Ref::Leaf(0),
    };
    push(&mut states, state)?;
    let store = Store::new(alloc, 1);
    Ok(Automaton::make(store, mode, List::new(alloc), Ref::Leaf(0), states))
}

/// The quantified body: at each assignment of its other variables the value that the quantifier gives the signs of the body
/// at the values of the bound variable where the domain is Yes, or at all its values where there is no domain.
pub fn project(
    alloc: Global,
    body: &Automaton,
    domain: Option<&Automaton>,
    quantifier: Quantifier,
    limit: u64,
) -> Result<Automaton, StepFault>
    requires domain { ForSome (option_copied domain) (IsDomainFor body.now) }
    requires bound { IsAmong body.now.variables (variable_of quantifier.track) }
    requires some { 1 ≤ limit }
    requires small { limit ≤ 4000000000 }
    ensures mode { IfOk result (λ made. made.mode ≡ body.now.mode) }
    ensures variables { IfOk result (λ made. made.variables ≡ without quantifier.track.variable body.now.variables) }
    ensures values { IfOk result (HasValues (quantified quantifier.quant (variable_of quantifier.track) (IsMetBy (option_copied domain.entry)) (own_meaning body.now))) }
    ensures within { IfOk result (λ made. length made.nodes + length made.states ≤ limit) }
    ensures size { IfOk result (λ made. SetsOfAnswerAreAtLeast (length made.nodes + length made.states) body.now (domain_or_always body.now.mode (option_copied domain.entry)) quantifier.track.variable) }
    ensures nodes { OnRefused result (λ refused. (refused ≡ limit) × NeedsAtLeast limit body.now (domain_or_always body.now.mode (option_copied domain.entry)) quantifier.track.variable) }
    ensures reached_nodes { OnRefused result (λ refused. ReachedNeedsAtLeast limit body.now (domain_or_always body.now.mode (option_copied domain.entry)) quantifier.track.variable) }
{
    match domain {
        Some(domain) => project_within(alloc, body, domain, quantifier, limit),
        None => {
            let Ok(all) = truth(alloc, body.mode()) else {
                return Err(StepFault::Memory);
            };
            project_within(alloc, body, &all, quantifier, limit)
        }
    }
}
