ghost use Rattle.std.specs.Prelude.{◌≡◌, ◌≤◌, IsTrue, IfOk};
ghost use Rattle.ms_dfa_explore.specs.Explored.{OnRefused};
ghost use Rattle.ms_product.specs.Pairing.{AreReachedPairs, IsPairedIn, IsPairedStore, ReachedAreAtLeast};
ghost use Rattle.ms_product.specs.declared.op.Op.TheVariants.{And};
ghost use Rattle.ms_project.specs.Paired.{IsDomainFor, IsTruth, operands_for};

use ms_arena::Ref;
use ms_dfa::{Automaton, State};
use ms_diagram::{Pairs, Store};
use ms_list::{List, NoMemory, StepFault};
use ms_logic_words::Sign;
use ms_product::{Op, Paired, over_tracks, same_states};
use std::alloc::Global;

/// Whether a domain is truth, which leaves its body as it is.
pub(crate) fn is_truth(domain: &Automaton) -> bool
    ensures { IsTrue result → IsTruth domain.now }
{
    domain.states() == 1 && domain.sign(0) == Sign::Yes
}

/// The product of a body and a domain over the tracks of the body, as a search reads it: its diagrams, where the truth values
/// lead, its states, and the pairs that these are.
#[derive(Drop)]
pub(crate) struct Product<'a> {
    pub(crate) body: &'a Automaton,
    pub(crate) store: &'a Store,
    pub(crate) start: Ref,
    pub(crate) states: List<State>,
    pub(crate) pairs: Pairs,
}

/// The product of a body and truth, which is the body itself: all its states and diagrams, whether they are reached or not.
pub(crate) fn pair_with_truth<'a>(
    alloc: Global,
    body: &'a Automaton,
    domain: &Automaton,
) -> Result<Product<'a>, NoMemory>
    requires truth { IsTruth domain.now }
    ensures body { IfOk result (λ p. p.body.now ≡ body.now) }
    ensures paired { IfOk result (λ p. IsPairedIn p.store.now.nodes And (operands_for body.now domain.now) p.pairs p.start p.states) }
{
    // The states tell that these are automata, and the length that the pairs are a numbering.
    let _ = domain.states();
    let pairs = Pairs::own(alloc, body.states())?;
    let _ = pairs.len();
    Ok(Product {
        body,
        store: body.store(),
        start: body.start_ref(),
        states: same_states(alloc, body)?,
        pairs,
    })
}

/// The product of a body and a domain over the tracks of the body: pairs of states that are reached.
pub(crate) fn pair_up(
    alloc: Global,
    body: &Automaton,
    domain: &Automaton,
    limit: u64,
) -> Result<Paired, StepFault>
    requires domain { IsDomainFor body.now domain.now }
    requires some { 1 ≤ limit }
    requires small { limit ≤ 4000000000 }
    ensures paired { IfOk result (λ p. IsPairedIn p.store.nodes And (operands_for body.now domain.now) p.pairs p.start p.states) }
    ensures reached { IfOk result (λ p. AreReachedPairs (operands_for body.now domain.now) p.pairs) }
    ensures store { IfOk result (λ p. IsPairedStore p.store limit And (operands_for body.now domain.now) p.pairs) }
    ensures nodes { OnRefused result (λ refused. (refused ≡ limit) × ReachedAreAtLeast limit And (operands_for body.now domain.now)) }
{
    let Ok(left) = over_tracks(alloc, body, body.tracks()) else {
        return Err(StepFault::Memory);
    };
    let Ok(right) = over_tracks(alloc, domain, body.tracks()) else {
        return Err(StepFault::Memory);
    };
    ms_product::pair_up(alloc, Op::And, left, right, limit)
}
