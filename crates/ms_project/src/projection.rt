ghost use Rattle.std.specs.Prelude.{◌≡◌, ◌<◌, ◌≤◌, ◌+◌, All, IfOk, length};
ghost use Rattle.ms_dfa.specs.Automaton.{variable_of, variables_of};
ghost use Rattle.ms_dfa_explore.specs.Explored.{OnRefused};
ghost use Rattle.ms_logic.specs.Lists.{IsAmong, without};
ghost use Rattle.ms_product.specs.Pairing.{IsPairedIn};
ghost use Rattle.ms_product.specs.declared.op.Op.TheVariants.{And};
ghost use Rattle.ms_project.specs.Paired.{IsDomainFor, IsTruth, operands_for};
ghost use Rattle.ms_project.specs.Projection.{SetsOfAnswerAreAtLeast, AreSignedSets, IsProjectionOf, ReachedNeedsAtLeast, begun_behind};
ghost use Rattle.ms_project.specs.Signed.{TestBelow, zero_step};
ghost use Rattle.ms_project.specs.Subsetting.{SetsAreAtLeast};

use crate::leave_out::leave_out;
use crate::marks::{can_be_empty, marks_of_pairs, marks_of_sets};
use crate::pairing::{Product, is_truth, pair_up, pair_with_truth};
use crate::search::{SetsFound, find_sets};
use crate::signs::{Stage, closed_marks, sign_states};
use ms_dfa::{Automaton, State, Track};
use ms_dfa_explore::place_of;
use ms_list::{List, NoMemory, StepFault};
use ms_logic::{Mode, Quant};
use ms_product::Paired;
use ms_quotient::Marks;
use std::alloc::Global;

/// A projection whose sets have been found: the other tracks, the marks of the pairs, and the sets.
#[derive(Drop)]
pub(crate) struct Projection {
    pub(crate) tracks: List<Track>,
    pub(crate) marks: List<Marks>,
    pub(crate) found: SetsFound,
}

/// Finds the sets of states of the product of a body and a domain, where the track is left out.
fn search_behind(
    alloc: Global,
    product: Product<'_>,
    domain: &Automaton,
    track: Track,
    limit: u64,
) -> Result<Projection, StepFault>
    requires domain { IsDomainFor product.body.now domain.now }
    requires bound { IsAmong product.body.now.variables (variable_of track) }
    requires some { 1 ≤ limit }
    requires small { limit ≤ 4000000000 }
    requires paired { IsPairedIn product.store.now.nodes And (operands_for product.body.now domain.now) product.pairs product.start product.states }
    ensures tracks { IfOk result (λ p. variables_of p.tracks ≡ without track.variable product.entry.body.now.variables) }
    ensures projection { IfOk result (λ p. IsProjectionOf product.entry.body.now domain.now track.variable p.marks p.found.sets p.found.store p.found.start p.found.states) }
    ensures within { IfOk result (λ p. length p.found.store.nodes + length p.found.states ≤ limit) }
    ensures size { IfOk result (λ p. SetsAreAtLeast (length p.found.store.nodes + length p.found.states) (begun_behind product.entry.body.now track.variable product.entry.store.now product.entry.start product.entry.states)) }
    ensures nodes { OnRefused result (λ refused. (refused ≡ limit) × SetsAreAtLeast refused (begun_behind product.entry.body.now track.variable product.entry.store.now product.entry.start product.entry.states)) }
{
    let body = product.body;
    let rest = match leave_out(alloc, body.tracks(), track.variable) {
        Ok(rest) => rest,
        Err(_) => return Err(StepFault::Memory),
    };
    // The tracks tell that the domain is an automaton, and the length that the nodes are those of a store.
    let _ = domain.tracks();
    let _ = product.store.len();
    let place = place_of(body.tracks(), track.variable);
    let Ok(bound) = u32::try_from(place) else {
        return Err(StepFault::Memory);
    };
    let marks = match marks_of_pairs(alloc, body, domain, &product.pairs) {
        Ok(marks) => marks,
        Err(_) => return Err(StepFault::Memory),
    };
    let found = match find_sets(alloc, product, bound, rest.back, limit) {
        Ok(found) => found,
        Err(fault) => return Err(fault),
    };
    Ok(Projection {
        tracks: rest.tracks,
        marks,
        found,
    })
}

/// The same behind truth, whose product with a body is the body itself.
fn search_own(
    alloc: Global,
    body: &Automaton,
    domain: &Automaton,
    track: Track,
    limit: u64,
) -> Result<Projection, StepFault>
    requires domain { IsDomainFor body.now domain.now }
    requires bound { IsAmong body.now.variables (variable_of track) }
    requires truth { IsTruth domain.now }
    requires some { 1 ≤ limit }
    requires small { limit ≤ 4000000000 }
    ensures tracks { IfOk result (λ p. variables_of p.tracks ≡ without track.variable body.now.variables) }
    ensures projection { IfOk result (λ p. IsProjectionOf body.now domain.now track.variable p.marks p.found.sets p.found.store p.found.start p.found.states) }
    ensures within { IfOk result (λ p. length p.found.store.nodes + length p.found.states ≤ limit) }
    ensures size { IfOk result (λ p. SetsOfAnswerAreAtLeast (length p.found.store.nodes + length p.found.states) body.now domain.now track.variable) }
{
    let product = match pair_with_truth(alloc, body, domain) {
        Ok(product) => product,
        Err(_) => return Err(StepFault::Memory),
    };
    search_behind(alloc, product, domain, track, limit)
}

/// The same behind the pairs of states that are reached.
fn search_reached(
    alloc: Global,
    body: &Automaton,
    domain: &Automaton,
    track: Track,
    limit: u64,
) -> Result<Projection, StepFault>
    requires domain { IsDomainFor body.now domain.now }
    requires bound { IsAmong body.now.variables (variable_of track) }
    requires some { 1 ≤ limit }
    requires small { limit ≤ 4000000000 }
    ensures tracks { IfOk result (λ p. variables_of p.tracks ≡ without track.variable body.now.variables) }
    ensures projection { IfOk result (λ p. IsProjectionOf body.now domain.now track.variable p.marks p.found.sets p.found.store p.found.start p.found.states) }
    ensures within { IfOk result (λ p. length p.found.store.nodes + length p.found.states ≤ limit) }
    ensures size { IfOk result (λ p. SetsOfAnswerAreAtLeast (length p.found.store.nodes + length p.found.states) body.now domain.now track.variable) }
    ensures nodes { OnRefused result (λ refused. (refused ≡ limit) × ReachedNeedsAtLeast limit body.now domain.now track.variable) }
{
    let paired = match pair_up(alloc, body, domain, limit) {
        Ok(paired) => paired,
        Err(fault) => return Err(fault),
    };
    let Paired {
        store,
        start,
        states,
        pairs,
    } = paired;
    let product = Product {
        body,
        store: &store,
        start,
        states,
        pairs,
    };
    search_behind(alloc, product, domain, track, limit)
}

/// Finds the sets of pairs of states of a body and a domain, where the track is left out.
pub(crate) fn search(
    alloc: Global,
    body: &Automaton,
    domain: &Automaton,
    track: Track,
    limit: u64,
) -> Result<Projection, StepFault>
    requires domain { IsDomainFor body.now domain.now }
    requires bound { IsAmong body.now.variables (variable_of track) }
    requires some { 1 ≤ limit }
    requires small { limit ≤ 4000000000 }
    ensures tracks { IfOk result (λ p. variables_of p.tracks ≡ without track.variable body.now.variables) }
    ensures projection { IfOk result (λ p. IsProjectionOf body.now domain.now track.variable p.marks p.found.sets p.found.store p.found.start p.found.states) }
    ensures within { IfOk result (λ p. length p.found.store.nodes + length p.found.states ≤ limit) }
    ensures size { IfOk result (λ p. SetsOfAnswerAreAtLeast (length p.found.store.nodes + length p.found.states) body.now domain.now track.variable) }
    ensures nodes { OnRefused result (λ refused. (refused ≡ limit) × ReachedNeedsAtLeast limit body.now domain.now track.variable) }
{
    if is_truth(domain) {
        match search_own(alloc, body, domain, track, limit) {
            Ok(projection) => return Ok(projection),
            Err(StepFault::Memory) => return Err(StepFault::Memory),
            // States that nothing reaches may have taken the nodes.
            Err(StepFault::Nodes { .. }) => {}
        }
    }
    search_reached(alloc, body, domain, track, limit)
}

/// The states of all sets, with the signs that the marks of their members make.
pub(crate) fn sign_sets(
    alloc: Global,
    mode: Mode,
    quant: Quant,
    projection: &Projection,
) -> Result<List<State>, NoMemory>
    requires members { All (All (λ member. member < length projection.now.marks)) projection.now.found.sets }
    requires long { length projection.now.found.states ≡ length projection.now.found.sets }
    requires tested { TestBelow projection.now.found.store.nodes (length projection.now.tracks) projection.now.found.states }
    requires within { All (λ state. zero_step projection.now.found.store.nodes (length projection.now.tracks) state < length projection.now.found.states) projection.now.found.states }
    ensures { IfOk result (AreSignedSets mode quant (variables_of projection.now.tracks) projection.now.marks projection.now.found.sets projection.now.found.store.nodes projection.now.found.states) }
{
    let marks = marks_of_sets(alloc, projection.marks.slice(), &projection.found.sets)?;
    let stage = Stage {
        mode,
        store: &projection.found.store,
        states: projection.found.states.slice(),
        count: projection.tracks.len(),
    };
    let closed = closed_marks(alloc, &stage, marks)?;
    let empty = can_be_empty(mode, projection.tracks.slice());
    let states = projection.found.states.slice();
    sign_states(alloc, states, quant, empty, closed.slice())
}
