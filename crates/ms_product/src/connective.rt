ghost use Rattle.std.specs.Prelude.{◌≡◌, ◌≤◌, ◌+◌, length, IfOk};
ghost use Rattle.ms_dfa_explore.specs.Explored.{OnRefused};
ghost use Rattle.ms_dfa_explore.specs.Tracks.{merged};
ghost use Rattle.ms_dfa.specs.Values.{HasValues, own_meaning};
ghost use Rattle.ms_product.specs.Combined.{HaveEqualOrders, combined};
ghost use Rattle.ms_product.specs.Pairing.{AreAtLeast, ReachedAreAtLeast, operands_of};

use crate::op::Op;
use crate::operand::over_tracks;
use crate::pairing::{Paired, pair_up};
use ms_dfa::Automaton;
use ms_dfa_explore::merge;
use ms_list::StepFault;
use std::alloc::Global;

/// The connective of two automata over the tracks of both: at each assignment the sign that the strict connective gives the
/// signs of both. Nodes and states are together at most `limit`.
pub fn combine(
    alloc: Global,
    a: &Automaton,
    b: &Automaton,
    op: Op,
    limit: u64,
) -> Result<Automaton, StepFault>
    requires mode { a.now.mode ≡ b.now.mode }
    requires orders { HaveEqualOrders a.now.variables b.now.variables }
    requires some { 1 ≤ limit }
    requires small { limit ≤ 4000000000 }
    ensures mode { IfOk result (λ made. made.mode ≡ a.now.mode) }
    ensures variables { IfOk result (λ made. made.variables ≡ merged a.now.variables b.now.variables) }
    ensures values { IfOk result (HasValues (combined op (own_meaning a.now) (own_meaning b.now))) }
    ensures size { IfOk result (λ made. AreAtLeast (length made.nodes + length made.states) op (operands_of a.now b.now)) }
    ensures reached_size { IfOk result (λ made. ReachedAreAtLeast (length made.nodes + length made.states) op (operands_of a.now b.now)) }
    ensures within { IfOk result (λ made. length made.nodes + length made.states ≤ limit) }
    ensures nodes { OnRefused result (λ refused. (refused ≡ limit) × AreAtLeast limit op (operands_of a.now b.now)) }
    ensures reached_nodes { OnRefused result (λ refused. ReachedAreAtLeast limit op (operands_of a.now b.now)) }
{
    let Ok(tracks) = merge(alloc, a.tracks(), b.tracks()) else {
        return Err(StepFault::Memory);
    };
    let Ok(left) = over_tracks(alloc, a, tracks.slice()) else {
        return Err(StepFault::Memory);
    };
    let Ok(right) = over_tracks(alloc, b, tracks.slice()) else {
        return Err(StepFault::Memory);
    };
    let paired = match pair_up(alloc, op, left, right, limit) {
        Ok(paired) => paired,
        Err(fault) => return Err(fault),
    };
    let Paired {
        store,
        start,
        states,
        pairs: _,
    } = paired;
    Ok(Automaton::make(store, a.mode(), tracks, start, states))
}
