ghost use Rattle.std.specs.Prelude.{◌≡◌, ◌≤◌, ◌<◌, ◌+◌, length, IfOk};
ghost use Rattle.ms_dfa_explore.specs.Explored.{OnRefused};
ghost use Rattle.ms_minim.specs.Needed.{NeedsAtLeast};
ghost use Rattle.ms_logic_words.specs.Residual.{AreReached, HasFewestStates, HaveDifferentResiduals, HaveEqualSigns};

use crate::reading::SignReading;
use crate::reduction::reduce;
use ms_dfa::{Automaton, copy_tracks};
use ms_list::StepFault;
use std::alloc::Global;

/// The automaton of fewest states among those that give each word over its tracks the same sign. Nodes and states are
/// together at most `limit`.
pub fn minimise(alloc: Global, a: &Automaton, limit: u64) -> Result<Automaton, StepFault>
    requires some { 1 ≤ limit }
    requires small { limit ≤ 4000000000 }
    ensures mode { IfOk result (λ made. made.mode ≡ a.now.mode) }
    ensures variables { IfOk result (λ made. made.variables ≡ a.now.variables) }
    ensures signs { IfOk result (HaveEqualSigns a.now) }
    ensures fewest { IfOk result HasFewestStates }
    ensures reached { IfOk result AreReached }
    ensures differ { IfOk result HaveDifferentResiduals }
    ensures within { IfOk result (λ made. length made.nodes + length made.states ≤ limit) }
    ensures no_more_nodes { IfOk result (λ made. length made.nodes ≤ length a.now.nodes) }
    ensures nodes { OnRefused result (λ refused. (refused ≡ limit) × (limit < length a.now.nodes + length a.now.states)) }
    ensures needs { OnRefused result (λ refused. NeedsAtLeast limit a.now) }
{
    let tracks = match copy_tracks(alloc, a.tracks()) {
        Ok(tracks) => tracks,
        Err(_) => return Err(StepFault::Memory),
    };
    let made = match reduce(alloc, a, SignReading::AsTheyAre, limit) {
        Ok(made) => made,
        Err(fault) => return Err(fault),
    };
    Ok(Automaton::make(made.store, a.mode(), tracks, made.start, made.states))
}
