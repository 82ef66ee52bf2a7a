ghost use Rattle.std.specs.Prelude.{◌≤◌, ◌+◌, length};
ghost use Rattle.ms_diagram.specs.Growth.{Builds};
ghost use Rattle.ms_logic.specs.FiniteSet.{IsRising};
ghost use Rattle.ms_dfa_explore.specs.Small.{IsState, Tabulated, lead_by, most_nodes};

use crate::small::{SmallMachine, TrackBits, lead};
use ms_arena::Ref;
use ms_diagram::Store;
use ms_list::StepFault;

/// The diagram that leads where a machine does from an origin, by the bits of these tracks and those that are given.
pub(crate) fn diagram<M: SmallMachine>(
    store: &mut Store,
    machine: &M,
    origin: Option<u32>,
    tracks: &[u32],
    given: TrackBits,
) -> Result<Ref, StepFault>
    requires origin { IsState (M.table machine.now).states origin }
    requires rising { IsRising tracks.now }
    ensures builds { Builds store.old store.new (Tabulated (lead_by (M.table machine.now).start (M.table machine.now).step origin) tracks.now given) ⊥ result }
    ensures few { length store.new.nodes ≤ length store.old.nodes + most_nodes tracks.now }
{
    // The length tells that the nodes are those of a store.
    let _ = store.len();
    if tracks.is_empty() {
        let number = lead(machine, origin, given);
        return Ok(store.leaf(number));
    }
    let track = tracks[0];
    let more = &tracks[1..];
    let low = match diagram(store, machine, origin, more, given.with(track, false)) {
        Ok(low) => low,
        Err(fault) => return Err(fault),
    };
    let high = match diagram(store, machine, origin, more, given.with(track, true)) {
        Ok(high) => high,
        Err(fault) => return Err(fault),
    };
    store.mk(track, low, high)
}
