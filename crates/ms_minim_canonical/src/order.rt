ghost use Rattle.std.specs.Prelude.{◌≡◌, ◌<◌, ℕ, [], length, fold, slice_get, Some, IfOk};
ghost use Rattle.ms_dfa.specs.declared.state.State.{State};
ghost use Rattle.ms_diagram.specs.Leaves.{noted};
ghost use Rattle.ms_minim_canonical.specs.inner.Renumbering.{LeadsBelow, leaves_from, nodes_from, walk_over};

use crate::walk::{Sights, walk};
use indexmap::IndexSet;
use ms_arena::Ref;
use ms_dfa::State;
use ms_diagram::Store;
use ms_list::NoMemory;
use std::alloc::Global;

/// What a walk sees from the start and then from each state, where the states go by first sight.
pub(crate) fn sights(
    alloc: Global,
    store: &Store,
    start: Ref,
    states: &[State],
) -> Result<Sights, NoMemory>
    requires start { LeadsBelow store.now.nodes (length states.now) start }
    requires next { (place : ℕ) (state : State) → slice_get states.now place ≡ Some state → LeadsBelow store.now.nodes (length states.now) state.next }
    ensures states { IfOk result (λ made. made.states.keys ≡ fold noted [] (walk_over (leaves_from store.now.nodes) start states.now made.states.keys)) }
    ensures places { IfOk result (λ made. made.places.keys ≡ fold noted [] (walk_over (nodes_from store.now.nodes) start states.now made.states.keys)) }
    ensures below { IfOk result (λ made. (at state : ℕ) → slice_get made.states.keys at ≡ Some state → state < length states.now) }
{
    // The length tells that it is a store.
    let _ = store.len();
    let mut seen = Sights {
        states: IndexSet::new(alloc),
        places: IndexSet::new(alloc),
    };
    walk(store, start, &mut seen)?;
    let mut done = 0;
    while done < seen.states.len() {
        let state = seen.states.as_slice()[done];
        walk(store, states[state as usize].next, &mut seen)?;
        done += 1;
    }
    Ok(seen)
}
