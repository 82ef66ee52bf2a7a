ghost use Rattle.std.specs.Prelude.{◌≡◌, ◌≤◌, ◌+◌, ◌∷◌, ◌++◌, [], length, OnOk};
ghost use Rattle.ms_diagram.specs.Growth.{OnNodes};
ghost use Rattle.ms_dfa.specs.declared.state.State.{State};
ghost use Rattle.ms_dfa_explore.specs.Explored.{Explores, OnRefused};

use crate::machine::Machine;
use ms_arena::Ref;
use ms_dfa::State;
use ms_diagram::Store;
use ms_list::{List, StepFault, push};

/// One state more, where the states and nodes stay within the limit.
pub(crate) fn add_state(
    nodes: u64,
    limit: u64,
    states: &mut List<State>,
    state: State,
) -> Result<(), StepFault>
    requires { nodes ≤ limit }
    ensures added { OnOk result (states.new ≡ states.old ++ state ∷ []) }
    ensures within { OnOk result (nodes + length states.new ≤ limit) }
    ensures full { OnRefused result (λ refused. (refused ≡ limit) × (limit ≤ nodes + length states.old)) }
{
    if states.len() as u64 >= limit - nodes {
        return Err(StepFault::Nodes { limit });
    }
    match push(states, state) {
        Ok(()) => Ok(()),
        Err(_) => Err(StepFault::Memory),
    }
}

/// The states that a machine reaches, in the order of their numbers, and the reference from which truth values lead to
/// them. Nodes and states are together at most the limit of the store. What is added to the store is needed for
/// the start or for a state, also where the work is given up.
pub fn explore<M: Machine>(
    machine: &mut M,
    store: &mut Store,
    states: &mut List<State>,
) -> Result<Ref, StepFault>
    requires empty { states.old ≡ [] }
    requires ready { M.IsReady machine.old store.old.nodes }
    ensures later { M.IsLater machine.old machine.new }
    ensures explored { Explores store.old store.new (M.findings machine.new) states.new result }
{
    // The length tells that the nodes are those of a store.
    let _ = store.len();
    let start = machine.start(store)?;
    let mut state = 0;
    while state < machine.count() {
        let next = match machine.next(store, state) {
            Ok(next) => next,
            Err(fault) => return Err(fault),
        };
        let sign = machine.sign(state);
        let nodes = store.len();
        match add_state(nodes, store.limit(), states, State { sign, next }) {
            Ok(()) => state += 1,
            Err(fault) => return Err(fault),
        }
    }
    Ok(start)
}
