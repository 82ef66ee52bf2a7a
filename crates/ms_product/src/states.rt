ghost use Rattle.std.specs.Prelude.{◌≡◌, IfOk};
ghost use Rattle.ms_dfa.specs.Automaton.{states_of};

use ms_dfa::{Automaton, State};
use ms_list::{List, NoMemory, push};
use std::alloc::Global;

/// The states of an automaton.
pub fn same_states(alloc: Global, a: &Automaton) -> Result<List<State>, NoMemory>
    ensures { IfOk result (λ made. states_of made ≡ a.now.states) }
{
    let mut made = List::new(alloc);
    for state in 0..a.states() {
        let sign = a.sign(state);
        let next = a.next_ref(state);
        push(&mut made, State { sign, next })?;
    }
    Ok(made)
}
