ghost use Rattle.std.specs.Prelude.{◌≡◌, ◌+◌, ◌≤◌, [], length, IfOk, if◌then◌else◌};
ghost use Rattle.ms_logic_core.specs.CoreForm.{falsity, truth};
ghost use Rattle.ms_dfa.specs.Values.{HasValues, core_meaning};

use crate::repeated::ConstantMachine;
use ms_dfa::Automaton;
use ms_dfa_explore::from_machine;
use ms_list::{List, NoMemory, StepFault};
use ms_logic::Mode;
use std::alloc::Global;

/// The automaton of `true` or of `false`, over no variable. Its one state is within the limit that is asked for.
pub fn constant(alloc: Global, holds: bool, mode: Mode) -> Result<Automaton, NoMemory>
    ensures mode { IfOk result (λ made. made.mode ≡ mode) }
    ensures variables { IfOk result (λ made. made.variables ≡ []) }
    ensures few { IfOk result (λ made. length made.nodes + length made.states ≤ 16) }
    ensures values { IfOk result (λ made. HasValues (core_meaning [] (if holds then truth else falsity)) made) }
{
    match from_machine(alloc, ConstantMachine { holds }, mode, List::new(alloc), 16) {
        Ok(made) => Ok(made),
        Err(StepFault::Memory) => Err(NoMemory),
        Err(StepFault::Nodes { .. }) => unreachable!(),
    }
}
