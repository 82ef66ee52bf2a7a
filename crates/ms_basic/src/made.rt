ghost use Rattle.std.specs.Prelude.{◌≡◌, ◌≤◌, length, take};
ghost use Rattle.ms_dfa_explore.specs.Tracks.{distinct};
ghost use Rattle.ms_basic.specs.Operands.{HaveOneOrder};
ghost use Rattle.ms_logic_core.specs.Operands.{variables_of_basic};
ghost use Rattle.ms_basic.specs.inner.Apart.{HasStatesApartOver};
ghost use Rattle.ms_basic.specs.inner.Reached.{HasStatesReachedOver};
ghost use Rattle.ms_basic.specs.inner.Relation.{DecidesRelation, IsMade};

use crate::operands::operands;
use crate::reading::{Wired, wiring_of};
use crate::setting::Setting;
use ms_dfa::Automaton;
use ms_dfa_explore::{SmallMachine, distinct, from_machine};
use ms_list::StepFault;
use ms_logic_core::Basic;
use std::alloc::Global;

/// The automaton of a relation that the machine decides over its first so many operands.
pub(crate) fn made<M: SmallMachine + Drop>(
    alloc: Global,
    machine: M,
    form: Basic,
    count: usize,
    setting: Setting,
) -> Result<Automaton, StepFault>
    requires count { count ≤ length (variables_of_basic form) }
    requires orders { HaveOneOrder (variables_of_basic form) }
    requires variables { distinct (take count (variables_of_basic form)) ≡ distinct (variables_of_basic form) }
    requires decides { DecidesRelation setting.mode (take count (variables_of_basic form)) form (M.table machine) }
    requires apart { HasStatesApartOver (take count (variables_of_basic form)) (M.table machine) }
    requires reached { HasStatesReachedOver (take count (variables_of_basic form)) (M.table machine) }
    ensures { IsMade setting.mode form setting.limit (M.table machine).states result }
{
    let Ok(all) = operands(alloc, form) else {
        return Err(StepFault::Memory);
    };
    let operands = &all.slice()[..count];
    let Ok(tracks) = distinct(alloc, operands) else {
        return Err(StepFault::Memory);
    };
    let wiring = wiring_of(operands, tracks.slice());
    from_machine(
        alloc,
        Wired { machine, wiring },
        setting.mode,
        tracks,
        setting.limit,
    )
}
