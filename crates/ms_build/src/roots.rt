ghost use Rattle.std.specs.Prelude.{◌≡◌, length, IfOk};
ghost use Rattle.ms_dfa.specs.Automaton.{variables_of};
ghost use Rattle.std.specs.List.Sorted.{IsStrictlyIncreasing};
ghost use Rattle.ms_dfa_explore.specs.Explored.{OnRefused};
ghost use Rattle.ms_build.specs.Built.{AreBuiltFor, IsLimit, IsThere, IsWithin, entries_of};
ghost use Rattle.ms_build.specs.Short.{ChildLacks};
ghost use Rattle.ms_logic_words.specs.Residual.{IsLeast};
ghost use Rattle.ms_build.specs.Roots.{AreRootVariables, IsOverRoot, IsReadInSource, named};

use crate::children::brought;
use crate::plan::Plan;
use crate::wider::over_tracks;
use ms_dag::Child;
use ms_dfa::{Automaton, Track};
use ms_list::{List, NoMemory, StepFault, push};

/// The tracks of variables of the source, each with its order.
fn root_tracks(plan: &Plan, variables: &[u32]) -> Result<List<Track>, NoMemory>
    ensures { IfOk result (λ made. variables_of made ≡ named plan.now.dag.now.orders variables.now) }
{
    let mut made = List::new(plan.alloc);
    for variable in variables {
        let track = Track {
            variable: *variable,
            order: plan.dag.order(*variable),
        };
        push(&mut made, track)?;
    }
    Ok(made)
}

/// The automaton of a root's formula, over the root's variables and with fewest states.
pub(crate) fn over_variables(
    plan: &Plan,
    built: &[Automaton],
    child: &Child,
    variables: &[u32],
) -> Result<Automaton, StepFault>
    requires limit { IsLimit plan.now.limit }
    requires built { AreBuiltFor plan.now built.now }
    requires there { IsThere plan.now (length built.now) child.now.node }
    requires read { IsReadInSource (entries_of plan.now) plan.now.dag.now.orders child.now }
    requires variables { AreRootVariables child.now variables.now }
    requires rising { IsStrictlyIncreasing child.now.map }
    ensures root { IfOk result (IsOverRoot plan.now child.now variables.now) }
    ensures least { IfOk result IsLeast }
    ensures within { IfOk result (IsWithin plan.now.limit) }
    ensures nodes { OnRefused result (λ refused. ChildLacks plan.now child.now (named plan.now.dag.now.orders variables.now)) }
{
    let Ok(part) = brought(plan, built, child) else {
        return Err(StepFault::Memory);
    };
    // The states tell that it is an automaton.
    let _ = part.states();
    let Ok(tracks) = root_tracks(plan, variables) else {
        return Err(StepFault::Memory);
    };
    over_tracks(plan, part, tracks.slice())
}
