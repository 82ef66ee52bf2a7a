ghost use Rattle.std.specs.Prelude.{◌≡◌, ◌++◌, ◌∷◌, [], length, IfOk};
ghost use Rattle.ms_dfa.specs.Automaton.{variables_of};
ghost use Rattle.ms_logic_words.specs.Content.{variables_by_place};
ghost use Rattle.std.specs.List.Sorted.{IsStrictlyIncreasing};
ghost use Rattle.ms_dfa_explore.specs.Explored.{OnRefused};
ghost use Rattle.ms_build.specs.Built.{AreBuiltFor, IsBodyOf, IsLimit, IsReadAt, IsThere, entries_of};
ghost use Rattle.ms_build.specs.Short.{ChildLacks, IsLeastBody};

use crate::children::brought;
use crate::plan::Plan;
use crate::wider::over_tracks;
use ms_dag::Child;
use ms_dfa::{Automaton, Track};
use ms_list::{List, NoMemory, StepFault, push};
use ms_logic::Order;
use std::alloc::Global;

/// The tracks of variables of these orders, each by its place, and that of the bound one behind them.
fn body_tracks(alloc: Global, orders: &[Order], bound: Track) -> Result<List<Track>, NoMemory>
    requires { bound.variable ≡ length orders.now }
    ensures { IfOk result (λ made. variables_of made ≡ variables_by_place (orders.now ++ bound.order ∷ [])) }
{
    let mut made = List::new(alloc);
    for variable in 0..bound.variable {
        let order = orders[variable as usize];
        push(&mut made, Track { variable, order })?;
    }
    push(&mut made, bound)?;
    Ok(made)
}

/// The body of a quantifier, over the variables of the node above it, which have these orders, and the bound one.
pub(crate) fn whole_body(
    plan: &Plan,
    built: &[Automaton],
    body: &Child,
    orders: &[Order],
    bound: Track,
) -> Result<Automaton, StepFault>
    requires limit { IsLimit plan.now.limit }
    requires built { AreBuiltFor plan.now built.now }
    requires there { IsThere plan.now (length built.now) body.now.node }
    requires bound { bound.variable ≡ length orders.now }
    requires read { IsReadAt (entries_of plan.now) (orders.now ++ bound.order ∷ []) body.now }
    requires rising { IsStrictlyIncreasing body.now.map }
    ensures body { IfOk result (IsBodyOf plan.now (orders.now ++ bound.order ∷ []) body.now) }
    ensures least { IfOk result (IsLeastBody plan.now body.now) }
    ensures nodes { OnRefused result (λ refused. ChildLacks plan.now body.now (variables_by_place (orders.now ++ bound.order ∷ []))) }
{
    let Ok(part) = brought(plan, built, body) else {
        return Err(StepFault::Memory);
    };
    // The states tell that it is an automaton.
    let _ = part.states();
    let Ok(tracks) = body_tracks(plan.alloc, orders, bound) else {
        return Err(StepFault::Memory);
    };
    over_tracks(plan, part, tracks.slice())
}
