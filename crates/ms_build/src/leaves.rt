ghost use Rattle.std.specs.Prelude.{◌≡◌, ◌<◌, ◌+◌, ◌*◌, [], IfOk, if◌then◌else◌};
ghost use Rattle.ms_basic.specs.Operands.{HaveOneOrder};
ghost use Rattle.ms_logic_core.specs.Operands.{variables_of_basic};
ghost use Rattle.ms_dfa_explore.specs.Tracks.{distinct};
ghost use Rattle.ms_dfa.specs.Values.{meaning_by};
ghost use Rattle.ms_dfa.specs.Automaton.{IsAutomaton};
ghost use Rattle.ms_logic_words.specs.Residual.{IsLeast};
ghost use Rattle.ms_build.specs.Built.{IsImportOf, IsLimit, IsOver, IsPart, IsWithin, import_meaning, imports_for, relation_meaning};
ghost use Rattle.ms_basic.specs.States.{states_of};
ghost use Rattle.ms_dfa_explore.specs.Explored.{OnRefused};
ghost use Rattle.ms_build.specs.Short.{ImportLacks};
ghost use Rattle.ms_rename.specs.Renamed.{Rises};

use crate::plan::Plan;
use ms_basic::{basic, constant};
use ms_dfa::Automaton;
use ms_list::{List, StepFault};
use ms_logic::Order;
use ms_logic_core::Basic;
use ms_minim::minimise;
use ms_rename::rename;

/// What always holds.
pub(crate) fn truth(plan: &Plan) -> Result<Automaton, StepFault>
    ensures few { IfOk result (IsWithin 16) }
    ensures nodes { OnRefused result (λ refused. ⊥) }
    ensures truth { IfOk result (IsOver plan.now.mode [] (meaning_by (λ e. Unit {0}) (λ e. ⊥))) }
{
    match constant(plan.alloc, true, plan.mode) {
        Ok(made) => Ok(made),
        Err(_) => Err(StepFault::Memory),
    }
}

/// What never holds.
pub(crate) fn falsity(plan: &Plan) -> Result<Automaton, StepFault>
    ensures few { IfOk result (IsWithin 16) }
    ensures nodes { OnRefused result (λ refused. ⊥) }
    ensures falsity { IfOk result (IsOver plan.now.mode [] (meaning_by (λ e. ⊥) (λ e. Unit {0}))) }
{
    match constant(plan.alloc, false, plan.mode) {
        Ok(made) => Ok(made),
        Err(_) => Err(StepFault::Memory),
    }
}

/// A basic relation. Its automaton has fewest states as it is made.
pub(crate) fn relation(plan: &Plan, form: &Basic) -> Result<Automaton, StepFault>
    requires limit { IsLimit plan.now.limit }
    requires orders { HaveOneOrder (variables_of_basic form.now) }
    ensures relation { IfOk result (IsOver plan.now.mode (distinct (variables_of_basic form.now)) (relation_meaning form.now)) }
    ensures automaton { IfOk result IsAutomaton }
    ensures least { IfOk result IsLeast }
    ensures within { IfOk result (IsWithin plan.now.limit) }
    ensures nodes { OnRefused result (λ refused. plan.now.limit < 8 * (states_of form.now + 1)) }
{
    let made = basic(plan.alloc, form, plan.mode, plan.limit)?;
    // The states tell that it is an automaton.
    let _ = made.states();
    Ok(made)
}

/// An import, at these variables. Its automaton has fewest states before it is renamed, so that what a renaming makes of it is
/// fixed by what it answers. Where the variables rise, it has fewest as it is made.
pub(crate) fn imported(
    plan: &Plan,
    orders: &[Order],
    number: u32,
    variables: &List<u32>,
) -> Result<Automaton, StepFault>
    requires limit { IsLimit plan.now.limit }
    requires import { IsImportOf plan.now.imports.now plan.now.mode orders.now number variables.now }
    ensures import { IfOk result (IsPart plan.now.mode orders.now variables.now (import_meaning (imports_for plan.now) number variables.now)) }
    ensures automaton { IfOk result IsAutomaton }
    ensures least { Rises variables.now → IfOk result IsLeast }
    ensures within { IfOk result (IsWithin plan.now.limit) }
    ensures nodes { OnRefused result (λ refused. ImportLacks plan.now number variables.now) }
{
    let automaton = plan.imports.get(number as usize);
    // The states tell that these are automata.
    let _ = automaton.states();
    let few = minimise(plan.alloc, automaton, plan.limit)?;
    let _ = few.states();
    let made = rename(plan.alloc, &few, variables.slice(), plan.limit)?;
    let _ = made.states();
    Ok(made)
}
