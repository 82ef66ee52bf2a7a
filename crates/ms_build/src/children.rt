ghost use Rattle.std.specs.Prelude.{◌≡◌, length, IfOk};
ghost use Rattle.std.specs.List.Sorted.{IsStrictlyIncreasing};
ghost use Rattle.ms_logic_words.specs.Residual.{HaveEqualSigns, IsLeast};
ghost use Rattle.ms_build.specs.Built.{AreBuiltFor, HasOnly, IsBrought, IsLimit, IsReadSomewhere, IsThere, IsWithin};
ghost use Rattle.ms_build.specs.Short.{IsOperand};

use crate::plan::Plan;
use ms_dag::Child;
use ms_dfa::Automaton;
use ms_list::{NoMemory, StepFault};
use ms_minim::minimise;
use ms_rename::rename;

/// The automaton with fewest states that gives each word the same sign. One within the limit is refused for want of memory alone.
pub(crate) fn least(plan: &Plan, made: &Automaton) -> Result<Automaton, NoMemory>
    requires limit { IsLimit plan.now.limit }
    requires within { IsWithin plan.now.limit made.now }
    ensures mode { IfOk result (λ least. least.mode ≡ made.now.mode) }
    ensures variables { IfOk result (λ least. least.variables ≡ made.now.variables) }
    ensures signs { IfOk result (HaveEqualSigns made.now) }
    ensures least { IfOk result IsLeast }
    ensures within { IfOk result (IsWithin plan.now.limit) }
{
    match minimise(plan.alloc, made, plan.limit) {
        Ok(least) => Ok(least),
        Err(StepFault::Memory) => Err(NoMemory),
        // An automaton within the limit has one with fewest states within it.
        Err(StepFault::Nodes { .. }) => unreachable!(),
    }
}

/// The automaton of a child, over the variables of the node above it that the child has. Since these rise, it has the states and
/// the nodes of that of the child's node, and fewest states as that has.
pub(crate) fn brought(
    plan: &Plan,
    built: &[Automaton],
    child: &Child,
) -> Result<Automaton, NoMemory>
    requires limit { IsLimit plan.now.limit }
    requires built { AreBuiltFor plan.now built.now }
    requires there { IsThere plan.now (length built.now) child.now.node }
    requires read { IsReadSomewhere plan.now child.now }
    requires rising { IsStrictlyIncreasing child.now.map }
    ensures part { IfOk result (IsBrought plan.now child.now) }
    ensures only { IfOk result (HasOnly child.now.map) }
    ensures operand { IfOk result (IsOperand plan.now child.now) }
    ensures least { IfOk result IsLeast }
    ensures within { IfOk result (IsWithin plan.now.limit) }
{
    let automaton = &built[child.node as usize];
    // The states tell that these are automata.
    let _ = automaton.states();
    match rename(plan.alloc, automaton, child.map.slice(), plan.limit) {
        Ok(made) => {
            let _ = made.states();
            Ok(made)
        }
        Err(StepFault::Memory) => Err(NoMemory),
        // Where the variables rise, the automaton stays as it is but for their numbers.
        Err(StepFault::Nodes { .. }) => unreachable!(),
    }
}
