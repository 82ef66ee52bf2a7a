ghost use Rattle.std.specs.Prelude.{◌≡◌, ◌<◌, ◌++◌, ◌∷◌, [], length, IfOk, IfSome, None};
ghost use Rattle.std.specs.List.Sorted.{IsStrictlyIncreasing};
ghost use Rattle.ms_build.specs.Built.{AreBuiltFor, IsLimit, IsOver, IsQuantifiedOf, IsReadAt, IsThere, IsWithin, entries_of};
ghost use Rattle.ms_build.specs.Short.{QuantifierLacks};
ghost use Rattle.ms_build.specs.inner.AtLeast.{LooksBelow, at_least, first};
ghost use Rattle.ms_dag.specs.declared.node.DagNode.TheVariants.{Basic as BasicNode};
ghost use Rattle.ms_dfa.specs.Automaton.{variable_of};
ghost use Rattle.ms_dfa_explore.specs.Explored.{OnRefused};
ghost use Rattle.ms_logic_core.specs.declared.core_formula.Basic.TheVariants.{Plus};

use crate::plan::Plan;
use crate::quantified::by_projection;
use ms_basic::basic;
use ms_dag::{Child, DagNode};
use ms_dfa::{Automaton, Track};
use ms_list::StepFault;
use ms_logic::{Order, Quant};
use ms_logic_core::Basic;
use ms_product::negate;
use ms_project::{Quantifier, project};

/// How much more the first variable is than the second, where the node says just that.
fn sum_of(node: &DagNode) -> Option<u64>
    ensures { IfSome result (λ n. node.now ≡ BasicNode (Plus 0 1 n)) }
{
    match node {
        DagNode::Basic(Basic::Plus(0, 1, n)) => Some(*n),
        _ => None,
    }
}

/// How much less than its one variable the number is that the quantifier looks for, where it looks for one by that alone.
fn looked_for(plan: &Plan, quantifier: Quantifier, body: &Child, orders: &[Order]) -> Option<u64>
    requires there { body.now.node < length (entries_of plan.now) }
    ensures { IfSome result (LooksBelow plan.now orders.now quantifier body.now) }
{
    match (
        quantifier.quant,
        quantifier.track.order,
        orders,
        body.map.slice(),
    ) {
        (Quant::Ex, Order::One, [Order::One], [0, 1]) => sum_of(&plan.dag.entry(body.node).node),
        _ => None,
    }
}

/// A number is at least `n`: some number is `n`, and the first is not below it.
fn at_least(plan: &Plan, n: u64) -> Result<Automaton, StepFault>
    requires limit { IsLimit plan.now.limit }
    ensures at_least { IfOk result (IsOver plan.now.mode (first ∷ []) (at_least n)) }
    ensures within { IfOk result (IsWithin plan.now.limit) }
{
    let below = basic(plan.alloc, &Basic::Less(0, 1), plan.mode, plan.limit)?;
    // The states tell that these are automata.
    let _ = below.states();
    let Ok(not_below) = negate(plan.alloc, &below) else {
        return Err(StepFault::Memory);
    };
    let _ = not_below.states();
    let number = basic(plan.alloc, &Basic::Number(1, n), plan.mode, plan.limit)?;
    let _ = number.states();
    let quantifier = Quantifier {
        quant: Quant::Ex,
        track: Track {
            variable: 1,
            order: Order::One,
        },
    };
    project(
        plan.alloc,
        &not_below,
        Some(&number),
        quantifier,
        plan.limit,
    )
}

/// A quantifier over all values of its variable. Where it looks for a number that is `n` less than another, the sets of its
/// projection would have up to `n` states each: one for each place at which the number may stand. That the other is at least `n`
/// says the same in sets of few states.
pub(crate) fn over_all(
    plan: &Plan,
    built: &[Automaton],
    quantifier: Quantifier,
    body: &Child,
    orders: &[Order],
) -> Result<Automaton, StepFault>
    requires limit { IsLimit plan.now.limit }
    requires built { AreBuiltFor plan.now built.now }
    requires there { IsThere plan.now (length built.now) body.now.node }
    requires bound { quantifier.track.variable ≡ length orders.now }
    requires read { IsReadAt (entries_of plan.now) (orders.now ++ quantifier.track.order ∷ []) body.now }
    requires rising { IsStrictlyIncreasing body.now.map }
    ensures quantified { IfOk result (IsQuantifiedOf plan.now orders.now quantifier None body.now) }
    ensures within { IfOk result (IsWithin plan.now.limit) }
    ensures nodes { OnRefused result (λ refused. QuantifierLacks plan.now orders.now (variable_of quantifier.track) None body.now) }
{
    let Some(n) = looked_for(plan, quantifier, body, orders) else {
        return by_projection(plan, built, quantifier, body, orders);
    };
    match at_least(plan, n) {
        Ok(made) => Ok(made),
        Err(StepFault::Memory) => Err(StepFault::Memory),
        // What is told of a lack of nodes is that of the projection.
        Err(StepFault::Nodes { .. }) => by_projection(plan, built, quantifier, body, orders),
    }
}
