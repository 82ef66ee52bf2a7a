ghost use Rattle.std.specs.Prelude.{◌≡◌, ◌++◌, ◌∷◌, [], length, IfOk, Some, None};
ghost use Rattle.ms_dfa.specs.Automaton.{variable_of};
ghost use Rattle.std.specs.List.Sorted.{IsStrictlyIncreasing};
ghost use Rattle.ms_dfa_explore.specs.Explored.{OnRefused};
ghost use Rattle.ms_build.specs.Built.{AreBuiltFor, IsLimit, IsQuantifiedOf, IsReadAt, IsThere, IsWithin, entries_of};
ghost use Rattle.ms_build.specs.Short.{QuantifierLacks};

use crate::bodies::whole_body;
use crate::children::brought;
use crate::plan::Plan;
use crate::range::project_within;
use ms_dag::Child;
use ms_dfa::Automaton;
use ms_list::StepFault;
use ms_logic::Order;
use ms_project::{Quantifier, project};

/// A quantifier over all values of its variable, by the sets of states to which they lead.
pub(crate) fn by_projection(
    plan: &Plan,
    built: &[Automaton],
    quantifier: Quantifier,
    body: &Child,
    orders: &[Order],
) -> Result<Automaton, StepFault>
    requires limit { IsLimit plan.now.limit }
    requires built { AreBuiltFor plan.now built.now }
    requires there { IsThere plan.now (length built.now) body.now.node }
    requires bound { quantifier.track.variable ≡ length orders.now }
    requires read { IsReadAt (entries_of plan.now) (orders.now ++ quantifier.track.order ∷ []) body.now }
    requires rising { IsStrictlyIncreasing body.now.map }
    ensures quantified { IfOk result (IsQuantifiedOf plan.now orders.now quantifier None body.now) }
    ensures within { IfOk result (IsWithin plan.now.limit) }
    ensures nodes { OnRefused result (λ refused. QuantifierLacks plan.now orders.now (variable_of quantifier.track) None body.now) }
{
    let whole = whole_body(plan, built, body, orders, quantifier.track)?;
    // The states tell that it is an automaton.
    let _ = whole.states();
    project(plan.alloc, &whole, None, quantifier, plan.limit)
}

/// A child that restricts a quantifier, and the body.
#[derive(Clone, Copy)]
pub(crate) struct Scope<'a> {
    pub domain: &'a Child,
    pub body: &'a Child,
}

/// A quantifier over the values at which its restriction is met.
pub(crate) fn within(
    plan: &Plan,
    built: &[Automaton],
    quantifier: Quantifier,
    scope: Scope,
    orders: &[Order],
) -> Result<Automaton, StepFault>
    requires limit { IsLimit plan.now.limit }
    requires built { AreBuiltFor plan.now built.now }
    requires there { IsThere plan.now (length built.now) scope.body.now.node }
    requires domain_there { IsThere plan.now (length built.now) scope.domain.now.node }
    requires bound { quantifier.track.variable ≡ length orders.now }
    requires read { IsReadAt (entries_of plan.now) (orders.now ++ quantifier.track.order ∷ []) scope.body.now }
    requires domain_read { IsReadAt (entries_of plan.now) (orders.now ++ quantifier.track.order ∷ []) scope.domain.now }
    requires rising { IsStrictlyIncreasing scope.body.now.map }
    requires domain_rises { IsStrictlyIncreasing scope.domain.now.map }
    ensures quantified { IfOk result (IsQuantifiedOf plan.now orders.now quantifier (Some scope.entry.domain.now) scope.entry.body.now) }
    ensures within { IfOk result (IsWithin plan.now.limit) }
    ensures nodes { OnRefused result (λ refused. QuantifierLacks plan.now orders.now (variable_of quantifier.track) (Some scope.entry.domain.now) scope.entry.body.now) }
{
    let whole = whole_body(plan, built, scope.body, orders, quantifier.track)?;
    let Ok(domain) = brought(plan, built, scope.domain) else {
        return Err(StepFault::Memory);
    };
    // The states tell that these are automata.
    let _ = whole.states();
    let _ = domain.states();
    project_within(plan, &whole, &domain, quantifier)
}
