ghost use Rattle.std.specs.Prelude.{◌≡◌, ◌<◌, ◌≤◌, ◌⊎◌, length, slice_get, Some, IfOk};
ghost use Rattle.ms_dag.specs.Dag.{AreNodes, IsNode};
ghost use Rattle.ms_build.specs.Built.{AreBuiltFor, AreImportsOf, IsBuiltAt, IsImported, IsLimit, IsMadeOf, IsQuantifiedOf, IsBinderOf, IsWithin, entries_of};
ghost use Rattle.ms_build.specs.Short.{FormLacks, NodeLacks, QuantifierLacks};
ghost use Rattle.ms_dfa.specs.Automaton.{variable_of};
ghost use Rattle.ms_dfa_explore.specs.Explored.{OnRefused};

use crate::at_least::over_all;
use crate::connectives::{many, negation, pair, restriction};
use crate::leaves::{falsity, imported, relation, truth};
use crate::plan::{Many, Plan};
use crate::quantified::{Scope, within};
use ms_dag::{Child, DagNode, Entry};
use ms_dfa::{Automaton, Track};
use ms_list::StepFault;
use ms_logic::Order;
use ms_minim::minimise;
use ms_product::Op;
use ms_project::Quantifier;
use ms_rename::rises;

/// A quantifier with its restriction and its body.
#[derive(Clone, Copy)]
pub(crate) struct Binder<'a> {
    pub quantifier: Quantifier,
    pub domain: &'a Option<Child>,
    pub body: &'a Child,
}

fn quantified(
    plan: &Plan,
    built: &[Automaton],
    binder: Binder,
    orders: &[Order],
) -> Result<Automaton, StepFault>
    requires limit { IsLimit plan.now.limit }
    requires built { AreBuiltFor plan.now built.now }
    requires binder { IsBinderOf plan.now orders.now (length built.now) binder }
    ensures quantified { IfOk result (IsQuantifiedOf plan.now orders.now binder.entry.quantifier binder.entry.domain.now binder.entry.body.now) }
    ensures within { IfOk result (IsWithin plan.now.limit) }
    ensures nodes { OnRefused result (λ refused. QuantifierLacks plan.now orders.now (variable_of binder.entry.quantifier.track) binder.entry.domain.now binder.entry.body.now) }
{
    match binder.domain {
        None => over_all(plan, built, binder.quantifier, binder.body, orders),
        Some(domain) => {
            let scope = Scope {
                domain,
                body: binder.body,
            };
            within(plan, built, binder.quantifier, scope, orders)
        }
    }
}

/// The automaton of a node, by its form.
fn of_form(plan: &Plan, built: &[Automaton], entry: &Entry) -> Result<Automaton, StepFault>
    requires limit { IsLimit plan.now.limit }
    requires built { AreBuiltFor plan.now built.now }
    requires held { slice_get (entries_of plan.now) (length built.now) ≡ Some entry.now }
    requires node { IsNode (entries_of plan.now) (length built.now) entry.now }
    requires imports { IsImported plan.now entry.now }
    ensures made { IfOk result (IsMadeOf plan.now entry.now entry.now.node) }
    ensures within { IfOk result (λ made. IsWithin plan.now.limit made ⊎ IsWithin 16 made) }
    ensures nodes { OnRefused result (λ refused. FormLacks plan.now entry.now.orders entry.now.node) }
{
    let orders = entry.orders.slice();
    match &entry.node {
        DagNode::True => truth(plan),
        DagNode::False => falsity(plan),
        DagNode::Basic(form) => relation(plan, form),
        DagNode::Not(child) => negation(plan, built, child),
        DagNode::And(children) => many(plan, built, children, Many::All),
        DagNode::Or(children) => many(plan, built, children, Many::Any),
        DagNode::Implies(left, right) => pair(plan, built, left, right, Op::Implies),
        DagNode::Iff(left, right) => pair(plan, built, left, right, Op::Iff),
        DagNode::Restrict(child) => restriction(plan, built, child),
        DagNode::Import(number, variables) => imported(plan, orders, *number, variables),
        DagNode::Bind(quant, order, variable, domain, body) => {
            let track = Track {
                variable: *variable,
                order: *order,
            };
            let quantifier = Quantifier {
                quant: *quant,
                track,
            };
            let binder = Binder {
                quantifier,
                domain,
                body,
            };
            quantified(plan, built, binder, orders)
        }
    }
}

/// The automaton of the next node, with fewest states. That of a relation has fewest as it is made, and so has that of an import
/// at variables that rise.
pub(crate) fn node(plan: &Plan, built: &[Automaton]) -> Result<Automaton, StepFault>
    requires limit { IsLimit plan.now.limit }
    requires nodes { AreNodes (entries_of plan.now) }
    requires imports { AreImportsOf plan.now.imports.now plan.now.mode (entries_of plan.now) }
    requires built { AreBuiltFor plan.now built.now }
    requires next { length built.now < length (entries_of plan.now) }
    requires few { length (entries_of plan.now) ≤ 4294967295 }
    ensures built { IfOk result (IsBuiltAt plan.now (length built.now)) }
    ensures nodes { OnRefused result (λ refused. NodeLacks plan.now (length built.now)) }
{
    let entry = plan.dag.entry(built.len() as u32);
    if let DagNode::Basic(form) = &entry.node {
        return relation(plan, form);
    }
    if let DagNode::Import(number, variables) = &entry.node {
        if rises(variables.slice()) {
            return imported(plan, entry.orders.slice(), *number, variables);
        }
    }
    let part = of_form(plan, built, entry)?;
    // The states tell that it is an automaton.
    let _ = part.states();
    minimise(plan.alloc, &part, plan.limit)
}
