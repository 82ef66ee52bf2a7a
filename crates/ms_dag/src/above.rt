ghost use Rattle.ms_dag.specs.Dag.{AreNodes};
ghost use Rattle.ms_dag.specs.inner.Connectives.{node_of_each};
ghost use Rattle.ms_dag.specs.inner.Keys.{IsKeyed};
ghost use Rattle.ms_dag.specs.inner.Scope.{IsInScope};
ghost use Rattle.ms_dag.specs.inner.Shared.{IsAbove, Keeps};
ghost use Rattle.ms_dag.specs.inner.Tasks.{AreSharedInTurn, IsMadeAbove, IsNoImport, IsPutAbove, parts_of};
ghost use Rattle.ms_dag.specs.declared.node.Child.{Child};
ghost use Rattle.ms_dag.specs.declared.node.Entry.{Entry};
ghost use Rattle.ms_logic_core.specs.Calls.{filled};
ghost use Rattle.ms_logic_core.specs.CoreForm.{core_form_of};
ghost use Rattle.std.specs.Prelude.{◌≡◌, ◌≤◌, ◌-◌, ◌++◌, [], ℕ, length, take, drop, List as Sequence, IfOk, OnOk};

use crate::binders::{Binder, above_body, above_restricted};
use crate::bodies::Bodies;
use crate::connectives::{Binary, Nary, Unary, above_each, above_one, above_two, number_node};
use crate::formulas::Source;
use crate::node::{Child, DagNode};
use crate::nodes::Nodes;
use crate::relations::share_basic;
use crate::tasks::{put, take_last};
use ms_list::{List, NoMemory};
use ms_logic::Order;
use ms_logic_core::Core;

// The connective of so many formulas. Their children are the last, and are taken away.
fn above_last(
    nodes: &mut Nodes,
    orders: &[Order],
    nary: Nary,
    count: usize,
    parts: &mut Vec<Child>,
) -> Result<Child, NoMemory>
    requires keyed { IsKeyed nodes.old }
    requires there { count ≤ length parts.old.items }
    ensures keyed { OnOk result (IsKeyed nodes.new) }
    ensures taken { OnOk result (parts.new.items ≡ take (length parts.old.items - count) parts.old.items) }
    ensures above { IfOk result (λ child. (placed : Sequence Child)
        × IsAbove orders.now nodes.old.entries nodes.new.entries [] (drop (length parts.old.items - count) parts.old.items) (node_of_each nary placed) child) }
{
    let others = parts.len() - count;
    let child = above_each(nodes, orders, nary, &parts[others..])?;
    parts.truncate(others);
    Ok(child)
}

// The node of a formula that is no import, above those of its parts. Their children are the last, and are taken away.
fn make_above<B: Bodies>(
    nodes: &mut Nodes,
    source: &Source<B>,
    core: &Core,
    parts: &mut Vec<Child>,
) -> Result<Child, NoMemory>
    requires keyed { IsKeyed nodes.old }
    requires nodes { AreNodes nodes.old.entries }
    requires other { IsNoImport (core_form_of core.now) }
    requires scoped { (scope : Sequence ℕ) × IsInScope source.now.orders.now scope (filled (B.calls source.now.bodies.now) (core_form_of core.now)) }
    requires shared { (before : Sequence Entry) × (others : Sequence Child) × (own : Sequence Child) × (parts.old.items ≡ others ++ own)
        × AreSharedInTurn source.now.orders.now before nodes.old.entries (parts_of (filled (B.calls source.now.bodies.now) (core_form_of core.now))) own }
    ensures keyed { OnOk result (IsKeyed nodes.new) }
    ensures kept { OnOk result (Keeps nodes.old.entries nodes.new.entries) }
    ensures above { IfOk result (IsMadeAbove source.now.orders.now nodes.old.entries nodes.new.entries parts.old.items parts.new.items (filled (B.calls source.now.bodies.now) (core_form_of core.now))) }
{
    let orders = source.orders;
    match core {
        Core::True => number_node(nodes, orders, DagNode::True, List::new(nodes.alloc)),
        Core::False => number_node(nodes, orders, DagNode::False, List::new(nodes.alloc)),
        Core::Basic(basic) => share_basic(nodes, orders, basic),
        Core::Not(_) => above_one(nodes, orders, Unary::Not, take_last(parts)),
        Core::Restrict(_) => above_one(nodes, orders, Unary::Restrict, take_last(parts)),
        Core::And(operands) => above_last(nodes, orders, Nary::And, operands.len(), parts),
        Core::Or(operands) => above_last(nodes, orders, Nary::Or, operands.len(), parts),
        Core::Implies(_, _) => {
            let right = take_last(parts);
            let left = take_last(parts);
            above_two(nodes, orders, Binary::Implies, left, right)
        }
        Core::Iff(_, _) => {
            let right = take_last(parts);
            let left = take_last(parts);
            above_two(nodes, orders, Binary::Iff, left, right)
        }
        Core::Bind(quant, order, variable, domain, _) => {
            let binder = Binder {
                quant: *quant,
                order: *order,
                variable: *variable,
            };
            let body = take_last(parts);
            match domain {
                None => above_body(nodes, orders, binder, body),
                Some(_) => above_restricted(nodes, orders, binder, take_last(parts), body),
            }
        }
        Core::Import(_, _) => unreachable!(),
    }
}

/// Puts the child of a formula that is no import in the place of those of its parts, which are the last.
#[inline(never)]
pub(crate) fn share_above<B: Bodies>(
    nodes: &mut Nodes,
    source: &Source<B>,
    core: &Core,
    parts: &mut Vec<Child>,
) -> Result<(), NoMemory>
    requires keyed { IsKeyed nodes.old }
    requires nodes { AreNodes nodes.old.entries }
    requires other { IsNoImport (core_form_of core.now) }
    requires scoped { (scope : Sequence ℕ) × IsInScope source.now.orders.now scope (filled (B.calls source.now.bodies.now) (core_form_of core.now)) }
    requires shared { (before : Sequence Entry) × (others : Sequence Child) × (own : Sequence Child) × (parts.old.items ≡ others ++ own)
        × AreSharedInTurn source.now.orders.now before nodes.old.entries (parts_of (filled (B.calls source.now.bodies.now) (core_form_of core.now))) own }
    ensures keyed { OnOk result (IsKeyed nodes.new) }
    ensures kept { OnOk result (Keeps nodes.old.entries nodes.new.entries) }
    ensures above { OnOk result (IsPutAbove source.now.orders.now nodes.old.entries nodes.new.entries parts.old.items parts.new.items (filled (B.calls source.now.bodies.now) (core_form_of core.now))) }
{
    let child = make_above(nodes, source, core, parts)?;
    put(parts, child)
}
