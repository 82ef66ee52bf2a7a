ghost use Rattle.ms_dag.specs.inner.Connectives.{node_of_one, node_of_two, node_of_each};
ghost use Rattle.ms_dag.specs.inner.Keys.{IsKeyed};
ghost use Rattle.ms_dag.specs.Laws.{HaveOrders};
ghost use Rattle.ms_dag.specs.inner.Shared.{IsAbove, IsMade};
ghost use Rattle.ms_dag.specs.declared.node.Child.{Child};
ghost use Rattle.std.specs.Prelude.{◌≡◌, [], ◌∷◌, List as Sequence, IfOk, OnOk};

use crate::maps::{placed, placed_each};
use crate::node::{Child, DagNode, Entry};
use crate::nodes::Nodes;
use crate::rising::union_of;
use ms_list::{List, NoMemory, push};
use ms_logic::Order;
use ms_logic_core::order_at;
use std::alloc::Global;

#[derive(Clone, Copy)]
pub(crate) enum Unary {
    Not,
    Restrict,
}

#[derive(Clone, Copy)]
pub(crate) enum Binary {
    Implies,
    Iff,
}

#[derive(Clone, Copy)]
pub(crate) enum Nary {
    And,
    Or,
}

// The orders of these variables.
fn orders_at(alloc: Global, orders: &[Order], names: &[u32]) -> Result<List<Order>, NoMemory>
    ensures { IfOk result (λ made. HaveOrders orders.now names.now made) }
{
    let mut made = List::new(alloc);
    for name in names {
        push(&mut made, order_at(orders, *name))?;
    }
    Ok(made)
}

/// The node with these variables as its own, which gets the next number where there is none like it.
pub(crate) fn number_node(
    nodes: &mut Nodes,
    orders: &[Order],
    node: DagNode,
    names: List<u32>,
) -> Result<Child, NoMemory>
    requires keyed { IsKeyed nodes.old }
    ensures keyed { OnOk result (IsKeyed nodes.new) }
    ensures made { IfOk result (λ child. IsMade orders.now nodes.old.entries nodes.new.entries node names child) }
{
    let own = orders_at(nodes.alloc, orders, names.slice())?;
    let number = nodes.number(Entry { node, orders: own })?;
    Ok(Child {
        node: number,
        map: names,
    })
}

fn node_of_one(unary: Unary, child: Child) -> DagNode
    ensures { result ≡ node_of_one unary child }
{
    match unary {
        Unary::Not => DagNode::Not(child),
        Unary::Restrict => DagNode::Restrict(child),
    }
}

fn node_of_two(binary: Binary, left: Child, right: Child) -> DagNode
    ensures { result ≡ node_of_two binary left right }
{
    match binary {
        Binary::Implies => DagNode::Implies(left, right),
        Binary::Iff => DagNode::Iff(left, right),
    }
}

fn node_of_each(nary: Nary, children: List<Child>) -> DagNode
    ensures { result ≡ node_of_each nary children }
{
    match nary {
        Nary::And => DagNode::And(children),
        Nary::Or => DagNode::Or(children),
    }
}

/// The connective of one formula.
pub(crate) fn above_one(
    nodes: &mut Nodes,
    orders: &[Order],
    unary: Unary,
    part: Child,
) -> Result<Child, NoMemory>
    requires keyed { IsKeyed nodes.old }
    ensures keyed { OnOk result (IsKeyed nodes.new) }
    ensures above { IfOk result (λ child. (placed : Child)
        × IsAbove orders.now nodes.old.entries nodes.new.entries [] (part ∷ []) (node_of_one unary placed) child) }
{
    let parts = [part];
    let names = union_of(nodes.alloc, &parts)?;
    let child = placed(nodes.alloc, &parts[0], names.slice())?;
    number_node(nodes, orders, node_of_one(unary, child), names)
}

/// The connective of two formulas.
pub(crate) fn above_two(
    nodes: &mut Nodes,
    orders: &[Order],
    binary: Binary,
    left: Child,
    right: Child,
) -> Result<Child, NoMemory>
    requires keyed { IsKeyed nodes.old }
    ensures keyed { OnOk result (IsKeyed nodes.new) }
    ensures above { IfOk result (λ child. (first : Child) × (second : Child)
        × IsAbove orders.now nodes.old.entries nodes.new.entries [] (left ∷ right ∷ []) (node_of_two binary first second) child) }
{
    let parts = [left, right];
    let names = union_of(nodes.alloc, &parts)?;
    let first = placed(nodes.alloc, &parts[0], names.slice())?;
    let second = placed(nodes.alloc, &parts[1], names.slice())?;
    number_node(nodes, orders, node_of_two(binary, first, second), names)
}

/// The connective of a list of formulas.
pub(crate) fn above_each(
    nodes: &mut Nodes,
    orders: &[Order],
    nary: Nary,
    parts: &[Child],
) -> Result<Child, NoMemory>
    requires keyed { IsKeyed nodes.old }
    ensures keyed { OnOk result (IsKeyed nodes.new) }
    ensures above { IfOk result (λ child. (placed : Sequence Child)
        × IsAbove orders.now nodes.old.entries nodes.new.entries [] parts.now (node_of_each nary placed) child) }
{
    let names = union_of(nodes.alloc, parts)?;
    let children = placed_each(nodes.alloc, parts, names.slice())?;
    number_node(nodes, orders, node_of_each(nary, children), names)
}
