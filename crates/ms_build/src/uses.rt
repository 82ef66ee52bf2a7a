ghost use Rattle.std.specs.Prelude.{◌≡◌, ◌≤◌, ◌++◌, [], ◌∷◌, map, length, replicate, IfOk};
ghost use Rattle.ms_dag.specs.Dag.{children_of};
ghost use Rattle.ms_build.specs.Built.{AreBuiltFor, entries_of, roots_of};
ghost use Rattle.ms_build.specs.inner.Uses.{AreLastUses, AreNotedUses, AreUsesSoFar, to_the_end};

use crate::leaves::truth;
use crate::plan::Plan;
use ms_dag::{Child, DagNode};
use ms_dfa::Automaton;
use ms_list::NoMemory;
use std::alloc::Global;

/// The last use of what is used to the end.
const TO_THE_END: u32 = u32::MAX;

/// An automaton of so many nodes at most is kept: to let it go spares nothing.
const FEW_NODES: u64 = 64;

/// One node more in a list.
fn push_node(nodes: &mut Vec<u32>, child: &Child) -> Result<(), NoMemory>
    ensures { IfOk result (λ done. nodes.new.items ≡ nodes.old.items ++ child.now.node ∷ []) }
{
    match nodes.push(child.node) {
        Ok(()) => Ok(()),
        Err(_) => Err(NoMemory),
    }
}

/// The nodes of children.
fn nodes_of_all(alloc: Global, children: &[Child]) -> Result<Vec<u32>, NoMemory>
    ensures { IfOk result (λ made. made.items ≡ map (λ c. c.node) children.now) }
{
    let mut nodes = Vec::new(alloc);
    for child in children {
        push_node(&mut nodes, child)?;
    }
    Ok(nodes)
}

/// The nodes of two children.
fn nodes_of_two(alloc: Global, one: &Child, other: &Child) -> Result<Vec<u32>, NoMemory>
    ensures { IfOk result (λ made. made.items ≡ one.now.node ∷ other.now.node ∷ []) }
{
    let mut nodes = Vec::new(alloc);
    push_node(&mut nodes, one)?;
    push_node(&mut nodes, other)?;
    Ok(nodes)
}

/// The node of a child.
fn nodes_of_one(alloc: Global, child: &Child) -> Result<Vec<u32>, NoMemory>
    ensures { IfOk result (λ made. made.items ≡ child.now.node ∷ []) }
{
    let mut nodes = Vec::new(alloc);
    push_node(&mut nodes, child)?;
    Ok(nodes)
}

/// The nodes of a node's children.
fn nodes_of(alloc: Global, node: &DagNode) -> Result<Vec<u32>, NoMemory>
    ensures { IfOk result (λ made. made.items ≡ map (λ c. c.node) (children_of node.now)) }
{
    match node {
        DagNode::True | DagNode::False => Ok(Vec::new(alloc)),
        DagNode::Basic(_) | DagNode::Import(_, _) => Ok(Vec::new(alloc)),
        DagNode::Not(child) | DagNode::Restrict(child) => nodes_of_one(alloc, child),
        DagNode::And(children) | DagNode::Or(children) => nodes_of_all(alloc, children.slice()),
        DagNode::Implies(left, right) | DagNode::Iff(left, right) => {
            nodes_of_two(alloc, left, right)
        }
        DagNode::Bind(_, _, _, None, body) => nodes_of_one(alloc, body),
        DagNode::Bind(_, _, _, Some(domain), body) => nodes_of_two(alloc, domain, body),
    }
}

/// A node is used by a step.
fn note_use(last: &mut Vec<u32>, node: u32, step: u32)
    ensures { AreNotedUses last.old.items last.new.items (node ∷ []) step }
{
    let place = node as usize;
    if place < last.len() && last[place] < step {
        last[place] = step;
    }
}

/// These nodes are used by a step.
fn note_uses(last: &mut Vec<u32>, nodes: &[u32], step: u32)
    ensures { AreNotedUses last.old.items last.new.items nodes.now step }
{
    for node in nodes {
        note_use(last, *node, step);
    }
}

/// So many nodes, none of which is used.
fn unused(alloc: Global, count: u32) -> Result<Vec<u32>, NoMemory>
    ensures { IfOk result (λ made. made.items ≡ replicate count 0) }
{
    let mut last = Vec::new(alloc);
    for _ in 0..count {
        if last.push(0).is_err() {
            return Err(NoMemory);
        }
    }
    Ok(last)
}

/// The children of each node are used by it.
fn note_nodes(plan: &Plan, last: &mut Vec<u32>) -> Result<(), NoMemory>
    requires few { length (entries_of plan.now) ≤ 4294967295 }
    ensures count { length last.new.items ≡ length last.old.items }
    ensures children { IfOk result (λ done. AreUsesSoFar (entries_of plan.now) (length (entries_of plan.now)) last.new.items) }
{
    for step in 0..plan.dag.len() {
        let nodes = nodes_of(plan.alloc, plan.dag.node(step))?;
        note_uses(last, nodes.as_slice(), step);
    }
    Ok(())
}

/// The roots are used to the end.
fn note_roots(plan: &Plan, last: &mut Vec<u32>)
    ensures { AreNotedUses last.old.items last.new.items (map (λ c. c.node) (roots_of plan.now)) to_the_end }
{
    for root in plan.dag.shared_roots() {
        note_use(last, root.child.node, TO_THE_END);
    }
}

/// The last use of each node.
pub(crate) fn last_uses(plan: &Plan) -> Result<Vec<u32>, NoMemory>
    requires few { length (entries_of plan.now) ≤ 4294967295 }
    ensures { IfOk result (λ last. AreLastUses (entries_of plan.now) (roots_of plan.now) last.items) }
{
    let mut last = unused(plan.alloc, plan.dag.len())?;
    note_nodes(plan, &mut last)?;
    note_roots(plan, &mut last);
    Ok(last)
}

/// The automaton of a node is let go where no later node uses it, and one of few nodes stands in its place.
fn let_go(plan: &Plan, last: &[u32], automata: &mut Vec<Automaton>, node: u32)
    requires last { AreLastUses (entries_of plan.now) (roots_of plan.now) last.now }
    requires built { AreBuiltFor plan.now automata.old.items }
    requires some { length automata.old.items ≤ length (entries_of plan.now) }
    requires few { length (entries_of plan.now) ≤ 4294967295 }
    ensures built { AreBuiltFor plan.now automata.new.items }
    ensures count { length automata.new.items ≡ length automata.old.items }
{
    let place = node as usize;
    if place >= automata.len() || (last[place] as usize) >= automata.len() {
        return;
    }
    if automata[place].store().len() <= FEW_NODES {
        return;
    }
    if let Ok(small) = truth(plan) {
        automata[place] = small;
    }
}

/// The automata of the last node's children are let go where no later node uses them.
pub(crate) fn release(
    plan: &Plan,
    last: &[u32],
    automata: &mut Vec<Automaton>,
) -> Result<(), NoMemory>
    requires last { AreLastUses (entries_of plan.now) (roots_of plan.now) last.now }
    requires built { AreBuiltFor plan.now automata.old.items }
    requires one { 1 ≤ length automata.old.items }
    requires some { length automata.old.items ≤ length (entries_of plan.now) }
    requires few { length (entries_of plan.now) ≤ 4294967295 }
    ensures built { AreBuiltFor plan.now automata.new.items }
    ensures count { length automata.new.items ≡ length automata.old.items }
{
    let step = automata.len() as u32 - 1;
    let nodes = nodes_of(plan.alloc, plan.dag.node(step))?;
    for node in nodes.as_slice() {
        let_go(plan, last, automata, *node);
    }
    Ok(())
}
