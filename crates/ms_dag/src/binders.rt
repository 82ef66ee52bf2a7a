ghost use Rattle.ms_dag.specs.inner.Binders.{EndsIn};
ghost use Rattle.ms_dag.specs.Dag.{places_in_maps};
ghost use Rattle.ms_dag.specs.inner.Keys.{IsKeyed};
ghost use Rattle.ms_dag.specs.Places.{AreBelow};
ghost use Rattle.ms_dag.specs.inner.Shared.{IsAbove};
ghost use Rattle.ms_dag.specs.declared.node.Child.{Child};
ghost use Rattle.ms_dag.specs.declared.node.DagNode.TheVariants.{Bind};
ghost use Rattle.std.specs.List.Sorted.{IsStrictlyIncreasing};
ghost use Rattle.std.specs.Prelude.{◌≡◌, ◌≤◌, ◌+◌, [], ◌∷◌, ◌++◌, ℕ, length, true, false, List as Sequence, IfOk, OnOk};

use crate::connectives::number_node;
use crate::maps::placed;
use crate::node::{Child, DagNode};
use crate::nodes::Nodes;
use crate::rising::union_of;
use ms_list::{List, NoMemory, push};
use ms_logic::{Order, Quant};

/// What a quantifier binds.
#[derive(Clone, Copy)]
pub(crate) struct Binder {
    pub(crate) quant: Quant,
    pub(crate) order: Order,
    pub(crate) variable: u32,
}

// Whether the last of these names is x, which none is greater than.
fn ends_in(names: &[u32], x: u32) -> bool
    requires rising { IsStrictlyIncreasing names.now }
    requires greatest { AreBelow (x + 1) names.now }
    ensures last { result ≡ true → (own : Sequence ℕ) × (names.now ≡ own ++ x ∷ []) }
    ensures lacking { result ≡ false → AreBelow x names.now }
{
    let count = names.len();
    count > 0 && names[count - 1] == x
}

// The names with x at their end, which none is greater than.
fn with_bound(mut names: List<u32>, x: u32) -> Result<List<u32>, NoMemory>
    requires rising { IsStrictlyIncreasing names }
    requires greatest { AreBelow (x + 1) names }
    ensures ends { IfOk result (λ all. EndsIn names x all) }
    ensures few { IfOk result (λ all. length all ≤ 4294967296) }
{
    if !ends_in(names.slice(), x) {
        push(&mut names, x)?;
    }
    Ok(names)
}

fn without_last(names: List<u32>) -> List<u32>
    ensures { (own : Sequence ℕ) (x : ℕ) → names ≡ own ++ x ∷ [] → result ≡ own }
{
    let mut names = names.into_vec();
    names.pop();
    List::from(names)
}

/// A quantifier with no restriction.
pub(crate) fn above_body(
    nodes: &mut Nodes,
    orders: &[Order],
    binder: Binder,
    body: Child,
) -> Result<Child, NoMemory>
    requires keyed { IsKeyed nodes.old }
    requires greatest { AreBelow (binder.variable + 1) (places_in_maps (body ∷ [])) }
    ensures keyed { OnOk result (IsKeyed nodes.new) }
    ensures above { IfOk result (λ child. (placed : Child)
        × IsAbove orders.now nodes.old.entries nodes.new.entries (binder.variable ∷ []) (body ∷ [])
        (Bind binder.quant binder.order (length child.map) None placed) child) }
{
    let parts = [body];
    let names = union_of(nodes.alloc, &parts)?;
    let all = with_bound(names, binder.variable)?;
    let child = placed(nodes.alloc, &parts[0], all.slice())?;
    let own = without_last(all);
    let node = DagNode::Bind(binder.quant, binder.order, own.len() as u32, None, child);
    number_node(nodes, orders, node, own)
}

/// A quantifier with a restriction.
pub(crate) fn above_restricted(
    nodes: &mut Nodes,
    orders: &[Order],
    binder: Binder,
    domain: Child,
    body: Child,
) -> Result<Child, NoMemory>
    requires keyed { IsKeyed nodes.old }
    requires greatest { AreBelow (binder.variable + 1) (places_in_maps (domain ∷ body ∷ [])) }
    ensures keyed { OnOk result (IsKeyed nodes.new) }
    ensures above { IfOk result (λ child. (first : Child) × (second : Child)
        × IsAbove orders.now nodes.old.entries nodes.new.entries (binder.variable ∷ []) (domain ∷ body ∷ [])
        (Bind binder.quant binder.order (length child.map) (Some first) second) child) }
{
    let parts = [domain, body];
    let names = union_of(nodes.alloc, &parts)?;
    let all = with_bound(names, binder.variable)?;
    let first = placed(nodes.alloc, &parts[0], all.slice())?;
    let second = placed(nodes.alloc, &parts[1], all.slice())?;
    let own = without_last(all);
    let node = DagNode::Bind(
        binder.quant,
        binder.order,
        own.len() as u32,
        Some(first),
        second,
    );
    number_node(nodes, orders, node, own)
}
