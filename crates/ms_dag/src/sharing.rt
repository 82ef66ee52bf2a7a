ghost use Rattle.ms_dag.specs.Dag.{AreNodes};
ghost use Rattle.ms_dag.specs.inner.Keys.{IsKeyed};
ghost use Rattle.ms_dag.specs.Lowered.{IsLowered};
ghost use Rattle.ms_dag.specs.inner.Memo.{AreCalled};
ghost use Rattle.ms_dag.specs.inner.Scope.{IsRootInScope};
ghost use Rattle.ms_dag.specs.Share.{IsDagOf};
ghost use Rattle.ms_dag.specs.inner.Shared.{AreRootsNow, IsRootNow};
ghost use Rattle.ms_logic.specs.Truth.{Import};
ghost use Rattle.std.specs.Prelude.{◌≡◌, ◌↔◌, ◌+◌, ◌≤◌, [], All, List as Sequence, IfOk, IsTrue, OnOk};

use crate::bodies::Bodies;
use crate::dag::{Dag, SharedRoot};
use crate::formulas::{ABOVE_IMPORTS, Source, share_core};
use crate::memo::Called;
use crate::nodes::Nodes;
use ms_list::{List, NoMemory, push};
use ms_logic_core::{Lowered, Root};
use std::alloc::Global;

// An equal list of its own.
fn copied<T: Copy + Drop>(alloc: Global, items: &[T]) -> Result<List<T>, NoMemory>
    ensures { IfOk result (λ made. made ≡ items.now) }
{
    let mut made = List::new(alloc);
    for item in items {
        push(&mut made, *item)?;
    }
    Ok(made)
}

// The node of a root's formula.
fn share_root<B: Bodies>(
    nodes: &mut Nodes,
    called: &mut Called,
    source: &Source<B>,
    root: &Root,
) -> Result<SharedRoot, NoMemory>
    requires ready { B.IsReady source.now.bodies.now }
    requires keyed { IsKeyed nodes.old }
    requires nodes { AreNodes nodes.old.entries }
    requires called { AreCalled (B.calls source.now.bodies.now) source.now.orders.now nodes.old.entries called.old }
    requires scoped { IsRootInScope (B.calls source.now.bodies.now) source.now.orders.now root.now }
    ensures keyed { OnOk result (IsKeyed nodes.new) }
    ensures called { OnOk result (AreCalled (B.calls source.now.bodies.now) source.now.orders.now nodes.new.entries called.new) }
    ensures shared { IfOk result (λ made. IsRootNow (B.calls source.now.bodies.now) source.now.orders.now nodes.old.entries nodes.new.entries root.now made) }
{
    let child = share_core(nodes, called, source, &root.core, ABOVE_IMPORTS)?;
    let variables = copied(nodes.alloc, root.variables.slice())?;
    Ok(SharedRoot { child, variables })
}

// The same for each root.
fn share_roots<B: Bodies>(
    nodes: &mut Nodes,
    called: &mut Called,
    source: &Source<B>,
    roots: &[Root],
) -> Result<List<SharedRoot>, NoMemory>
    requires ready { B.IsReady source.now.bodies.now }
    requires keyed { IsKeyed nodes.old }
    requires empty { nodes.old.entries ≡ [] }
    requires called { AreCalled (B.calls source.now.bodies.now) source.now.orders.now nodes.old.entries called.old }
    requires scoped { All (IsRootInScope (B.calls source.now.bodies.now) source.now.orders.now) roots.now }
    ensures { IfOk result (λ made. AreRootsNow (B.calls source.now.bodies.now) source.now.orders.now nodes.new.entries roots.now made) }
{
    let mut made = List::new(nodes.alloc);
    for root in roots {
        push(&mut made, share_root(nodes, called, source, root)?)?;
    }
    Ok(made)
}

// Whether so many nodes and roots have numbers of 32 bits. Before there are more, memory has long run out.
fn can_be_numbered(nodes: usize, roots: usize) -> bool
    ensures { IsTrue result ↔ (nodes + roots ≤ 4294967295) }
{
    nodes.saturating_add(roots) <= u32::MAX as usize
}

/// The graph of a source with what its imports stand for in their places, in which each formula stands once.
pub fn share<B: Bodies>(alloc: Global, lowered: &Lowered, bodies: &B) -> Result<Dag, NoMemory>
    requires ready { B.IsReady bodies.now }
    requires lowered { (imports : Sequence Import) × IsLowered imports (B.calls bodies.now) lowered.now }
    ensures { IfOk result (λ dag. IsDagOf (B.calls bodies.now) lowered.now dag) }
{
    let mut nodes = Nodes::new(alloc);
    let mut called = Called::new(alloc);
    let orders = lowered.orders.slice();
    let source = Source { orders, bodies };
    let roots = share_roots(&mut nodes, &mut called, &source, lowered.roots.slice())?;
    let orders = copied(alloc, orders)?;
    let entries = nodes.into_entries();
    if !can_be_numbered(entries.len(), roots.len()) {
        return Err(NoMemory);
    }
    Ok(Dag {
        entries,
        roots,
        orders,
    })
}
