ghost use Rattle.ms_dag.specs.inner.Keys.{IsKeyed};
ghost use Rattle.ms_dag.specs.Places.{AreAmong};
ghost use Rattle.ms_dag.specs.inner.Relations.{IsBasicNode, IsImportNode, IsPlacedBasic};
ghost use Rattle.ms_dag.specs.Unfolds.{names_of_basic};
ghost use Rattle.std.specs.List.Sorted.{IsStrictlyIncreasing};
ghost use Rattle.std.specs.Prelude.{◌≡◌, IfOk, OnOk};

use crate::connectives::number_node;
use crate::node::{Child, DagNode};
use crate::nodes::Nodes;
use crate::rising::{place, places, rising};
use ms_list::{List, NoMemory};
use ms_logic::Order;
use ms_logic_core::Basic;
use std::alloc::Global;

/// An equal list of its own.
pub(crate) fn copied(alloc: Global, names: &[u32]) -> Result<Vec<u32>, NoMemory>
    ensures { IfOk result (λ made. made.items ≡ names.now) }
{
    match Vec::from_slice(alloc, names) {
        Ok(made) => Ok(made),
        Err(_) => Err(NoMemory),
    }
}

// The variables of a relation, in the order in which it names them.
fn basic_names(alloc: Global, basic: &Basic) -> Result<Vec<u32>, NoMemory>
    ensures { IfOk result (λ made. made.items ≡ names_of_basic basic.now) }
{
    match *basic {
        Basic::Truth(a) => copied(alloc, &[a]),
        Basic::Number(x, _) => copied(alloc, &[x]),
        Basic::Plus(x, y, _) => copied(alloc, &[x, y]),
        Basic::Less(x, y) => copied(alloc, &[x, y]),
        Basic::Member(x, s) => copied(alloc, &[x, s]),
        Basic::Sub(s, t) => copied(alloc, &[s, t]),
        Basic::Union(s, t, u) => copied(alloc, &[s, t, u]),
        Basic::Inter(s, t, u) => copied(alloc, &[s, t, u]),
        Basic::Diff(s, t, u) => copied(alloc, &[s, t, u]),
        Basic::Up(s, t, _) => copied(alloc, &[s, t]),
        Basic::Down(s, t, _) => copied(alloc, &[s, t]),
        Basic::Min(x, s) => copied(alloc, &[x, s]),
        Basic::Max(x, s) => copied(alloc, &[x, s]),
        Basic::Bits(s, _) => copied(alloc, &[s]),
    }
}

// The relation between the places of its variables.
fn placed_basic(among: &[u32], basic: &Basic) -> Basic
    requires rising { IsStrictlyIncreasing among.now }
    requires there { AreAmong among.now (names_of_basic basic.now) }
    ensures { IsPlacedBasic among.now basic.now result }
{
    match *basic {
        Basic::Truth(a) => Basic::Truth(place(among, a)),
        Basic::Number(x, n) => Basic::Number(place(among, x), n),
        Basic::Plus(x, y, n) => Basic::Plus(place(among, x), place(among, y), n),
        Basic::Less(x, y) => Basic::Less(place(among, x), place(among, y)),
        Basic::Member(x, s) => Basic::Member(place(among, x), place(among, s)),
        Basic::Sub(s, t) => Basic::Sub(place(among, s), place(among, t)),
        Basic::Union(s, t, u) => Basic::Union(place(among, s), place(among, t), place(among, u)),
        Basic::Inter(s, t, u) => Basic::Inter(place(among, s), place(among, t), place(among, u)),
        Basic::Diff(s, t, u) => Basic::Diff(place(among, s), place(among, t), place(among, u)),
        Basic::Up(s, t, n) => Basic::Up(place(among, s), place(among, t), n),
        Basic::Down(s, t, n) => Basic::Down(place(among, s), place(among, t), n),
        Basic::Min(x, s) => Basic::Min(place(among, x), place(among, s)),
        Basic::Max(x, s) => Basic::Max(place(among, x), place(among, s)),
        Basic::Bits(s, n) => Basic::Bits(place(among, s), n),
    }
}

/// A basic relation.
pub(crate) fn share_basic(
    nodes: &mut Nodes,
    orders: &[Order],
    basic: &Basic,
) -> Result<Child, NoMemory>
    requires keyed { IsKeyed nodes.old }
    ensures keyed { OnOk result (IsKeyed nodes.new) }
    ensures made { IfOk result (λ child. IsBasicNode orders.now nodes.old.entries nodes.new.entries basic.now child) }
{
    let names = rising(basic_names(nodes.alloc, basic)?);
    let own = placed_basic(names.slice(), basic);
    number_node(nodes, orders, DagNode::Basic(own), names)
}

/// An import at these variables.
#[inline(never)]
pub(crate) fn share_import(
    nodes: &mut Nodes,
    orders: &[Order],
    import: u32,
    variables: &[u32],
) -> Result<Child, NoMemory>
    requires keyed { IsKeyed nodes.old }
    ensures keyed { OnOk result (IsKeyed nodes.new) }
    ensures made { IfOk result (λ child. IsImportNode orders.now nodes.old.entries nodes.new.entries import variables.now child) }
{
    let names = rising(copied(nodes.alloc, variables)?);
    let own = places(nodes.alloc, names.slice(), variables)?;
    number_node(nodes, orders, DagNode::Import(import, own), names)
}
