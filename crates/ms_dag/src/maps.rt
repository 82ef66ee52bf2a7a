ghost use Rattle.ms_dag.specs.Dag.{places_in_maps};
ghost use Rattle.ms_dag.specs.inner.Maps.{AreTheSameIn, IsPlaced};
ghost use Rattle.ms_dag.specs.Places.{AreAmong};
ghost use Rattle.std.specs.List.Sorted.{IsStrictlyIncreasing};
ghost use Rattle.std.specs.Prelude.{IfOk};

use crate::node::Child;
use crate::rising::places;
use ms_list::{List, NoMemory, push};
use std::alloc::Global;

/// The child with the places of its variables in a rising list in which they stand.
pub(crate) fn placed(alloc: Global, child: &Child, among: &[u32]) -> Result<Child, NoMemory>
    requires rising { IsStrictlyIncreasing among.now }
    requires there { AreAmong among.now child.now.map }
    ensures { IfOk result (λ made. IsPlaced among.now child.now made) }
{
    let map = places(alloc, among, child.map.slice())?;
    Ok(Child {
        node: child.node,
        map,
    })
}

/// The same for each of these children.
pub(crate) fn placed_each(
    alloc: Global,
    children: &[Child],
    among: &[u32],
) -> Result<List<Child>, NoMemory>
    requires rising { IsStrictlyIncreasing among.now }
    requires there { AreAmong among.now (places_in_maps children.now) }
    ensures { IfOk result (λ made. AreTheSameIn among.now children.now made) }
{
    let mut made = List::new(alloc);
    for child in children {
        push(&mut made, placed(alloc, child, among)?)?;
    }
    Ok(made)
}
