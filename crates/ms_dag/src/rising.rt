ghost use Rattle.ms_dag.specs.Dag.{places_in_maps};
ghost use Rattle.ms_dag.specs.Places.{AreAt, AreAmong};
ghost use Rattle.ms_diagram.specs.Collect.{HaveSameItems};
ghost use Rattle.std.specs.List.Sorted.{IsStrictlyIncreasing};
ghost use Rattle.std.specs.Prelude.{◌≡◌, ◌++◌, Contains, slice_get, IfOk, OnOk};

use crate::node::Child;
use ms_list::{List, NoMemory, push};
use std::alloc::Global;

/// The place of a name in a rising list in which it stands.
pub(crate) fn place(among: &[u32], name: u32) -> u32
    requires rising { IsStrictlyIncreasing among.now }
    requires there { Contains among.now name }
    ensures { slice_get among.now result ≡ Some name }
{
    match among.binary_search(&name) {
        Ok(i) => i as u32,
        Err(_) => 0,
    }
}

/// The places of these names in a rising list in which they stand.
pub(crate) fn places(alloc: Global, among: &[u32], names: &[u32]) -> Result<List<u32>, NoMemory>
    requires rising { IsStrictlyIncreasing among.now }
    requires there { AreAmong among.now names.now }
    ensures { IfOk result (λ made. AreAt among.now made names.now) }
{
    let mut made = List::new(alloc);
    for name in names {
        push(&mut made, place(among, *name))?;
    }
    Ok(made)
}

/// The numbers in rising order, each once.
pub(crate) fn rising(mut numbers: Vec<u32>) -> List<u32>
    ensures rising { IsStrictlyIncreasing result }
    ensures same { HaveSameItems numbers.items result }
{
    numbers.sort_unstable();
    numbers.dedup();
    List::from(numbers)
}

/// Puts more numbers behind the others.
pub(crate) fn add_all(numbers: &mut Vec<u32>, more: &[u32]) -> Result<(), NoMemory>
    ensures { OnOk result (numbers.new.items ≡ numbers.old.items ++ more.now) }
{
    match numbers.extend_from_slice(more) {
        Ok(()) => Ok(()),
        Err(_) => Err(NoMemory),
    }
}

/// The variables in the maps of these children, in rising order, each once.
pub(crate) fn union_of(alloc: Global, children: &[Child]) -> Result<List<u32>, NoMemory>
    ensures rising { IfOk result (λ made. IsStrictlyIncreasing made) }
    ensures same { IfOk result (λ made. HaveSameItems (places_in_maps children.now) made) }
{
    let mut numbers = Vec::new(alloc);
    for child in children {
        add_all(&mut numbers, child.map.slice())?;
    }
    Ok(rising(numbers))
}
