ghost use Rattle.std.specs.Prelude.{◌≡◌, length, IfOk};
ghost use Rattle.ms_minim.specs.inner.Discrete.{AreOwnImages};
ghost use Rattle.ms_minim.specs.inner.Partition.{IsIdentity};

use crate::classes::Partition;
use crate::images::Images;
use ms_arena::Ref;
use ms_diagram::{RefList, Store};
use ms_list::{List, NoMemory, push};
use std::alloc::Global;

/// The numbers below a count, one after the other.
fn numbers_below(alloc: Global, count: u32) -> Result<List<u32>, NoMemory>
    ensures { IfOk result (IsIdentity count) }
{
    let mut numbers = List::new(alloc);
    for number in 0..count {
        push(&mut numbers, number)?;
    }
    Ok(numbers)
}

/// Each of so many states in a class of its own.
pub(crate) fn own_classes(alloc: Global, states: u32) -> Result<Partition, NoMemory>
    ensures classes { IfOk result (λ made. IsIdentity states made.classes) }
    ensures members { IfOk result (λ made. IsIdentity states made.members) }
{
    let classes = numbers_below(alloc, states)?;
    let members = numbers_below(alloc, states)?;
    Ok(Partition { classes, members })
}

/// The nodes of a store as they are, in a copy of it.
pub(crate) fn own_images(alloc: Global, from: &Store) -> Result<Images, NoMemory>
    ensures store { IfOk result (λ made. made.store.nodes ≡ from.now.nodes) }
    ensures list { IfOk result (λ made. AreOwnImages (length from.now.nodes) made.list) }
{
    let mut list = RefList::new(alloc);
    for place in 0..from.len() as u32 {
        list.push(Ref::Inner(place))?;
    }
    let store = from.copy()?;
    Ok(Images { store, list })
}
