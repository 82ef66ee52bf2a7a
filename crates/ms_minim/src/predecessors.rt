ghost use Rattle.std.specs.Prelude.{◌≡◌, ◌<◌, ◌≤◌, ℕ, length, slice_get, Some, IfOk, OnOk};
ghost use Rattle.ms_minim.specs.inner.Predecessors.{AreBelow, ArePredecessors, IsListed};

use crate::reading::Reader;
use ms_list::{List, NoMemory, push};
use std::alloc::Global;

/// One item more in the list at a place, where there is one.
pub(crate) fn note_one(lists: &mut Vec<List<u32>>, place: u32, item: u32) -> Result<(), NoMemory>
    ensures count { OnOk result (length lists.new.items ≡ length lists.old.items) }
    ensures kept { OnOk result ((other was : ℕ) → IsListed lists.old.items other was → IsListed lists.new.items other was) }
    ensures noted { OnOk result (place < length lists.old.items → IsListed lists.new.items place item) }
    ensures below { OnOk result ((bound : ℕ) → item < bound → AreBelow bound lists.old.items → AreBelow bound lists.new.items) }
{
    if (place as usize) < lists.len() {
        let list = &mut lists[place as usize];
        push(list, item)?;
    }
    Ok(())
}

/// A state leads to each of these.
fn note(lists: &mut Vec<List<u32>>, leaves: &[u32], state: u32) -> Result<(), NoMemory>
    ensures count { OnOk result (length lists.new.items ≡ length lists.old.items) }
    ensures kept { OnOk result ((other was : ℕ) → IsListed lists.old.items other was → IsListed lists.new.items other was) }
    ensures noted { OnOk result ((place leaf : ℕ) → slice_get leaves.now place ≡ Some leaf → leaf < length lists.old.items → IsListed lists.new.items leaf state) }
    ensures below { OnOk result ((bound : ℕ) → state < bound → AreBelow bound lists.old.items → AreBelow bound lists.new.items) }
{
    for leaf in leaves {
        note_one(lists, *leaf, state)?;
    }
    Ok(())
}

/// So many lists without an item.
pub(crate) fn no_lists(alloc: Global, count: u32) -> Result<Vec<List<u32>>, NoMemory>
    ensures count { IfOk result (λ made. length made.items ≡ count) }
    ensures below { IfOk result (λ made. (bound : ℕ) → AreBelow bound made.items) }
{
    let mut made = Vec::new(alloc);
    for _ in 0..count {
        if made.push(List::new(alloc)).is_err() {
            return Err(NoMemory);
        }
    }
    Ok(made)
}

/// For each state those that lead to it.
pub(crate) fn predecessors(alloc: Global, automaton: &Reader) -> Result<Vec<List<u32>>, NoMemory>
    ensures { IfOk result (λ made. ArePredecessors automaton.now made.items) }
{
    let mut made = no_lists(alloc, automaton.states())?;
    for state in 0..automaton.states() {
        let root = automaton.next_ref(state);
        let leaves = automaton.store().leaves_in_order(root)?;
        note(&mut made, leaves.slice(), state)?;
    }
    Ok(made)
}
