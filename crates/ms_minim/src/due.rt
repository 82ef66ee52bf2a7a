ghost use Rattle.std.specs.Prelude.{◌≡◌, ◌<◌, ◌⊎◌, ℕ, length, slice_get, Some, IfOk, OnOk};
ghost use Rattle.ms_arena.specs.Target.{Extends};
ghost use Rattle.ms_minim.specs.inner.Grouping.{AreCovered, AreListed, IsDue};
ghost use Rattle.ms_minim.specs.inner.Predecessors.{AreBelow, IsListed};

use crate::marking::number;
use ms_diagram::Pairs;
use ms_list::{List, NoMemory};
use std::alloc::Global;

/// These states are due.
fn note_due(due: &mut Pairs, states: &[u32]) -> Result<(), NoMemory>
    ensures later { OnOk result (Extends due.old due.new) }
    ensures noted { OnOk result ((place state : ℕ) → slice_get states.now place ≡ Some state → IsDue due.new state) }
    ensures only { OnOk result ((state : ℕ) → IsDue due.new state → IsDue due.old state ⊎ ((place : ℕ) × (slice_get states.now place ≡ Some state))) }
{
    for state in states {
        let _ = number(due, *state, 0)?;
    }
    Ok(())
}

/// The states that lead to a state are due, where it is in the class.
fn note_member(
    due: &mut Pairs,
    predecessors: &[List<u32>],
    classes: &[u32],
    state: u32,
    class: u32,
) -> Result<(), NoMemory>
    requires predecessors { length predecessors.now ≡ length classes.now }
    requires state { state < length classes.now }
    ensures later { OnOk result (Extends due.old due.new) }
    ensures noted { OnOk result (slice_get classes.now state ≡ Some class → (item : ℕ) → IsListed predecessors.now state item → IsDue due.new item) }
    ensures only { OnOk result ((item : ℕ) → IsDue due.new item → IsDue due.old item ⊎ IsListed predecessors.now state item) }
{
    if classes[state as usize] == class {
        note_due(due, predecessors[state as usize].slice())?;
    }
    Ok(())
}

/// The states that lead to one of these which is in the class are due.
fn note_members(
    due: &mut Pairs,
    predecessors: &[List<u32>],
    classes: &[u32],
    members: &[u32],
    class: u32,
) -> Result<(), NoMemory>
    requires predecessors { length predecessors.now ≡ length classes.now }
    requires members { (place state : ℕ) → slice_get members.now place ≡ Some state → state < length classes.now }
    ensures later { OnOk result (Extends due.old due.new) }
    ensures noted { OnOk result ((place state item : ℕ) → slice_get members.now place ≡ Some state → slice_get classes.now state ≡ Some class → IsListed predecessors.now state item → IsDue due.new item) }
    ensures only { OnOk result ((item : ℕ) → IsDue due.new item → IsDue due.old item ⊎ ((state : ℕ) × IsListed predecessors.now state item)) }
{
    for member in members {
        note_member(due, predecessors, classes, *member, class)?;
    }
    Ok(())
}

/// The states that lead to a state of the class are due.
fn note_class(
    due: &mut Pairs,
    predecessors: &[List<u32>],
    classes: &[u32],
    members: &[List<u32>],
    class: u32,
) -> Result<(), NoMemory>
    requires predecessors { length predecessors.now ≡ length classes.now }
    requires below { AreBelow (length classes.now) members.now }
    requires listed { AreListed classes.now members.now }
    ensures later { OnOk result (Extends due.old due.new) }
    ensures noted { OnOk result ((state item : ℕ) → slice_get classes.now state ≡ Some class → IsListed predecessors.now state item → IsDue due.new item) }
    ensures only { OnOk result ((item : ℕ) → IsDue due.new item → IsDue due.old item ⊎ ((state : ℕ) × IsListed predecessors.now state item)) }
{
    if (class as usize) < members.len() {
        let list = members[class as usize].slice();
        note_members(due, predecessors, classes, list, class)?;
    }
    Ok(())
}

/// The states that lead to a state of a chosen class.
pub(crate) fn due(
    alloc: Global,
    predecessors: &[List<u32>],
    classes: &[u32],
    members: &[List<u32>],
    chosen: &[u32],
) -> Result<Pairs, NoMemory>
    requires predecessors { length predecessors.now ≡ length classes.now }
    requires below { AreBelow (length classes.now) members.now }
    requires listed { AreListed classes.now members.now }
    ensures covered { IfOk result (AreCovered classes.now predecessors.now chosen.now) }
    ensures only { IfOk result (λ made. (item : ℕ) → IsDue made item → (state : ℕ) × IsListed predecessors.now state item) }
{
    let mut made = Pairs::new(alloc);
    for class in chosen {
        note_class(&mut made, predecessors, classes, members, *class)?;
    }
    Ok(made)
}
