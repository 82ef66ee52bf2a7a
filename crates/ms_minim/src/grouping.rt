ghost use Rattle.std.specs.Prelude.{◌≡◌, ◌≢◌, ◌<◌, ◌≤◌, ℕ, ◌+◌, [], length, replicate, slice_get, Some, IfOk, OnOk, ◌++◌, ◌∷◌};
ghost use Rattle.ms_minim.specs.inner.Grouping.{AreListed, IsDue, IsMoved};
ghost use Rattle.ms_minim.specs.inner.Predecessors.{AreBelow, IsListed};

use crate::predecessors::{no_lists, note_one};
use ms_diagram::Pairs;
use ms_list::{List, NoMemory};
use std::alloc::Global;

/// The class of each state, and for each class its members, with how many they are. A state that has left a class may stand
/// among its members still.
#[derive(Drop)]
pub(crate) struct Groups {
    pub classes: Vec<u32>,
    pub members: Vec<List<u32>>,
    pub sizes: Vec<u32>,
}

/// The size of a class, and 0 where there is none.
pub(crate) fn size_of(sizes: &[u32], class: u32) -> u32 {
    match sizes.get(class as usize) {
        Some(size) => *size,
        None => 0,
    }
}

/// One member more of a class.
fn count_in(sizes: &mut Vec<u32>, class: u32) {
    if let Some(size) = sizes.get_mut(class as usize) {
        *size = size.saturating_add(1);
    }
}

/// One member less.
fn count_out(sizes: &mut Vec<u32>, class: u32) {
    if let Some(size) = sizes.get_mut(class as usize) {
        *size = size.saturating_sub(1);
    }
}

/// So many zeros.
pub(crate) fn zeros(alloc: Global, count: u32) -> Result<Vec<u32>, NoMemory>
    ensures { IfOk result (λ made. made.items ≡ replicate count 0) }
{
    let mut made = Vec::new(alloc);
    for _ in 0..count {
        if made.push(0).is_err() {
            return Err(NoMemory);
        }
    }
    Ok(made)
}

/// The states in the classes that are given, of which there are so many.
pub(crate) fn grouped(alloc: Global, classes: Vec<u32>, count: u32) -> Result<Groups, NoMemory>
    requires below { (state class : ℕ) → slice_get classes.items state ≡ Some class → class < count }
    requires small { length classes.items ≤ 4294967295 }
    ensures classes { IfOk result (λ made. made.classes.items ≡ classes.items) }
    ensures count { IfOk result (λ made. length made.members.items ≡ count) }
    ensures listed { IfOk result (λ made. AreListed classes.items made.members.items) }
    ensures below { IfOk result (λ made. AreBelow (length classes.items) made.members.items) }
{
    let mut members = no_lists(alloc, count)?;
    let mut sizes = zeros(alloc, count)?;
    for state in 0..classes.len() as u32 {
        let class = classes[state as usize];
        note_one(&mut members, class, state)?;
        count_in(&mut sizes, class);
    }
    Ok(Groups {
        classes,
        members,
        sizes,
    })
}

/// A class more, without members.
fn add_class(groups: &mut Groups, alloc: Global) -> Result<(), NoMemory>
    ensures classes { OnOk result (groups.new.classes.items ≡ groups.old.classes.items) }
    ensures members { OnOk result (groups.new.members.items ≡ groups.old.members.items ++ [] ∷ []) }
{
    if groups.members.push(List::new(alloc)).is_err() {
        return Err(NoMemory);
    }
    if groups.sizes.push(0).is_err() {
        return Err(NoMemory);
    }
    Ok(())
}

/// So many classes more, without members.
pub(crate) fn make_room(groups: &mut Groups, alloc: Global, count: u32) -> Result<(), NoMemory>
    ensures classes { OnOk result (groups.new.classes.items ≡ groups.old.classes.items) }
    ensures count { OnOk result (length groups.new.members.items ≡ length groups.old.members.items + count) }
    ensures kept { OnOk result ((class state : ℕ) → IsListed groups.old.members.items class state → IsListed groups.new.members.items class state) }
    ensures below { OnOk result ((bound : ℕ) → AreBelow bound groups.old.members.items → AreBelow bound groups.new.members.items) }
{
    for _ in 0..count {
        add_class(groups, alloc)?;
    }
    Ok(())
}

/// Gives a state its new class.
fn settle_state(groups: &mut Groups, state: u32, label: u32) -> Result<(), NoMemory>
    requires state { state < length groups.old.classes.items }
    requires label { label < length groups.old.members.items }
    requires listed { AreListed groups.old.classes.items groups.old.members.items }
    ensures count { OnOk result (length groups.new.classes.items ≡ length groups.old.classes.items) }
    ensures members { OnOk result (length groups.new.members.items ≡ length groups.old.members.items) }
    ensures own { OnOk result (slice_get groups.new.classes.items state ≡ Some label) }
    ensures others { OnOk result ((other : ℕ) → other ≢ state → slice_get groups.new.classes.items other ≡ slice_get groups.old.classes.items other) }
    ensures listed { OnOk result (AreListed groups.new.classes.items groups.new.members.items) }
    ensures below { OnOk result ((bound : ℕ) → state < bound → AreBelow bound groups.old.members.items → AreBelow bound groups.new.members.items) }
{
    let class = groups.classes[state as usize];
    if class != label {
        groups.classes[state as usize] = label;
        note_one(&mut groups.members, label, state)?;
        count_out(&mut groups.sizes, class);
        count_in(&mut groups.sizes, label);
    }
    Ok(())
}

/// Gives the states that are due their new classes.
pub(crate) fn settle(groups: &mut Groups, due: &Pairs, labels: &[u32]) -> Result<(), NoMemory>
    requires due { (state : ℕ) → IsDue due.now state → state < length groups.old.classes.items }
    requires labels { length labels.now ≡ length due.now }
    requires within { (place label : ℕ) → slice_get labels.now place ≡ Some label → label < length groups.old.members.items }
    requires listed { AreListed groups.old.classes.items groups.old.members.items }
    ensures moved { OnOk result (IsMoved groups.old.classes.items groups.new.classes.items groups.new.members.items due.now labels.now (length due.now)) }
    ensures members { OnOk result (length groups.new.members.items ≡ length groups.old.members.items) }
    ensures below { OnOk result (AreBelow (length groups.old.classes.items) groups.old.members.items → AreBelow (length groups.old.classes.items) groups.new.members.items) }
{
    for place in 0..due.len() {
        let (state, _) = due.get(place);
        settle_state(groups, state, labels[place as usize])?;
    }
    Ok(())
}
