ghost use Rattle.std.specs.Prelude.{◌≡◌, ◌<◌, ◌≤◌, ℕ, length, IfOk, OnOk};
ghost use Rattle.ms_minim.specs.inner.Grouping.{AreGrouped, AreSplitters, NeverSplits};
ghost use Rattle.ms_minim.specs.inner.Partition.{IsIdentity, IsPartition};
ghost use Rattle.ms_minim.specs.inner.Predecessors.{ArePredecessors};

use crate::classes::{Partition, Plan};
use crate::due::due;
use crate::grouping::{Groups, grouped, make_room, settle, size_of, zeros};
use crate::predecessors::predecessors;
use crate::reading::Reader;
use crate::signatures::{Choice, labels, nothing_seen};
use crate::splitters::{Splitters, all_but_largest, choose, more_classes};
use ms_list::{List, NoMemory, push};
use std::alloc::Global;

/// A class that most states are in, among the first so many.
fn most(sizes: &[u32], count: u32) -> u32 {
    let mut most = 0;
    for class in 0..count {
        if size_of(sizes, class) > size_of(sizes, most) {
            most = class;
        }
    }
    most
}

/// The first so many classes but one that most states are in.
fn all_but_most(alloc: Global, sizes: &[u32], count: u32) -> Result<List<u32>, NoMemory> {
    let most = most(sizes, count);
    let mut made = List::new(alloc);
    for class in 0..count {
        if class != most {
            push(&mut made, class)?;
        }
    }
    Ok(made)
}

/// Splits each class by where its states lead among the chosen classes. What is split off is chosen next, and where it is
/// larger than what is left, that is in its place.
fn round(
    plan: &Plan,
    predecessors: &[List<u32>],
    groups: &mut Groups,
    splitters: &mut Splitters,
) -> Result<(), NoMemory>
    requires places { IsIdentity (length plan.now.automaton.now.variables) plan.now.places.now }
    requires predecessors { ArePredecessors plan.now.automaton.now predecessors.now }
    requires groups { AreGrouped plan.now.automaton.now groups.old.classes.items groups.old.members.items }
    requires splitters { AreSplitters splitters.old.chosen splitters.old.numbers.items }
    requires numbered { length splitters.old.numbers.items ≡ length groups.old.members.items }
    ensures groups { OnOk result (AreGrouped plan.now.automaton.now groups.new.classes.items groups.new.members.items) }
    ensures splitters { OnOk result (AreSplitters splitters.new.chosen splitters.new.numbers.items) }
    ensures numbered { OnOk result (length splitters.new.numbers.items ≡ length groups.new.members.items) }
{
    if groups.members.len() > u32::MAX as usize {
        return Err(NoMemory);
    }
    // The states tell that it is an automaton.
    let _ = plan.automaton.states();
    let mut seen = nothing_seen(plan.alloc, groups.members.len() as u32)?;
    let due = due(
        plan.alloc,
        predecessors,
        &groups.classes,
        &groups.members,
        splitters.chosen.slice(),
    )?;
    let choice = Choice {
        classes: &groups.classes,
        splitters: &splitters.numbers,
    };
    let labels = labels(plan, &mut seen, &choice, &due)?;
    make_room(groups, plan.alloc, seen.keys.len())?;
    more_classes(splitters, seen.keys.len())?;
    settle(groups, &due, labels.slice())?;
    let next = all_but_largest(plan.alloc, groups, &seen)?;
    choose(splitters, next);
    Ok(())
}

/// Classes of the states that tell no two states with equal residuals apart: those that are given, split over and over by
/// where their states lead among the classes that were split off last (Hopcroft, 1971).
pub(crate) fn group(
    alloc: Global,
    automaton: &Reader,
    places: &[u32],
    partition: &Partition,
) -> Result<Vec<u32>, NoMemory>
    requires places { IsIdentity (length automaton.now.variables) places.now }
    requires partition { IsPartition automaton.now partition.now.classes partition.now.members }
    ensures all { IfOk result (λ made. length made.items ≡ length automaton.now.states) }
    ensures kept { IfOk result (λ made. NeverSplits automaton.now made.items) }
{
    let plan = Plan {
        alloc,
        automaton,
        places,
    };
    let states = automaton.states();
    let count = partition.members.len() as u32;
    let predecessors = predecessors(alloc, automaton)?;
    let Ok(classes) = Vec::from_slice(alloc, partition.classes.slice()) else {
        return Err(NoMemory);
    };
    let mut groups = grouped(alloc, classes, count)?;
    let mut splitters = Splitters {
        chosen: List::new(alloc),
        numbers: zeros(alloc, count)?,
    };
    choose(&mut splitters, all_but_most(alloc, &groups.sizes, count)?);
    for _ in 0..states {
        if splitters.chosen.len() == 0 {
            break;
        }
        round(&plan, &predecessors, &mut groups, &mut splitters)?;
    }
    Ok(groups.classes)
}
