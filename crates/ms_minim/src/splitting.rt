ghost use Rattle.std.specs.Prelude.{◌≡◌, ◌≤◌, length, IfOk};
ghost use Rattle.ms_minim.specs.inner.Partition.{IsInhabited};
ghost use Rattle.ms_minim.specs.inner.Split.{IsPlacedBehind, IsSplit};

use crate::classes::Partition;
use crate::marking::number;
use ms_diagram::Pairs;
use ms_list::{List, NoMemory, push};
use std::alloc::Global;

/// The new class of a state of an old class with a mark, where keys of other classes are in front of these. Where the class is
/// new, the state is the one that it is known by.
fn place(
    keys: &mut Pairs,
    members: &mut List<u32>,
    class: u32,
    mark: u32,
    state: u32,
) -> Result<u32, NoMemory>
    requires { length keys.old ≤ length members.old }
    ensures placed { IfOk result (IsPlacedBehind keys.old members.old keys.new members.new (class, mark) state) }
{
    let count = members.len();
    if count >= u32::MAX as usize {
        return Err(NoMemory);
    }
    let first = count - keys.len() as usize;
    let made = first + number(keys, class, mark)? as usize;
    if made == count {
        push(members, state)?;
    }
    Ok(made as u32)
}

fn copy(alloc: Global, items: &[u32]) -> Result<List<u32>, NoMemory>
    ensures { IfOk result (λ made. made ≡ items.now) }
{
    match Vec::from_slice(alloc, items) {
        Ok(made) => Ok(List::from(made)),
        Err(_) => Err(NoMemory),
    }
}

/// The classes, split where their states have different marks. The old classes keep their numbers.
pub(crate) fn split(alloc: Global, old: &Partition, marks: &[u32]) -> Result<Partition, NoMemory>
    requires inhabited { IsInhabited old.now.classes old.now.members }
    requires marks { length marks.now ≡ length old.now.classes }
    requires small { length old.now.classes ≤ 4294967295 }
    ensures { IfOk result (λ made. IsSplit old.now.classes old.now.members marks.now made.classes made.members) }
{
    // What has the mark of the state that its class is known by stays there, so keys are those of new classes alone.
    let mut keys = Pairs::new(alloc);
    let mut members = copy(alloc, old.members.slice())?;
    let mut classes = List::new(alloc);
    for state in 0..old.classes.len() as u32 {
        let class = *old.classes.get(state as usize);
        let known = *old.members.get(class as usize);
        let mark = marks[state as usize];
        let made = if marks[known as usize] == mark {
            class
        } else {
            place(&mut keys, &mut members, class, mark, state)?
        };
        push(&mut classes, made)?;
    }
    Ok(Partition { classes, members })
}
