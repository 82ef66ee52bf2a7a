ghost use Rattle.std.specs.Prelude.{◌≡◌, ◌≢◌, ◌<◌, ℕ, ◌+◌, length, slice_get, slice_index, Some, IfOk, OnOk};
ghost use Rattle.ms_minim.specs.inner.Grouping.{AreSplitters};

use crate::grouping::{Groups, size_of};
use crate::signatures::Seen;
use indexmap::IndexMap;
use ms_list::{List, NoMemory, push};
use std::alloc::Global;

/// The classes that are chosen to split others, and a number for each class, which is 0 where it is not chosen.
pub(crate) struct Splitters {
    pub chosen: List<u32>,
    pub numbers: Vec<u32>,
}

impl Drop for Splitters {
    fn drop(self) {
        let Splitters {
            chosen: _,
            numbers: _,
        } = self;
    }
}

/// The number of a class, where there is one, is another.
fn set(numbers: &mut Vec<u32>, class: u32, number: u32)
    ensures count { length numbers.new.items ≡ length numbers.old.items }
    ensures own { class < length numbers.old.items → slice_index numbers.new.items class ≡ number }
    ensures others { (other : ℕ) → other ≢ class → slice_index numbers.new.items other ≡ slice_index numbers.old.items other }
{
    if (class as usize) < numbers.len() {
        numbers[class as usize] = number;
    }
}

/// These classes are chosen no more.
fn forget(numbers: &mut Vec<u32>, chosen: &[u32])
    requires { AreSplitters chosen.now numbers.old.items }
    ensures count { length numbers.new.items ≡ length numbers.old.items }
    ensures none { (class : ℕ) → slice_index numbers.new.items class ≡ 0 }
{
    for class in chosen {
        set(numbers, *class, 0);
    }
}

/// These classes are chosen.
fn number_each(numbers: &mut Vec<u32>, chosen: &[u32])
    requires { (class : ℕ) → slice_index numbers.old.items class ≡ 0 }
    ensures count { length numbers.new.items ≡ length numbers.old.items }
    ensures chosen { AreSplitters chosen.now numbers.new.items }
{
    for class in chosen {
        set(numbers, *class, class.saturating_add(1));
    }
}

/// Other classes are chosen.
pub(crate) fn choose(splitters: &mut Splitters, chosen: List<u32>)
    requires { AreSplitters splitters.old.chosen splitters.old.numbers.items }
    ensures count { length splitters.new.numbers.items ≡ length splitters.old.numbers.items }
    ensures chosen { AreSplitters splitters.new.chosen splitters.new.numbers.items }
{
    forget(&mut splitters.numbers, splitters.chosen.slice());
    number_each(&mut splitters.numbers, chosen.slice());
    splitters.chosen = chosen;
}

/// So many classes more, none of which is chosen.
pub(crate) fn more_classes(splitters: &mut Splitters, count: u32) -> Result<(), NoMemory>
    requires { AreSplitters splitters.old.chosen splitters.old.numbers.items }
    ensures count { OnOk result (length splitters.new.numbers.items ≡ length splitters.old.numbers.items + count) }
    ensures chosen { OnOk result (AreSplitters splitters.new.chosen splitters.new.numbers.items) }
{
    for _ in 0..count {
        if splitters.numbers.push(0).is_err() {
            return Err(NoMemory);
        }
    }
    Ok(())
}

/// The largest of the classes into which each class was split, where it is not what is left of the class itself.
fn largest(alloc: Global, groups: &Groups, seen: &Seen) -> Result<IndexMap<u32, u32>, NoMemory> {
    let mut made = IndexMap::new(alloc);
    for place in 0..seen.keys.len() {
        let (class, _) = seen.keys.get(place);
        let part = seen.first.saturating_add(place);
        let best = *made.get(&class).unwrap_or(&class);
        if size_of(&groups.sizes, part) > size_of(&groups.sizes, best) {
            if made.insert(class, part).is_err() {
                return Err(NoMemory);
            }
        }
    }
    Ok(made)
}

/// Of the classes into which each class was split, all but the largest.
pub(crate) fn all_but_largest(
    alloc: Global,
    groups: &Groups,
    seen: &Seen,
) -> Result<List<u32>, NoMemory> {
    let largest = largest(alloc, groups, seen)?;
    let mut made = List::new(alloc);
    for place in 0..seen.keys.len() {
        let (class, _) = seen.keys.get(place);
        let part = seen.first.saturating_add(place);
        let best = *largest.get(&class).unwrap_or(&class);
        push(&mut made, if best == part { class } else { part })?;
    }
    Ok(made)
}
