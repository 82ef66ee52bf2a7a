ghost use Rattle.std.specs.Prelude.{◌≡◌, ◌≢◌, ◌<◌, ◌^◌, ◌∷◌, ◌++◌, [], ℕ, filter, length, not, slice_get, slice_set, IfOk, IfSome, OnOk, Some};
ghost use Rattle.ms_dfa.specs.Files.{content_of_file};
ghost use Rattle.ms_logic_words.specs.Content.{IsContent, next_state};
ghost use Rattle.ms_cert.specs.inner.Partition.{AreEarlier, IsBehind, IsIn, IsParting, IsPartition, StemsFrom, assigned, classes_of, is_split_off, one_class, with_sides, with_split};
ghost use Rattle.ms_cert.specs.inner.Separation.{AreStates};
ghost use Rattle.ms_cert.specs.inner.Slots.{slots_of};

use crate::laid_out::LaidOut;
use crate::room::{MOST_LETTERS, take_room};
use crate::running::{state_after, step};
use crate::separation::{Sides, all_states};
use crate::sign::is_same;
use crate::splitter::{Letters, Splitter};
use ms_dfa::{FileSign, Plain};
use ms_list::{List, NoMemory, push};
use std::alloc::Global;

/// Classes of states, each but the first of which was split off from an earlier one.
pub(crate) struct Partition<'a> {
    /// For each state its class.
    pub classes: Vec<u32>,
    /// For each class its states.
    pub members: Vec<List<u32>>,
    /// For each class the one from which it was split off.
    pub parents: Vec<usize>,
    /// For each class what it was split off by: from its states the letters end in the sign.
    pub splitters: Vec<Splitter<'a>>,
    /// How many letters further splitters may have.
    pub room: usize,
}

// Written out, so that a function that lets one go at each of its exits is proved at the cost of a call.
impl Drop for Partition<'_> {
    fn drop(self) {
        let Partition {
            classes: _,
            members: _,
            parents: _,
            splitters: _,
            room: _,
        } = self;
    }
}

/// Appends an item, which is let go where memory is refused.
pub(crate) fn append<T: Drop>(items: &mut Vec<T>, item: T) -> Result<(), NoMemory>
    ensures { OnOk result (items.new.items ≡ items.old.items ++ item ∷ []) }
{
    match items.push(item) {
        Ok(()) => Ok(()),
        Err(_) => Err(NoMemory),
    }
}

/// All states in one class, which was split off by nothing.
pub(crate) fn one_class<'a>(alloc: Global, plain: &Plain) -> Result<Partition<'a>, NoMemory>
    requires { length plain.now.states < 2 ^ 32 }
    ensures { IfOk result (λ made. classes_of made ≡ one_class (content_of_file plain.now)) }
{
    let count = plain.states.len();
    let Ok(classes) = vec![in alloc; 0u32; count] else {
        return Err(NoMemory);
    };
    let mut members = Vec::new(alloc);
    append(&mut members, all_states(alloc, count as u32)?)?;
    let mut parents = Vec::new(alloc);
    append(&mut parents, 0)?;
    let mut splitters = Vec::new(alloc);
    let nothing = Splitter {
        sign: FileSign::Plus,
        letters: Letters::own(List::new(alloc)),
        tail: 0,
    };
    append(&mut splitters, nothing)?;
    Ok(Partition {
        classes,
        members,
        parents,
        splitters,
        room: MOST_LETTERS,
    })
}

/// The states are in the class from now on.
fn assign(classes: &mut Vec<u32>, states: &[u32], class: u32)
    requires { (state : ℕ) → IsIn states.now state → state < length classes.old.items }
    ensures { classes.new.items ≡ assigned classes.old.items states.now class }
{
    for state in states {
        classes[*state as usize] = class;
    }
}

/// The list of a class is another one from now on.
fn replace(members: &mut Vec<List<u32>>, class: usize, states: List<u32>)
    requires { class < length members.old.items }
    ensures { members.new.items ≡ slice_set members.old.items class states }
{
    members[class] = states;
}

/// The class in which the states of a class were before those above a bound were split off, where it is found in so many turns.
fn stem(parents: &[usize], bound: usize, class: usize, turns: usize) -> Option<usize>
    requires earlier { AreEarlier parents.now }
    requires class { class < length parents.now }
    ensures { IfSome result (StemsFrom parents.now bound class) }
{
    let mut own = class;
    'rising: for _ in 0..turns {
        if own <= bound {
            return Some(own);
        }
        own = parents[own];
    }
    None
}

/// The class of the state to which a letter leads.
pub(crate) fn class_behind(
    file: &LaidOut,
    partition: &Partition,
    state: u32,
    letter: &[bool],
) -> usize
    requires content { IsContent (content_of_file file.now.plain.now) }
    requires slots { file.now.slots.now ≡ slots_of file.now.plain.now }
    requires partition { IsPartition (content_of_file file.now.plain.now) (classes_of partition.now) }
    requires state { state < length file.now.plain.now.states }
    ensures class { slice_get partition.now.classes.items (next_state (content_of_file file.now.plain.now) state letter.now) ≡ Some result }
    ensures within { result < length partition.now.parents.items }
{
    let next = step(file.plain, file.slots, state, letter);
    partition.classes[next as usize] as usize
}

/// Whether the letters of a splitter end in its sign from a state. Where its tail split the states apart to which its first letter
/// leads, their classes tell, if this is found as soon as the letters are run; else they are run.
fn is_split_off(file: &LaidOut, partition: &Partition, splitter: &Splitter, state: u32) -> bool
    requires content { IsContent (content_of_file file.now.plain.now) }
    requires slots { file.now.slots.now ≡ slots_of file.now.plain.now }
    requires partition { IsPartition (content_of_file file.now.plain.now) (classes_of partition.now) }
    requires behind { IsBehind (classes_of partition.now) splitter.now }
    requires state { state < length file.now.plain.now.states }
    ensures { result ≡ is_split_off (content_of_file file.now.plain.now) splitter.now state }
{
    if splitter.tail > 0 {
        let class = class_behind(file, partition, state, splitter.letters.get(0).slice());
        let turns = splitter.letters.len();
        if let Some(own) = stem(partition.parents.as_slice(), splitter.tail, class, turns) {
            if own == splitter.tail {
                return true;
            }
            if own == partition.parents[splitter.tail] {
                return false;
            }
        }
    }
    let last = state_after(file.plain, file.slots, state, splitter.letters.slice());
    is_same(file.plain.states.get(last as usize).sign, splitter.sign)
}

/// The states from which the letters of a splitter end in its sign, and the others.
pub(crate) fn sides_by(
    file: &LaidOut,
    partition: &Partition,
    splitter: &Splitter,
    states: &[u32],
) -> Result<Sides, NoMemory>
    requires content { IsContent (content_of_file file.now.plain.now) }
    requires slots { file.now.slots.now ≡ slots_of file.now.plain.now }
    requires partition { IsPartition (content_of_file file.now.plain.now) (classes_of partition.now) }
    requires behind { IsBehind (classes_of partition.now) splitter.now }
    requires states { AreStates file.now.plain.now states.now }
    ensures first { IfOk result (λ sides. sides.first ≡ filter (is_split_off (content_of_file file.now.plain.now) splitter.now) states.now) }
    ensures second { IfOk result (λ sides. sides.second ≡ filter (λ state. not (is_split_off (content_of_file file.now.plain.now) splitter.now state)) states.now) }
{
    let mut first = List::new(file.alloc);
    let mut second = List::new(file.alloc);
    for state in states {
        if is_split_off(file, partition, splitter, *state) {
            push(&mut first, *state)?;
        } else {
            push(&mut second, *state)?;
        }
    }
    Ok(Sides { first, second })
}

/// The states of the first side make a class from now on, and those of the second are what is left of the old one.
pub(crate) fn put<'a>(
    partition: &mut Partition<'a>,
    class: usize,
    splitter: Splitter<'a>,
    sides: Sides,
) -> Result<(), NoMemory>
    requires few { length partition.old.parents.items < 2 ^ 32 }
    requires class { class < length partition.old.members.items }
    requires states { (state : ℕ) → IsIn sides.first state → state < length partition.old.classes.items }
    ensures { OnOk result (classes_of partition.new ≡ with_sides (classes_of partition.old) class splitter.entry sides) }
{
    take_room(&mut partition.room, splitter.letters.len())?;
    let count = partition.parents.len();
    let Sides { first, second } = sides;
    assign(&mut partition.classes, first.slice(), count as u32);
    replace(&mut partition.members, class, second);
    append(&mut partition.members, first)?;
    append(&mut partition.parents, class)?;
    append(&mut partition.splitters, splitter)
}

/// Splits off from a class the states from which the letters of the splitter end in its sign.
pub(crate) fn split_off<'a>(
    file: &LaidOut,
    class: usize,
    splitter: Splitter<'a>,
    partition: &mut Partition<'a>,
) -> Result<(), NoMemory>
    requires few { length file.now.plain.now.states < 2 ^ 32 }
    requires content { IsContent (content_of_file file.now.plain.now) }
    requires slots { file.now.slots.now ≡ slots_of file.now.plain.now }
    requires class { class < length partition.old.members.items }
    requires partition { IsPartition (content_of_file file.now.plain.now) (classes_of partition.old) }
    requires behind { IsBehind (classes_of partition.old) splitter }
    ensures { OnOk result (classes_of partition.new ≡ with_split (content_of_file file.now.plain.now) (classes_of partition.old) class splitter.entry) }
{
    let sides = sides_by(
        file,
        &*partition,
        &splitter,
        partition.members[class].slice(),
    )?;
    put(partition, class, splitter, sides)
}

/// The class that was split off when the states of two classes parted.
pub(crate) fn parting(parents: &[usize], one: usize, other: usize) -> usize
    requires earlier { AreEarlier parents.now }
    requires one { one < length parents.now }
    requires other { other < length parents.now }
    ensures within { result < length parents.now }
    ensures parting { one ≢ other → IsParting parents.now one other result }
{
    let mut first = one;
    let mut second = other;
    while first != second {
        if first > second {
            let parent = parents[first];
            if parent == second {
                return first;
            }
            first = parent;
        } else {
            let parent = parents[second];
            if parent == first {
                return second;
            }
            second = parent;
        }
    }
    0
}
