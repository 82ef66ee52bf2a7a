ghost use Rattle.std.specs.Prelude.{◌≡◌, ◌↔◌, ◌<◌, ◌^◌, ◌++◌, ◌∷◌, [], ℕ, IfOk, IsTrue, Some, length, slice_get};
ghost use Rattle.ms_dfa.specs.Files.{content_of_file};
ghost use Rattle.ms_logic.specs.FiniteSet.{numbers_below};
ghost use Rattle.ms_logic_words.specs.Content.{AreLetters, IsContent};
ghost use Rattle.ms_cert.specs.Certificate.{AreApart, IsLineOver};
ghost use Rattle.ms_cert.specs.declared.cert.TreeLine.{TreeLine as ALine};
ghost use Rattle.ms_cert.specs.declared.cert.TreeLine.TheVariants.{By};
ghost use Rattle.ms_cert.specs.inner.Partition.{AreEarlier, IsBehind, IsPartition, classes_of};
ghost use Rattle.ms_cert.specs.inner.Separation.{AreStates, AreWaiting, Takes, lists_of};
ghost use Rattle.ms_cert.specs.inner.Slots.{slots_of};

use crate::cert::TreeLine;
use crate::laid_out::LaidOut;
use crate::partition::{Partition, append, class_behind, one_class, put, sides_by};
use crate::sign::is_same;
use crate::splitter::{Letters, Splitter};
use ms_dfa::FileSign;
use ms_list::{List, NoMemory, push};
use std::alloc::Global;

/// So many letters are run in the time in which it is found that an earlier line has them.
const FEW_LETTERS: usize = 16;

/// The two sides of a line.
#[derive(Drop)]
pub(crate) struct Sides {
    pub first: List<u32>,
    pub second: List<u32>,
}

/// Whether these are the same letters.
fn are_same(letters: &[List<bool>], others: &[List<bool>]) -> bool
    ensures { IsTrue result → letters.now ≡ others.now }
{
    if letters.len() != others.len() {
        return false;
    }
    for (place, letter) in letters.iter().enumerate() {
        if letter.slice() != others[place].slice() {
            return false;
        }
    }
    true
}

/// The class that was split off when the states of two classes parted, where that is found in so many turns; else 0.
fn near_parting(parents: &[usize], one: usize, other: usize, turns: usize) -> usize
    requires earlier { AreEarlier parents.now }
    requires one { one < length parents.now }
    requires other { other < length parents.now }
    ensures { result < length parents.now }
{
    let mut first = one;
    let mut second = other;
    'rising: for _ in 0..turns {
        if first == second {
            return 0;
        }
        if first < second {
            std::mem::swap(&mut first, &mut second);
        }
        let parent = parents[first];
        if parent == second {
            return first;
        }
        first = parent;
    }
    0
}

/// The class that was split off when the states first parted to which a letter leads from these, as far as that is found in so many
/// turns for each; 0 where they are of one class.
fn parted(
    file: &LaidOut,
    partition: &Partition,
    states: &[u32],
    letter: &[bool],
    turns: usize,
) -> usize
    requires content { IsContent (content_of_file file.now.plain.now) }
    requires slots { file.now.slots.now ≡ slots_of file.now.plain.now }
    requires partition { IsPartition (content_of_file file.now.plain.now) (classes_of partition.now) }
    requires states { AreStates file.now.plain.now states.now }
    ensures { result < length partition.now.parents.items }
{
    if states.is_empty() {
        return 0;
    }
    let first = class_behind(file, partition, states[0], letter);
    let mut least = 0usize;
    for state in states {
        let class = class_behind(file, partition, *state, letter);
        let split = near_parting(partition.parents.as_slice(), first, class, turns);
        if least == 0 || (split > 0 && split < least) {
            least = split;
        }
    }
    least
}

/// The class by whose splitter the states part to which the first letter leads, where that has the letters behind it; else 0. It is
/// not looked for where the letters are few, since they are run as soon.
fn tail_of(
    file: &LaidOut,
    partition: &Partition,
    states: &[u32],
    sign: FileSign,
    letters: &[List<bool>],
) -> usize
    requires content { IsContent (content_of_file file.now.plain.now) }
    requires slots { file.now.slots.now ≡ slots_of file.now.plain.now }
    requires partition { IsPartition (content_of_file file.now.plain.now) (classes_of partition.now) }
    requires states { AreStates file.now.plain.now states.now }
    ensures { IsBehind (classes_of partition.now) (record { sign = sign; letters = letters.now; tail = result }) }
{
    let [letter, behind @ ..] = letters else {
        return 0;
    };
    if behind.len() < FEW_LETTERS {
        return 0;
    }
    let split = parted(file, partition, states, letter.slice(), behind.len());
    let found = &partition.splitters[split];
    if is_same(found.sign, sign) && are_same(found.letters.slice(), behind) {
        split
    } else {
        0
    }
}

/// What a line splits the states of a class by.
fn splitter_of<'a>(
    file: &LaidOut,
    partition: &Partition,
    states: &[u32],
    sign: FileSign,
    letters: &'a [List<bool>],
) -> Splitter<'a>
    requires content { IsContent (content_of_file file.now.plain.now) }
    requires slots { file.now.slots.now ≡ slots_of file.now.plain.now }
    requires partition { IsPartition (content_of_file file.now.plain.now) (classes_of partition.now) }
    requires states { AreStates file.now.plain.now states.now }
    ensures sign { result.sign ≡ sign }
    ensures letters { result.letters ≡ letters.now }
    ensures behind { IsBehind (classes_of partition.now) result }
{
    let tail = tail_of(file, partition, states, sign, letters);
    Splitter {
        sign,
        letters: Letters::lent(file.alloc, letters),
        tail,
    }
}

/// Splits a class, whose two sides wait from now on, and answers whether both have a state.
fn part<'a>(
    file: &LaidOut,
    splitter: Splitter<'a>,
    class: usize,
    partition: &mut Partition<'a>,
    waiting: &mut Vec<usize>,
) -> Result<bool, NoMemory>
    requires few { length file.now.plain.now.states < 2 ^ 32 }
    requires content { IsContent (content_of_file file.now.plain.now) }
    requires slots { file.now.slots.now ≡ slots_of file.now.plain.now }
    requires partition { IsPartition (content_of_file file.now.plain.now) (classes_of partition.old) }
    requires behind { IsBehind (classes_of partition.old) splitter }
    requires over { AreLetters (content_of_file file.now.plain.now).variables splitter.letters }
    requires waiting { AreWaiting partition.old.members.items (waiting.old.items ++ class ∷ []) }
    ensures partition { IfOk result (λ parted. IsTrue parted → IsPartition (content_of_file file.now.plain.now) (classes_of partition.new)) }
    ensures waiting { IfOk result (λ parted. IsTrue parted → AreWaiting partition.new.members.items waiting.new.items) }
    ensures takes { IfOk result (Takes (content_of_file file.now.plain.now) (By splitter.entry.sign splitter.entry.letters) (lists_of partition.old.members.items (waiting.old.items ++ class ∷ [])) (lists_of partition.new.members.items waiting.new.items)) }
{
    let sides = sides_by(
        file,
        &*partition,
        &splitter,
        partition.members[class].slice(),
    )?;
    if sides.first.is_empty() || sides.second.is_empty() {
        return Ok(false);
    }
    let count = partition.parents.len();
    put(partition, class, splitter, sides)?;
    append(waiting, class)?;
    append(waiting, count)?;
    Ok(true)
}

/// Whether this state alone is among them.
fn is_only(states: &[u32], own: u32) -> bool
    ensures { IsTrue result ↔ (states.now ≡ own ∷ []) }
{
    match states {
        [state] => *state == own,
        _ => false,
    }
}

/// Takes a line of the tree for the class that waits last, and answers whether the lines may go on.
fn take<'a>(
    file: &LaidOut,
    line: &'a TreeLine,
    partition: &mut Partition<'a>,
    waiting: &mut Vec<usize>,
) -> Result<bool, NoMemory>
    requires few { length file.now.plain.now.states < 2 ^ 32 }
    requires content { IsContent (content_of_file file.now.plain.now) }
    requires slots { file.now.slots.now ≡ slots_of file.now.plain.now }
    requires over { IsLineOver (content_of_file file.now.plain.now).variables line.now }
    requires partition { IsPartition (content_of_file file.now.plain.now) (classes_of partition.old) }
    requires waiting { AreWaiting partition.old.members.items waiting.old.items }
    ensures partition { IfOk result (λ goes_on. IsTrue goes_on → IsPartition (content_of_file file.now.plain.now) (classes_of partition.new)) }
    ensures waiting { IfOk result (λ goes_on. IsTrue goes_on → AreWaiting partition.new.members.items waiting.new.items) }
    ensures takes { IfOk result (Takes (content_of_file file.now.plain.now) line.now (lists_of partition.old.members.items waiting.old.items) (lists_of partition.new.members.items waiting.new.items)) }
{
    let Some(class) = waiting.pop() else {
        return Ok(false);
    };
    match line {
        TreeLine::At(own) => Ok(is_only(partition.members[class].slice(), *own)),
        TreeLine::By(sign, letters) => {
            let states = partition.members[class].slice();
            let splitter = splitter_of(file, &*partition, states, *sign, letters.slice());
            part(file, splitter, class, partition, waiting)
        }
    }
}

/// All states.
pub(crate) fn all_states(alloc: Global, count: u32) -> Result<List<u32>, NoMemory>
    ensures { IfOk result (λ states. states ≡ numbers_below count) }
{
    let mut states = List::new(alloc);
    for state in 0..count {
        push(&mut states, state)?;
    }
    Ok(states)
}

/// Whether the lines spell one tree, which separates all states.
pub(crate) fn are_apart(file: &LaidOut, lines: &[TreeLine]) -> Result<bool, NoMemory>
    requires few { length file.now.plain.now.states < 2 ^ 32 }
    requires content { IsContent (content_of_file file.now.plain.now) }
    requires slots { file.now.slots.now ≡ slots_of file.now.plain.now }
    requires over { (place : ℕ) (line : ALine) → slice_get lines.now place ≡ Some line → IsLineOver (content_of_file file.now.plain.now).variables line }
    ensures { IfOk result (λ apart. IsTrue apart ↔ AreApart (content_of_file file.now.plain.now) lines.now) }
{
    let mut partition = one_class(file.alloc, file.plain)?;
    partition.room = usize::MAX;
    let mut waiting = Vec::new(file.alloc);
    append(&mut waiting, 0)?;
    for line in lines {
        if !take(file, line, &mut partition, &mut waiting)? {
            return Ok(false);
        }
    }
    Ok(waiting.is_empty())
}
