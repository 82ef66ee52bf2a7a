ghost use Rattle.std.specs.Prelude.{◌≡◌, ◌<◌, ◌≤◌, ◌^◌, ◌++◌, ℕ, List as Sequence, Some, length, slice_get, IfNone, IfOk, IfSome, OnOk};
ghost use Rattle.ms_dfa.specs.Files.{content_of_file};
ghost use Rattle.ms_logic_words.specs.Canonical.{IsCanonical};
ghost use Rattle.ms_logic_words.specs.Content.{AreLetters, IsContent, count_of, is_in_letters};
ghost use Rattle.ms_cert.specs.inner.Images.{AreImages, IsImageBehind};
ghost use Rattle.ms_cert.specs.inner.Partition.{IsBehind, IsDiscrete, IsPartition, classes_of};
ghost use Rattle.ms_cert.specs.inner.Refinement.{AreAlike, AreAllAlike, AreSettled, LeadTogether, LeadsApart, Refines, TellsApart, TellsSomeApart};
ghost use Rattle.ms_cert.specs.inner.Separation.{AreStates};
ghost use Rattle.ms_cert.specs.inner.Slots.{slots_of};

use crate::difference::bits_apart;
use crate::images::{Images, image, images_of};
use crate::laid_out::LaidOut;
use crate::levels::{copy_bits, gather};
use crate::partition::{Partition, one_class, parting, split_off};
use crate::running::state_after;
use crate::sign::is_same;
use crate::splitter::{Letters, Splitter};
use ms_arena::Ref;
use ms_dfa::Part;
use ms_list::{List, NoMemory, push};
use std::alloc::Global;

/// A file, the classes of its states as a round finds them, and what its nodes become with these.
#[derive(Drop)]
struct Round<'a> {
    file: &'a LaidOut<'a>,
    classes: &'a [u32],
    images: &'a Images,
}

/// Appends copies of letters.
fn append_letters(
    alloc: Global,
    made: &mut List<List<bool>>,
    letters: &[List<bool>],
) -> Result<(), NoMemory>
    ensures { OnOk result (made.new ≡ made.old ++ letters.now) }
{
    for letter in letters {
        push(made, copy_bits(alloc, letter.slice())?)?;
    }
    Ok(())
}

/// The splitter by which the states parted to which the letter leads from two states, behind the letter.
fn behind_letter<'a>(
    round: &Round,
    partition: &Partition,
    letter: List<bool>,
    one: u32,
    other: u32,
) -> Result<Splitter<'a>, NoMemory>
    requires content { IsContent (content_of_file round.now.file.now.plain.now) }
    requires slots { round.now.file.now.slots.now ≡ slots_of round.now.file.now.plain.now }
    requires partition { IsPartition (content_of_file round.now.file.now.plain.now) (classes_of partition.now) }
    requires refines { Refines partition.now.classes.items round.now.classes.now }
    requires letter { length letter ≡ count_of is_in_letters (content_of_file round.now.file.now.plain.now).variables }
    requires apart { LeadsApart (content_of_file round.now.file.now.plain.now) round.now.classes.now one other letter }
    requires one { one < length round.now.file.now.plain.now.states }
    requires other { other < length round.now.file.now.plain.now.states }
    ensures over { IfOk result (λ made. AreLetters (content_of_file round.now.file.now.plain.now).variables made.letters) }
    ensures apart { IfOk result (λ made. TellsApart (content_of_file round.now.file.now.plain.now) one other made) }
    ensures behind { IfOk result (IsBehind (classes_of partition.now)) }
{
    let file = round.file;
    let mut letters = List::new(file.alloc);
    push(&mut letters, letter)?;
    let first = state_after(file.plain, file.slots, one, letters.slice());
    let second = state_after(file.plain, file.slots, other, letters.slice());
    let first_class = partition.classes[first as usize] as usize;
    let second_class = partition.classes[second as usize] as usize;
    let split = parting(partition.parents.as_slice(), first_class, second_class);
    let found = &partition.splitters[split];
    append_letters(file.alloc, &mut letters, found.letters.slice())?;
    Ok(Splitter {
        sign: found.sign,
        letters: Letters::own(letters),
        tail: split,
    })
}

/// What the diagram behind a state has become.
fn image_behind(round: &Round, state: u32) -> Ref
    requires content { IsContent (content_of_file round.now.file.now.plain.now) }
    requires images { AreImages round.now.file.now.plain.now round.now.classes.now round.now.images.now }
    requires state { state < length round.now.file.now.plain.now.states }
    ensures { IsImageBehind round.now.file.now.plain.now round.now.classes.now round.now.images.now state result }
{
    let next = round.file.plain.states.get(state as usize).next;
    image(round.images.list.slice(), round.classes, next)
}

/// A letter that leads from two states to different classes.
fn letter_apart(round: &Round, one: u32, other: u32) -> Result<Option<List<bool>>, NoMemory>
    requires content { IsContent (content_of_file round.now.file.now.plain.now) }
    requires images { AreImages round.now.file.now.plain.now round.now.classes.now round.now.images.now }
    requires one { one < length round.now.file.now.plain.now.states }
    requires other { other < length round.now.file.now.plain.now.states }
    ensures long { IfOk result (λ found. IfSome found (λ letter. length letter ≡ count_of is_in_letters (content_of_file round.now.file.now.plain.now).variables)) }
    ensures apart { IfOk result (λ found. IfSome found (LeadsApart (content_of_file round.now.file.now.plain.now) round.now.classes.now one other)) }
    ensures none { IfOk result (λ found. IfNone found (LeadTogether (content_of_file round.now.file.now.plain.now) round.now.classes.now one other)) }
{
    let one_image = image_behind(round, one);
    let other_image = image_behind(round, other);
    if round.images.store.same(one_image, other_image) {
        return Ok(None);
    }
    let file = round.file;
    let count = file.plain.variables.len();
    let bits = bits_apart(
        file.alloc,
        &round.images.store,
        one_image,
        other_image,
        count,
    )?;
    let letter = gather(file.alloc, file.plain, Part::Letters, bits.as_slice())?;
    Ok(Some(letter))
}

/// What tells two states apart: their signs, or the classes to which a letter leads.
fn difference<'a>(
    round: &Round,
    partition: &Partition,
    one: u32,
    other: u32,
) -> Result<Option<Splitter<'a>>, NoMemory>
    requires content { IsContent (content_of_file round.now.file.now.plain.now) }
    requires slots { round.now.file.now.slots.now ≡ slots_of round.now.file.now.plain.now }
    requires images { AreImages round.now.file.now.plain.now round.now.classes.now round.now.images.now }
    requires partition { IsPartition (content_of_file round.now.file.now.plain.now) (classes_of partition.now) }
    requires refines { Refines partition.now.classes.items round.now.classes.now }
    requires one { one < length round.now.file.now.plain.now.states }
    requires other { other < length round.now.file.now.plain.now.states }
    ensures over { IfOk result (λ found. IfSome found (λ splitter. AreLetters (content_of_file round.now.file.now.plain.now).variables splitter.letters)) }
    ensures behind { IfOk result (λ found. IfSome found (IsBehind (classes_of partition.now))) }
    ensures apart { IfOk result (λ found. IfSome found (TellsApart (content_of_file round.now.file.now.plain.now) one other)) }
    ensures none { IfOk result (λ found. IfNone found (AreAlike (content_of_file round.now.file.now.plain.now) round.now.classes.now one other)) }
{
    let plain = round.file.plain;
    let first = plain.states.get(one as usize).sign;
    let second = plain.states.get(other as usize).sign;
    if !is_same(first, second) {
        return Ok(Some(Splitter {
            sign: first,
            letters: Letters::own(List::new(round.file.alloc)),
            tail: 0,
        }));
    }
    match letter_apart(round, one, other)? {
        Some(letter) => Ok(Some(behind_letter(round, partition, letter, one, other)?)),
        None => Ok(None),
    }
}

/// What tells two of the states apart.
fn difference_among<'a>(
    round: &Round,
    partition: &Partition,
    states: &[u32],
) -> Result<Option<Splitter<'a>>, NoMemory>
    requires content { IsContent (content_of_file round.now.file.now.plain.now) }
    requires slots { round.now.file.now.slots.now ≡ slots_of round.now.file.now.plain.now }
    requires images { AreImages round.now.file.now.plain.now round.now.classes.now round.now.images.now }
    requires partition { IsPartition (content_of_file round.now.file.now.plain.now) (classes_of partition.now) }
    requires refines { Refines partition.now.classes.items round.now.classes.now }
    requires states { AreStates round.now.file.now.plain.now states.now }
    ensures over { IfOk result (λ found. IfSome found (λ splitter. AreLetters (content_of_file round.now.file.now.plain.now).variables splitter.letters)) }
    ensures behind { IfOk result (λ found. IfSome found (IsBehind (classes_of partition.now))) }
    ensures apart { IfOk result (λ found. IfSome found (TellsSomeApart (content_of_file round.now.file.now.plain.now) states.now)) }
    ensures none { IfOk result (λ found. IfNone found (AreAllAlike (content_of_file round.now.file.now.plain.now) round.now.classes.now states.now)) }
{
    if states.is_empty() {
        return Ok(None);
    }
    let first = states[0];
    for state in states {
        match difference(round, partition, first, *state)? {
            Some(found) => return Ok(Some(found)),
            None => {}
        }
    }
    Ok(None)
}

/// What tells two states of a class apart.
fn difference_in<'a>(
    round: &Round,
    partition: &Partition,
    class: usize,
) -> Result<Option<Splitter<'a>>, NoMemory>
    requires content { IsContent (content_of_file round.now.file.now.plain.now) }
    requires slots { round.now.file.now.slots.now ≡ slots_of round.now.file.now.plain.now }
    requires images { AreImages round.now.file.now.plain.now round.now.classes.now round.now.images.now }
    requires partition { IsPartition (content_of_file round.now.file.now.plain.now) (classes_of partition.now) }
    requires refines { Refines partition.now.classes.items round.now.classes.now }
    requires class { class < length partition.now.members.items }
    ensures over { IfOk result (λ found. IfSome found (λ splitter. AreLetters (content_of_file round.now.file.now.plain.now).variables splitter.letters)) }
    ensures behind { IfOk result (λ found. IfSome found (IsBehind (classes_of partition.now))) }
    ensures apart { IfOk result (λ found. IfSome found (λ splitter. (states : Sequence ℕ) → slice_get partition.now.members.items class ≡ Some states → TellsSomeApart (content_of_file round.now.file.now.plain.now) states splitter)) }
    ensures none { IfOk result (λ found. IfNone found ((states : Sequence ℕ) → slice_get partition.now.members.items class ≡ Some states → AreAllAlike (content_of_file round.now.file.now.plain.now) round.now.classes.now states)) }
{
    difference_among(round, partition, partition.members[class].slice())
}

/// Splits each class, until no two states of a class differ by their signs or by the classes, as they were before, to which
/// letters lead.
fn refine_once(file: &LaidOut, partition: &mut Partition) -> Result<(), NoMemory>
    requires few { length file.now.plain.now.states < 2 ^ 32 }
    requires content { IsContent (content_of_file file.now.plain.now) }
    requires slots { file.now.slots.now ≡ slots_of file.now.plain.now }
    requires partition { IsPartition (content_of_file file.now.plain.now) (classes_of partition.old) }
    ensures partition { OnOk result (IsPartition (content_of_file file.now.plain.now) (classes_of partition.new)) }
    ensures longer { OnOk result (length partition.old.members.items ≤ length partition.new.members.items) }
    ensures settled { OnOk result (length partition.new.members.items ≡ length partition.old.members.items → AreSettled (content_of_file file.now.plain.now) partition.new.classes.items) }
{
    let Ok(classes) = Vec::from_slice(file.alloc, partition.classes.as_slice()) else {
        return Err(NoMemory);
    };
    let images = images_of(file.alloc, file.plain, classes.as_slice())?;
    let round = Round {
        file: &*file,
        classes: classes.as_slice(),
        images: &images,
    };
    let mut class = 0usize;
    while class < partition.members.len() {
        let found = difference_in(&round, partition, class)?;
        if let Some(splitter) = found {
            split_off(file, class, splitter, partition)?;
        } else {
            class += 1;
        }
    }
    Ok(())
}

/// Classes of one state each, for a file whose states differ: all states in one class, split round by round (Moore, 1956).
pub(crate) fn refine<'a>(file: &LaidOut) -> Result<Partition<'a>, NoMemory>
    requires few { length file.now.plain.now.states < 2 ^ 32 }
    requires canonical { IsCanonical (content_of_file file.now.plain.now) }
    requires slots { file.now.slots.now ≡ slots_of file.now.plain.now }
    ensures partition { IfOk result (λ made. IsPartition (content_of_file file.now.plain.now) (classes_of made)) }
    ensures discrete { IfOk result (λ made. IsDiscrete made.classes.items) }
{
    let mut partition = one_class(file.alloc, file.plain)?;
    'rounds: loop {
        let before = partition.members.len();
        refine_once(file, &mut partition)?;
        if partition.members.len() == before {
            return Ok(partition);
        }
    }
}
