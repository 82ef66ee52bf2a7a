ghost use Rattle.std.specs.Prelude.{◌≡◌, ◌+◌, ◌<◌, ◌++◌, ◌∷◌, [], true, false, length, replicate, slice_get, slice_set, IfOk, OnOk, Some};
ghost use Rattle.ms_arena.specs.Diagram.{Bits, leaf_of};
ghost use Rattle.ms_dfa.specs.Files.{content_of_file};
ghost use Rattle.ms_dfa.specs.Narrow.{gathered};
ghost use Rattle.ms_dfa.specs.Part.{has_value};
ghost use Rattle.ms_dfafile.specs.File.{IsFile};
ghost use Rattle.ms_logic_words.specs.Canonical.{IsCanonical};
ghost use Rattle.ms_logic_words.specs.Content.{IsContent, NamesPart, bits_at};
ghost use Rattle.ms_cert.specs.Certificate.{AreWordsTo, GrowByLetters};
ghost use Rattle.ms_cert.specs.ShortestWords.{AreShortest};
ghost use Rattle.ms_cert.specs.inner.Levels.{AreUpTo, HasBegun, IsKept, IsReached, IsWordOf, Leads, MakesWords, level_of, made_word, reached_of, with_word};

use crate::partition::append;
use crate::room::{MOST_LETTERS, take_room};
use ms_arena::{Node, Ref};
use ms_dfa::{FileVar, Part, Plain, is_in};
use ms_list::{List, NoMemory, Word, push};
use std::alloc::Global;

/// What a search has reached.
#[derive(Drop)]
struct Found {
    /// For each state its word, where it is known.
    words: Vec<Word>,
    /// Whether the word of each state is known.
    known: Vec<bool>,
    /// Whether each node was seen.
    seen: Vec<bool>,
    /// The states whose words are known, in the order in which they came to be.
    order: Vec<u32>,
    /// How many letters further words may have.
    room: usize,
}

/// Where words go on: at the start with truth values, or behind a word with one letter more.
#[derive(Drop)]
struct Source<'a> {
    plain: &'a Plain,
    part: Part,
    word: Word,
}

pub(crate) fn copy_bits(alloc: Global, bits: &[bool]) -> Result<List<bool>, NoMemory>
    ensures { IfOk result (λ made. made ≡ bits.now) }
{
    match Vec::from_slice(alloc, bits) {
        Ok(made) => Ok(List::from(made)),
        Err(_) => Err(NoMemory),
    }
}

pub(crate) fn copy_letters(
    alloc: Global,
    letters: &[List<bool>],
) -> Result<List<List<bool>>, NoMemory>
    ensures { IfOk result (λ made. made ≡ letters.now) }
{
    // There is room for one letter more, which a longer word has.
    let Ok(mut made) = Vec::with_capacity(alloc, letters.len() + 1) else {
        return Err(NoMemory);
    };
    for letter in letters {
        append(&mut made, copy_bits(alloc, letter.slice())?)?;
    }
    Ok(List::from(made))
}

fn copy_word(alloc: Global, word: &Word) -> Result<Word, NoMemory>
    ensures { IfOk result (λ made. made ≡ word.now) }
{
    let truth = copy_bits(alloc, word.truth.slice())?;
    let letters = copy_letters(alloc, word.letters.slice())?;
    Ok(Word { truth, letters })
}

/// The bits with another one at a place.
fn with_bit(alloc: Global, bits: &[bool], place: usize, bit: bool) -> Result<List<bool>, NoMemory>
    requires { place < length bits.now }
    ensures { IfOk result (λ made. made ≡ slice_set bits.now place bit) }
{
    match Vec::from_slice(alloc, bits) {
        Ok(mut made) => {
            made[place] = bit;
            Ok(List::from(made))
        }
        Err(_) => Err(NoMemory),
    }
}

/// The bits of the variables that have a value in this part of a word.
pub(crate) fn gather(
    alloc: Global,
    plain: &Plain,
    part: Part,
    bits: &[bool],
) -> Result<List<bool>, NoMemory>
    requires { length bits.now ≡ length plain.now.variables }
    ensures { IfOk result (λ made. made ≡ gathered (has_value part) 0 (content_of_file plain.now).variables (bits_at bits.now)) }
{
    let mut made = List::new(alloc);
    for (place, variable) in plain.variables.slice().iter().enumerate() {
        if is_in(part, variable.order) {
            push(&mut made, bits[place])?;
        }
    }
    Ok(made)
}

/// The word that bits make behind a source.
fn word_by(alloc: Global, source: &Source, bits: &[bool]) -> Result<Word, NoMemory>
    requires { length bits.now ≡ length source.now.plain.now.variables }
    ensures { IfOk result (λ made. made ≡ made_word source.now.part source.now.word (content_of_file source.now.plain.now).variables (bits_at bits.now)) }
{
    let values = gather(alloc, source.plain, source.part, bits)?;
    match source.part {
        Part::Truth => Ok(Word {
            truth: values,
            letters: List::new(alloc),
        }),
        Part::Letters => {
            let truth = copy_bits(alloc, source.word.truth.slice())?;
            let mut letters = copy_letters(alloc, source.word.letters.slice())?;
            push(&mut letters, values)?;
            Ok(Word { truth, letters })
        }
    }
}

/// The word of a state is known from now on.
fn put(found: &mut Found, state: u32, word: Word) -> Result<(), NoMemory>
    requires words { state < length found.old.words.items }
    requires known { state < length found.old.known.items }
    ensures { OnOk result (reached_of found.new ≡ with_word (reached_of found.old) state word) }
{
    take_room(&mut found.room, word.letters.len())?;
    found.words[state as usize] = word;
    found.known[state as usize] = true;
    match found.order.push(state) {
        Ok(()) => Ok(()),
        Err(_) => Err(NoMemory),
    }
}

/// A word leads to the state.
fn reach(
    alloc: Global,
    source: &Source,
    bits: &[bool],
    state: u32,
    found: &mut Found,
) -> Result<(), NoMemory>
    requires state { state < length source.now.plain.now.states }
    requires word { IsWordOf (content_of_file source.now.plain.now) (level_of source.now.part source.now.word) state (made_word source.now.part source.now.word (content_of_file source.now.plain.now).variables (bits_at bits.now)) }
    requires bits { length bits.now ≡ length source.now.plain.now.variables }
    requires reached { IsReached (content_of_file source.now.plain.now) (reached_of found.old) }
    requires level { AreUpTo (level_of source.now.part source.now.word) (reached_of found.old) }
    ensures reached { OnOk result (IsReached (content_of_file source.now.plain.now) (reached_of found.new)) }
    ensures level { OnOk result (AreUpTo (level_of source.now.part source.now.word) (reached_of found.new)) }
    ensures kept { OnOk result (IsKept (reached_of found.old) (reached_of found.new)) }
    ensures known { OnOk result (slice_get found.new.known.items state ≡ Some true) }
{
    if found.known[state as usize] {
        return Ok(());
    }
    let word = word_by(alloc, source, bits)?;
    put(found, state, word)
}

/// A node was seen.
fn see(found: &mut Found, place: u32)
    requires { place < length found.old.seen.items }
    ensures words { found.new.words.items ≡ found.old.words.items }
    ensures known { found.new.known.items ≡ found.old.known.items }
    ensures seen { found.new.seen.items ≡ slice_set found.old.seen.items place true }
    ensures order { found.new.order.items ≡ found.old.order.items }
{
    found.seen[place as usize] = true;
}

/// Walks over a diagram. Behind a node that was seen before no state is new.
fn walk(
    alloc: Global,
    source: &Source,
    bits: &[bool],
    root: Ref,
    found: &mut Found,
) -> Result<(), NoMemory>
    requires content { IsContent (content_of_file source.now.plain.now) }
    requires named { NamesPart (content_of_file source.now.plain.now) root }
    requires makes { MakesWords (content_of_file source.now.plain.now) source.now.part source.now.word (bits_at bits.now) root }
    requires bits { length bits.now ≡ length source.now.plain.now.variables }
    requires reached { IsReached (content_of_file source.now.plain.now) (reached_of found.old) }
    requires level { AreUpTo (level_of source.now.part source.now.word) (reached_of found.old) }
    ensures reached { OnOk result (IsReached (content_of_file source.now.plain.now) (reached_of found.new)) }
    ensures level { OnOk result (AreUpTo (level_of source.now.part source.now.word) (reached_of found.new)) }
    ensures kept { OnOk result (IsKept (reached_of found.old) (reached_of found.new)) }
    ensures leads { OnOk result (Leads (content_of_file source.now.plain.now) (reached_of found.new) root) }
{
    match root {
        Ref::Leaf(state) => reach(alloc, source, bits, state, found),
        Ref::Inner(place) => {
            if found.seen[place as usize] {
                return Ok(());
            }
            let node = *source.plain.nodes.get(place as usize);
            let low = with_bit(alloc, bits, node.var as usize, false)?;
            walk(alloc, source, low.slice(), node.low, found)?;
            let high = with_bit(alloc, bits, node.var as usize, true)?;
            walk(alloc, source, high.slice(), node.high, found)?;
            see(found, place);
            Ok(())
        }
    }
}

/// So many bits 0.
pub(crate) fn zeros(alloc: Global, count: usize) -> Result<Vec<bool>, NoMemory>
    ensures { IfOk result (λ made. made.items ≡ replicate count false) }
{
    match vec![in alloc; false; count] {
        Ok(made) => Ok(made),
        Err(_) => Err(NoMemory),
    }
}

/// Nothing is reached yet.
fn nothing(alloc: Global, plain: &Plain) -> Result<Found, NoMemory>
    ensures reached { IfOk result (λ found. IsReached (content_of_file plain.now) (reached_of found)) }
    ensures level { IfOk result (λ found. AreUpTo 0 (reached_of found)) }
{
    let mut words = Vec::new(alloc);
    for _ in plain.states.slice() {
        let word = Word {
            truth: List::new(alloc),
            letters: List::new(alloc),
        };
        match words.push(word) {
            Ok(()) => {}
            Err(_) => return Err(NoMemory),
        }
    }
    let known = zeros(alloc, plain.states.len())?;
    let seen = zeros(alloc, plain.nodes.len())?;
    Ok(Found {
        words,
        known,
        seen,
        order: Vec::new(alloc),
        room: MOST_LETTERS,
    })
}

/// What the start leads to.
fn begin(alloc: Global, plain: &Plain) -> Result<Found, NoMemory>
    requires { IsContent (content_of_file plain.now) }
    ensures { IfOk result (λ found. HasBegun (content_of_file plain.now) (reached_of found) 0) }
{
    let mut found = nothing(alloc, plain)?;
    let source = Source {
        plain,
        part: Part::Truth,
        word: Word {
            truth: List::new(alloc),
            letters: List::new(alloc),
        },
    };
    let bits = zeros(alloc, plain.variables.len())?;
    walk(alloc, &source, &bits, plain.start, &mut found)?;
    Ok(found)
}

/// What the letters lead to from the state that is next in the order.
fn go_on(alloc: Global, plain: &Plain, done: usize, found: &mut Found) -> Result<(), NoMemory>
    requires content { IsContent (content_of_file plain.now) }
    requires done { done < length found.old.order.items }
    requires begun { HasBegun (content_of_file plain.now) (reached_of found.old) done }
    ensures { OnOk result (HasBegun (content_of_file plain.now) (reached_of found.new) (done + 1)) }
{
    let state = found.order[done];
    let source = Source {
        plain,
        part: Part::Letters,
        word: copy_word(alloc, &found.words[state as usize])?,
    };
    let bits = zeros(alloc, plain.variables.len())?;
    let next = plain.states.get(state as usize).next;
    walk(alloc, &source, &bits, next, found)?;
    Ok(())
}

/// For each state of a file whose states are all reached a shortest word that leads there, found by levels: from the start the states
/// whose words have no letter, and then, letter by letter, those that no shorter word reaches.
pub fn shortest_words(alloc: Global, plain: &Plain) -> Result<List<Word>, NoMemory>
    requires file { IsFile plain.now }
    requires canonical { IsCanonical (content_of_file plain.now) }
    ensures words { IfOk result (AreWordsTo (content_of_file plain.now)) }
    ensures lengths { IfOk result (GrowByLetters (content_of_file plain.now)) }
    ensures shortest { IfOk result (AreShortest (content_of_file plain.now)) }
{
    let mut found = begin(alloc, plain)?;
    let mut done = 0usize;
    while done < found.order.len() {
        go_on(alloc, plain, done, &mut found)?;
        done += 1;
    }
    let Found { words, .. } = found;
    Ok(List::from(words))
}
