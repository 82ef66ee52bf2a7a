//! Words by their numbers, and the signs that an automaton gives them.
ghost use Rattle.std.specs.Prelude.{◌≡◌, length, IfOk};
ghost use Rattle.ms_logic_words.specs.Content.{count_of};
ghost use Rattle.ms_dfa.specs.Automaton.{variables_of};
ghost use Rattle.ms_dfa.specs.Part.{has_value};

use anyhow::{Result, bail};
use ms_dfa::{Automaton, Part, Sign, Track, is_in};
use std::alloc::Global;

/// How many tracks have a value in a part of a word.
fn count_in(tracks: &[Track], part: Part) -> usize
    ensures { result ≡ count_of (has_value part) (variables_of tracks.now) }
{
    let mut count = 0;
    for track in tracks {
        if is_in(part, track.order) {
            count += 1;
        }
    }
    count
}

/// So many bits of a number, the highest first, the last of which has so many below it.
fn bits_of(alloc: Global, number: u32, count: usize, below: usize) -> Result<Vec<bool>>
    ensures { IfOk result (λ bits. length bits.items ≡ count) }
{
    let mut bits = Vec::new(alloc);
    for place in 0..count {
        let shift = below.saturating_add(count - 1 - place);
        bits.push(shift < 32 && number >> shift & 1 == 1)?;
    }
    Ok(bits)
}

/// The sign of the word of so many letters whose truth values and letters are the bits of a number.
fn sign_of(alloc: Global, automaton: &Automaton, letters: usize, number: u32) -> Result<Sign> {
    let truth_count = count_in(automaton.tracks(), Part::Truth);
    let letter_count = count_in(automaton.tracks(), Part::Letters);
    let truth = bits_of(
        alloc,
        number,
        truth_count,
        letter_count.saturating_mul(letters),
    )?;
    let mut state = automaton.start(truth.as_slice());
    for position in 0..letters {
        let below = letter_count.saturating_mul(letters - 1 - position);
        let letter = bits_of(alloc, number, letter_count, below)?;
        state = automaton.step(state, letter.as_slice());
    }
    Ok(automaton.sign(state))
}

fn mark(sign: Sign) -> char {
    match sign {
        Sign::Yes => '+',
        Sign::No => '-',
        Sign::Undefined => '0',
        Sign::Outside => 'x',
    }
}

/// Appends the signs of all words of so many letters.
fn append_signs(
    alloc: Global,
    automaton: &Automaton,
    letters: usize,
    made: &mut String,
) -> Result<()> {
    let truth_count = count_in(automaton.tracks(), Part::Truth);
    let letter_count = count_in(automaton.tracks(), Part::Letters);
    let bits = truth_count.saturating_add(letter_count.saturating_mul(letters));
    if bits > 20 {
        bail!("too many words");
    }
    for number in 0..1u32 << bits {
        made.push(mark(sign_of(alloc, automaton, letters, number)?))?;
    }
    Ok(())
}

/// The signs of all words up to so many letters.
pub fn signs(alloc: Global, automaton: &Automaton, longest: u64) -> Result<String> {
    let mut made = String::new(alloc);
    for letters in 0..longest.min(20).saturating_add(1) {
        append_signs(alloc, automaton, letters as usize, &mut made)?;
    }
    Ok(made)
}
