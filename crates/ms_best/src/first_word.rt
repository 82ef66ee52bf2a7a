ghost use Rattle.std.specs.Prelude.{◌≡◌, ◌<◌, length, IfOk, IfSome, IfNone};
ghost use Rattle.ms_best.specs.FirstWord.{IsFirstWord, NoWordHas};
ghost use Rattle.ms_best.specs.inner.Least.{least_letters};

use crate::distances::Distances;
use crate::least::least_values;
use ms_dfa::{Automaton, Part, Sign};
use ms_list::{List, NoMemory, Word};
use std::alloc::Global;

/// The first word that has the sign: the shortest, and among these the one whose truth values and then letters have 0 at
/// the first bit where it differs from another. None where no word has the sign.
pub fn first(alloc: Global, automaton: &Automaton, sign: Sign) -> Result<Option<Word>, NoMemory>
    ensures first { IfOk result (λ found. IfSome found (IsFirstWord automaton.now sign)) }
    ensures none { IfOk result (λ found. IfNone found (NoWordHas automaton.now sign)) }
{
    let distances = Distances::new(alloc, automaton, sign)?;
    let start = automaton.start_ref();
    let length = distances.of(start);
    if length >= automaton.states() as usize {
        return Ok(None);
    }
    let truth = least_values(alloc, automaton, &distances, Part::Truth, start)?;
    let state = automaton.start(truth.slice());
    let letters = letters(alloc, automaton, &distances, state, length)?;
    Ok(Some(Word { truth, letters }))
}

/// The least letters, so many, that lead nearest to the sign from a state.
fn letters(
    alloc: Global,
    automaton: &Automaton,
    distances: &Distances,
    from: u32,
    count: usize,
) -> Result<List<List<bool>>, NoMemory>
    requires states { distances.now.states ≡ length automaton.now.states }
    requires nodes { distances.now.nodes ≡ length automaton.now.nodes }
    requires state { from < length automaton.now.states }
    ensures { IfOk result (λ letters. letters ≡ least_letters automaton.now distances.now.values.items count from) }
{
    let mut state = from;
    let mut letters = List::new(alloc);
    'reading: while letters.len() < count {
        let next = automaton.next_ref(state);
        let letter = least_values(alloc, automaton, distances, Part::Letters, next)?;
        state = automaton.step(state, letter.slice());
        match letters.push(letter) {
            Ok(()) => {}
            Err(_) => return Err(NoMemory),
        }
    }
    Ok(letters)
}
