ghost use Rattle.std.specs.Prelude.{◌≡◌, ◌≢◌, ◌≤◌, ◌+◌, length, IfOk, Some};
ghost use Rattle.ms_list.specs.declared.word.Word.{Word};
ghost use Rattle.ms_dfa.specs.Automaton.{variables_of};
ghost use Rattle.ms_logic_words.specs.declared.sign.Sign.TheVariants.{Outside};
ghost use Rattle.ms_logic_words.specs.Content.{sign_of};
ghost use Rattle.ms_logic.specs.Lists.{AreRising};
ghost use Rattle.ms_dfa_explore.specs.Explored.{OnRefused};
ghost use Rattle.ms_product.specs.Pairing.{AreAtLeast};
ghost use Rattle.ms_dfafile_adopt.specs.Short.{side_by_side};
ghost use Rattle.ms_dfafile_adopt.specs.inner.OverNumbers.{IsOverNumbers};
ghost use Rattle.ms_dfafile_adopt.specs.Readings.{TellsNumbers, read_over};
ghost use Rattle.ms_dfafile_adopt.specs.Sets.{as_sets};

use ms_dfa::{Automaton, Track};
use ms_list::{List, StepFault};
use ms_logic::Mode;
use ms_product::{Op, Paired, over_tracks, pair_up};
use std::alloc::Global;

/// What is said where numbers are read as sets, over the tracks themselves: Outside where a word encodes no numbers. The
/// product of both automata, side by side on one word.
pub(crate) fn over_numbers(
    alloc: Global,
    said: &Automaton,
    numbers: &Automaton,
    tracks: List<Track>,
    limit: u64,
) -> Result<Automaton, StepFault>
    requires rising { AreRising (variables_of tracks) }
    requires sets { said.now.variables ≡ as_sets (variables_of tracks) }
    requires inside { (word : Word) → sign_of (read_over (variables_of tracks) said.now) word ≢ Some Outside }
    requires tells { TellsNumbers (variables_of tracks) (length tracks) numbers.now }
    requires some { 1 ≤ limit }
    requires small { limit ≤ 4000000000 }
    ensures checked { IfOk result (IsOverNumbers said.now (variables_of tracks)) }
    ensures within { IfOk result (λ made. length made.nodes + length made.states ≤ limit) }
    ensures nodes { OnRefused result (λ refused. (refused ≡ limit) × AreAtLeast limit Op.And (side_by_side said.now numbers.now (variables_of tracks))) }
{
    // The states tell that it is an automaton.
    let _ = numbers.states();
    let Ok(left) = over_tracks(alloc, said, said.tracks()) else {
        return Err(StepFault::Memory);
    };
    let Ok(right) = over_tracks(alloc, numbers, tracks.slice()) else {
        return Err(StepFault::Memory);
    };
    let paired = match pair_up(alloc, Op::And, left, right, limit) {
        Ok(paired) => paired,
        Err(fault) => return Err(fault),
    };
    let Paired {
        store,
        start,
        states,
        pairs: _,
    } = paired;
    Ok(Automaton::make(store, Mode::M2lStr, tracks, start, states))
}
