ghost use Rattle.std.specs.Prelude.{◌≡◌, ◌≢◌, ◌≤◌, ◌⊎◌, ◌+◌, length, IfOk, Some};
ghost use Rattle.ms_dfa.specs.Automaton.{IsAutomaton, variables_of};
ghost use Rattle.ms_dfafile.specs.File.{IsFile};
ghost use Rattle.ms_list.specs.declared.word.Word.{Word};
ghost use Rattle.ms_logic.specs.declared.mode.Mode.TheVariants.{M2lStr};
ghost use Rattle.ms_logic_words.specs.declared.sign.Sign.TheVariants.{Outside};
ghost use Rattle.ms_logic_words.specs.Content.{sign_of, Content};
ghost use Rattle.ms_logic.specs.Lists.{AreRising};
ghost use Rattle.ms_dfa_explore.specs.Explored.{OnRefused};
ghost use Rattle.ms_logic_words.specs.declared.sign.Sign.{Sign};
ghost use Rattle.ms_logic_words.specs.Residual.{IsLeast};
ghost use Rattle.ms_product.specs.Pairing.{AreAtLeast};
ghost use Rattle.ms_product.specs.declared.op.Op.{Op};
ghost use Rattle.ms_dfafile_adopt.specs.Short.{AreNumbers, NumbersLack, StringsLack, side_by_side};
ghost use Rattle.ms_dfafile_adopt.specs.inner.OverNumbers.{IsOverNumbers};
ghost use Rattle.ms_dfafile_adopt.specs.Readings.{AgreesWithFile, read_over};
ghost use Rattle.ms_dfafile_adopt.specs.Sets.{as_sets};

use crate::numbers::numbers;
use crate::over_numbers::over_numbers;
use crate::over_sets::over_sets;
use crate::tracks::own_tracks;
use ms_dfa::{Automaton, Plain, Track};
use ms_list::{List, StepFault};
use ms_minim::minimise;
use std::alloc::Global;

/// What is said where numbers are read as sets, over the tracks themselves, with fewest states.
fn with_numbers(
    alloc: Global,
    said: &Automaton,
    tracks: List<Track>,
    limit: u64,
) -> Result<Automaton, StepFault>
    requires rising { AreRising (variables_of tracks) }
    requires sets { said.now.variables ≡ as_sets (variables_of tracks) }
    requires inside { (word : Word) → sign_of (read_over (variables_of tracks) said.now) word ≢ Some Outside }
    requires some { 1 ≤ limit }
    requires small { limit ≤ 4000000000 }
    ensures checked { IfOk result (IsOverNumbers said.now (variables_of tracks)) }
    ensures least { IfOk result IsLeast }
    ensures within { IfOk result (λ made. length made.nodes + length made.states ≤ limit) }
    ensures nodes { OnRefused result (λ refused. (refused ≡ limit) × (NumbersLack limit (variables_of tracks)
        ⊎ ((numbers : Content Sign) × IsAutomaton numbers × AreNumbers (variables_of tracks) (length tracks) numbers × AreAtLeast limit Op.And (side_by_side said.now numbers (variables_of tracks))))) }
{
    let numbers = match numbers(alloc, tracks.slice(), limit) {
        Ok(numbers) => numbers,
        Err(fault) => return Err(fault),
    };
    // The states tell that it is an automaton.
    let _ = numbers.states();
    let made = match over_numbers(alloc, said, &numbers, tracks, limit) {
        Ok(made) => made,
        Err(fault) => return Err(fault),
    };
    minimise(alloc, &made, limit)
}

/// The file as an automaton over strings, with fewest states: each word that encodes an assignment has the sign of the file.
pub(crate) fn over_strings(alloc: Global, plain: &Plain, limit: u64) -> Result<Automaton, StepFault>
    requires file { IsFile plain.now }
    requires some { 1 ≤ limit }
    requires small { limit ≤ 4000000000 }
    ensures signs { IfOk result (AgreesWithFile plain.now M2lStr) }
    ensures least { IfOk result IsLeast }
    ensures within { IfOk result (λ made. length made.nodes + length made.states ≤ limit) }
    ensures nodes { OnRefused result (λ refused. (refused ≡ limit) × StringsLack limit plain.now) }
{
    let Ok(tracks) = own_tracks(alloc, plain.variables.slice()) else {
        return Err(StepFault::Memory);
    };
    let said = match over_sets(alloc, plain, tracks.slice(), limit) {
        Ok(said) => said,
        Err(fault) => return Err(fault),
    };
    with_numbers(alloc, &said, tracks, limit)
}
