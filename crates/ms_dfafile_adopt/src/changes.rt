ghost use Rattle.std.specs.Prelude.{◌≡◌, IfOk};
ghost use Rattle.ms_dfa.specs.Automaton.{IsAutomaton, states_of, variables_of};
ghost use Rattle.ms_logic.specs.declared.mode.Mode.TheVariants.{M2lStr};
ghost use Rattle.ms_logic_words.specs.Content.{zero_letter};
ghost use Rattle.ms_dfafile_adopt.specs.inner.Open.{AreChanges, TellsChanges, change_sign};

use crate::tracks::copy_tracks;
use ms_dfa::{Automaton, Part, Sign, State, Track, is_in};
use ms_list::{List, NoMemory, push};
use ms_logic::Mode;
use std::alloc::Global;

/// A letter with the bit 0 for each track.
fn zeros(alloc: Global, tracks: &[Track]) -> Result<List<bool>, NoMemory>
    ensures { IfOk result (λ made. made ≡ zero_letter (variables_of tracks.now)) }
{
    let mut made = List::new(alloc);
    for track in tracks {
        if is_in(Part::Letters, track.order) {
            push(&mut made, false)?;
        }
    }
    Ok(made)
}

/// Yes where the sign is another than that behind a zero letter.
fn change_sign(sign: Sign, behind: Sign) -> Sign
    ensures { result ≡ change_sign sign behind }
{
    match (sign, behind) {
        (Sign::Outside, _) => Sign::Outside,
        (Sign::Yes, Sign::Yes) => Sign::No,
        (Sign::No, Sign::No) => Sign::No,
        (Sign::Undefined, Sign::Undefined) => Sign::No,
        (_, _) => Sign::Yes,
    }
}

/// The states, each with the sign that tells whether a zero letter changes its own.
fn changed_states(alloc: Global, a: &Automaton, zeros: &[bool]) -> Result<List<State>, NoMemory>
    requires { zeros.now ≡ zero_letter a.now.variables }
    ensures { IfOk result (AreChanges a.now) }
{
    let mut made = List::new(alloc);
    for state in 0..a.states() {
        let behind = a.step(state, zeros);
        let sign = change_sign(a.sign(state), a.sign(behind));
        let next = a.next_ref(state);
        push(&mut made, State { sign, next })?;
    }
    Ok(made)
}

/// The same automaton in a mode, with these states in place of its own.
pub(crate) fn with_states(
    alloc: Global,
    a: &Automaton,
    mode: Mode,
    states: List<State>,
) -> Result<Automaton, NoMemory>
    requires { IsAutomaton (record a.now { mode = mode; states = states_of states }) }
    ensures { IfOk result (λ made. made ≡ record a.now { mode = mode; states = states_of states }) }
{
    let store = a.store().copy()?;
    let tracks = copy_tracks(alloc, a.tracks())?;
    Ok(Automaton::make(store, mode, tracks, a.start_ref(), states))
}

/// The automaton that is Yes at the words with which one zero letter more has another sign.
pub(crate) fn changes(alloc: Global, a: &Automaton) -> Result<Automaton, NoMemory>
    requires { a.now.mode ≡ M2lStr }
    ensures { IfOk result (TellsChanges a.now) }
{
    // The states tell that it is an automaton.
    let _ = a.states();
    let zeros = zeros(alloc, a.tracks())?;
    let states = changed_states(alloc, a, zeros.slice())?;
    with_states(alloc, a, Mode::M2lStr, states)
}
