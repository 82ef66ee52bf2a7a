ghost use Rattle.std.specs.Prelude.{◌≡◌, IfOk, IfErr, IfSome, IfNone};
ghost use Rattle.ms_logic.specs.declared.mode.Mode.TheVariants.{Ws1s, M2lStr};
ghost use Rattle.ms_dfafile_adopt.specs.inner.Open.{IsFirstChange, IsInMode, IsNotInMode, ShowsNoChange};

use crate::changes::{changes, with_states};
use ms_best::first;
use ms_dfa::{Automaton, Sign};
use ms_list::{NoMemory, Word};
use ms_logic::Mode;
use ms_product::same_states;
use std::alloc::Global;

/// Why there is no automaton over all numbers: the first word that encodes an assignment and has another sign with one zero
/// letter more, or want of memory.
#[derive(Drop)]
pub(crate) enum NotInMode {
    Open(Word),
    Memory,
}

/// The first word that encodes an assignment and has another sign with one zero letter more.
fn first_change(alloc: Global, a: &Automaton) -> Result<Option<Word>, NoMemory>
    requires { a.now.mode ≡ M2lStr }
    ensures first { IfOk result (λ found. IfSome found (IsFirstChange a.now)) }
    ensures none { IfOk result (λ found. IfNone found (ShowsNoChange a.now)) }
{
    let changes = changes(alloc, a)?;
    first(alloc, &changes, Sign::Yes)
}

/// The automaton over all numbers in place of strings.
fn as_ws1s(alloc: Global, a: &Automaton) -> Result<Automaton, NoMemory>
    requires mode { a.now.mode ≡ M2lStr }
    requires none { ShowsNoChange a.now }
    ensures { IfOk result (λ made. made ≡ record a.now { mode = Ws1s }) }
{
    // The states tell that it is an automaton.
    let _ = a.states();
    let states = same_states(alloc, a)?;
    with_states(alloc, a, Mode::Ws1s, states)
}

/// The automaton over all numbers, where no zeros at the end of a word change its sign.
fn in_ws1s(alloc: Global, a: &Automaton) -> Result<Automaton, NotInMode>
    requires { a.now.mode ≡ M2lStr }
    ensures settled { IfOk result (IsInMode Ws1s a.now) }
    ensures unsettled { IfErr result (IsNotInMode Ws1s a.now) }
{
    match first_change(alloc, a) {
        Ok(None) => {}
        Ok(Some(word)) => return Err(NotInMode::Open(word)),
        Err(_) => return Err(NotInMode::Memory),
    }
    match as_ws1s(alloc, a) {
        Ok(made) => Ok(made),
        Err(_) => Err(NotInMode::Memory),
    }
}

/// The automaton over strings in a mode.
pub(crate) fn in_mode(alloc: Global, a: Automaton, mode: Mode) -> Result<Automaton, NotInMode>
    requires { a.mode ≡ M2lStr }
    ensures settled { IfOk result (IsInMode mode a) }
    ensures unsettled { IfErr result (IsNotInMode mode a) }
{
    match mode {
        Mode::M2lStr => Ok(a),
        Mode::Ws1s => in_ws1s(alloc, &a),
    }
}
