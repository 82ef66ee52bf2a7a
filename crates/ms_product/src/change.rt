ghost use Rattle.std.specs.Prelude.{◌≡◌, IfOk, map};
ghost use Rattle.ms_dfa.specs.Automaton.{states_of};
ghost use Rattle.ms_dfa.specs.Values.{HasValues, own_meaning};
ghost use Rattle.ms_product.specs.Combined.{changed, with_sign, with_signs};
ghost use Rattle.ms_product.specs.Signs.{change_by, negated, restricted};

use ms_dfa::{Automaton, State, copy_tracks};
use ms_list::{List, NoMemory, push};
use ms_logic_words::Sign;
use std::alloc::Global;

/// What becomes of each sign.
#[derive(Clone, Copy)]
pub(crate) enum Change {
    Negation,
    Restriction,
}

fn change_by(change: Change, sign: Sign) -> Sign
    ensures { result ≡ change_by change sign }
{
    match (change, sign) {
        (Change::Negation, Sign::Yes) => Sign::No,
        (Change::Negation, Sign::No) => Sign::Yes,
        (Change::Restriction, Sign::No) => Sign::Undefined,
        (_, sign) => sign,
    }
}

/// The states of an automaton with their signs changed.
fn changed_states(alloc: Global, a: &Automaton, change: Change) -> Result<List<State>, NoMemory>
    ensures { IfOk result (λ made. states_of made ≡ map (with_sign (change_by change)) a.now.states) }
{
    let mut made = List::new(alloc);
    for state in 0..a.states() {
        let sign = change_by(change, a.sign(state));
        let next = a.next_ref(state);
        push(&mut made, State { sign, next })?;
    }
    Ok(made)
}

/// The same states and steps, with each sign changed.
fn with_signs(alloc: Global, a: &Automaton, change: Change) -> Result<Automaton, NoMemory>
    ensures same { IfOk result (λ made. made ≡ with_signs (change_by change) a.now) }
    ensures values { IfOk result (HasValues (changed (change_by change) (own_meaning a.now))) }
{
    let store = a.store().copy()?;
    let tracks = copy_tracks(alloc, a.tracks())?;
    let states = changed_states(alloc, a, change)?;
    Ok(Automaton::make(store, a.mode(), tracks, a.start_ref(), states))
}

/// The negation: the same states and steps, with Yes and No in each other's place.
pub fn negate(alloc: Global, a: &Automaton) -> Result<Automaton, NoMemory>
    ensures same { IfOk result (λ made. made ≡ with_signs negated a.now) }
    ensures values { IfOk result (HasValues (changed negated (own_meaning a.now))) }
{
    with_signs(alloc, a, Change::Negation)
}

/// As a restriction: the same states and steps, with Undefined in place of No.
pub fn restrict_to(alloc: Global, a: &Automaton) -> Result<Automaton, NoMemory>
    ensures same { IfOk result (λ made. made ≡ with_signs restricted a.now) }
    ensures values { IfOk result (HasValues (changed restricted (own_meaning a.now))) }
{
    with_signs(alloc, a, Change::Restriction)
}
