ghost use Rattle.std.specs.Prelude.{◌≡◌, ℕ, ◌<◌, All, IfOk, length, map};
ghost use Rattle.ms_project.specs.Marks.{AreClosedMarks};
ghost use Rattle.ms_project.specs.Signed.{AreSigned, TestBelow, zero_step};

use crate::marks::sign_by;
use ms_dfa::State;
use ms_diagram::Store;
use ms_list::{List, NoMemory, push};
use ms_logic::{Mode, Quant};
use ms_quotient::{Marks, close_zeros};
use std::alloc::Global;

/// Where zeros lead from each state.
fn zero_steps(
    alloc: Global,
    store: &Store,
    states: &[State],
    count: usize,
) -> Result<List<u32>, NoMemory>
    requires { TestBelow store.now.nodes count states.now }
    ensures { IfOk result (λ made. made ≡ map (zero_step store.now.nodes count) states.now) }
{
    let Ok(zeros) = vec![in alloc; false; count] else {
        return Err(NoMemory);
    };
    let mut made = List::new(alloc);
    for state in states {
        let next = store.eval(state.next, zeros.as_slice());
        push(&mut made, next)?;
    }
    Ok(made)
}

/// The states of an automaton under way, and over how many tracks their diagrams are.
#[derive(Clone, Copy)]
pub(crate) struct Stage<'a> {
    pub(crate) mode: Mode,
    pub(crate) store: &'a Store,
    pub(crate) states: &'a [State],
    pub(crate) count: usize,
}

/// The marks of all states, which in WS1S are closed along zeros at the end of a word.
pub(crate) fn closed_marks(
    alloc: Global,
    stage: &Stage,
    marks: List<Marks>,
) -> Result<List<Marks>, NoMemory>
    requires tested { TestBelow stage.now.store.now.nodes stage.now.count stage.now.states.now }
    requires within { All (λ state. zero_step stage.now.store.now.nodes stage.now.count state < length stage.now.states.now) stage.now.states.now }
    requires long { length marks ≡ length stage.now.states.now }
    ensures { IfOk result (λ closed. AreClosedMarks stage.now.mode (map (zero_step stage.now.store.now.nodes stage.now.count) stage.now.states.now) marks closed) }
{
    match stage.mode {
        Mode::M2lStr => Ok(marks),
        Mode::Ws1s => {
            let next = zero_steps(alloc, stage.store, stage.states, stage.count)?;
            close_zeros(alloc, next.slice(), marks.slice())
        }
    }
}

/// The states with the signs that their marks make.
pub(crate) fn sign_states(
    alloc: Global,
    states: &[State],
    quant: Quant,
    can_be_empty: bool,
    closed: &[Marks],
) -> Result<List<State>, NoMemory>
    requires { length closed.now ≡ length states.now }
    ensures { IfOk result (AreSigned quant can_be_empty closed.now states.now) }
{
    let mut signed = List::new(alloc);
    for place in 0..states.len() {
        let sign = sign_by(quant, can_be_empty, closed[place]);
        let next = states[place].next;
        push(&mut signed, State { sign, next })?;
    }
    Ok(signed)
}
