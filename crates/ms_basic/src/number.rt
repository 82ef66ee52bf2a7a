ghost use Rattle.std.specs.Prelude.{◌≡◌, ◌≤◌, ◌<◌, ◌+◌, ◌-◌, ◌==◌};
ghost use Rattle.ms_basic.specs.inner.Number.{number_at};
ghost use Rattle.ms_basic.specs.inner.Relation.{IsMadeUnder};

use crate::made::made;
use crate::setting::Setting;
use crate::verdict::{LOST, NO, YES, settled, sign_by_verdict};
use ms_dfa::Automaton;
use ms_dfa_explore::{SmallMachine, TrackBits};
use ms_list::StepFault;
use ms_logic_core::Basic;
use ms_logic_words::Sign;
use std::alloc::Global;

/// The position has been passed without the number.
const LATE: u32 = 3;

/// The number has not been met, and the next position is the first; the others follow this state.
const START: u32 = 4;

/// The greatest number for which a machine is made: with a greater one there are more states than any limit.
const GREATEST: u64 = 4_000_000_000;

/// The machine of `x = n`.
#[derive(Drop)]
struct NumberMachine {
    number: u32,
    ghost small: { number ≤ 4000000000 },
}

impl NumberMachine {
    /// From a state in which the number has not been met, and its position has not been passed.
    fn from_waiting(&self, state: u32, x: bool) -> u32
        requires waiting { 4 ≤ state }
        requires state { state < self.now.number + 5 }
        ensures { result ≡ number_at (state - 4 == self.now.number) state x }
    {
        match (x, state - START == self.number) {
            (true, true) => YES,
            (true, false) => NO,
            (false, true) => LATE,
            (false, false) => state + 1,
        }
    }
}

impl SmallMachine for NumberMachine {
    ghost use Rattle.ms_basic.specs.inner.Number.{number_table};

    ghost table = { λ machine. number_table machine.number };

    fn states(&self) -> u32 {
        self.number + 5
    }

    fn start(&self, bits: TrackBits) -> u32 {
        let _ = bits;
        START
    }

    fn step(&self, state: u32, bits: TrackBits) -> u32 {
        match (state, bits.first) {
            (LOST | YES | NO, x) => settled(state, x),
            (LATE, false) => LATE,
            (LATE, true) => NO,
            (_, x) => self.from_waiting(state, x),
        }
    }

    fn sign(&self, state: u32) -> Sign {
        sign_by_verdict(state)
    }
}

/// The automaton of `x = n`.
pub(crate) fn number(
    alloc: Global,
    x: u32,
    n: u64,
    setting: Setting,
) -> Result<Automaton, StepFault>
    ensures { IsMadeUnder setting (Basic.Number x n) result }
{
    if n > GREATEST {
        return Err(StepFault::Nodes {
            limit: setting.limit,
        });
    }
    let machine = NumberMachine { number: n as u32 };
    made(alloc, machine, Basic::Number(x, n), 1, setting)
}
