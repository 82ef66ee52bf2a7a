ghost use Rattle.std.specs.Prelude.{◌≡◌, ◌≤◌, ◌<◌, ◌+◌, ◌-◌, ◌==◌, false};
ghost use Rattle.ms_basic.specs.inner.Plus.{plus_at, plus_first};
ghost use Rattle.ms_basic.specs.inner.Relation.{IsMadeUnder};

use crate::made::made;
use crate::repeated::OneNumberMachine;
use crate::setting::Setting;
use crate::verdict::{LOST, NO, YES, settled, sign_by_verdict};
use ms_dfa::Automaton;
use ms_dfa_explore::{SmallMachine, TrackBits};
use ms_list::StepFault;
use ms_logic_core::Basic;
use ms_logic_words::Sign;
use std::alloc::Global;

/// Neither number has been met.
const NEITHER: u32 = 3;

/// The first number alone has been met.
const FIRST: u32 = 4;

/// The second number alone has been met, and too long ago; the states behind this one tell how far the next position is from
/// it.
const SECOND: u32 = 5;

/// The greatest distance for which a machine is made: with a greater one there are more states than any limit.
const GREATEST: u64 = 4_000_000_000;

/// The machine of `x = y + n`.
#[derive(Drop)]
struct PlusMachine {
    distance: u32,
    ghost small: { distance ≤ 4000000000 },
}

impl PlusMachine {
    /// From the state in which neither number has been met.
    fn from_neither(&self, x: bool, y: bool) -> u32
        ensures { result ≡ plus_first (self.now.distance == 0) x y }
    {
        match (x, y, self.distance == 0) {
            (false, false, _) => NEITHER,
            (true, false, _) => FIRST,
            (false, true, true) => SECOND,
            (false, true, false) => SECOND + 1,
            (true, true, true) => YES,
            (true, true, false) => NO,
        }
    }

    /// From a state in which the second number alone has been met, and not too long ago.
    fn from_second(&self, state: u32, x: bool) -> u32
        requires behind { 6 ≤ state }
        requires state { state < self.now.distance + 6 }
        ensures { result ≡ plus_at (state - 5 == self.now.distance) state x false }
    {
        match (x, state - SECOND == self.distance) {
            (true, true) => YES,
            (true, false) => NO,
            (false, true) => SECOND,
            (false, false) => state + 1,
        }
    }
}

impl SmallMachine for PlusMachine {
    ghost use Rattle.ms_basic.specs.inner.Plus.{plus_table};

    ghost table = { λ machine. plus_table machine.distance };

    fn states(&self) -> u32 {
        self.distance + 6
    }

    fn start(&self, bits: TrackBits) -> u32 {
        let _ = bits;
        NEITHER
    }

    fn step(&self, state: u32, bits: TrackBits) -> u32 {
        match (state, bits.first, bits.second) {
            (LOST | YES | NO, x, y) => settled(state, x || y),
            (NEITHER, x, y) => self.from_neither(x, y),
            (FIRST, true, _) => LOST,
            (FIRST, false, true) => NO,
            (FIRST, false, false) => FIRST,
            (SECOND, _, true) => LOST,
            (SECOND, true, false) => NO,
            (SECOND, false, false) => SECOND,
            (_, _, true) => LOST,
            (_, x, false) => self.from_second(state, x),
        }
    }

    fn sign(&self, state: u32) -> Sign {
        sign_by_verdict(state)
    }
}

/// The automaton of `x = y + n`.
pub(crate) fn plus(
    alloc: Global,
    x: u32,
    y: u32,
    n: u64,
    setting: Setting,
) -> Result<Automaton, StepFault>
    ensures { IsMadeUnder setting (Basic.Plus x y n) result }
{
    let form = Basic::Plus(x, y, n);
    if x == y {
        return made(alloc, OneNumberMachine { holds: n == 0 }, form, 1, setting);
    }
    if n > GREATEST {
        return Err(StepFault::Nodes {
            limit: setting.limit,
        });
    }
    let machine = PlusMachine { distance: n as u32 };
    made(alloc, machine, form, 2, setting)
}
