ghost use Rattle.std.specs.Prelude.{◌≡◌};
ghost use Rattle.ms_basic.specs.inner.Least.{least_sign, least_step};

use crate::verdict::{LOST, NO, YES, settled};
use ms_logic_words::Sign;

/// The number is 0, and the set has had no member so far.
const ZERO: u32 = 3;

/// No position has been read.
pub(crate) const START: u32 = 4;

/// The number has not been met, and the set has had no member.
const WAITING: u32 = 5;

/// The number has not been met, and the set has had a member.
const PASSED: u32 = 6;

/// The machine of `x = min S`.
pub(crate) fn step(state: u32, x: bool, s: bool) -> u32
    ensures { result ≡ least_step state x s }
{
    match (state, x, s) {
        (LOST | YES | NO, _, _) => settled(state, x),
        (ZERO, true, _) => LOST,
        (ZERO, false, true) => NO,
        (ZERO, false, false) => ZERO,
        (START, true, false) => ZERO,
        (START | WAITING, true, true) => YES,
        (WAITING, true, false) => NO,
        (START | WAITING, false, true) => PASSED,
        (START | WAITING, false, false) => WAITING,
        (_, true, _) => NO,
        (_, false, _) => PASSED,
    }
}

/// The signs of its states.
pub(crate) fn sign(state: u32) -> Sign
    ensures { result ≡ least_sign state }
{
    match state {
        YES | ZERO => Sign::Yes,
        NO => Sign::No,
        _ => Sign::Outside,
    }
}
