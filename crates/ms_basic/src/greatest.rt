ghost use Rattle.std.specs.Prelude.{◌≡◌};
ghost use Rattle.ms_basic.specs.inner.Greatest.{greatest_step};

use crate::verdict::{LOST, NO, YES, settled};

/// No position has been read.
pub(crate) const START: u32 = 3;

/// The number has not been met.
const WAITING: u32 = 4;

/// The machine of `x = max S`.
pub(crate) fn step(state: u32, x: bool, s: bool) -> u32
    ensures { result ≡ greatest_step state x s }
{
    match (state, x, s) {
        (YES, false, true) => NO,
        (LOST | YES | NO, _, _) => settled(state, x),
        (START, true, _) => YES,
        (START, false, _) => WAITING,
        (_, true, true) => YES,
        (_, true, false) => NO,
        (_, false, _) => WAITING,
    }
}
