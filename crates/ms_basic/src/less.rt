ghost use Rattle.std.specs.Prelude.{◌≡◌};
ghost use Rattle.ms_basic.specs.inner.Less.{less_step};

use crate::verdict::{LOST, NO, YES, settled};

/// Neither number has been met.
pub(crate) const START: u32 = 3;

/// The first number alone has been met.
const FIRST: u32 = 4;

/// The second number alone has been met.
const SECOND: u32 = 5;

/// The machine of `x < y`.
pub(crate) fn step(state: u32, x: bool, y: bool) -> u32
    ensures { result ≡ less_step state x y }
{
    match (state, x, y) {
        (LOST | YES | NO, _, _) => settled(state, x || y),
        (START, false, false) => START,
        (START, true, false) => FIRST,
        (START, false, true) => SECOND,
        (START, true, true) => NO,
        (FIRST, true, _) => LOST,
        (FIRST, false, true) => YES,
        (FIRST, false, false) => FIRST,
        (_, _, true) => LOST,
        (_, true, false) => NO,
        (_, false, false) => SECOND,
    }
}
