ghost use Rattle.std.specs.Prelude.{◌≡◌};
ghost use Rattle.ms_basic.specs.inner.Member.{member_step};

use crate::verdict::{LOST, NO, YES, settled};

/// The number has not been met.
pub(crate) const START: u32 = 3;

/// The machine of `x in S`.
pub(crate) fn step(state: u32, x: bool, s: bool) -> u32
    ensures { result ≡ member_step state x s }
{
    match (state, x, s) {
        (LOST | YES | NO, _, _) => settled(state, x),
        (_, false, _) => START,
        (_, true, true) => YES,
        (_, true, false) => NO,
    }
}
