ghost use Rattle.std.specs.Prelude.{◌≡◌, if◌then◌else◌};
ghost use Rattle.ms_basic.specs.Verdict.{sign_by_contradiction, sign_by_verdict};

use ms_logic_words::Sign;

/// Some number has had more than one 1.
pub(crate) const LOST: u32 = 0;

/// All numbers have been met, and the relation holds so far.
pub(crate) const YES: u32 = 1;

/// All numbers have been met, and the relation does not hold.
pub(crate) const NO: u32 = 2;

/// Where a state in which all numbers have been met leads, with the relation settled: another 1 loses it.
pub(crate) fn settled(state: u32, again: bool) -> u32
    ensures { result ≡ (if again then 0 else state) }
{
    if again { LOST } else { state }
}

/// The sign of a state, where each state but these three waits for a number.
pub(crate) fn sign_by_verdict(state: u32) -> Sign
    ensures { result ≡ sign_by_verdict state }
{
    match state {
        YES => Sign::Yes,
        NO => Sign::No,
        _ => Sign::Outside,
    }
}

/// Some position has contradicted the relation.
pub(crate) const CONTRADICTED: u32 = 0;

/// No position has contradicted the relation so far.
pub(crate) const AGREED: u32 = 1;

/// The sign of a state, where the relation holds until some position contradicts it.
pub(crate) fn sign_by_contradiction(state: u32) -> Sign
    ensures { result ≡ sign_by_contradiction state }
{
    if state == CONTRADICTED {
        Sign::No
    } else {
        Sign::Yes
    }
}
