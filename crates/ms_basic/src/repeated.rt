ghost use Rattle.std.specs.Prelude.{◌≡◌};
ghost use Rattle.ms_basic.specs.inner.Repeated.{sign_of_constant};

use crate::verdict::LOST;
use ms_dfa_explore::{SmallMachine, TrackBits};
use ms_logic_words::Sign;

/// The number has been met.
const MET: u32 = 1;

/// The number has not been met.
const WAITING: u32 = 2;

/// Yes or No.
fn sign_of_constant(holds: bool) -> Sign
    ensures { result ≡ sign_of_constant holds }
{
    if holds { Sign::Yes } else { Sign::No }
}

/// The machine of a relation that holds of each number, or of none.
#[derive(Clone, Copy)]
pub(crate) struct OneNumberMachine {
    pub holds: bool,
}

impl SmallMachine for OneNumberMachine {
    ghost use Rattle.ms_basic.specs.inner.Repeated.{one_number_table};

    ghost table = { λ machine. one_number_table machine.holds };

    fn states(&self) -> u32 {
        3
    }

    fn start(&self, bits: TrackBits) -> u32 {
        let _ = bits;
        WAITING
    }

    fn step(&self, state: u32, bits: TrackBits) -> u32 {
        match (state, bits.first) {
            (LOST, _) => LOST,
            (MET, true) => LOST,
            (MET, false) => MET,
            (_, true) => MET,
            (_, false) => WAITING,
        }
    }

    fn sign(&self, state: u32) -> Sign {
        if state == MET {
            sign_of_constant(self.holds)
        } else {
            Sign::Outside
        }
    }
}

/// The machine that gives each word one sign.
#[derive(Clone, Copy)]
pub(crate) struct ConstantMachine {
    pub holds: bool,
}

impl SmallMachine for ConstantMachine {
    ghost use Rattle.ms_basic.specs.inner.Repeated.{constant_table};

    ghost table = { λ machine. constant_table machine.holds };

    fn states(&self) -> u32 {
        1
    }

    fn start(&self, bits: TrackBits) -> u32 {
        let _ = bits;
        0
    }

    fn step(&self, state: u32, bits: TrackBits) -> u32 {
        let _ = bits;
        state
    }

    fn sign(&self, state: u32) -> Sign {
        let _ = state;
        sign_of_constant(self.holds)
    }
}
