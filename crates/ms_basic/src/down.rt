ghost use Rattle.std.specs.Prelude.{◌≤◌};

use crate::verdict::CONTRADICTED;
use ms_dfa_explore::{SmallMachine, TrackBits};
use ms_logic_words::Sign;

/// The machine of `S = T - n`: its states behind the contradiction are the windows of at most the last n bits of S, each
/// with a 1 in front.
#[derive(Drop)]
pub(crate) struct DownMachine {
    pub size: u32,
    ghost some: { 1 ≤ size },
    ghost small: { size ≤ 1073741824 },
}

impl SmallMachine for DownMachine {
    ghost use Rattle.ms_basic.specs.inner.Windows.{down_table};

    ghost table = { λ machine. down_table machine.size };

    fn states(&self) -> u32 {
        2 * self.size
    }

    fn start(&self, bits: TrackBits) -> u32 {
        let _ = bits;
        1
    }

    fn step(&self, state: u32, bits: TrackBits) -> u32 {
        if state == CONTRADICTED {
            return CONTRADICTED;
        }
        let longer = 2 * state + u32::from(bits.first);
        if longer < 2 * self.size {
            return longer;
        }
        let window = longer - 2 * self.size;
        if bits.second == (window / self.size == 1) {
            self.size + window % self.size
        } else {
            CONTRADICTED
        }
    }

    fn sign(&self, state: u32) -> Sign {
        if state.is_power_of_two() {
            Sign::Yes
        } else {
            Sign::No
        }
    }
}
