ghost use Rattle.std.specs.Prelude.{◌≤◌};

use crate::verdict::CONTRADICTED;
use ms_dfa_explore::{SmallMachine, TrackBits};
use ms_logic::Mode;
use ms_logic_words::Sign;

/// The machine of `S = T + n`: its states behind the contradiction are the windows of the last n bits of T.
#[derive(Drop)]
pub(crate) struct UpMachine {
    pub mode: Mode,
    pub size: u32,
    ghost some: { 1 ≤ size },
    ghost small: { size ≤ 1073741824 },
}

impl SmallMachine for UpMachine {
    ghost use Rattle.ms_basic.specs.inner.Windows.{up_table};

    ghost table = { λ machine. up_table machine.mode machine.size };

    fn states(&self) -> u32 {
        self.size + 1
    }

    fn start(&self, bits: TrackBits) -> u32 {
        let _ = bits;
        1
    }

    fn step(&self, state: u32, bits: TrackBits) -> u32 {
        if state == CONTRADICTED {
            return CONTRADICTED;
        }
        let window = 2 * (state - 1) + u32::from(bits.second);
        if bits.first == (window / self.size == 1) {
            window % self.size + 1
        } else {
            CONTRADICTED
        }
    }

    fn sign(&self, state: u32) -> Sign {
        match (state, self.mode) {
            (CONTRADICTED, _) => Sign::No,
            (_, Mode::M2lStr) => Sign::Yes,
            (1, Mode::Ws1s) => Sign::Yes,
            (_, Mode::Ws1s) => Sign::No,
        }
    }
}
