ghost use Rattle.std.specs.Prelude.{◌≡◌, ◌≤◌};
ghost use Rattle.ms_basic.specs.Bits.{digits_of};
ghost use Rattle.ms_basic.specs.inner.Relation.{IsMadeUnder};

use crate::made::made;
use crate::setting::Setting;
use crate::verdict::CONTRADICTED;
use ms_dfa::Automaton;
use ms_dfa_explore::{SmallMachine, TrackBits};
use ms_list::StepFault;
use ms_logic::Mode;
use ms_logic_core::Basic;
use ms_logic_words::Sign;
use std::alloc::Global;

/// No position has been read; the states behind this one tell how many digits have.
const START: u32 = 1;

/// How many binary digits a number has.
fn digits(number: u64) -> u32
    ensures digits { result ≡ digits_of number }
    ensures few { result ≤ 64 }
{
    let mut digits = 0;
    while digits < 64 && number >> digits != 0 {
        digits += 1;
    }
    digits
}

/// The machine of `S = pconst(n)`.
#[derive(Drop)]
pub(crate) struct BitsMachine {
    mode: Mode,
    number: u64,
    digits: u32,
    ghost few: { digits ≤ 64 },
}

impl BitsMachine {
    /// The machine of the empty set.
    pub(crate) fn none(mode: Mode) -> BitsMachine
        ensures mode { result.mode ≡ mode }
        ensures number { result.number ≡ 0 }
        ensures digits { result.digits ≡ 0 }
    {
        BitsMachine {
            mode,
            number: 0,
            digits: 0,
        }
    }
}

impl SmallMachine for BitsMachine {
    ghost use Rattle.ms_basic.specs.Bits.{bits_table};

    ghost table = { λ machine. bits_table machine.mode machine.number machine.digits };

    fn states(&self) -> u32 {
        self.digits + 2
    }

    fn start(&self, bits: TrackBits) -> u32 {
        let _ = bits;
        START
    }

    fn step(&self, state: u32, bits: TrackBits) -> u32 {
        if state == CONTRADICTED {
            return CONTRADICTED;
        }
        let place = state - START;
        let is_one = place < 64 && (self.number >> place) % 2 == 1;
        if bits.first != is_one {
            CONTRADICTED
        } else if place == self.digits {
            state
        } else {
            state + 1
        }
    }

    fn sign(&self, state: u32) -> Sign {
        if state == CONTRADICTED {
            return Sign::No;
        }
        match self.mode {
            Mode::M2lStr => Sign::Yes,
            Mode::Ws1s => {
                if state - START == self.digits {
                    Sign::Yes
                } else {
                    Sign::No
                }
            }
        }
    }
}

/// The automaton of `S = pconst(n)`.
pub(crate) fn bits(alloc: Global, s: u32, n: u64, setting: Setting) -> Result<Automaton, StepFault>
    ensures { IsMadeUnder setting (Basic.Bits s n) result }
{
    let machine = BitsMachine {
        mode: setting.mode,
        number: n,
        digits: digits(n),
    };
    made(alloc, machine, Basic::Bits(s, n), 1, setting)
}
