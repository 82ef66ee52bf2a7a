ghost use Rattle.std.specs.Prelude.{◌≡◌, ◌≤◌, length};
ghost use Rattle.ms_dfa.specs.Automaton.{variables_of};
ghost use Rattle.ms_basic.specs.inner.Reading.{read_at, track_at, wiring_of};

use ms_dfa::Track;
use ms_dfa_explore::{SmallMachine, TrackBits, place_of};
use ms_logic_words::Sign;

/// The tracks of three operands.
#[derive(Clone, Copy)]
pub struct Wiring {
    pub first: u32,
    pub second: u32,
    pub third: u32,
}

impl Wiring {
    /// The bits of the operands.
    pub(crate) fn read(self, bits: TrackBits) -> TrackBits
        ensures { result ≡ read_at self bits }
    {
        TrackBits {
            first: bits.at(self.first),
            second: bits.at(self.second),
            third: bits.at(self.third),
        }
    }
}

/// The track of an operand, and past the third where there is no such operand.
fn track_at(operands: &[Track], tracks: &[Track], operand: usize) -> u32
    requires { length tracks.now ≤ 3 }
    ensures { result ≡ track_at (variables_of operands.now) (variables_of tracks.now) operand }
{
    if operand < operands.len() {
        place_of(tracks, operands[operand].variable) as u32
    } else {
        3
    }
}

/// The tracks of the operands.
pub(crate) fn wiring_of(operands: &[Track], tracks: &[Track]) -> Wiring
    requires { length tracks.now ≤ 3 }
    ensures { result ≡ wiring_of (variables_of operands.now) (variables_of tracks.now) }
{
    Wiring {
        first: track_at(operands, tracks, 0),
        second: track_at(operands, tracks, 1),
        third: track_at(operands, tracks, 2),
    }
}

/// A machine over the bits of operands, as one over those of the tracks.
#[derive(Drop)]
pub(crate) struct Wired<M: SmallMachine + Drop> {
    pub machine: M,
    pub wiring: Wiring,
}

impl<M: SmallMachine + Drop> SmallMachine for Wired<M> {
    ghost use Rattle.ms_basic.specs.inner.Reading.{wired};

    ghost table = { λ whole. wired whole.wiring (M.table whole.machine) };

    fn states(&self) -> u32 {
        self.machine.states()
    }

    fn start(&self, bits: TrackBits) -> u32 {
        let bits = self.wiring.read(bits);
        self.machine.start(bits)
    }

    fn step(&self, state: u32, bits: TrackBits) -> u32 {
        let bits = self.wiring.read(bits);
        self.machine.step(state, bits)
    }

    fn sign(&self, state: u32) -> Sign {
        self.machine.sign(state)
    }
}
