ghost use Rattle.std.specs.Prelude.{◌≡◌, ◌<◌};
ghost use Rattle.ms_dfa_explore.specs.Small.{bit_at, with_bit_at, zero_bits, IsState, lead_by};

use ms_logic_words::Sign;

/// The bits of at most three tracks, by their places; 0 for a track that is not there.
#[derive(Clone, Copy)]
pub struct TrackBits {
    pub first: bool,
    pub second: bool,
    pub third: bool,
}

impl TrackBits {
    /// All bits are 0.
    pub fn zero() -> TrackBits
        ensures { result ≡ zero_bits }
    {
        TrackBits {
            first: false,
            second: false,
            third: false,
        }
    }

    /// The bit of the track at a place, and 0 past the third.
    pub fn at(self, track: u32) -> bool
        ensures { result ≡ bit_at self track }
    {
        match track {
            0 => self.first,
            1 => self.second,
            2 => self.third,
            _ => false,
        }
    }

    /// The same with this bit of the track at a place.
    pub fn with(self, track: u32, bit: bool) -> TrackBits
        ensures { result ≡ with_bit_at self track bit }
    {
        match track {
            0 => TrackBits { first: bit, ..self },
            1 => TrackBits {
                second: bit,
                ..self
            },
            2 => TrackBits { third: bit, ..self },
            _ => self,
        }
    }
}

/// A deterministic machine over the bits of at most three tracks, all of whose states are known by their numbers.
pub trait SmallMachine {
    ghost use Rattle.ms_dfa_explore.specs.Small.{TransitionTable};

    /// Its states, where the truth values of the tracks lead from the start and their bits from a state, and the signs of the
    /// words that end in a state.
    ghost table: { Self → TransitionTable };

    fn states(&self) -> u32
        ensures { result ≡ (table self.now).states };

    fn start(&self, bits: TrackBits) -> u32
        ensures { result ≡ (table self.now).start bits };

    fn step(&self, state: u32, bits: TrackBits) -> u32
        requires { state < (table self.now).states }
        ensures { result ≡ (table self.now).step state bits };

    fn sign(&self, state: u32) -> Sign
        requires { state < (table self.now).states }
        ensures { result ≡ (table self.now).sign state };
}

/// Where a machine leads from the start, or from a state.
pub(crate) fn lead<M: SmallMachine>(machine: &M, origin: Option<u32>, bits: TrackBits) -> u32
    requires { IsState (M.table machine.now).states origin }
    ensures { result ≡ lead_by (M.table machine.now).start (M.table machine.now).step origin bits }
{
    match origin {
        None => machine.start(bits),
        Some(state) => machine.step(state, bits),
    }
}
