ghost use Rattle.std.specs.Prelude.{◌≡◌, ◌<◌, ◌^◌};
ghost use Rattle.ms_diagram.specs.Hash.{scattered};

/// An odd number whose bits look random: the first bits of the golden ratio.
pub(crate) const FACTOR: u64 = 0x9E37_79B9_7F4A_7C15;

/// A hash of four bytes, for numbers that differ little one that differs much (multiplicative hashing: D. E. Knuth, "The Art of
/// Computer Programming", volume 3, section 6.4).
pub fn scatter(number: u64) -> u64
    ensures value { result ≡ scattered number }
    ensures short { result < 2 ^ 32 }
{
    number.wrapping_mul(FACTOR) >> 32
}
