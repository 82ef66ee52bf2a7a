ghost use Rattle.std.specs.Prelude.{◌≡◌, ◌≤◌, ◌^◌};

/// How many windows of so many bits there are.
pub(crate) fn size(bits: u64) -> u32
    requires { bits ≤ 30 }
    ensures { result ≡ 2 ^ bits }
{
    1 << (bits as u32)
}
