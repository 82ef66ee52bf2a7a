ghost use Rattle.std.specs.Prelude.{◌≡◌, ◌<◌};
ghost use Rattle.ms_arena.specs.inner.Code.{code_of, ref_of};

use crate::node::Ref;

// The code of a reference: twice its number for a leaf, and one more for a node.
pub(crate) fn code(reference: Ref) -> u64
    ensures value { result ≡ code_of reference }
    ensures small { result < 8589934592 }
{
    match reference {
        Ref::Leaf(value) => 2 * u64::from(value),
        Ref::Inner(place) => 2 * u64::from(place) + 1,
    }
}

// The reference of a code.
pub(crate) fn reference(code: u64) -> Ref
    requires { code < 8589934592 }
    ensures { result ≡ ref_of code }
{
    let number = (code / 2) as u32;
    if code % 2 == 0 {
        Ref::Leaf(number)
    } else {
        Ref::Inner(number)
    }
}
