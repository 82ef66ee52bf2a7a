ghost use Rattle.std.specs.Prelude.{◌≡◌, ◌≤◌, MatchOption};
ghost use Rattle.ms_arena.specs.inner.Code.{code_of, ref_of};
ghost use Rattle.ms_diagram.specs.inner.Short.{IsShort};

use ms_arena::Ref;

/// The numbers of references whose codes have four bytes, and are none of the two greatest, are below this one.
const SHORT: u32 = 0x7FFF_FFFF;

// The code of a reference, if it has four bytes: twice its number for a leaf, and one more for a node.
pub(crate) fn short(reference: Ref) -> Option<u32>
    ensures { MatchOption result (4294967294 ≤ code_of reference) (λ code. (code ≡ code_of reference) × IsShort code) }
{
    let (number, is_node) = match reference {
        Ref::Leaf(value) => (value, 0),
        Ref::Inner(place) => (place, 1),
    };
    if number < SHORT {
        Some(2 * number + is_node)
    } else {
        None
    }
}

// The reference of a code.
pub(crate) fn reference(code: u32) -> Ref
    ensures { result ≡ ref_of code }
{
    let number = code / 2;
    if code % 2 == 0 {
        Ref::Leaf(number)
    } else {
        Ref::Inner(number)
    }
}
