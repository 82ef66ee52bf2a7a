//! What first bits leave of a reference.

ghost use Rattle.ms_logic_starts.specs.FirstBits.{FirstBitsLeaveReference, ReachedNodesAreLeft};

/// First bits leave a reference of an ordered list, and each node that is reached is left by some.
pub fn laws_of_first_bits()
    ensures reference { FirstBitsLeaveReference }
    ensures reached { ReachedNodesAreLeft }
{}
