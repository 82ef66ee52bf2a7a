//! The definitions at small cases, worked out by hand. Each function has an empty body, and its contract is the table of its
//! examples.

ghost use Rattle.ms_arena.specs.declared.node.Ref.TheVariants.{Inner, Leaf};
ghost use Rattle.ms_logic_starts.specs.AtLeast.{IsAtLeastNumber};
ghost use Rattle.ms_logic_starts.specs.FirstBits.{BitsLeave};
ghost use Rattle.ms_logic_starts.specs.NeededApart.{AreLedTo, LeaveOneFunction, Leaves};
ghost use Rattle.ms_logic_starts.specs.inner.Examples.{HaveOneRemainder, IsBelow, leaves_of, two_nodes};
ghost use Rattle.std.specs.Prelude.{◌≡◌, ◌⊎◌, false, true};

/// Numbers, where alike ones leave one remainder by 2.
pub fn worked_counts()
    // 0 and 1 are not alike
    ensures two { IsAtLeastNumber HaveOneRemainder (IsBelow 3) 2 }

    // of 0, 1 and 2 the first and the last are
    ensures no_three { ¬ IsAtLeastNumber HaveOneRemainder (IsBelow 3) 3 }

    // so 0 and 2 are no two items
    ensures no_two { ¬ IsAtLeastNumber HaveOneRemainder (λ item. (item ≡ 0) ⊎ (item ≡ 2)) 2 }
{}

/// What the first of two bits leaves of the diagram of an or, and the four starts that it needs: none, the bit 0, and each value in the
/// end.
pub fn worked_needs()
    ensures after_zero { BitsLeave two_nodes (Inner 1) 1 (λ place. false) (Inner 0) }
    ensures after_one { BitsLeave two_nodes (Inner 1) 1 (λ place. true) (Leaf 1) }
    ensures led { AreLedTo (IsBelow 4) (Leaves leaves_of two_nodes) two_nodes 0 2 2 }
    ensures apart { IsAtLeastNumber (LeaveOneFunction leaves_of) (IsBelow 4) 4 }
    ensures behind_one { AreLedTo (IsBelow 4) (Leaves leaves_of two_nodes) two_nodes 1 1 0 }
{}
