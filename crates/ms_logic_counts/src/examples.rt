//! The definitions at small cases, worked out by hand. The function has an empty body, and its contract is the table of its examples.

ghost use Rattle.ms_logic_counts.specs.Counts.{AreCounted, IsFiniteLabelling, IsTransitive};
ghost use Rattle.ms_logic_counts.specs.inner.Examples.{AreEqual, HaveOneRemainder, IsBelow, IsHardlyMore, IsNumber, remainder};
ghost use Rattle.ms_logic_measures.specs.CallMeasures.{IsNumberOf};
ghost use Rattle.std.specs.Prelude.{[], ◌∷◌};

/// Numbers, where alike ones leave one remainder by 2, or are equal.
pub fn worked_counts()
    ensures transitive { IsTransitive HaveOneRemainder }

    // 2 is hardly more than 1, and 1 than 0, but 2 is not hardly more than 0
    ensures not_transitive { ¬ IsTransitive IsHardlyMore }

    // the remainders are 0 and 1
    ensures labelling { IsFiniteLabelling HaveOneRemainder (IsBelow 3) remainder (0 ∷ 1 ∷ []) }

    // 1 has no label in the list
    ensures not_listed { ¬ IsFiniteLabelling HaveOneRemainder (IsBelow 3) remainder (0 ∷ []) }

    // 0 and 2 have one remainder, and are not equal
    ensures not_alike { ¬ IsFiniteLabelling AreEqual (IsBelow 3) remainder (0 ∷ 1 ∷ []) }

    // so there are two numbers, 0 and 1
    ensures two { IsNumberOf HaveOneRemainder (IsBelow 3) 2 }
    ensures not_three { ¬ IsNumberOf HaveOneRemainder (IsBelow 3) 3 }

    // there is no exact count of all numbers
    ensures all_numbers { ¬ AreCounted AreEqual IsNumber }
{}
