//! Laws of the definitions. The function has an empty body, and its contract states its laws.

ghost use Rattle.ms_presburger.specs.inner.Laws.{AllIsDual, DigitsAreUnique, EachNumberHasDigits, TruthIsDecided, TruthIsOfFreeNames};

/// Truth over the natural numbers is decided (Presburger, 1929), hangs on the free names alone, and all is the dual of some; each
/// number is that of one finite set.
pub fn laws_of_numbers()
    ensures decided { TruthIsDecided }
    ensures free_names { TruthIsOfFreeNames }
    ensures all_is_dual { AllIsDual }
    ensures has_digits { EachNumberHasDigits }
    ensures unique_digits { DigitsAreUnique }
{}
