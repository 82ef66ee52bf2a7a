//! The definitions at small cases, worked out by hand. Each function has an empty body, and its contract is the table of its
//! examples.

ghost use Rattle.ms_logic.specs.Tree.{emptiness, more_forms, no_forms, pconst, set_comparison, set_variable, shift_up, unrestricted};
ghost use Rattle.ms_logic.specs.Tree as forms;
ghost use Rattle.ms_logic.specs.declared.mode.Order.TheVariants.{Two as SetOrder};
ghost use Rattle.ms_logic.specs.declared.mode.Quant.TheVariants.{Ex as Some_, All as Every};
ghost use Rattle.ms_logic.specs.declared.mode.Rel.TheVariants.{Equal as Same, Differs as Other, Less as Lower, AtMost as NoMore, Greater as Higher, AtLeast as NoLess, Member as Among};
ghost use Rattle.ms_presburger.specs.Digits.{number_of};
ghost use Rattle.ms_presburger.specs.Meaning.{TellsTruth, TellsVerdict, numbers_of};
ghost use Rattle.ms_presburger.specs.Numbers.{Holds, value_of_sum};
ghost use Rattle.ms_presburger.specs.Sets.{set_form, some_set, sum_is, summands_of};
ghost use Rattle.ms_presburger.specs.Source.{place_of};
ghost use Rattle.ms_presburger.specs.Tree.{brackets, comparison, depth, extent, free_names, negation, quantified, reach, size, truth};
ghost use Rattle.ms_presburger.specs.declared.linear.Part.TheVariants.{Number as Num, Var as Name_, Times as Scaled};
ghost use Rattle.ms_presburger.specs.declared.summand.Summand.TheVariants.{Constant as Fixed, Shifted as Moved};
ghost use Rattle.ms_presburger.specs.inner.Examples.{all_even, at, both, either, even_or_odd, is, is_twice, set_at, six_and_ten, some_is, source_with, three_in_order, x, y};
ghost use Rattle.std.specs.Prelude.{◌≡◌, [], ◌∷◌};

/// Formulas at numbers: sums, factors, remainders, relations, and names that are bound more than once.
pub fn worked_truth()
    // x + y = 3 & x < y
    ensures in_order { Holds three_in_order (at 1 2) }
    ensures out_of_order { ¬ Holds three_in_order (at 2 1) }
    ensures too_small { ¬ Holds three_in_order (at 0 2) }

    // all x: ex y: x = 2 y | x = 2 y + 1
    ensures even_or_odd { Holds even_or_odd (at 0 0) }
    ensures not_all_even { ¬ Holds all_even (at 0 0) }

    // ex x: 6 x = 10 y + 4
    ensures four_times_six { Holds six_and_ten (at 0 2) }
    ensures no_sixth_of_four { ¬ Holds six_and_ten (at 0 0) }
    ensures no_sixth_of_fourteen { ¬ Holds six_and_ten (at 0 1) }

    // relations at equal numbers, and one that is none of numbers
    ensures equal { Holds (comparison Same (Name_ x ∷ []) (Name_ y ∷ [])) (at 2 2) }
    ensures not_other { ¬ Holds (comparison Other (Name_ x ∷ []) (Name_ y ∷ [])) (at 2 2) }
    ensures not_lower { ¬ Holds (comparison Lower (Name_ x ∷ []) (Name_ y ∷ [])) (at 2 2) }
    ensures no_more { Holds (comparison NoMore (Name_ x ∷ []) (Name_ y ∷ [])) (at 2 2) }
    ensures not_higher { ¬ Holds (comparison Higher (Name_ x ∷ []) (Name_ y ∷ [])) (at 2 2) }
    ensures no_less { Holds (comparison NoLess (Name_ x ∷ []) (Name_ y ∷ [])) (at 2 2) }
    ensures never_among { ¬ Holds (comparison Among (Name_ x ∷ []) (Name_ y ∷ [])) (at 2 2) }

    // the empty sum, and the factor 0
    ensures empty_sum { value_of_sum [] (at 2 3) ≡ 0 }
    ensures factor_zero { value_of_sum (Scaled 0 x ∷ Num 1 ∷ []) (at 2 3) ≡ 1 }

    // ex x: x = 5, where x is 3 outside
    ensures hides_outer { Holds (some_is 5) (at 3 0) }
    ensures outer_again { Holds (both (some_is 5) (is x 3)) (at 3 0) }
    ensures not_outside { ¬ Holds (both (some_is 5) (is x 5)) (at 3 0) }
    // ex x: x = 3 & (ex x: x = 5)
    ensures inner_and_outer { Holds (quantified Some_ (x ∷ []) (both (is x 3) (some_is 5))) (at 0 0) }
    // ex x, x: x = 5
    ensures named_twice { Holds (quantified Some_ (x ∷ x ∷ []) (is x 5)) (at 0 0) }
    // all y, x: x = 5
    ensures last_binds { ¬ Holds (quantified Every (y ∷ x ∷ []) (is x 5)) (at 5 5) }
{}

/// Free names, how deep formulas are, and how many parts and bound names they have.
pub fn worked_formulas()
    ensures by_first_place { free_names (both (is y 1) three_in_order) ≡ y ∷ x ∷ [] }
    ensures each_once { free_names three_in_order ≡ x ∷ y ∷ [] }
    ensures bound { free_names six_and_ten ≡ y ∷ [] }
    ensures free_behind { free_names (both (some_is 5) (is x 3)) ≡ x ∷ [] }
    ensures not_used { free_names (quantified Some_ (y ∷ []) (is x 3)) ≡ x ∷ [] }
    ensures none_free { free_names even_or_odd ≡ [] }
    ensures comparison { depth is_twice ≡ 2 }
    ensures deeper { depth even_or_odd ≡ 5 }
    // brackets do not count here, and each name of a list does
    ensures reach_of_brackets { reach (brackets (brackets is_twice)) ≡ 0 }
    ensures reach_of_names { reach (quantified Some_ (x ∷ y ∷ []) (negation is_twice)) ≡ 3 }
    ensures size_of_names { size (quantified Some_ (x ∷ y ∷ []) (negation is_twice)) ≡ 3 }
    ensures size_of_brackets { size (brackets three_in_order) ≡ 4 }
    ensures parts { extent three_in_order ≡ 5 }
    ensures parts_and_names { extent even_or_odd ≡ 7 }
{}

/// Sets as numbers, and numbers as summands.
pub fn worked_digits()
    ensures none { number_of [] ≡ 0 }
    ensures five { number_of (0 ∷ 2 ∷ []) ≡ 5 }
    ensures of_assignment { numbers_of (x ∷ []) (set_at (1 ∷ 2 ∷ [])) x ≡ 6 }
    // 0 + 5 + x + 6 x: the bits of 6 are at 1 and 2
    ensures summands { summands_of (place_of (x ∷ [])) (Num 0 ∷ Num 5 ∷ Name_ x ∷ Scaled 6 x ∷ [])
        ≡ Fixed 5 ∷ Moved 0 0 ∷ Moved 0 1 ∷ Moved 0 2 ∷ [] }
    ensures no_bits { summands_of (place_of (x ∷ [])) (Scaled 0 x ∷ []) ≡ [] }
{}

/// Formulas of sets.
pub fn worked_sets()
    // x = 3, at the global 0
    ensures comparison { set_form (is x 3) (place_of (x ∷ [])) 1
        ≡ some_set 1 (set_comparison Same (set_variable 1) (shift_up (set_variable 0) 0))
        (some_set 3 (set_comparison Same (set_variable 3) (pconst 3)) (set_comparison Same (set_variable 1) (set_variable 3))) }
    ensures empty_sum { sum_is 1 [] 4 5 ≡ emptiness (set_variable 4) }
    // ex x, y: true
    ensures two_names { set_form (quantified Some_ (x ∷ y ∷ []) truth) (place_of []) 0
        ≡ forms.quantified Some_ SetOrder 0 unrestricted (forms.quantified Some_ SetOrder 2 unrestricted forms.truth) }
{}

/// Sources that do not tell what x = 0 says.
pub fn worked_sources()
    // true
    ensures too_weak { ¬ TellsTruth (x ∷ []) (is x 0) (source_with (more_forms forms.truth no_forms)) }
    ensures no_counterexample { ¬ TellsVerdict (is x 0) (source_with (more_forms forms.truth no_forms)) }
    // false
    ensures too_strong { ¬ TellsTruth (x ∷ []) (is x 0) (source_with (more_forms forms.falsity no_forms)) }
    // empty(x) tells it
    ensures tells { TellsTruth (x ∷ []) (is x 0) (source_with (more_forms (emptiness (set_variable 0)) no_forms)) }
{}
