ghost use Rattle.ms_logic.specs.Assignment.{assign};
ghost use Rattle.ms_logic.specs.inner.Examples.{naturals, string, x_on, a_at, P_at, var_x, set_P, truth_a, listed, less, at_most, greater, at_least, equal, differs, is_in, not_in, subset, set_equal, both, undecided, nothing_given};
ghost use Rattle.ms_logic.specs.Tree.{numeral, plus, empty_set, truth, falsity, negation, conjunction, disjunction, implication, equivalence, emptiness, restrict, no_forms};
ghost use Rattle.ms_logic.specs.Truth.{Yes, No, IsUndefined};
ghost use Rattle.ms_logic.specs.declared.assignment.Value.TheVariants.{Set};
ghost use Rattle.std.specs.Prelude.{[], ◌∷◌, true, false};

/// Relations between terms.
pub fn worked_atoms()
    // 0 < 1 and 1 < 0; 2 >= 2 and 2 > 2; 2 ~= 3
    ensures less { Yes nothing_given (less (numeral 0) (numeral 1)) naturals }
    ensures not_less { No nothing_given (less (numeral 1) (numeral 0)) naturals }
    ensures at_least { Yes nothing_given (at_least (numeral 2) (numeral 2)) naturals }
    ensures not_greater { No nothing_given (greater (numeral 2) (numeral 2)) naturals }
    ensures differs { Yes nothing_given (differs (numeral 2) (numeral 3)) naturals }

    // on three positions 5 has no value, so that 0 <= 5, 0 ~= 5 and 5 notin {} are all No
    ensures at_most_nothing { No nothing_given (at_most (numeral 0) (numeral 5)) (string 3) }
    ensures differs_from_nothing { No nothing_given (differs (numeral 0) (numeral 5)) (string 3) }
    ensures nothing_not_in { No nothing_given (not_in (numeral 5) empty_set) (string 3) }

    // x + 1 = x + 1 at the first and at the last of two positions
    ensures next_is_next { Yes nothing_given (equal (plus var_x 1) (plus var_x 1)) (x_on 0 2) }
    ensures no_next { No nothing_given (equal (plus var_x 1) (plus var_x 1)) (x_on 1 2) }

    // 1 in {1, 2}, 0 in {1, 2} and 0 notin {1, 2}
    ensures member { Yes nothing_given (is_in (numeral 1) (listed (1 ∷ 2 ∷ []))) naturals }
    ensures no_member { No nothing_given (is_in (numeral 0) (listed (1 ∷ 2 ∷ []))) naturals }
    ensures not_member { Yes nothing_given (not_in (numeral 0) (listed (1 ∷ 2 ∷ []))) naturals }

    // P sub {0, 1} and P = {0, 1} where P is {0}; on one position {0, 1} has no value
    ensures within { Yes nothing_given (subset set_P (listed (0 ∷ 1 ∷ []))) (P_at (0 ∷ [])) }
    ensures not_equal { No nothing_given (set_equal set_P (listed (0 ∷ 1 ∷ []))) (P_at (0 ∷ [])) }
    ensures within_nothing { No nothing_given
        (subset set_P (listed (0 ∷ 1 ∷ []))) (assign 0 (Set (0 ∷ [])) (string 1)) }

    // empty({}) and empty({0})
    ensures empty { Yes nothing_given (emptiness empty_set) naturals }
    ensures not_empty { No nothing_given (emptiness (listed (0 ∷ []))) naturals }
{}

/// Connectives. `undecided` is restrict(false), which is Undefined.
pub fn worked_connectives()
    ensures variable_yes { Yes nothing_given truth_a (a_at true) }
    ensures variable_no { No nothing_given truth_a (a_at false) }

    ensures restrict_yes { Yes nothing_given (restrict truth) naturals }
    ensures restrict_undefined { IsUndefined nothing_given (restrict falsity) naturals }

    ensures negation_yes { Yes nothing_given (negation falsity) naturals }
    ensures negation_no { No nothing_given (negation truth) naturals }
    ensures negation_undefined { IsUndefined nothing_given (negation undecided) naturals }

    ensures and_yes { Yes nothing_given (conjunction (both truth truth)) naturals }
    ensures and_no { No nothing_given (conjunction (both falsity truth)) naturals }
    ensures and_undefined { IsUndefined nothing_given
        (conjunction (both falsity undecided)) naturals }
    ensures and_of_none { Yes nothing_given (conjunction no_forms) naturals }

    ensures or_yes { Yes nothing_given (disjunction (both falsity truth)) naturals }
    ensures or_no { No nothing_given (disjunction (both falsity falsity)) naturals }
    ensures or_undefined { IsUndefined nothing_given (disjunction (both truth undecided)) naturals }
    ensures or_of_none { No nothing_given (disjunction no_forms) naturals }

    ensures implies_yes { Yes nothing_given (implication falsity falsity) naturals }
    ensures implies_no { No nothing_given (implication truth falsity) naturals }
    ensures implies_undefined { IsUndefined nothing_given (implication falsity undecided) naturals }
    ensures implied_undefined { IsUndefined nothing_given (implication undecided truth) naturals }

    ensures iff_yes { Yes nothing_given (equivalence falsity falsity) naturals }
    ensures iff_no { No nothing_given (equivalence falsity truth) naturals }
    ensures iff_undefined { IsUndefined nothing_given (equivalence undecided undecided) naturals }
{}
