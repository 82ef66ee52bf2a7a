ghost use Rattle.ms_logic.specs.Assignment.{assign};
ghost use Rattle.ms_logic.specs.inner.Examples.{naturals, string, x_on, var_x, set_P, listed};
ghost use Rattle.ms_logic.specs.Terms.{number_value, set_value};
ghost use Rattle.ms_logic.specs.Tree.{numeral, plus, minus, minimum, maximum, empty_set, whole, pconst, union, intersection, difference, shift_up, shift_down};
ghost use Rattle.ms_logic.specs.declared.assignment.Value.TheVariants.{Set};
ghost use Rattle.std.specs.Prelude.{◌≡◌, [], ◌∷◌, Some, None};

/// Values of terms.
pub fn worked_terms()
    // 2 + 3, 5 - 2 and 2 - 5
    ensures sum { number_value (plus (numeral 2) 3) naturals ≡ Some 5 }
    ensures distance { number_value (minus (numeral 5) 2) naturals ≡ Some 3 }
    ensures stops_at_zero { number_value (minus (numeral 2) 5) naturals ≡ Some 0 }

    // min {3, 1}, max {3, 1}, min {} and max {}
    ensures least { number_value (minimum (listed (3 ∷ 1 ∷ []))) naturals ≡ Some 1 }
    ensures greatest { number_value (maximum (listed (3 ∷ 1 ∷ []))) naturals ≡ Some 3 }
    ensures least_of_empty { number_value (minimum empty_set) naturals ≡ Some 0 }
    ensures greatest_of_empty { number_value (maximum empty_set) naturals ≡ Some 0 }

    // {4, 0, 4}
    ensures set_literal { set_value (listed (4 ∷ 0 ∷ 4 ∷ [])) naturals ≡ Some (0 ∷ 4 ∷ []) }

    // {0, 4} union {1, 2}, {0, 4} inter {4, 5} and {0, 4} \ {4, 5}
    ensures union_of_sets { set_value (union (listed (0 ∷ 4 ∷ [])) (listed (1 ∷ 2 ∷ []))) naturals
        ≡ Some (0 ∷ 1 ∷ 2 ∷ 4 ∷ []) }
    ensures intersection_of_sets { set_value (intersection (listed (0 ∷ 4 ∷ [])) (listed (4 ∷ 5 ∷ []))) naturals
        ≡ Some (4 ∷ []) }
    ensures difference_of_sets { set_value (difference (listed (0 ∷ 4 ∷ [])) (listed (4 ∷ 5 ∷ []))) naturals
        ≡ Some (0 ∷ []) }

    // {0, 2} + 3 and {0, 2, 5} - 2
    ensures moved_up { set_value (shift_up (listed (0 ∷ 2 ∷ [])) 3) naturals ≡ Some (3 ∷ 5 ∷ []) }
    ensures moved_down { set_value (shift_down (listed (0 ∷ 2 ∷ 5 ∷ [])) 2) naturals
        ≡ Some (0 ∷ 3 ∷ []) }

    // pconst(0), pconst(6) and pconst(9)
    ensures no_bits { set_value (pconst 0) naturals ≡ Some [] }
    ensures bits_of_six { set_value (pconst 6) naturals ≡ Some (1 ∷ 2 ∷ []) }
    ensures bits_of_nine { set_value (pconst 9) naturals ≡ Some (0 ∷ 3 ∷ []) }
{}

/// Values of terms on strings, where a number past the last position is none.
pub fn worked_terms_on_strings()
    // x + 1 at the first and at the last of two positions, and x + 1 - 1 at the last
    ensures next_position { number_value (plus var_x 1) (x_on 0 2) ≡ Some 1 }
    ensures past_the_end { number_value (plus var_x 1) (x_on 1 2) ≡ None }
    ensures past_the_end_and_back { number_value (minus (plus var_x 1) 1) (x_on 1 2) ≡ None }

    // 0 and min {} on the empty string
    ensures no_first_position { number_value (numeral 0) (string 0) ≡ None }
    ensures no_least_position { number_value (minimum empty_set) (string 0) ≡ None }

    // {0, 5} on three positions, and min {0, 5}
    ensures literal_past_the_end { set_value (listed (0 ∷ 5 ∷ [])) (string 3) ≡ None }
    ensures least_of_no_set { number_value (minimum (listed (0 ∷ 5 ∷ []))) (string 3) ≡ None }

    // P + 1 and pconst(6) on two positions
    ensures shift_cut_off { set_value (shift_up set_P 1) (assign 0 (Set (0 ∷ 1 ∷ [])) (string 2))
        ≡ Some (1 ∷ []) }
    ensures bits_cut_off { set_value (pconst 6) (string 2) ≡ Some (1 ∷ []) }

    // $ on three positions and on none
    ensures all_of_three { set_value whole (string 3) ≡ Some (0 ∷ 1 ∷ 2 ∷ []) }
    ensures all_of_none { set_value whole (string 0) ≡ Some [] }
{}
