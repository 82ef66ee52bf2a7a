ghost use Rattle.ms_logic.specs.inner.Examples.{var_x, var_y, set_P, set_Q, truth_a, less, equal, is_in, all1, ex1, ex1_where, ex1_y, one_form, one_argument, two_arguments, let_b, call_number, restricted_given, defaults_given, nothing_given, number_global, set_global, problem};
ghost use Rattle.ms_logic_core.specs.Size.{Extent, extent_of, size_of_source, depth_of_source};
ghost use Rattle.ms_logic_core.specs.inner.SpreadExamples.{number_and_set, subset_source, two_forms};
ghost use Rattle.ms_logic.specs.Tree.{numeral, plus, minimum, union, literal, no_terms, more_terms, pconst, truth, negation, conjunction, restrict, imported, exported, default_at, emptiness, call, no_arguments, unrestricted, restricted, no_forms, more_forms};
ghost use Rattle.ms_logic.specs.declared.mode.Mode.TheVariants.{Ws1s};
ghost use Rattle.std.specs.Prelude.{◌≡◌, [], ◌∷◌};

/// Sizes and depths of formulas.
pub fn worked_extents()
    // true, and x < y + 1
    ensures alone { extent_of nothing_given truth ≡ record { size = 1; depth = 1 } }
    ensures atom { extent_of nothing_given (less var_x (plus var_y 1)) ≡ record { size = 4; depth = 3 } }

    // empty(P union {x, 0}) and min pconst(6) = 2
    ensures literal { extent_of nothing_given
        (emptiness (union set_P (literal (more_terms var_x (more_terms (numeral 0) no_terms)))))
        ≡ record { size = 6; depth = 4 } }
    ensures minimum { extent_of nothing_given (equal (minimum (pconst 6)) (numeral 2))
        ≡ record { size = 4; depth = 3 } }

    // a & ~a & a, where a list of operands is one node
    ensures list { extent_of nothing_given (conjunction (more_forms truth_a (two_forms (negation truth_a) truth_a)))
        ≡ record { size = 5; depth = 3 } }

    // ex1 x where restrict(x < 3): true; and export(.., import(..))
    ensures restriction { extent_of nothing_given (ex1_where (restrict (less var_x (numeral 3))) truth)
        ≡ record { size = 6; depth = 4 } }
    ensures export { extent_of nothing_given (exported 0 (imported 0)) ≡ record { size = 2; depth = 2 } }

    // let0 b = ~a in a
    ensures let_part { extent_of nothing_given (let_b (negation truth_a) truth_a)
        ≡ record { size = 4; depth = 3 } }

    // pred small(var1 x where x < 3) = x = 0; small(y + 1)
    ensures call { extent_of restricted_given (call_number 0 (plus var_y 1)) ≡ record { size = 9; depth = 3 } }

    // defaultwhere1(p) = p < 3; ex1 x: true
    ensures default { extent_of defaults_given (ex1_where (default_at 0 0) truth)
        ≡ record { size = 5; depth = 3 } }

    // then defaultwhere1(p) = ex1 y: p < y; ex1 x: true, where y takes the first default
    ensures second_default { extent_of defaults_given (ex1_where (default_at 1 0) truth)
        ≡ record { size = 9; depth = 4 } }
{}

/// Sizes and depths of sources.
pub fn worked_sizes()
    // the empty source, and var2 P, Q; without formulas
    ensures empty_size { size_of_source (problem Ws1s [] no_forms) ≡ 1 }
    ensures empty_depth { depth_of_source (problem Ws1s [] no_forms) ≡ 1 }
    ensures variables_size { size_of_source (problem Ws1s (set_global 0 unrestricted ∷ set_global 1 unrestricted ∷ []) no_forms) ≡ 3 }
    ensures variables_depth { depth_of_source (problem Ws1s (set_global 0 unrestricted ∷ set_global 1 unrestricted ∷ []) no_forms) ≡ 1 }

    // var2 P, Q; P sub Q
    ensures subset_size { size_of_source subset_source ≡ 6 }
    ensures subset_depth { depth_of_source subset_source ≡ 3 }

    // var1 x where x = 0; var2 P; x in P; empty(P)
    ensures restricted_size { size_of_source number_and_set ≡ 11 }
    ensures restricted_depth { depth_of_source number_and_set ≡ 3 }

    // var1 x; restrict(x = 0)
    ensures restrict_size { size_of_source
        (problem Ws1s (number_global 0 unrestricted ∷ []) (one_form (restrict (equal var_x (numeral 0)))))
        ≡ 6 }
    ensures restrict_depth { depth_of_source
        (problem Ws1s (number_global 0 unrestricted ∷ []) (one_form (restrict (equal var_x (numeral 0)))))
        ≡ 4 }

    // all1 x: ex1 y: x < y
    ensures nest_size { size_of_source (problem Ws1s [] (one_form (all1 (ex1_y (less var_x var_y))))) ≡ 6 }
    ensures nest_depth { depth_of_source (problem Ws1s [] (one_form (all1 (ex1_y (less var_x var_y))))) ≡ 5 }
{}
