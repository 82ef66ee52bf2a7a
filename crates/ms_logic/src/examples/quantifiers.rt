ghost use Rattle.ms_logic.specs.inner.Examples.{naturals, string, var_x, var_y, set_P, truth_a, less, at_most, equal, is_in, ex0, ex1, ex2, all0, all1, ex1_where, all1_where, ex1_y, both, undecided, nothing_given};
ghost use Rattle.ms_logic.specs.Tree.{numeral, truth, falsity, conjunction, restrict};
ghost use Rattle.ms_logic.specs.Truth.{Yes, No, IsUndefined};

/// `ex`, with the variable number 0.
pub fn worked_exists()
    // ex1 x: x < 1; ex1 x: x < 0
    ensures yes { Yes nothing_given (ex1 (less var_x (numeral 1))) naturals }
    ensures no { No nothing_given (ex1 (less var_x (numeral 0))) naturals }

    // all values of the range give Undefined
    ensures undefined { IsUndefined nothing_given (ex1 undecided) naturals }

    // ex2 X: restrict(0 in X) & 1 in X, Yes at {0, 1} and Undefined at {1}
    ensures yes_beside_undefined { Yes nothing_given
        (ex2 (conjunction (both (restrict (is_in (numeral 0) set_P)) (is_in (numeral 1) set_P))))
        naturals }

    // ex1 x: restrict(x = 0) & x = 1, No at 0 and Undefined elsewhere
    ensures no_beside_undefined { No nothing_given
        (ex1 (conjunction (both (restrict (equal var_x (numeral 0))) (equal var_x (numeral 1)))))
        naturals }

    // ex1 x where x = 2: x < 3; ex1 x where x = 2: x < 1; ex1 x where x = 2: restrict(false)
    ensures restricted_yes { Yes nothing_given
        (ex1_where (equal var_x (numeral 2)) (less var_x (numeral 3))) naturals }
    ensures restricted_no { No nothing_given
        (ex1_where (equal var_x (numeral 2)) (less var_x (numeral 1))) naturals }
    ensures restricted_undefined { IsUndefined nothing_given
        (ex1_where (equal var_x (numeral 2)) undecided) naturals }

    // the range is empty: ex1 x where false: restrict(false), where the restriction is Undefined, and ex1 x: true
    // on the empty string
    ensures empty_range { No nothing_given (ex1_where falsity undecided) naturals }
    ensures undefined_range { No nothing_given (ex1_where undecided truth) naturals }
    ensures empty_string { No nothing_given (ex1 truth) (string 0) }
    ensures one_position { Yes nothing_given (ex1 truth) (string 1) }

    // ex0 a: a; ex2 X: true on the empty string
    ensures truth_value { Yes nothing_given (ex0 truth_a) naturals }
    ensures empty_set { Yes nothing_given (ex2 truth) (string 0) }
{}

/// `all`, with the variable number 0.
pub fn worked_all()
    // all1 x: 0 <= x; all1 x: x < 5
    ensures yes { Yes nothing_given (all1 (at_most (numeral 0) var_x)) naturals }
    ensures no { No nothing_given (all1 (less var_x (numeral 5))) naturals }

    // all values of the range give Undefined
    ensures undefined { IsUndefined nothing_given (all1 undecided) naturals }

    // all1 x: restrict(x = 0), Yes at 0 and Undefined elsewhere
    ensures yes_beside_undefined { Yes nothing_given
        (all1 (restrict (equal var_x (numeral 0)))) naturals }

    // all1 x where x < 3: x < 3; all1 x where x < 3: x < 2; all1 x where x < 3: restrict(false)
    ensures restricted_yes { Yes nothing_given
        (all1_where (less var_x (numeral 3)) (less var_x (numeral 3))) naturals }
    ensures restricted_no { No nothing_given
        (all1_where (less var_x (numeral 3)) (less var_x (numeral 2))) naturals }
    ensures restricted_undefined { IsUndefined nothing_given
        (all1_where (less var_x (numeral 3)) undecided) naturals }

    // the range is empty: all1 x where false: false, and all1 x: false on the empty string
    ensures empty_range { Yes nothing_given (all1_where falsity falsity) naturals }
    ensures empty_string { Yes nothing_given (all1 falsity) (string 0) }
    ensures one_position { No nothing_given (all1 falsity) (string 1) }

    // all0 a: a; all1 x: ex1 y: x < y on one position
    ensures truth_value { No nothing_given (all0 truth_a) naturals }
    ensures no_last_successor { No nothing_given (all1 (ex1_y (less var_x var_y))) (string 1) }

    // the same in WS1S
    ensures successor { Yes nothing_given (all1 (ex1_y (less var_x var_y))) naturals }
{}
