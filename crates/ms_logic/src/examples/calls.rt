ghost use Rattle.ms_logic.specs.Assignment.{assign};
ghost use Rattle.ms_logic.specs.inner.Examples.{naturals, string, x_at, x_on, a_at, var_x, var_y, var_z, truth_a, truth_b, less, both, two_arguments, let_y, let_b, call_number, call_truth, undecided, nothing_given, later_given, restricted_given, identity_given, defaults_given, import_given};
ghost use Rattle.ms_logic.specs.Tree.{numeral, plus, truth, falsity, negation, disjunction, where_let, restrict, imported, exported, default_at, truth_argument, number_argument};
ghost use Rattle.ms_logic.specs.Truth.{Yes, No, IsUndefined};
ghost use Rattle.ms_logic.specs.declared.assignment.Value.TheVariants.{Number};
ghost use Rattle.std.specs.Prelude.{[], ◌∷◌, true, false};

/// `let`, with the outer variable number 0.
pub fn worked_lets()
    // let1 y = 2 in y < 3; let1 y = 2 in y < 1; let1 y = 2 in restrict(false)
    ensures yes { Yes nothing_given (let_y (numeral 2) (less var_y (numeral 3))) naturals }
    ensures no { No nothing_given (let_y (numeral 2) (less var_y (numeral 1))) naturals }
    ensures undefined { IsUndefined nothing_given (let_y (numeral 2) undecided) naturals }

    // let0 b = restrict(a) in b | ~b where a is true, and where it is false
    ensures defined_right_side { Yes nothing_given
        (let_b (restrict truth_a) (disjunction (both truth_b (negation truth_b))))
        (a_at true) }
    ensures undefined_right_side { IsUndefined nothing_given
        (let_b (restrict truth_a) (disjunction (both truth_b (negation truth_b))))
        (a_at false) }

    // let1 y = x + 1 in true at the last of two positions
    ensures no_value { No nothing_given (let_y (plus var_x 1) truth) (x_on 1 2) }

    // a right side without a value beside one that is Undefined
    ensures no_value_beside_undefined { No nothing_given
        (where_let (1 ∷ 2 ∷ []) (two_arguments (truth_argument undecided) (number_argument (numeral 5))) truth) (string 2) }

    // all names are bound at once: let1 x = y, y = x in x < y where x is 3 and y is 1
    ensures bound_at_once { Yes nothing_given
        (where_let (0 ∷ 1 ∷ []) (two_arguments (number_argument var_y) (number_argument var_x)) (less var_x var_y))
        (assign 0 (Number 3) (assign 1 (Number 1) naturals)) }
{}

/// Calls of predicates.
pub fn worked_calls()
    // pred later(var1 x) = ex1 y: x < y; later(z) at the first of two positions and at the only position of one
    ensures yes { Yes later_given (call_number 0 var_x) (x_on 0 2) }
    ensures no { No later_given (call_number 0 var_x) (x_on 0 1) }

    // the argument is the variable that the body binds, and the body does not capture it
    ensures no_capture { Yes later_given (call_number 0 var_z) (assign 2 (Number 0) (string 2)) }

    // an argument without a value
    ensures no_value { No later_given (call_number 0 (plus var_x 1)) (x_on 1 2) }

    // pred small(var1 x where x < 3) = x = 0; small(0), small(1) and small(3)
    ensures restriction_met { Yes restricted_given (call_number 0 (numeral 0)) naturals }
    ensures restriction_met_no { No restricted_given (call_number 0 (numeral 1)) naturals }
    ensures restriction_not_met { IsUndefined restricted_given
        (call_number 0 (numeral 3)) naturals }

    // pred same(var0 a) = a; same(true), same(false) and same(restrict(false))
    ensures true_argument { Yes identity_given (call_truth 0 truth) naturals }
    ensures false_argument { No identity_given (call_truth 0 falsity) naturals }
    ensures undefined_argument { IsUndefined identity_given (call_truth 0 undecided) naturals }

    // pred other(var0 a) = same(~a), after same
    ensures called_in_body { No identity_given (call_truth 1 truth) naturals }
{}

/// Default restrictions, imports and exports.
pub fn worked_defaults()
    // defaultwhere1(p) = p < 3, at 2 and at 3
    ensures met { Yes defaults_given (default_at 0 0) (x_at 2) }
    ensures not_met { No defaults_given (default_at 0 0) (x_at 3) }

    // then defaultwhere1(p) = ex1 y: p < y, whose y takes the first default: p is at most 1
    ensures second_met { Yes defaults_given (default_at 1 0) (x_at 1) }
    ensures second_not_met { No defaults_given (default_at 1 0) (x_at 2) }

    // then defaultwhere1(p) = restrict(p = 0), at 0 and at 1
    ensures third_met { Yes defaults_given (default_at 2 0) (x_at 0) }
    ensures third_undefined { IsUndefined defaults_given (default_at 2 0) (x_at 1) }

    // an import that is Yes at 0, No at 1 and Undefined elsewhere, at the variable x
    ensures import_yes { Yes import_given (imported 0) (x_at 0) }
    ensures import_no { No import_given (imported 0) (x_at 1) }
    ensures import_undefined { IsUndefined import_given (imported 0) (x_at 2) }

    // export("a.dfa", true) and export("a.dfa", false)
    ensures export_yes { Yes nothing_given (exported 0 truth) naturals }
    ensures export_no { No nothing_given (exported 0 falsity) naturals }
    ensures export_undefined { IsUndefined nothing_given (exported 0 undecided) naturals }
{}
