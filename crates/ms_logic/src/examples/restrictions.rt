ghost use Rattle.ms_logic.specs.inner.Examples.{naturals, x_on, var_x, call_number, positive_given, default_given, between_given, dependent_given, call_between};
ghost use Rattle.ms_logic.specs.Tree.{numeral, plus};
ghost use Rattle.ms_logic.specs.Truth.{Yes, No, IsUndefined};

/// Calls of predicates whose parameters are restricted, and whose bodies call others.
pub fn worked_restrictions()
    // pred zero(var1 x where x < 3) = x = 0; pred positive(var1 x) = ~zero(x); positive(0), positive(2) and
    // positive(3)
    ensures inner_yes { No positive_given (call_number 1 (numeral 0)) naturals }
    ensures inner_no { Yes positive_given (call_number 1 (numeral 2)) naturals }
    ensures inner_not_met { IsUndefined positive_given (call_number 1 (numeral 3)) naturals }

    // defaultwhere1(p) = p < 3; pred above(var1 x where true) = ex1 y: x < y, whose y takes the default; above(1) and
    // above(2)
    ensures default_yes { Yes default_given (call_number 1 (numeral 1)) naturals }
    ensures default_no { No default_given (call_number 1 (numeral 2)) naturals }

    // pred first(var1 x) = x = 0, whose x takes the default; first(0) and first(3)
    ensures default_met { Yes default_given (call_number 2 (numeral 0)) naturals }
    ensures default_not_met { IsUndefined default_given (call_number 2 (numeral 3)) naturals }

    // pred between(var1 x where x < 3, var1 y where 0 < y) = x < y; both restrictions are met by 0 and 1, and by
    // 2 and 1
    ensures both_met_yes { Yes between_given (call_between (numeral 0) (numeral 1)) naturals }
    ensures both_met_no { No between_given (call_between (numeral 2) (numeral 1)) naturals }

    // the first alone is not met by 3 and 5, the second alone by 1 and 0, and neither by 3 and 0
    ensures first_not_met { IsUndefined between_given (call_between (numeral 3) (numeral 5)) naturals }
    ensures second_not_met { IsUndefined between_given (call_between (numeral 1) (numeral 0)) naturals }
    ensures neither_met { IsUndefined between_given (call_between (numeral 3) (numeral 0)) naturals }

    // an argument without a value beside one that does not meet its restriction: between(3, x + 1) at the last of
    // five positions
    ensures no_value { No between_given (call_between (numeral 3) (plus var_x 1)) (x_on 4 5) }

    // pred between(var1 x where x < 3, var1 y where x < y) = y < 5; the second restriction reads the first parameter
    ensures dependent_yes { Yes dependent_given (call_between (numeral 1) (numeral 2)) naturals }
    ensures dependent_no { No dependent_given (call_between (numeral 1) (numeral 7)) naturals }
    ensures dependent_not_met { IsUndefined dependent_given (call_between (numeral 2) (numeral 1)) naturals }
{}
