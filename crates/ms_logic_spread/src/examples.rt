//! Worked examples of the law. The functions have empty bodies, and their contracts state the examples.

ghost use Rattle.ms_logic.specs.Assignment.{assign};
ghost use Rattle.ms_logic_core.specs.CoreForm.{CoreNo, CoreYes, basic};
ghost use Rattle.ms_logic.specs.inner.Examples.{a_at, call_truth, identity_given, naturals, nothing_given, string, truth_a, undecided, variable, x_at};
ghost use Rattle.ms_logic_core.specs.Spread.{own_names, spread};
ghost use Rattle.ms_logic_core.specs.inner.SpreadExamples.{export_source};
ghost use Rattle.ms_logic.specs.Tree.{number_argument, numeral, restrict, truth_argument};
ghost use Rattle.ms_logic.specs.Truth.{No, Yes};
ghost use Rattle.ms_logic.specs.declared.assignment.Value.TheVariants.{Number};
ghost use Rattle.ms_logic_core.specs.declared.core_formula.Basic.TheVariants.{Less};
ghost use Rattle.ms_logic.specs.declared.mode.Order.TheVariants.{One};
ghost use Rattle.ms_names_rules.specs.Numbers.{IsNumbered};
ghost use Rattle.ms_logic_spread.specs.inner.Examples.{another, below_given, below_tables, both_given, bound_below, call_both, moved_names, swap, x_and_y_at};
ghost use Rattle.ms_logic_spread.specs.RootLaws.{RootNo, RootYes};
ghost use Rattle.ms_logic_spread.specs.inner.SameRootLaws.{with_values_of};
ghost use Rattle.std.specs.Prelude.{[], false, true, ◌∷◌, ◌≡◌};

/// A `let` that swaps two names: let1 x = y, y = x in x < y.
pub fn worked_lets()
    // at 3 and 1, and at 1 and 3
    ensures yes { Yes nothing_given swap (x_and_y_at 3 1) }
    ensures core_yes { CoreYes [] (spread nothing_given swap own_names 2) (x_and_y_at 3 1) }
    ensures no { No nothing_given swap (x_and_y_at 1 3) }
    ensures core_no { CoreNo [] (spread nothing_given swap own_names 2) (x_and_y_at 1 3) }
{}

/// Names, and numbers that are free.
pub fn worked_names()
    // the swap, where x is named 7 and y is named 8
    ensures moved { spread nothing_given swap (moved_names 7) 9 ≡ basic (Less 8 7) }

    // ex1 y: y ~= x, where from 1 on all numbers are free, and where the number of x is free, too
    ensures yes { Yes nothing_given another naturals }
    ensures core_yes { CoreYes [] (spread nothing_given another own_names 1) naturals }
    ensures captured { ¬ CoreYes [] (spread nothing_given another own_names 0) naturals }
{}

/// Calls.
pub fn worked_calls()
    // pred same(var0 a) = a; same(restrict(b)) where b is true, and where it is false
    ensures defined { CoreYes [] (spread identity_given (call_truth 0 (restrict truth_a)) own_names 1) (a_at true) }
    ensures undefined { ¬ CoreYes [] (spread identity_given (call_truth 0 (restrict truth_a)) own_names 1) (a_at false) }
    ensures undefined_too { ¬ CoreNo [] (spread identity_given (call_truth 0 (restrict truth_a)) own_names 1) (a_at false) }

    // pred both(var0 a, var1 y) = a => 0 < y; an argument without a value beside one that is Undefined, on a string of length 2
    ensures lacking { No both_given (call_both (truth_argument undecided) (number_argument (numeral 5))) (string 2) }
    ensures core_lacking { CoreNo [] (spread both_given (call_both (truth_argument undecided) (number_argument (numeral 5))) own_names 0) (string 2) }

    // var1 x; pred below(var1 y) = y < x; ex1 x where x = 1: below(x), where the global x is 3
    ensures numbered { IsNumbered below_tables 1 (variable 0 One ∷ []) (bound_below 2) }
    ensures hidden { Yes below_given (bound_below 2) (x_at 3) }
    ensures core_hidden { CoreYes [] (spread below_given (bound_below 2) own_names 1) (x_at 3) }

    // a bound variable with the number of the global is not numbered, since the predicate would read it
    ensures not_numbered { ¬ IsNumbered below_tables 1 (variable 0 One ∷ []) (bound_below 0) }
    ensures read { No below_given (bound_below 0) (x_at 3) }
{}

/// Roots, of var1 x; ex1 y: export(.., y < x).
pub fn worked_roots()
    // the main value where x is 3, and where it is 0
    ensures main_yes { RootYes export_source 0 (x_and_y_at 3 0) }
    ensures main_no { RootNo export_source 0 (x_and_y_at 0 5) }

    // the export, where x and y are 3 and 1, and where they are 1 and 1
    ensures export_yes { RootYes export_source 1 (x_and_y_at 3 1) }
    ensures export_no { RootNo export_source 1 (x_and_y_at 1 1) }

    // there is no second export
    ensures no_root { ¬ RootYes export_source 2 (x_and_y_at 3 1) }

    // the variables of another root, named 0 and 9, at 3 and 1
    ensures moved { with_values_of (variable 0 One ∷ variable 9 One ∷ []) (variable 0 One ∷ variable 1 One ∷ [])
        (assign 9 (Number 1) (x_at 3)) ≡ assign 0 (Number 3) (assign 1 (Number 1) (assign 9 (Number 1) (x_at 3))) }
{}
